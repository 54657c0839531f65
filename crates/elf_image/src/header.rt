//! The ELF header.

ghost use Rattle.std.specs.Prelude.{◌≡◌, ◌+◌, ◌≤◌, ◌<◌, ◌^◌, length};
ghost use Rattle.elf_image.specs.Headers.{number_at_offset, header_of, checked_header};

use crate::fault::ElfFault;
use crate::program_header::ENTRY_BYTES;

/// The bytes of the ELF header.
const HEADER_BYTES: usize = 64;

/// What `class`, `encoding`, `kind` and `machine` have for an executable of 64 bits, little-endian,
/// for RISC-V.
const CLASS_64: u8 = 2;

const LITTLE_ENDIAN: u8 = 1;

const EXECUTABLE: u16 = 2;

const RISCV: u16 = 243;

/// What `phnum` has where the number of program headers stands elsewhere.
const MANY_HEADERS: u16 = 0xffff;

/// The fields of the ELF header that count.
#[derive(Clone, Copy)]
pub struct ElfHeader {
    pub class: u8,
    pub encoding: u8,
    pub kind: u16,
    pub machine: u16,
    pub entry: u64,
    pub phoff: u64,
    pub phentsize: u16,
    pub phnum: u16,
}

impl ElfHeader {
    ghost use Rattle.std.specs.Prelude.{◌≡◌};
    ghost use Rattle.elf_image.specs.Headers.{is_riscv_executable, has_bad_table, has_cut_table};

    /// Whether the file is an executable of 64 bits, little-endian, for RISC-V.
    fn is_riscv_executable(&self) -> bool
        ensures { result ≡ is_riscv_executable self.now }
    {
        self.class == CLASS_64
            && self.encoding == LITTLE_ENDIAN
            && self.kind == EXECUTABLE
            && self.machine == RISCV
    }

    /// Whether the program headers have another size than theirs, or their number stands elsewhere.
    fn has_bad_table(&self) -> bool
        ensures { result ≡ has_bad_table self.now }
    {
        self.phnum != 0 && u64::from(self.phentsize) != ENTRY_BYTES || self.phnum == MANY_HEADERS
    }

    /// Whether the program header table runs past the end of a file of `len` bytes.
    fn has_cut_table(&self, len: u64) -> bool
        ensures { result ≡ has_cut_table len self.now }
    {
        let size = ENTRY_BYTES * u64::from(self.phnum);
        size != 0 && (len < size || len - size < self.phoff)
    }
}

/// The number that `len` bytes from an offset on are, little-endian.
pub fn number_at_offset(file: &[u8], at: usize, len: u8) -> u64
    requires at_most_8 { len ≤ 8 }
    requires inside { at + len ≤ length file.now }
    ensures value { result ≡ number_at_offset file.now at len }
    ensures fits { result < 256 ^ len }
{
    let mut number = 0;
    let mut k = usize::from(len);
    while k > 0 {
        k -= 1;
        number = number * 256 + u64::from(file[at + k]);
    }
    number
}

/// The fields of a file's first bytes.
fn header_of(file: &[u8]) -> ElfHeader
    requires { 64 ≤ length file.now }
    ensures { result ≡ header_of file.now }
{
    ElfHeader {
        class: number_at_offset(file, 4, 1) as u8,
        encoding: number_at_offset(file, 5, 1) as u8,
        kind: number_at_offset(file, 16, 2) as u16,
        machine: number_at_offset(file, 18, 2) as u16,
        entry: number_at_offset(file, 24, 8),
        phoff: number_at_offset(file, 32, 8),
        phentsize: number_at_offset(file, 54, 2) as u16,
        phnum: number_at_offset(file, 56, 2) as u16,
    }
}

/// The ELF header, or its first fault.
#[tactic(auto, unfolding(crate::specs::Headers::checked_header))]
pub fn read_header(file: &[u8]) -> Result<ElfHeader, ElfFault>
    ensures { result ≡ checked_header file.now }
{
    if file.len() < HEADER_BYTES {
        return Err(ElfFault::CutShort);
    }
    let header = header_of(file);
    if !header.is_riscv_executable() {
        return Err(ElfFault::WrongKind);
    }
    if header.has_bad_table() {
        return Err(ElfFault::BadTable);
    }
    if header.has_cut_table(file.len() as u64) {
        return Err(ElfFault::CutShort);
    }
    if header.entry % 2 == 1 {
        return Err(ElfFault::BadEntry);
    }
    Ok(header)
}
