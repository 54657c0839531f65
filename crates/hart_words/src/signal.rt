//! The signals of a trace: the columns that a row may show, after riscv-formal's description of
//! RVFI.

ghost use Rattle.std.specs.Prelude.{◌≡◌, ◌≤◌, ◌<◌, ◌++◌, length, ℕ, List, MatchOption, false, option_copied, slice_get};
ghost use Rattle.std.specs.Str.{bytes_eq};
ghost use Rattle.hart_words.specs.Signals.{csr_index_of, signal_entry_of, index_of, plain_index_of, side_index_of, width_of};
ghost use Rattle.hart_words.specs.SignalNames.{csr_name_of, name_of, prefix_of, side_name_of, stem_of, suffix_of};

/// A column of a trace. All are RVFI's but `MemPaddr` and `Hart`, which are this judge's own.
#[derive(Clone, Copy, Debug, PartialEq, Eq)]
pub enum Signal {
    Valid,
    Order,
    Intr,
    PcRdata,
    Mode,
    Ixl,
    Trap,
    Insn,
    Rs1Addr,
    Rs1Rdata,
    Rs2Addr,
    Rs2Rdata,
    RdAddr,
    RdWdata,
    PcWdata,
    MemAddr,
    MemRmask,
    MemRdata,
    MemWmask,
    MemWdata,
    MemPaddr,
    Halt,
    /// The number of the hart whose row it is.
    Hart,
    /// A side of a control and status register.
    Csr(CsrName, CsrSide),
}

/// A control and status register that a trace may show.
#[derive(Clone, Copy, Debug, PartialEq, Eq)]
pub enum CsrName {
    Mstatus,
    Misa,
    Medeleg,
    Mideleg,
    Mie,
    Mtvec,
    Mscratch,
    Mepc,
    Mcause,
    Mtval,
    Mip,
    Satp,
    Sstatus,
    Sie,
    Sip,
    Stvec,
    Sscratch,
    Sepc,
    Scause,
    Stval,
    Pmpcfg0,
    Pmpcfg2,
}

/// What a trace shows of a control and status register: the masks say which bits are shown, the
/// data are those before and after the instruction.
#[derive(Clone, Copy, Debug, PartialEq, Eq)]
pub enum CsrSide {
    Rmask,
    Wmask,
    Rdata,
    Wdata,
}

/// The first signal of a row that is not as it should be. Where only some bits are compared, both
/// values have the others as 0.
#[derive(Clone, Copy, Debug, PartialEq, Eq)]
pub struct Difference {
    pub signal: Signal,
    pub expected: u64,
    pub found: u64,
}

/// A signal and how many bits its values have at most.
#[derive(Clone, Copy, Debug)]
pub struct SignalEntry {
    pub signal: Signal,
    pub width: u32,
}

/// Entries as `signal => width`.
macro_rules! entries {
    ($($signal:expr => $width:literal),* $(,)?) => {
        [$(SignalEntry { signal: $signal, width: $width }),*]
    };
}

/// All signals, each at its index: in the order of comparison, in which `halt` and `hart` are
/// passed over.
pub const SIGNALS: [SignalEntry; 111] = entries![
    Signal::Valid => 1,
    Signal::Order => 64,
    Signal::Intr => 1,
    Signal::PcRdata => 64,
    Signal::Mode => 2,
    Signal::Ixl => 2,
    Signal::Trap => 1,
    Signal::Insn => 32,
    Signal::Rs1Addr => 5,
    Signal::Rs1Rdata => 64,
    Signal::Rs2Addr => 5,
    Signal::Rs2Rdata => 64,
    Signal::RdAddr => 5,
    Signal::RdWdata => 64,
    Signal::PcWdata => 64,
    Signal::MemAddr => 64,
    Signal::MemRmask => 8,
    Signal::MemRdata => 64,
    Signal::MemWmask => 8,
    Signal::MemWdata => 64,
    Signal::MemPaddr => 64,
    Signal::Halt => 1,
    Signal::Hart => 64,
    Signal::Csr(CsrName::Mstatus, CsrSide::Rmask) => 64,
    Signal::Csr(CsrName::Mstatus, CsrSide::Wmask) => 64,
    Signal::Csr(CsrName::Mstatus, CsrSide::Rdata) => 64,
    Signal::Csr(CsrName::Mstatus, CsrSide::Wdata) => 64,
    Signal::Csr(CsrName::Misa, CsrSide::Rmask) => 64,
    Signal::Csr(CsrName::Misa, CsrSide::Wmask) => 64,
    Signal::Csr(CsrName::Misa, CsrSide::Rdata) => 64,
    Signal::Csr(CsrName::Misa, CsrSide::Wdata) => 64,
    Signal::Csr(CsrName::Medeleg, CsrSide::Rmask) => 64,
    Signal::Csr(CsrName::Medeleg, CsrSide::Wmask) => 64,
    Signal::Csr(CsrName::Medeleg, CsrSide::Rdata) => 64,
    Signal::Csr(CsrName::Medeleg, CsrSide::Wdata) => 64,
    Signal::Csr(CsrName::Mideleg, CsrSide::Rmask) => 64,
    Signal::Csr(CsrName::Mideleg, CsrSide::Wmask) => 64,
    Signal::Csr(CsrName::Mideleg, CsrSide::Rdata) => 64,
    Signal::Csr(CsrName::Mideleg, CsrSide::Wdata) => 64,
    Signal::Csr(CsrName::Mie, CsrSide::Rmask) => 64,
    Signal::Csr(CsrName::Mie, CsrSide::Wmask) => 64,
    Signal::Csr(CsrName::Mie, CsrSide::Rdata) => 64,
    Signal::Csr(CsrName::Mie, CsrSide::Wdata) => 64,
    Signal::Csr(CsrName::Mtvec, CsrSide::Rmask) => 64,
    Signal::Csr(CsrName::Mtvec, CsrSide::Wmask) => 64,
    Signal::Csr(CsrName::Mtvec, CsrSide::Rdata) => 64,
    Signal::Csr(CsrName::Mtvec, CsrSide::Wdata) => 64,
    Signal::Csr(CsrName::Mscratch, CsrSide::Rmask) => 64,
    Signal::Csr(CsrName::Mscratch, CsrSide::Wmask) => 64,
    Signal::Csr(CsrName::Mscratch, CsrSide::Rdata) => 64,
    Signal::Csr(CsrName::Mscratch, CsrSide::Wdata) => 64,
    Signal::Csr(CsrName::Mepc, CsrSide::Rmask) => 64,
    Signal::Csr(CsrName::Mepc, CsrSide::Wmask) => 64,
    Signal::Csr(CsrName::Mepc, CsrSide::Rdata) => 64,
    Signal::Csr(CsrName::Mepc, CsrSide::Wdata) => 64,
    Signal::Csr(CsrName::Mcause, CsrSide::Rmask) => 64,
    Signal::Csr(CsrName::Mcause, CsrSide::Wmask) => 64,
    Signal::Csr(CsrName::Mcause, CsrSide::Rdata) => 64,
    Signal::Csr(CsrName::Mcause, CsrSide::Wdata) => 64,
    Signal::Csr(CsrName::Mtval, CsrSide::Rmask) => 64,
    Signal::Csr(CsrName::Mtval, CsrSide::Wmask) => 64,
    Signal::Csr(CsrName::Mtval, CsrSide::Rdata) => 64,
    Signal::Csr(CsrName::Mtval, CsrSide::Wdata) => 64,
    Signal::Csr(CsrName::Mip, CsrSide::Rmask) => 64,
    Signal::Csr(CsrName::Mip, CsrSide::Wmask) => 64,
    Signal::Csr(CsrName::Mip, CsrSide::Rdata) => 64,
    Signal::Csr(CsrName::Mip, CsrSide::Wdata) => 64,
    Signal::Csr(CsrName::Satp, CsrSide::Rmask) => 64,
    Signal::Csr(CsrName::Satp, CsrSide::Wmask) => 64,
    Signal::Csr(CsrName::Satp, CsrSide::Rdata) => 64,
    Signal::Csr(CsrName::Satp, CsrSide::Wdata) => 64,
    Signal::Csr(CsrName::Sstatus, CsrSide::Rmask) => 64,
    Signal::Csr(CsrName::Sstatus, CsrSide::Wmask) => 64,
    Signal::Csr(CsrName::Sstatus, CsrSide::Rdata) => 64,
    Signal::Csr(CsrName::Sstatus, CsrSide::Wdata) => 64,
    Signal::Csr(CsrName::Sie, CsrSide::Rmask) => 64,
    Signal::Csr(CsrName::Sie, CsrSide::Wmask) => 64,
    Signal::Csr(CsrName::Sie, CsrSide::Rdata) => 64,
    Signal::Csr(CsrName::Sie, CsrSide::Wdata) => 64,
    Signal::Csr(CsrName::Sip, CsrSide::Rmask) => 64,
    Signal::Csr(CsrName::Sip, CsrSide::Wmask) => 64,
    Signal::Csr(CsrName::Sip, CsrSide::Rdata) => 64,
    Signal::Csr(CsrName::Sip, CsrSide::Wdata) => 64,
    Signal::Csr(CsrName::Stvec, CsrSide::Rmask) => 64,
    Signal::Csr(CsrName::Stvec, CsrSide::Wmask) => 64,
    Signal::Csr(CsrName::Stvec, CsrSide::Rdata) => 64,
    Signal::Csr(CsrName::Stvec, CsrSide::Wdata) => 64,
    Signal::Csr(CsrName::Sscratch, CsrSide::Rmask) => 64,
    Signal::Csr(CsrName::Sscratch, CsrSide::Wmask) => 64,
    Signal::Csr(CsrName::Sscratch, CsrSide::Rdata) => 64,
    Signal::Csr(CsrName::Sscratch, CsrSide::Wdata) => 64,
    Signal::Csr(CsrName::Sepc, CsrSide::Rmask) => 64,
    Signal::Csr(CsrName::Sepc, CsrSide::Wmask) => 64,
    Signal::Csr(CsrName::Sepc, CsrSide::Rdata) => 64,
    Signal::Csr(CsrName::Sepc, CsrSide::Wdata) => 64,
    Signal::Csr(CsrName::Scause, CsrSide::Rmask) => 64,
    Signal::Csr(CsrName::Scause, CsrSide::Wmask) => 64,
    Signal::Csr(CsrName::Scause, CsrSide::Rdata) => 64,
    Signal::Csr(CsrName::Scause, CsrSide::Wdata) => 64,
    Signal::Csr(CsrName::Stval, CsrSide::Rmask) => 64,
    Signal::Csr(CsrName::Stval, CsrSide::Wmask) => 64,
    Signal::Csr(CsrName::Stval, CsrSide::Rdata) => 64,
    Signal::Csr(CsrName::Stval, CsrSide::Wdata) => 64,
    Signal::Csr(CsrName::Pmpcfg0, CsrSide::Rmask) => 64,
    Signal::Csr(CsrName::Pmpcfg0, CsrSide::Wmask) => 64,
    Signal::Csr(CsrName::Pmpcfg0, CsrSide::Rdata) => 64,
    Signal::Csr(CsrName::Pmpcfg0, CsrSide::Wdata) => 64,
    Signal::Csr(CsrName::Pmpcfg2, CsrSide::Rmask) => 64,
    Signal::Csr(CsrName::Pmpcfg2, CsrSide::Wmask) => 64,
    Signal::Csr(CsrName::Pmpcfg2, CsrSide::Rdata) => 64,
    Signal::Csr(CsrName::Pmpcfg2, CsrSide::Wdata) => 64,
];

impl Signal {
    /// Where the signal stands among all signals, from 0.
    pub fn index(self) -> u8
        ensures value { result ≡ index_of self }
        ensures below { result < 111 }
    {
        match self {
            Signal::Csr(csr, side) => 23 + 4 * csr.index() + side.index(),
            plain => plain.plain_index(),
        }
    }

    /// The same of a signal that is no register's, and where the registers begin of one that is.
    /// Nothing is computed in it, so that the compiler makes it a number and no jump.
    fn plain_index(self) -> u8
        ensures { result ≡ plain_index_of self }
    {
        match self {
            Signal::Valid => 0,
            Signal::Order => 1,
            Signal::Intr => 2,
            Signal::PcRdata => 3,
            Signal::Mode => 4,
            Signal::Ixl => 5,
            Signal::Trap => 6,
            Signal::Insn => 7,
            Signal::Rs1Addr => 8,
            Signal::Rs1Rdata => 9,
            Signal::Rs2Addr => 10,
            Signal::Rs2Rdata => 11,
            Signal::RdAddr => 12,
            Signal::RdWdata => 13,
            Signal::PcWdata => 14,
            Signal::MemAddr => 15,
            Signal::MemRmask => 16,
            Signal::MemRdata => 17,
            Signal::MemWmask => 18,
            Signal::MemWdata => 19,
            Signal::MemPaddr => 20,
            Signal::Halt => 21,
            Signal::Hart => 22,
            Signal::Csr(_, _) => 23,
        }
    }

    /// How many bits a value has at most.
    #[tactic(auto, unfolding(crate::specs::Signals::width_of))]
    pub fn width(self) -> u32
        ensures value { result ≡ width_of self }
        ensures most { result ≤ 64 }
    {
        match self.entry() {
            Some(entry) => entry.width,
            None => 64,
        }
    }

    /// The signal's line in the table; every signal has one.
    fn entry(self) -> Option<&'static SignalEntry>
        ensures { option_copied result ≡ signal_entry_of self }
    {
        entry_at(&SIGNALS, self.index())
    }

    /// Whether a header gives the signal this name.
    pub fn is_named(self, text: &[u8]) -> bool
        ensures { result ≡ bytes_eq text.now (name_of self) }
    {
        match rest_after(text, self.prefix().as_bytes()) {
            None => false,
            Some(rest) => match rest_after(rest, self.stem().as_bytes()) {
                None => false,
                Some(rest) => rest == self.suffix().as_bytes(),
            },
        }
    }

    /// The name's first part, which all registers' columns share: `csr_`, or nothing.
    #[tactic(auto, unfolding(crate::specs::SignalNames::prefix_of))]
    pub fn prefix(self) -> &'static str
        ensures value { result.now ≡ prefix_of self }
        ensures short { length result.now ≤ 4 }
    {
        match self {
            Signal::Csr(_, _) => "csr_",
            _ => "",
        }
    }

    /// The name's own part: the register's name, or the whole name of another column.
    #[tactic(auto, unfolding(crate::specs::SignalNames::stem_of))]
    pub fn stem(self) -> &'static str
        ensures value { result.now ≡ stem_of self }
        ensures short { length result.now ≤ 9 }
    {
        match self {
            Signal::Valid => "valid",
            Signal::Order => "order",
            Signal::Intr => "intr",
            Signal::PcRdata => "pc_rdata",
            Signal::Mode => "mode",
            Signal::Ixl => "ixl",
            Signal::Trap => "trap",
            Signal::Insn => "insn",
            Signal::Rs1Addr => "rs1_addr",
            Signal::Rs1Rdata => "rs1_rdata",
            Signal::Rs2Addr => "rs2_addr",
            Signal::Rs2Rdata => "rs2_rdata",
            Signal::RdAddr => "rd_addr",
            Signal::RdWdata => "rd_wdata",
            Signal::PcWdata => "pc_wdata",
            Signal::MemAddr => "mem_addr",
            Signal::MemRmask => "mem_rmask",
            Signal::MemRdata => "mem_rdata",
            Signal::MemWmask => "mem_wmask",
            Signal::MemWdata => "mem_wdata",
            Signal::MemPaddr => "mem_paddr",
            Signal::Halt => "halt",
            Signal::Hart => "hart",
            Signal::Csr(csr, _) => csr.name(),
        }
    }

    /// The name's last part, the side of a register, or nothing.
    #[tactic(auto, unfolding(crate::specs::SignalNames::suffix_of))]
    pub fn suffix(self) -> &'static str
        ensures value { result.now ≡ suffix_of self }
        ensures short { length result.now ≤ 6 }
    {
        match self {
            Signal::Csr(_, side) => side.suffix(),
            _ => "",
        }
    }
}

/// The entry at an index.
fn entry_at(entries: &[SignalEntry], index: u8) -> Option<&SignalEntry>
    ensures { option_copied result ≡ slice_get entries.now index }
{
    entries.get(usize::from(index))
}

/// What stands in `text` after `front`, where it begins so.
fn rest_after<'a>(text: &'a [u8], front: &[u8]) -> Option<&'a [u8]>
    ensures { (more : List ℕ) → MatchOption result (bytes_eq text.now (front.now ++ more) ≡ false)
        (λ rest. bytes_eq text.now (front.now ++ more) ≡ bytes_eq rest.now more) }
{
    text.strip_prefix(front)
}

impl CsrName {
    /// Where the register stands among all that are shown, from 0.
    pub fn index(self) -> u8
        ensures value { result ≡ csr_index_of self }
        ensures below { result < 22 }
    {
        self as u8
    }

    /// The name in the Privileged Architecture, in lower case.
    #[tactic(auto, unfolding(crate::specs::SignalNames::csr_name_of))]
    pub fn name(self) -> &'static str
        ensures value { result.now ≡ csr_name_of self }
        ensures short { length result.now ≤ 9 }
    {
        match self {
            CsrName::Mstatus => "mstatus",
            CsrName::Misa => "misa",
            CsrName::Medeleg => "medeleg",
            CsrName::Mideleg => "mideleg",
            CsrName::Mie => "mie",
            CsrName::Mtvec => "mtvec",
            CsrName::Mscratch => "mscratch",
            CsrName::Mepc => "mepc",
            CsrName::Mcause => "mcause",
            CsrName::Mtval => "mtval",
            CsrName::Mip => "mip",
            CsrName::Satp => "satp",
            CsrName::Sstatus => "sstatus",
            CsrName::Sie => "sie",
            CsrName::Sip => "sip",
            CsrName::Stvec => "stvec",
            CsrName::Sscratch => "sscratch",
            CsrName::Sepc => "sepc",
            CsrName::Scause => "scause",
            CsrName::Stval => "stval",
            CsrName::Pmpcfg0 => "pmpcfg0",
            CsrName::Pmpcfg2 => "pmpcfg2",
        }
    }
}

impl CsrSide {
    /// Where the side stands among the four, from 0.
    pub fn index(self) -> u8
        ensures value { result ≡ side_index_of self }
        ensures below { result < 4 }
    {
        self as u8
    }

    /// The end of the column's name.
    #[tactic(auto, unfolding(crate::specs::SignalNames::side_name_of))]
    pub fn suffix(self) -> &'static str
        ensures value { result.now ≡ side_name_of self }
        ensures short { length result.now ≤ 6 }
    {
        match self {
            CsrSide::Rmask => "_rmask",
            CsrSide::Wmask => "_wmask",
            CsrSide::Rdata => "_rdata",
            CsrSide::Wdata => "_wdata",
        }
    }
}
