//! The values of a row.

ghost use Rattle.std.specs.Prelude.{◌≡◌, ◌+◌, ◌<◌, ◌^◌};
ghost use Rattle.trace_maker.specs.Rows.{bare_row};

/// What one row of a made trace says, by the names of its columns.
#[derive(Clone, Copy)]
pub struct MadeRow {
    /// The number of the row, from 0.
    pub order: u64,
    /// The instruction.
    pub insn: u32,
    /// 1 where the instruction traps, which none does.
    pub trap: u8,
    /// The address of the instruction.
    pub pc_rdata: u64,
    /// The address of the next instruction.
    pub pc_wdata: u64,
    /// The register that is written, or 0.
    pub rd_addr: u8,
    /// The value of that register, or 0.
    pub rd_wdata: u64,
    /// The virtual address of the bytes that are loaded or stored, or 0.
    pub mem_addr: u64,
    /// A bit for each byte that is loaded.
    pub mem_rmask: u8,
    /// A bit for each byte that is stored.
    pub mem_wmask: u8,
    /// The bytes that are loaded, as a number, or 0.
    pub mem_rdata: u64,
    /// The bytes that are stored, as a number, or 0.
    pub mem_wdata: u64,
    /// The physical address of the bytes that are loaded or stored, or 0.
    pub mem_paddr: u64,
}

impl MadeRow {
    /// The row of an instruction that goes on to the next one, writes no register, and has no
    /// access to memory.
    pub fn bare(order: u64, insn: u32, pc_rdata: u64) -> MadeRow
        requires { pc_rdata + 4 < 2 ^ 64 }
        ensures { result ≡ bare_row order insn pc_rdata }
    {
        MadeRow {
            order,
            insn,
            trap: 0,
            pc_rdata,
            pc_wdata: pc_rdata + 4,
            rd_addr: 0,
            rd_wdata: 0,
            mem_addr: 0,
            mem_rmask: 0,
            mem_wmask: 0,
            mem_rdata: 0,
            mem_wdata: 0,
            mem_paddr: 0,
        }
    }
}
