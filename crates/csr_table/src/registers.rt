//! The registers by name. From the Privileged Architecture's chapter "Control and Status Registers
//! (CSRs)".

/// A control and status register; those of a range have their number in it.
#[derive(Clone, Copy, Debug, PartialEq, Eq)]
pub enum Csr {
    Mstatus,
    Misa,
    Medeleg,
    Mideleg,
    Mie,
    Mtvec,
    Mcounteren,
    Menvcfg,
    Mcountinhibit,
    /// 3 to 31.
    Mhpmevent(u8),
    Mscratch,
    Mepc,
    Mcause,
    Mtval,
    Mip,
    /// The configurations of entries 0 to 7 of physical memory protection, a byte each.
    Pmpcfg0,
    /// Those of entries 8 to 15.
    Pmpcfg2,
    /// 0 to 15.
    Pmpaddr(u8),
    Sstatus,
    Sie,
    Stvec,
    Scounteren,
    Senvcfg,
    Sscratch,
    Sepc,
    Scause,
    Stval,
    Sip,
    Satp,
    Mcycle,
    Minstret,
    /// 3 to 31.
    Mhpmcounter(u8),
    Cycle,
    Time,
    Instret,
    /// 3 to 31.
    Hpmcounter(u8),
    Mvendorid,
    Marchid,
    Mimpid,
    Mhartid,
    Mconfigptr,
}

/// A row of the table.
#[derive(Clone, Copy, Debug, PartialEq, Eq)]
pub struct CsrRow {
    /// The encoding of the least privilege mode that may access the register: 0 for U, 1 for S, 3
    /// for M.
    pub least_mode: u8,
    /// A write is illegal.
    pub read_only: bool,
    pub csr: Csr,
}
