//! What a register can be: what its address names, and who decides its bits. From the Privileged
//! Architecture's chapters "Machine-Level ISA" and "Supervisor-Level ISA".

use crate::stored_csr::StoredCsr;

/// What a register is, seen from its address.
#[derive(Clone, Copy, Debug)]
pub enum CsrKind {
    /// Reads as what is stored. A write leaves the writable bits of its value.
    Stored(StoredCsr),
    /// mstatus: a write keeps the constants, and MPP where it would become 2.
    Status,
    /// mip: what is stored, and interrupt lines.
    Pending,
    /// sstatus: a part of mstatus.
    SupervisorStatus,
    /// sie: mie under mideleg.
    SupervisorEnables,
    /// sip: mip under mideleg.
    SupervisorPending,
    /// satp: a write has no effect where its mode is none that the hart has.
    Translation,
    /// pmpcfg0: the configurations of entries 0 to 7.
    LowConfigurations,
    /// pmpcfg2: the configurations of entries 8 to 15.
    HighConfigurations,
    /// pmpaddr: the address of an entry.
    EntryAddress(u8),
    /// Reads as this number.
    Constant(u64),
    /// The core decides all bits, and no write changes them.
    ImplementationDefined,
    /// The same of a counter that S and U may read where the enables have this bit.
    Counter(u8),
}
