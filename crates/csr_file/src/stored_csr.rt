//! The registers that are stored. From the Privileged Architecture's chapters "Control and Status
//! Registers (CSRs)" and "Machine-Level ISA".

ghost use Rattle.std.specs.Prelude.{◌≡◌};
ghost use Rattle.csr_file.specs.Table.{stored_name_of};

/// A register that is stored in `Csrs::values`, at its number here.
#[derive(Clone, Copy, Debug, PartialEq, Eq)]
pub enum StoredCsr {
    Mstatus,
    Medeleg,
    Mideleg,
    Mie,
    Mtvec,
    Mcounteren,
    Menvcfg,
    Mcountinhibit,
    Mscratch,
    Mepc,
    Mcause,
    Mtval,
    Mip,
    Stvec,
    Scounteren,
    Senvcfg,
    Sscratch,
    Sepc,
    Scause,
    Stval,
    Satp,
}

/// How many registers `Csrs::values` stores.
pub const STORED_CSRS: usize = 21;

/// All of them, in that order.
pub const ALL_STORED: [StoredCsr; STORED_CSRS] = [
    StoredCsr::Mstatus,
    StoredCsr::Medeleg,
    StoredCsr::Mideleg,
    StoredCsr::Mie,
    StoredCsr::Mtvec,
    StoredCsr::Mcounteren,
    StoredCsr::Menvcfg,
    StoredCsr::Mcountinhibit,
    StoredCsr::Mscratch,
    StoredCsr::Mepc,
    StoredCsr::Mcause,
    StoredCsr::Mtval,
    StoredCsr::Mip,
    StoredCsr::Stvec,
    StoredCsr::Scounteren,
    StoredCsr::Senvcfg,
    StoredCsr::Sscratch,
    StoredCsr::Sepc,
    StoredCsr::Scause,
    StoredCsr::Stval,
    StoredCsr::Satp,
];

impl StoredCsr {
    /// The name in the Privileged Architecture, in lower case.
    #[tactic(auto, unfolding(crate::specs::Table::stored_name_of))]
    pub fn name(self) -> &'static str
        ensures { result.now ≡ stored_name_of self }
    {
        match self {
            StoredCsr::Mstatus => "mstatus",
            StoredCsr::Medeleg => "medeleg",
            StoredCsr::Mideleg => "mideleg",
            StoredCsr::Mie => "mie",
            StoredCsr::Mtvec => "mtvec",
            StoredCsr::Mcounteren => "mcounteren",
            StoredCsr::Menvcfg => "menvcfg",
            StoredCsr::Mcountinhibit => "mcountinhibit",
            StoredCsr::Mscratch => "mscratch",
            StoredCsr::Mepc => "mepc",
            StoredCsr::Mcause => "mcause",
            StoredCsr::Mtval => "mtval",
            StoredCsr::Mip => "mip",
            StoredCsr::Stvec => "stvec",
            StoredCsr::Scounteren => "scounteren",
            StoredCsr::Senvcfg => "senvcfg",
            StoredCsr::Sscratch => "sscratch",
            StoredCsr::Sepc => "sepc",
            StoredCsr::Scause => "scause",
            StoredCsr::Stval => "stval",
            StoredCsr::Satp => "satp",
        }
    }
}
