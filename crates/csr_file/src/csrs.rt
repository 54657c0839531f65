//! The registers that are stored: reads and writes by address, and what a trace shows. From the
//! Privileged Architecture's chapters "Control and Status Registers (CSRs)", "Machine-Level ISA"
//! and "Supervisor-Level ISA".

ghost use Rattle.std.specs.Prelude.{◌≡◌, ◌≤◌, ◌<◌, ◌+◌, ◌-◌, Ok, Err, OnOk, OnErr, map};
ghost use Rattle.csr_file.specs.Fields.{is_supported_mode};
ghost use Rattle.csr_file.specs.Table.{stored_csrs};
ghost use Rattle.csr_file.specs.Profiles.{fixed_bits, kind_in};
ghost use Rattle.csr_file.specs.Registers.{at, with_at, csrs_at_reset, csrs_at_reset_of, pmp_entries_of, pmp_entry_of};
ghost use Rattle.csr_file.specs.Values.{has_entry, open_lines_of, status_shown, stored_write_of, with_bits_at, pending_interrupts_of, csr_value_of, csr_base_of, adoptable_bits_of, adopted_bits_of, csr_read_of, status_write_of, translation_write_of, csr_write_of, packed_pmpcfg_of, entry_address_of, configuration_after, configuration_after_write, configurations_write_of, is_locked_from_below, address_is_locked, entry_address_write_of, csr_named, shown_csr};
ghost use Rattle.csr_file.specs.Access.{counter_is_enabled, translation_is_open, is_enabled, may_read, may_write, csr_read_at, csr_write_at};
ghost use Rattle.csr_file.specs.Legal.{IsLegal};

use crate::access::{CsrRead, Illegal};
use crate::csr_kind::CsrKind;
use crate::fields::{
    BARE, FS, MPP, PMP_LOCK, PMP_MATCHING, SATP_MODE, SD, SV39, TVM, VS, has_bit, merge,
};
use crate::profile::{CsrProfile, Presence};
use crate::register_row::RegisterRow;
use crate::stored_csr::{ALL_STORED, STORED_CSRS, StoredCsr};
use csr_table::{Csr, CsrRow, row};
use hart_words::{CsrName, Mode, PmpEntry};

/// The field MPP of mstatus.
const MPP_FIELD: u64 = 3 << MPP;

/// The bits of mstatus that sstatus shows, and those of them that a write of it can set.
const SSTATUS_SHOWN: u64 = 0x8000_0003_000C_6722;

const SSTATUS_WRITABLE: u64 = 0xC_6722;

/// The bits of mip that a write of sip can set, under mideleg: SSIP.
const SIP_WRITABLE: u64 = 2;

/// All control and status registers that the reference hart stores. The entries of physical memory
/// protection are kept as they are walked at each access, each with its configuration byte and its
/// address register.
#[derive(Clone, Copy, Debug, PartialEq, Eq)]
pub struct Csrs {
    pub values: [u64; STORED_CSRS],
    pub entries: [PmpEntry; 16],
    /// What the core makes of them. No write changes it.
    pub profile: CsrProfile,
}

impl Csrs {
    /// The registers at reset: all bits are 0 but those that are always 1.
    pub fn reset_of(profile: &CsrProfile) -> Csrs
        ensures value { result ≡ csrs_at_reset_of profile.now }
        ensures legal { IsLegal result }
    {
        Csrs::with_fixed(profile)
    }

    /// The same where nothing is said of what the core makes of them.
    #[tactic(auto, unfolding(crate::specs::Registers::csrs_at_reset))]
    pub fn reset() -> Csrs
        ensures value { result ≡ csrs_at_reset }
        ensures legal { IsLegal result }
    {
        Csrs::reset_of(&CsrProfile::plain())
    }

    /// All bits 0 but those that are always 1.
    #[tactic(auto, unfolding(crate::specs::Registers::csrs_at_reset_of))]
    fn with_fixed(profile: &CsrProfile) -> Csrs
        ensures { result ≡ csrs_at_reset_of profile.now }
    {
        Csrs {
            values: fixed_values(profile, &ALL_STORED),
            entries: [PmpEntry { cfg: 0, addr: 0 }; 16],
            profile: *profile,
        }
    }

    /// The value of a stored register.
    #[tactic(auto, unfolding(crate::specs::Registers::at))]
    pub fn get(&self, stored: StoredCsr) -> u64
        ensures { result ≡ at self.now stored }
    {
        self.values[stored as usize]
    }

    /// Puts a value into a stored register.
    #[tactic(auto, unfolding(crate::specs::Registers::with_at))]
    pub fn set(&mut self, stored: StoredCsr, value: u64)
        ensures { self.new ≡ with_at self.old stored value }
    {
        self.values[stored as usize] = value;
    }

    /// The entries of physical memory protection that the core has.
    pub fn pmp_entries(&self) -> &[PmpEntry]
        ensures { result.now ≡ pmp_entries_of self.now }
    {
        &self.entries[..self.profile.entry_count.number()]
    }

    /// What a register is on this core.
    #[tactic(auto, unfolding(crate::specs::Profiles::kind_in, crate::specs::Table::csr_kind_of))]
    fn kind(&self, csr: Csr) -> CsrKind
        ensures { result ≡ kind_in self.now.profile csr }
    {
        match self.profile.presence(csr) {
            Presence::FromRow => CsrKind::ImplementationDefined,
            Presence::Kept | Presence::Absent | Presence::MayTrap => RegisterRow::of(csr).kind,
        }
    }

    /// Whether the core has an entry of physical memory protection with this number.
    fn has_entry(&self, number: usize) -> bool
        ensures { result ≡ has_entry self.now number }
    {
        number < self.profile.entry_count.number()
    }

    /// The entry of physical memory protection with this number.
    fn entry(&self, number: usize) -> PmpEntry
        requires { number < 16 }
        ensures { result ≡ pmp_entry_of self.now number }
    {
        self.entries[number]
    }

    /// What a read of the register at `address` gives in a mode, with these interrupt lines (bits
    /// 3, 7, 9 and 11 count).
    #[tactic(auto, unfolding(crate::specs::Access::csr_read_at))]
    pub fn read(&self, address: u16, mode: Mode, lines: u64) -> Result<CsrRead, Illegal>
        ensures { result ≡ csr_read_at self.now address mode lines }
    {
        match row(address) {
            None => Err(Illegal),
            Some(row) => {
                if self.may_read(mode, row) {
                    Ok(self.read_csr(self.kind(row.csr), lines))
                } else {
                    Err(Illegal)
                }
            }
        }
    }

    /// The bits of a read value that are to be taken from the row, where the row shows the
    /// interrupt lines `shown_lines` in csr_mip_rdata: all of what the core decides, and of mip and
    /// sip those that may be lines and are neither stored nor shown.
    pub fn adopted_bits(&self, csr: Csr, shown_lines: u64) -> u64
        ensures { result ≡ adopted_bits_of self.now (kind_in self.now.profile csr) shown_lines }
    {
        let kind = self.kind(csr);
        match kind {
            CsrKind::Pending | CsrKind::SupervisorPending => self.adoptable_bits(kind)
                & !shown_lines,
            CsrKind::ImplementationDefined | CsrKind::Counter(_) => self.adoptable_bits(kind),
            CsrKind::Stored(_) | CsrKind::Status | CsrKind::SupervisorStatus => self.adoptable_bits(
                kind,
            ),
            CsrKind::SupervisorEnables | CsrKind::Constant(_) => self.adoptable_bits(kind),
            CsrKind::Translation => self.adoptable_bits(kind),
            CsrKind::LowConfigurations | CsrKind::HighConfigurations => self.adoptable_bits(kind),
            CsrKind::EntryAddress(_) => self.adoptable_bits(kind),
        }
    }

    /// Writes the register at `address` in a mode. A register without writable bits stays as it
    /// was; a refused write changes nothing.
    #[tactic(auto, unfolding(crate::specs::Access::csr_write_at))]
    pub fn write(&mut self, address: u16, mode: Mode, value: u64) -> Result<(), Illegal>
        ensures ok { OnOk result (csr_write_at self.old address mode value ≡ Ok self.new) }
        ensures err { OnErr result (csr_write_at self.old address mode value ≡ Err (record {})) }
        ensures unchanged { OnErr result (self.new ≡ self.old) }
        ensures legal { IsLegal self.old → IsLegal self.new }
    {
        match row(address) {
            None => Err(Illegal),
            Some(row) => {
                if self.may_write(mode, row) {
                    self.write_csr(self.kind(row.csr), value);
                    Ok(())
                } else {
                    Err(Illegal)
                }
            }
        }
    }

    /// The value that a trace shows of a register, with these interrupt lines.
    #[tactic(auto, unfolding(crate::specs::Values::shown_csr))]
    pub fn shown(&self, name: CsrName, lines: u64) -> u64
        ensures { result ≡ shown_csr self.now name lines }
    {
        self.value(self.kind(csr_named(name)), lines)
    }

    /// The interrupts that are pending, by their bits in mip: those stored, and the lines.
    #[tactic(auto, unfolding(crate::specs::Values::pending_interrupts_of))]
    pub fn pending_interrupts(&self, lines: u64) -> u64
        ensures { result ≡ pending_interrupts_of self.now lines }
    {
        self.get(StoredCsr::Mip) | lines & self.profile.line_bits()
    }

    #[tactic(auto, unfolding(crate::specs::Access::may_read))]
    fn may_read(&self, mode: Mode, row: CsrRow) -> bool
        ensures { result ≡ may_read self.now mode row }
    {
        row.least_mode <= mode.number()
            && self.is_enabled(mode, self.kind(row.csr))
            && !matches!(self.profile.presence(row.csr), Presence::Absent)
    }

    #[tactic(auto, unfolding(crate::specs::Access::may_write))]
    fn may_write(&self, mode: Mode, row: CsrRow) -> bool
        ensures { result ≡ may_write self.now mode row }
    {
        self.may_read(mode, row) && !row.read_only
    }

    /// Whether TVM, the enables of counters and what the core has let a mode access a register.
    #[tactic(auto, unfolding(crate::specs::Access::is_enabled))]
    fn is_enabled(&self, mode: Mode, kind: CsrKind) -> bool
        ensures { result ≡ is_enabled self.now mode kind }
    {
        match kind {
            CsrKind::Counter(bit) => self.counter_is_enabled(mode, bit),
            CsrKind::Translation => self.translation_is_open(mode),
            CsrKind::Stored(_) | CsrKind::Status | CsrKind::Pending => true,
            CsrKind::SupervisorStatus | CsrKind::SupervisorEnables => true,
            CsrKind::SupervisorPending | CsrKind::Constant(_) | CsrKind::ImplementationDefined =>
                true,
            CsrKind::LowConfigurations | CsrKind::HighConfigurations => self.has_entry(0),
            CsrKind::EntryAddress(_) => self.has_entry(0),
        }
    }

    /// Whether a mode may access satp: S only while TVM of mstatus is clear.
    fn translation_is_open(&self, mode: Mode) -> bool
        ensures { result ≡ translation_is_open self.now mode }
    {
        match mode {
            Mode::Machine => true,
            Mode::Supervisor => !has_bit(self.get(StoredCsr::Mstatus), TVM),
            Mode::User => false,
        }
    }

    /// Whether a mode may read the counter of this bit of mcounteren and scounteren.
    fn counter_is_enabled(&self, mode: Mode, bit: u8) -> bool
        ensures { result ≡ counter_is_enabled self.now mode bit }
    {
        match mode {
            Mode::Machine => true,
            Mode::Supervisor => has_bit(self.get(StoredCsr::Mcounteren), bit),
            Mode::User => {
                has_bit(self.get(StoredCsr::Mcounteren), bit)
                    && has_bit(self.get(StoredCsr::Scounteren), bit)
            }
        }
    }

    #[tactic(auto, unfolding(crate::specs::Values::csr_read_of))]
    fn read_csr(&self, kind: CsrKind, lines: u64) -> CsrRead
        ensures { result ≡ csr_read_of self.now kind lines }
    {
        CsrRead {
            value: self.value(kind, lines),
            free: self.adoptable_bits(kind),
            base: self.base(kind, lines),
        }
    }

    /// The value of a register, with these interrupt lines; 0 where the core decides it.
    #[tactic(auto, unfolding(crate::specs::Values::csr_value_of))]
    fn value(&self, kind: CsrKind, lines: u64) -> u64
        ensures { result ≡ csr_value_of self.now kind lines }
    {
        match kind {
            CsrKind::Stored(stored) => self.get(stored),
            CsrKind::Status => status_shown(self.get(StoredCsr::Mstatus)),
            CsrKind::Pending => self.pending_interrupts(lines),
            CsrKind::SupervisorStatus => {
                status_shown(self.get(StoredCsr::Mstatus)) & SSTATUS_SHOWN
            }
            CsrKind::SupervisorEnables => {
                self.get(StoredCsr::Mie) & self.get(StoredCsr::Mideleg)
            }
            CsrKind::SupervisorPending => {
                self.pending_interrupts(lines) & self.get(StoredCsr::Mideleg)
            }
            CsrKind::Translation => self.get(StoredCsr::Satp),
            CsrKind::LowConfigurations => self.packed_pmpcfg(0),
            CsrKind::HighConfigurations => self.packed_pmpcfg(8),
            CsrKind::EntryAddress(number) => self.entry_address(number),
            CsrKind::Constant(number) => number,
            CsrKind::ImplementationDefined | CsrKind::Counter(_) => 0,
        }
    }

    /// What the set and clear forms start from: lines never become stored bits of mip.
    #[tactic(auto, unfolding(crate::specs::Values::csr_base_of))]
    fn base(&self, kind: CsrKind, lines: u64) -> u64
        ensures { result ≡ csr_base_of self.now kind lines }
    {
        match kind {
            CsrKind::Pending => self.get(StoredCsr::Mip),
            CsrKind::Stored(_) | CsrKind::Status => self.value(kind, lines),
            CsrKind::SupervisorStatus | CsrKind::SupervisorEnables => self.value(kind, lines),
            CsrKind::SupervisorPending | CsrKind::Constant(_) => self.value(kind, lines),
            CsrKind::ImplementationDefined | CsrKind::Counter(_) => self.value(kind, lines),
            CsrKind::Translation => self.value(kind, lines),
            CsrKind::EntryAddress(_) => self.value(kind, lines),
            CsrKind::LowConfigurations | CsrKind::HighConfigurations => self.value(kind, lines),
        }
    }

    /// The bits of mip that may be lines and are not stored.
    fn open_lines(&self) -> u64
        ensures { result ≡ open_lines_of self.now }
    {
        !self.get(StoredCsr::Mip) & self.profile.line_bits()
    }

    /// The bits of a register's value that the core decides, or that may be lines.
    #[tactic(auto, unfolding(crate::specs::Values::adoptable_bits_of))]
    fn adoptable_bits(&self, kind: CsrKind) -> u64
        ensures { result ≡ adoptable_bits_of self.now kind }
    {
        match kind {
            CsrKind::Pending => self.open_lines(),
            CsrKind::SupervisorPending => self.open_lines() & self.get(StoredCsr::Mideleg),
            CsrKind::ImplementationDefined | CsrKind::Counter(_) => u64::MAX,
            CsrKind::Stored(_) | CsrKind::Status | CsrKind::SupervisorStatus => 0,
            CsrKind::SupervisorEnables | CsrKind::Constant(_) => 0,
            CsrKind::Translation => 0,
            CsrKind::LowConfigurations | CsrKind::HighConfigurations => 0,
            CsrKind::EntryAddress(_) => 0,
        }
    }

    /// A legal write: of each register its writable bits.
    #[tactic(auto, unfolding(crate::specs::Values::csr_write_of))]
    fn write_csr(&mut self, kind: CsrKind, value: u64)
        ensures { self.new ≡ csr_write_of self.old kind value }
    {
        match kind {
            CsrKind::Stored(stored) => self.write_stored(stored, value),
            CsrKind::Status => self.write_status(value),
            CsrKind::Pending => self.write_stored(StoredCsr::Mip, value),
            CsrKind::SupervisorStatus => {
                let mask = SSTATUS_WRITABLE & self.profile.writable(StoredCsr::Mstatus);
                self.write_bits(StoredCsr::Mstatus, mask, value);
            }
            CsrKind::SupervisorEnables => {
                let mask = self.get(StoredCsr::Mideleg) & self.profile.writable(StoredCsr::Mie);
                self.write_bits(StoredCsr::Mie, mask, value);
            }
            CsrKind::SupervisorPending => {
                let own = SIP_WRITABLE & self.profile.writable(StoredCsr::Mip);
                let mask = self.get(StoredCsr::Mideleg) & own;
                self.write_bits(StoredCsr::Mip, mask, value);
            }
            CsrKind::Translation => self.write_translation(value),
            CsrKind::LowConfigurations => self.write_configurations(0, value),
            CsrKind::HighConfigurations => self.write_configurations(8, value),
            CsrKind::EntryAddress(number) => self.write_entry_address(number, value),
            CsrKind::Constant(_) | CsrKind::ImplementationDefined | CsrKind::Counter(_) => {}
        }
    }

    /// A write of mstatus: MPP keeps its value where it would become 2, which is no mode.
    #[tactic(auto, unfolding(crate::specs::Values::status_write_of))]
    fn write_status(&mut self, value: u64)
        ensures { self.new ≡ status_write_of self.old value }
    {
        let writable = self.profile.writable(StoredCsr::Mstatus);
        let mask = if (value >> MPP) % 4 == 2 {
            writable & !MPP_FIELD
        } else {
            writable
        };
        self.write_bits(StoredCsr::Mstatus, mask, value);
    }

    /// A write of satp: where it selects a mode that the hart has not, it has no effect at all.
    #[tactic(auto, unfolding(crate::specs::Values::translation_write_of))]
    fn write_translation(&mut self, value: u64)
        ensures { self.new ≡ translation_write_of self.old value }
    {
        if is_supported_mode(value >> SATP_MODE) {
            self.write_stored(StoredCsr::Satp, value);
        }
    }

    /// Writes the bits of a register that a write may change.
    #[tactic(auto, unfolding(crate::specs::Values::stored_write_of))]
    fn write_stored(&mut self, stored: StoredCsr, value: u64)
        ensures { self.new ≡ stored_write_of self.old stored value }
    {
        let mask = self.profile.writable(stored);
        self.write_bits(stored, mask, value);
    }

    /// Writes the bits of a mask.
    fn write_bits(&mut self, stored: StoredCsr, mask: u64, value: u64)
        ensures { self.new ≡ with_bits_at self.old stored mask value }
    {
        self.set(stored, merge(mask, self.get(stored), value));
    }

    /// Eight configuration bytes of physical memory protection as one number, the lowest first.
    fn packed_pmpcfg(&self, first: usize) -> u64
        requires { first ≤ 8 }
        ensures { result ≡ packed_pmpcfg_of self.now first }
    {
        let mut bytes = [0; 8];
        for i in 0..8 {
            bytes[i] = self.entry(first + i).cfg;
        }
        u64::from_le_bytes(bytes)
    }

    /// The address of an entry, of whose number the low four bits count.
    fn entry_address(&self, number: u8) -> u64
        ensures { result ≡ entry_address_of self.now number }
    {
        self.entry(usize::from(number % 16)).addr
    }

    /// Writes the configurations of eight entries from one on, each by itself, with the locks as
    /// they are before.
    #[tactic(auto, unfolding(crate::specs::Values::configurations_write_of))]
    fn write_configurations(&mut self, first: u8, value: u64)
        requires { first ≤ 8 }
        ensures { self.new ≡ configurations_write_of self.old first value }
    {
        let mut written = [PmpEntry { cfg: 0, addr: 0 }; 16];
        for i in 0..16 {
            written[i] = PmpEntry {
                cfg: self.configuration_after_write(first, value, i),
                addr: self.entry(i).addr,
            };
        }
        self.entries = written;
    }

    /// The configuration of an entry after that write.
    #[tactic(auto, unfolding(crate::specs::Values::configuration_after_write))]
    fn configuration_after_write(&self, first: u8, value: u64, number: usize) -> u8
        requires first { first ≤ 8 }
        requires number { number < 16 }
        ensures { result ≡ configuration_after_write self.now first value number }
    {
        let first = usize::from(first);
        if first <= number && number < first + 8 && self.has_entry(number) {
            let byte = (value >> (8 * (number - first))) % 256;
            configuration_after(self.entry(number).cfg, byte as u8)
        } else {
            self.entry(number).cfg
        }
    }

    /// Writes the address of an entry that the core has, unless it is locked.
    #[tactic(auto, unfolding(crate::specs::Values::entry_address_write_of))]
    fn write_entry_address(&mut self, number: u8, value: u64)
        ensures { self.new ≡ entry_address_write_of self.old number value }
    {
        let number = usize::from(number % 16);
        if self.has_entry(number) && !self.address_is_locked(number) {
            self.entries[number] = PmpEntry {
                cfg: self.entry(number).cfg,
                addr: value % (1 << self.profile.entry_bits()),
            };
        }
    }

    /// Whether an entry's address is locked: with it, or since the entry after it is locked and
    /// begins there.
    #[tactic(auto, unfolding(crate::specs::Values::address_is_locked))]
    fn address_is_locked(&self, number: usize) -> bool
        requires { number < 16 }
        ensures { result ≡ address_is_locked self.now number }
    {
        has_bit(u64::from(self.entry(number).cfg), PMP_LOCK)
            || (number < 15 && is_locked_from_below(self.entry(number + 1).cfg))
    }
}

/// The register that has the columns of a name.
fn csr_named(name: CsrName) -> Csr
    ensures { result ≡ csr_named name }
{
    match name {
        CsrName::Mstatus => Csr::Mstatus,
        CsrName::Misa => Csr::Misa,
        CsrName::Medeleg => Csr::Medeleg,
        CsrName::Mideleg => Csr::Mideleg,
        CsrName::Mie => Csr::Mie,
        CsrName::Mtvec => Csr::Mtvec,
        CsrName::Mscratch => Csr::Mscratch,
        CsrName::Mepc => Csr::Mepc,
        CsrName::Mcause => Csr::Mcause,
        CsrName::Mtval => Csr::Mtval,
        CsrName::Mip => Csr::Mip,
        CsrName::Satp => Csr::Satp,
        CsrName::Sstatus => Csr::Sstatus,
        CsrName::Sie => Csr::Sie,
        CsrName::Sip => Csr::Sip,
        CsrName::Stvec => Csr::Stvec,
        CsrName::Sscratch => Csr::Sscratch,
        CsrName::Sepc => Csr::Sepc,
        CsrName::Scause => Csr::Scause,
        CsrName::Stval => Csr::Stval,
        CsrName::Pmpcfg0 => Csr::Pmpcfg0,
        CsrName::Pmpcfg2 => Csr::Pmpcfg2,
    }
}

/// The bits of each register that are always 1.
fn fixed_values(profile: &CsrProfile, all: &[StoredCsr; STORED_CSRS]) -> [u64; STORED_CSRS]
    requires { all.now ≡ stored_csrs }
    ensures { result ≡ map (fixed_bits profile.now) stored_csrs }
{
    let mut values = [0; STORED_CSRS];
    for i in 0..STORED_CSRS {
        values[i] = profile.fixed(all[i]);
    }
    values
}

/// mstatus as it reads: SD is 1 where the state of a unit is 3.
fn status_shown(status: u64) -> u64
    ensures { result ≡ status_shown status }
{
    if (status >> FS) % 4 == 3 || (status >> VS) % 4 == 3 {
        status | 1 << SD
    } else {
        status
    }
}

/// Whether the hart has a mode of satp.
pub(crate) fn is_supported_mode(mode: u64) -> bool
    ensures { result ≡ is_supported_mode mode }
{
    mode == BARE || mode == SV39
}

/// A configuration byte after a write of it: as it was where its entry is locked, and where W would
/// come without R.
#[tactic(auto, unfolding(crate::specs::Values::configuration_after))]
fn configuration_after(old: u8, byte: u8) -> u8
    ensures { result ≡ configuration_after old byte }
{
    if has_bit(u64::from(old), PMP_LOCK) || byte % 4 == 2 {
        old
    } else {
        byte % 32 + byte / 128 % 2 * 128
    }
}

/// Whether an entry with this configuration is locked and begins at the address of the entry before
/// it.
fn is_locked_from_below(configuration: u8) -> bool
    ensures { result ≡ is_locked_from_below configuration }
{
    has_bit(u64::from(configuration), PMP_LOCK) && (configuration >> PMP_MATCHING) % 4 == 1
}
