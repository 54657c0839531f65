//! The parts of a hart's state, one by one.

ghost use Rattle.std.specs.Prelude.{◌≡◌};

use crate::state::Core;
use csr_file::Csrs;
use hart_words::{Choices, Map, Mode, Registers};
use rv_atomic::Reservation;

/// The parts of a hart that change as it runs, but for memory.
#[derive(Clone, Copy, Debug)]
pub struct CoreParts {
    pub registers: Registers,
    pub pc: u64,
    pub mode: Mode,
    pub csrs: Csrs,
    pub reservation: Reservation,
    pub next_order: Option<u64>,
    pub trapped_last: bool,
    pub halted: bool,
}

impl Core {
    ghost use Rattle.std.specs.Prelude.{◌%◌};
    ghost use Rattle.csr_file.specs.Legal.{IsLegal};
    ghost use Rattle.hart_step.specs.Cores.{IsSound, IsSoundReservation, core_of};

    /// A hart of these parts, with a map and choices: any that a sound hart can have.
    pub fn of(parts: CoreParts, map: Map, choices: Choices) -> Core
        requires even { parts.pc % 2 ≡ 0 }
        requires legal { IsLegal parts.csrs }
        requires reserved { IsSoundReservation map.ram choices.block_size parts.reservation }
        ensures state { result ≡ core_of parts map choices }
        ensures sound { IsSound result }
    {
        Core {
            registers: parts.registers,
            pc: parts.pc,
            mode: parts.mode,
            csrs: parts.csrs,
            reservation: parts.reservation,
            next_order: parts.next_order,
            trapped_last: parts.trapped_last,
            halted: parts.halted,
            map,
            choices,
        }
    }

    /// The integer registers.
    pub fn registers(&self) -> &Registers
        ensures { result.now ≡ self.now.registers }
    {
        &self.registers
    }

    /// The address of the next instruction.
    pub fn pc(&self) -> u64
        ensures { result ≡ self.now.pc }
    {
        self.pc
    }

    pub fn mode(&self) -> Mode
        ensures { result ≡ self.now.mode }
    {
        self.mode
    }

    /// The control and status registers.
    pub fn csrs(&self) -> &Csrs
        ensures { result.now ≡ self.now.csrs }
    {
        &self.csrs
    }

    /// What LR reserved.
    pub fn reservation(&self) -> Reservation
        ensures { result ≡ self.now.reservation }
    {
        self.reservation
    }

    /// The order index that the next row must show, once one is known.
    pub fn next_order(&self) -> Option<u64>
        ensures { result ≡ self.now.next_order }
    {
        self.next_order
    }

    /// Whether the last row took a synchronous trap.
    pub fn trapped_last(&self) -> bool
        ensures { result ≡ self.now.trapped_last }
    {
        self.trapped_last
    }

    /// Whether a row showed that the hart halts.
    pub fn halted(&self) -> bool
        ensures { result ≡ self.now.halted }
    {
        self.halted
    }
}
