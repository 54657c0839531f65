//! The state of a hart but for its memory.

ghost use Rattle.std.specs.Prelude.{◌≡◌, ◌%◌};

use csr_file::{CsrProfile, Csrs};
use hart_words::{Choices, Map, Mode, Registers};
use rv_atomic::Reservation;

/// All of a hart but its memory.
#[derive(Clone, Copy, Debug)]
pub struct Core {
    /// The integer registers.
    pub registers: Registers,
    /// The address of the next instruction.
    pub pc: u64,
    pub mode: Mode,
    pub csrs: Csrs,
    /// What LR reserved.
    pub reservation: Reservation,
    /// The order index that the next row must show, once one is known.
    pub next_order: Option<u64>,
    /// Whether the last row took a synchronous trap.
    pub trapped_last: bool,
    /// Whether a row showed that the hart halts.
    pub halted: bool,
    /// What stands at which physical address. No step changes it.
    pub map: Map,
    /// What the standard leaves to the maker of the core. No step changes it.
    pub choices: Choices,
}

impl Core {
    ghost use Rattle.hart_step.specs.Cores.{core_at_reset, core_at_reset_of, IsSound};

    /// A hart at reset, where nothing is said of its control and status registers.
    #[tactic(auto, unfolding(crate::specs::Cores::core_at_reset))]
    pub fn reset(pc: u64, map: Map, choices: Choices) -> Core
        requires even { pc % 2 ≡ 0 }
        ensures state { result ≡ core_at_reset pc map choices }
        ensures map { result.map ≡ map }
        ensures sound { IsSound result }
    {
        Core::reset_of(&CsrProfile::plain(), pc, map, choices)
    }

    /// A hart at reset: in M, at `pc`, with all integer registers 0.
    #[tactic(auto, unfolding(crate::specs::Cores::core_at_reset_of))]
    pub fn reset_of(profile: &CsrProfile, pc: u64, map: Map, choices: Choices) -> Core
        requires even { pc % 2 ≡ 0 }
        ensures state { result ≡ core_at_reset_of profile.now pc map choices }
        ensures map { result.map ≡ map }
        ensures sound { IsSound result }
    {
        Core {
            registers: Registers::zeros(),
            pc,
            mode: Mode::Machine,
            csrs: Csrs::reset_of(profile),
            reservation: Reservation::NONE,
            next_order: None,
            trapped_last: false,
            halted: false,
            map,
            choices,
        }
    }
}
