//! Why a run of the judge goes no further.

ghost use Rattle.std.specs.Prelude.{◌≡◌};
ghost use Rattle.judge_run.specs.Stops.{line_stop};

use hart_words::NoMemory;
use std::alloc::AllocError;
use trace_lines::LineError;
use trace_report::Outcome;

/// Why a run goes no further.
#[derive(Clone, Copy, Debug)]
pub enum Stop {
    /// The outcome is known.
    Known(Outcome),
    /// A read of the shelf failed, and the shelf counted it.
    ReadFault,
    NoMemory,
}

impl From<AllocError> for Stop {
    ghost use Rattle.std.specs.Prelude.{◌≡◌};
    ghost use Rattle.judge_run.specs.declared.stop.Stop.TheVariants.{NoMemory};

    ghost from_gives = { λ _ e. e ≡ NoMemory };

    fn from(_e: AllocError) -> Stop {
        Stop::NoMemory
    }
}

impl From<NoMemory> for Stop {
    ghost use Rattle.std.specs.Prelude.{◌≡◌};
    ghost use Rattle.judge_run.specs.declared.stop.Stop.TheVariants.{NoMemory};

    ghost from_gives = { λ _ e. e ≡ NoMemory };

    fn from(_e: NoMemory) -> Stop {
        Stop::NoMemory
    }
}

/// Why a trace whose lines cannot be taken stops the run.
pub fn line_stop(error: LineError) -> Stop
    ensures { result ≡ line_stop error }
{
    match error {
        LineError::ReadFault => Stop::ReadFault,
        LineError::NoMemory => Stop::NoMemory,
    }
}
