//! That the values of harts are words, and those of their memory bytes.

ghost use Rattle.std.specs.Prelude.{◌<◌, ◌^◌};
ghost use Rattle.std.specs.List.{All};
ghost use Rattle.hart_step.specs.Harts.{CoreHoldsWords};
ghost use Rattle.hart_step.specs.HartSets.{SetHoldsWords, set_state_of};

use crate::harts::Harts;
use crate::state::Core;
use hart_words::{PhysMem, PmpEntry};

/// Tells a proof that the values of harts are words, and those of their memory bytes. Their types
/// say so, but a proof learns it only where they are read. Nothing else comes of the call.
pub fn set_holds_words<M: PhysMem + Drop>(set: &Harts<M>)
    ensures { SetHoldsWords (set_state_of M.bytes set.now) }
{
    hold_core_words(&set.cores);
}

fn hold_core_words(cores: &[Core])
    ensures { All CoreHoldsWords cores.now }
{
    for core in cores {
        core_holds_words(core);
    }
}

fn core_holds_words(core: &Core)
    ensures { CoreHoldsWords core.now }
{
    is_word(core.pc);
    are_words(&core.registers.values);
    are_words(&core.csrs.values);
    are_bytes(&core.csrs.entries);
}

fn is_word(value: u64)
    ensures { value < 2 ^ 64 }
{}

fn are_words(values: &[u64])
    ensures { All (λ value. value < 2 ^ 64) values.now }
{
    for value in values {
        is_word(*value);
    }
}

fn is_byte(value: u8)
    ensures { value < 2 ^ 8 }
{}

/// The configurations of entries of protection are bytes.
fn are_bytes(entries: &[PmpEntry])
    ensures { All (λ entry. entry.cfg < 2 ^ 8) entries.now }
{
    for entry in entries {
        is_byte(entry.cfg);
    }
}
