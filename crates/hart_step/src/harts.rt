//! Harts that share a memory.

use crate::state::Core;
use hart_set::HartSet;

/// The harts of a trace, over the memory that they share.
pub type Harts<M> = HartSet<Core, M>;
