//! A seat at the board.

ghost use Rattle.std.specs.Prelude.{◌≡◌, ◌<◌, [], length};
ghost use Rattle.verdict_board.specs.Views.{IsExact, IsWhole, is_done};

use crate::view::View;

/// A seat at the board, or several that were joined. It may be dropped: then the board cannot be
/// closed any more.
#[derive(Drop)]
pub struct Seat {
    pub(crate) place: atomic_table::Seat<(), View>,
    /// It has drawn a number that is no segment's.
    pub(crate) done: bool,
    ghost bare: { place.me.1 ≡ [] },
    ghost live: { 0 < length place.me.0.numbers },
    ghost passed: { done ≡ is_done place.me.0 },
    ghost exact: { IsWhole place.me.0 → IsExact place.me.0 },
}
