//! The rule of the two words, and what each kind of step tells.

ghost use Rattle.verdict_board.specs.Views.{cut_first, cut_rest, fresh_view, joined_views, numbers_below, spent_view};
ghost use Rattle.verdict_board.specs.Rule.{Kept};
ghost use Rattle.verdict_board.specs.Plays.{Draws, Learns, Puts, Sees};

use crate::view::View;
use atomic_table::{Join, Play, Split, TableRule};

/// What a board is opened with.
#[derive(Drop)]
pub struct Setup {
    pub segments: u32,
    pub seats: u32,
}

/// The rule.
pub struct Order;

impl TableRule<(), View, Setup> for Order {
    ghost holds = { λ setup state. Kept setup.segments setup.seats state.words state.views };

    ghost first = { λ setup. fresh_view setup.segments setup.seats (numbers_below setup.seats) };
}

/// The next number is drawn.
pub struct Draw;

impl Play<(), View> for Draw {
    ghost then = { Draws };
}

/// The least post is looked at.
pub struct See;

impl Play<(), View> for See {
    ghost then = { Sees };
}

/// A segment is posted.
pub struct Put;

impl Play<(), View> for Put {
    ghost then = { Puts };
}

/// Nothing is done, and the rule is learned.
pub struct Learn;

impl Play<(), View> for Learn {
    ghost then = { Learns };
}

/// A seat that has done nothing is cut into its first number and the rest.
pub struct Cut;

impl Split<View> for Cut {
    ghost left = { cut_rest };

    ghost right = { cut_first };
}

/// Two seats become one.
pub struct Glue;

impl Join<View> for Glue {
    ghost both = { joined_views };

    ghost spent = { spent_view };
}
