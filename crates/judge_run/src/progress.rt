//! How far the rows of a trace were judged, which were taken ahead, and how they end.

ghost use Rattle.std.specs.Prelude.{Decides};
ghost use Rattle.judge_run.specs.Parts.{HoldsNone, IsOver};

use crate::taken::is_more;
use hart_step::Harts;
use row_origin::History;
use rvfi_rows::{RowCounts, Segment, Verdict};
use std::alloc::Global;
use trace_lines::{Ending, LineTaker};

/// What is known after the rows of a trace that were judged, and where lines are taken from next.
#[derive(Drop)]
pub(crate) struct Progress<M> {
    pub taker: LineTaker,
    /// The harts after the rows that were judged.
    pub harts: Harts<M>,
    /// How many rows these are.
    pub counts: RowCounts,
    /// What they did, where it is asked for.
    pub history: Option<History>,
}

/// The rows that were taken ahead, in segments: those after the rows that were judged.
#[derive(Drop)]
pub(crate) struct Lookahead {
    /// The part that is settled next; its rows were read.
    pub part: Vec<Segment>,
    /// The part after it.
    pub next: Vec<Segment>,
    /// What follows these.
    pub ending: Ending,
    /// Whether guesses may be wrong: a segment of the part before was judged again, or none was
    /// judged yet.
    pub is_unsure: bool,
}

/// What is left after the rows of a trace that were judged.
#[derive(Drop)]
pub(crate) struct Remaining<M> {
    pub progress: Progress<M>,
    pub lookahead: Lookahead,
}

/// What all rows of a trace come to.
#[derive(Drop)]
pub(crate) struct TraceEnd<M> {
    pub verdict: Verdict,
    /// How the lines end, or `More` where a row before their end does not agree.
    pub ending: Ending,
    /// The harts after all rows, where they agree.
    pub harts: Option<Harts<M>>,
    /// What they did up to one that differs, where it is asked for.
    pub history: Option<History>,
}

/// Where a part leads.
#[derive(Drop)]
pub(crate) enum Passed<M> {
    /// Its rows agree, and this is left.
    Continue(Remaining<M>),
    /// All rows come to this.
    Ends(TraceEnd<M>),
}

impl Lookahead {
    /// No row, and more may follow.
    pub fn none(alloc: Global) -> Lookahead
        ensures { HoldsNone result }
    {
        Lookahead {
            part: Vec::new(alloc),
            next: Vec::new(alloc),
            ending: Ending::More,
            is_unsure: true,
        }
    }

    /// Whether no row was taken ahead, and none follows.
    pub fn is_over(&self) -> bool
        ensures { Decides result (IsOver self.now) }
    {
        self.part.is_empty() && self.next.is_empty() && !is_more(self.ending)
    }
}
