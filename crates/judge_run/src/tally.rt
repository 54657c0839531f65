//! What is counted of segments that were settled.

ghost use Rattle.std.specs.Prelude.{◌≡◌, ◌≤◌, ◌<◌, ◌+◌, ◌^◌, None, Some};
ghost use Rattle.rvfi_rows.specs.declared.verdict.Verdict.TheVariants.{Agrees};
ghost use Rattle.segment_judge.specs.Judgements.{verdict_after_rows};
ghost use Rattle.verdict_join.specs.Walks.{IsWithinRows};
ghost use Rattle.judge_run.specs.Settling.{IsNewTally, LeadsToRound};

use hart_step::Harts;
use row_origin::History;
use rvfi_rows::{RowCounts, Verdict};
use verdict_join::{Joined, Round};

/// How many segments were settled, how many of them were judged again, and how many rows they have.
#[derive(Drop)]
pub(crate) struct Tally {
    pub counts: RowCounts,
    pub settled: usize,
    pub rejudged: u32,
}

/// The segments that rounds settled so far: what was counted of them, and the harts after them.
#[derive(Drop)]
pub(crate) struct Settling<M> {
    pub harts: Harts<M>,
    pub tally: Tally,
    /// What their rows did, where it is asked for.
    pub history: Option<History>,
}

/// Where a round leads.
#[derive(Drop)]
pub(crate) enum AfterRound<M> {
    /// Its segments agree.
    Continue(Settling<M>),
    /// All segments come to this.
    Ends(Joined<M>),
}

impl Tally {
    /// No segment was settled yet.
    pub fn new() -> Tally
        ensures { IsNewTally result }
    {
        Tally {
            counts: RowCounts::zero(),
            settled: 0,
            rejudged: 0,
        }
    }

    /// What segments come to that agree, with these harts after them, and what their rows did.
    pub fn agreement<M>(self, harts: Harts<M>, history: Option<History>) -> Joined<M>
        ensures { result ≡ record {
          verdict = Agrees self.counts.rows self.counts.valid;
          end = Some harts;
          rejudged = self.rejudged;
          history = history;
        } }
    {
        Joined {
            verdict: Verdict::Agrees {
                rows: self.counts.rows,
                valid: self.counts.valid,
            },
            end: Some(harts),
            rejudged: self.rejudged,
            history,
        }
    }

    /// Where a round leads after these segments; what it has of the rows is what all of them did.
    pub fn following<M: Drop>(self, round: Round<M>) -> AfterRound<M>
        requires below_2_to_62 { self.counts.rows < 2 ^ 62 }
        requires within { IsWithinRows (2 ^ 62) round.verdict }
        requires settled { self.settled + round.settled < 2 ^ 32 }
        requires rejudged { self.rejudged + round.rejudged < 2 ^ 32 }
        ensures { LeadsToRound self round result }
    {
        let settled = self.settled + round.settled;
        let rejudged = self.rejudged + round.rejudged;
        match (round.verdict, round.end) {
            (Verdict::Agrees { rows, valid }, Some(harts)) => {
                let tally = Tally {
                    counts: self.counts.plus(RowCounts { rows, valid }),
                    settled,
                    rejudged,
                };
                AfterRound::Continue(Settling {
                    harts,
                    tally,
                    history: round.history,
                })
            }
            (verdict, _) => AfterRound::Ends(Joined {
                verdict: verdict_after_rows(self.counts, verdict),
                end: None,
                rejudged,
                history: round.history,
            }),
        }
    }
}

/// A verdict after so many rows.
pub(crate) fn verdict_after_rows(counts: RowCounts, verdict: Verdict) -> Verdict
    requires below_2_to_62 { counts.rows < 2 ^ 62 }
    requires within { IsWithinRows (2 ^ 62) verdict }
    ensures { result ≡ verdict_after_rows counts.rows counts.valid verdict }
{
    match verdict {
        Verdict::Agrees { rows, valid } => Verdict::Agrees {
            rows: counts.rows + rows,
            valid: counts.valid + valid,
        },
        Verdict::Differs { row, difference } => Verdict::Differs {
            row: counts.rows + row,
            difference,
        },
        Verdict::Refused { row, fault } => Verdict::Refused {
            row: counts.rows + row,
            fault,
        },
    }
}
