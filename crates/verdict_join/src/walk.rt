//! How far segments were walked.

ghost use Rattle.std.specs.Prelude.{◌≡◌, ◌≤◌, ◌<◌, ◌+◌, ◌^◌, ℕ, IfOk, OnOk, IfSome, None, Some, length, if◌then◌else◌};
ghost use Rattle.std.specs.Option.{is_none};
ghost use Rattle.hart_step.specs.HartSets.{SetCanStep, set_state_of};
ghost use Rattle.rvfi_rows.specs.declared.verdict.Verdict.TheVariants.{Agrees};
ghost use Rattle.rvfi_rows.specs.Rows.{rows_of};
ghost use Rattle.row_origin.specs.Histories.{Follows, Grows, IsKept, KeptCountsFrom};
ghost use Rattle.segment_judge.specs.Histories.{history_from};
ghost use Rattle.segment_judge.specs.Judged.{IsUsable, moved_end};
ghost use Rattle.segment_judge.specs.Judgements.{by_set};
ghost use Rattle.segment_judge.specs.Laws.{conclusion_from};
ghost use Rattle.verdict_join.specs.Walks.{Concludes, CountsOn, IsReached, IsWithinRows, PassesRows};

use crate::joined::Round;
use hart_step::Harts;
use hart_words::{NoMemory, PhysMem};
use row_origin::{History, follow};
use rvfi_rows::{Columns, RowCounts, Segment, Verdict};
use segment_judge::{Judged, judge};
use std::alloc::Global;

/// How far segments were walked: the true state of the harts after them, how many rows and valid
/// rows they have, how many of them were judged again, and where it is asked for what their rows
/// did.
#[derive(Drop)]
pub(crate) struct Walk<M> {
    pub harts: Harts<M>,
    pub counts: RowCounts,
    pub rejudged: u32,
    pub history: Option<History>,
}

impl<M: PhysMem + Drop> Walk<M> {
    /// So many segments that were walked, and agree.
    pub fn agreeing_round(self, settled: usize) -> Round<M>
        ensures { result ≡ record {
          verdict = Agrees self.counts.rows self.counts.valid;
          end = Some self.harts;
          settled = settled;
          rejudged = self.rejudged;
          history = self.history;
        } }
    {
        Round {
            verdict: Verdict::Agrees {
                rows: self.counts.rows,
                valid: self.counts.valid,
            },
            end: Some(self.harts),
            settled,
            rejudged: self.rejudged,
            history: self.history,
        }
    }

    /// So many segments that were walked, to this verdict on the last.
    pub fn ending_round(self, settled: usize, verdict: Verdict) -> Round<M>
        ensures { result ≡ record {
          verdict = verdict;
          end = None;
          settled = settled;
          rejudged = self.rejudged;
          history = self.history;
        } }
    {
        Round {
            verdict,
            end: None,
            settled,
            rejudged: self.rejudged,
            history: self.history,
        }
    }

    /// Passes the rows of a segment: as they were judged from a guess that is met, or by judging
    /// them again from the true state. `Some` where the walk ends with them.
    pub fn pass(
        &mut self,
        alloc: Global,
        columns: &Columns,
        segment: &Segment,
        adopted: Option<&Judged<M>>,
        origin: bool,
    ) -> Result<Option<Verdict>, NoMemory>
        requires can_step { SetCanStep M.ram self.old.harts }
        requires below_2_to_62 { self.old.counts.rows
            + length (rows_of columns.now segment.now.lines) < 2 ^ 62 }
        requires again { self.old.rejudged + 1 < 2 ^ 32 }
        requires adopted { IfSome adopted (λ judged. Concludes M.bytes
            (set_state_of M.bytes self.old.harts) (rows_of columns.now segment.now.lines)
            judged.now) }
        requires usable { IfSome adopted (λ judged.
            IsUsable M.ram (M.ram self.old.harts.mem) judged.now) }
        requires kept { IfSome adopted (λ judged. IsKept origin
            (history_from (set_state_of M.bytes self.old.harts)
            (rows_of columns.now segment.now.lines)) judged.now.history) }
        ensures passes { IfOk result (λ end. PassesRows M.bytes self.old self.new
            (rows_of columns.now segment.now.lines) end) }
        ensures again { IfOk result (λ end. self.new.rejudged
            ≡ self.old.rejudged + (if is_none adopted.entry then 1 else 0)) }
        ensures can_step { IfOk result (λ end. SetCanStep M.ram self.new.harts) }
        ensures ram { IfOk result (λ end. M.ram self.new.harts.mem ≡ M.ram self.old.harts.mem) }
        ensures rows { IfOk result (λ end. self.new.counts.rows
            ≤ self.old.counts.rows + length (rows_of columns.now segment.now.lines)) }
        ensures history { IfOk result (λ end. Grows origin (history_from
            (set_state_of M.bytes self.old.harts) (rows_of columns.now segment.now.lines))
            self.old.counts.rows self.old.history self.new.history) }
    {
        match adopted {
            Some(judged) => {
                self.adopt(judged)?;
                Ok(self.count(judged.verdict))
            }
            None => {
                let verdict = self.judge_again(alloc, columns, segment, origin)?;
                Ok(self.count(verdict))
            }
        }
    }

    /// Goes on after a segment as it was judged, from a guess that is met.
    fn adopt(&mut self, judged: &Judged<M>) -> Result<(), NoMemory>
        requires can_step { SetCanStep M.ram self.old.harts }
        requires usable { IsUsable M.ram (M.ram self.old.harts.mem) judged.now }
        requires fits { KeptCountsFrom self.old.counts.rows judged.now.history }
        ensures reached { OnOk result (IsReached (moved_end M.bytes judged.now
            (M.bytes self.old.harts.mem)) (set_state_of M.bytes self.new.harts)) }
        ensures counts { self.new.counts ≡ self.old.counts }
        ensures again { self.new.rejudged ≡ self.old.rejudged }
        ensures can_step { OnOk result (SetCanStep M.ram self.new.harts) }
        ensures ram { M.ram self.new.harts.mem ≡ M.ram self.old.harts.mem }
        ensures follows { OnOk result (Follows self.old.history judged.now.history
            self.old.counts.rows self.new.history) }
    {
        follow(&mut self.history, &judged.history, self.counts.rows)?;
        if let Some(end) = &judged.end {
            judged.footprint.moved(&mut self.harts.mem, &end.mem)?;
            self.harts.take_cores(end)?;
        }
        Ok(())
    }

    /// Judges a segment from the true state, and goes on after it: the verdict on it.
    fn judge_again(
        &mut self,
        alloc: Global,
        columns: &Columns,
        segment: &Segment,
        origin: bool,
    ) -> Result<Verdict, NoMemory>
        requires can_step { SetCanStep M.ram self.old.harts }
        requires below_2_to_62 { self.old.counts.rows
            + length (rows_of columns.now segment.now.lines) < 2 ^ 62 }
        requires again { self.old.rejudged + 1 < 2 ^ 32 }
        ensures verdict { IfOk result (λ verdict. verdict ≡ (conclusion_from by_set
            (set_state_of M.bytes self.old.harts)
            (rows_of columns.now segment.now.lines)).verdict) }
        ensures reached { OnOk result (IsReached (conclusion_from by_set
            (set_state_of M.bytes self.old.harts) (rows_of columns.now segment.now.lines)).end
            (set_state_of M.bytes self.new.harts)) }
        ensures counts { self.new.counts ≡ self.old.counts }
        ensures again { OnOk result (self.new.rejudged ≡ self.old.rejudged + 1) }
        ensures can_step { SetCanStep M.ram self.new.harts }
        ensures ram { M.ram self.new.harts.mem ≡ M.ram self.old.harts.mem }
        ensures history { OnOk result (Grows origin (history_from
            (set_state_of M.bytes self.old.harts) (rows_of columns.now segment.now.lines))
            self.old.counts.rows self.old.history self.new.history) }
    {
        let Judged {
            verdict,
            end,
            history,
            ..
        } = judge(alloc, &self.harts, columns, segment, origin)?;
        follow(&mut self.history, &history, self.counts.rows)?;
        self.rejudged += 1;
        match end {
            None => Ok(verdict),
            Some(end) => {
                self.harts = end;
                Ok(verdict)
            }
        }
    }

    /// Counts the rows of a verdict. `Some` where the walk ends with it.
    fn count(&mut self, verdict: Verdict) -> Option<Verdict>
        requires below_2_to_62 { self.old.counts.rows < 2 ^ 62 }
        requires within { IsWithinRows (2 ^ 62) verdict }
        ensures counts { CountsOn self.old self.new verdict result }
        ensures harts { self.new.harts ≡ self.old.harts }
        ensures again { self.new.rejudged ≡ self.old.rejudged }
        ensures history { self.new.history ≡ self.old.history }
        ensures rows { (count : ℕ) → IsWithinRows count verdict
            → self.new.counts.rows ≤ self.old.counts.rows + count }
    {
        match verdict {
            Verdict::Agrees { rows, valid } => {
                self.counts = self.counts.plus(RowCounts { rows, valid });
                None
            }
            Verdict::Differs { row, difference } => Some(Verdict::Differs {
                row: self.counts.rows + row,
                difference,
            }),
            Verdict::Refused { row, fault } => Some(Verdict::Refused {
                row: self.counts.rows + row,
                fault,
            }),
        }
    }
}
