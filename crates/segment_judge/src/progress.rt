//! How far a segment was judged.

ghost use Rattle.std.specs.Prelude.{◌≡◌, ◌≤◌, ◌<◌, ◌+◌, ◌^◌, Bool, [], List, Ok, Some, IfOk, IfNone};
ghost use Rattle.hart_step.specs.HartSets.{SetCanStep};
ghost use Rattle.rvfi_rows.specs.Cells.{shown_in};
ghost use Rattle.rvfi_rows.specs.Readings.{reading_of};
ghost use Rattle.read_footprint.specs.Footprints.{Accesses};
ghost use Rattle.read_footprint.specs.Sets.{IsFootprintOf};
ghost use Rattle.row_origin.specs.Histories.{IsKept, history_of};
ghost use Rattle.row_origin.specs.Trails.{Trail};

use hart_step::Harts;
use hart_words::{NoMemory, PhysMem};
use read_footprint::Footprint;
use row_compare::first_difference;
use row_origin::{History, history_if, note_difference, note_row};
use rvfi_rows::{Reading, Row, RowCounts, Stepped, Verdict};
use std::alloc::Global;

/// How far a segment was judged: the harts, what the rows read and wrote, how many there were, and
/// what the last step gave, which is large and is put in place again by the next; and where it is
/// asked for what the rows did.
#[derive(Drop)]
pub(crate) struct Progress<M> {
    pub harts: Harts<M>,
    pub footprint: Footprint,
    pub counts: RowCounts,
    pub stepped: Stepped,
    pub history: Option<History>,
}

impl<M: PhysMem + Drop> Progress<M> {
    ghost use Rattle.segment_judge.specs.Progress.{CanJudge, JudgesRow, NotesRow};

    /// No row was judged yet.
    pub fn before(alloc: Global, harts: Harts<M>, origin: bool) -> Progress<M>
        requires { SetCanStep M.ram harts }
        ensures harts { result.harts ≡ harts }
        ensures rows { result.counts.rows ≡ 0 }
        ensures valid { result.counts.valid ≡ 0 }
        ensures footprint { IsFootprintOf result.footprint [] }
        ensures can_judge { CanJudge M.ram result }
        ensures history { IsKept origin (history_of []) result.history }
    {
        Progress {
            harts,
            footprint: Footprint::empty(alloc),
            counts: RowCounts::zero(),
            stepped: Stepped::halted(),
            history: history_if(alloc, origin),
        }
    }

    /// Judges one row, which reads so; `row` shows what it shows where it is valid. `Some` where
    /// the segment ends with it.
    pub fn judge_row(&mut self, reading: Reading, row: &Row) -> Result<Option<Verdict>, NoMemory>
        requires can_judge { CanJudge M.ram self.old }
        requires below_2_to_63 { self.old.counts.rows < 2 ^ 63 }
        ensures judges { IfOk result (λ end. (accesses : List Accesses) → JudgesRow M.bytes self.old
            self.new (reading_of reading (shown_in row.now)) end accesses) }
        ensures notes { IfOk result (λ end. (origin : Bool) (trail : Trail) → NotesRow M.bytes
            origin self.old self.new (reading_of reading (shown_in row.now)) end trail) }
        ensures can_judge { IfOk result (λ end. CanJudge M.ram self.new) }
        ensures ram { M.ram self.new.harts.mem ≡ M.ram self.old.harts.mem }
        ensures rows { IfOk result (λ end. IfNone end
            (self.new.counts.rows ≡ self.old.counts.rows + 1)) }
    {
        match reading {
            Reading::Refused(fault) => Ok(Some(Verdict::Refused {
                row: self.counts.rows + 1,
                fault,
            })),
            Reading::Invalid => {
                self.counts = self.counts.with_row(false);
                Ok(None)
            }
            Reading::Valid => self.judge_valid(row),
        }
    }

    /// Judges a valid row: its hart is stepped by it, and it is compared with what the hart did.
    fn judge_valid(&mut self, row: &Row) -> Result<Option<Verdict>, NoMemory>
        requires can_judge { CanJudge M.ram self.old }
        requires below_2_to_63 { self.old.counts.rows < 2 ^ 63 }
        ensures judges { IfOk result (λ end. (accesses : List Accesses) → JudgesRow M.bytes self.old
            self.new (Ok (Some (shown_in row.now))) end accesses) }
        ensures notes { IfOk result (λ end. (origin : Bool) (trail : Trail) → NotesRow M.bytes
            origin self.old self.new (Ok (Some (shown_in row.now))) end trail) }
        ensures can_judge { IfOk result (λ end. CanJudge M.ram self.new) }
        ensures ram { M.ram self.new.harts.mem ≡ M.ram self.old.harts.mem }
        ensures rows { IfOk result (λ end. IfNone end
            (self.new.counts.rows ≡ self.old.counts.rows + 1)) }
    {
        self.harts.step_into(row, &mut self.stepped)?;
        self.footprint.add(&self.stepped.seen, &self.stepped.wrote)?;
        match first_difference(&self.stepped.expected, row) {
            Some(difference) => {
                self.counts = self.counts.with_row(false);
                note_difference(&mut self.history, &self.stepped, row.hart())?;
                Ok(Some(Verdict::Differs {
                    row: self.counts.rows,
                    difference,
                }))
            }
            None => {
                self.counts = self.counts.with_row(true);
                note_row(
                    &mut self.history,
                    &self.stepped,
                    row.hart(),
                    self.counts.rows,
                )?;
                Ok(None)
            }
        }
    }
}
