//! Judging the rows of a segment, one after the other.

ghost use Rattle.std.specs.Prelude.{IfOk};
ghost use Rattle.hart_step.specs.HartSets.{SetCanStep, set_state_of};
ghost use Rattle.rvfi_rows.specs.Readings.{readings_in};
ghost use Rattle.rvfi_rows.specs.Rows.{rows_of};
ghost use Rattle.row_origin.specs.Histories.{IsKept};
ghost use Rattle.segment_judge.specs.Histories.{history_from};
ghost use Rattle.segment_judge.specs.Judged.{IsJudgement, IsUsable, HoldsInOtherMemories};

use crate::judged::Judged;
use crate::progress::Progress;
use hart_step::Harts;
use hart_words::{NoMemory, PhysMem};
use rvfi_rows::{Columns, Row, Rows, Segment, Verdict, read_rows};
use std::alloc::Global;

/// Judges the rows of a segment from a state before it. Lines that were not read under these
/// columns are read, and not kept. With `origin` the history of the rows is kept.
pub fn judge<M: PhysMem + Drop>(
    alloc: Global,
    start: &Harts<M>,
    columns: &Columns,
    segment: &Segment,
    origin: bool,
) -> Result<Judged<M>, NoMemory>
    requires { SetCanStep M.ram start.now }
    ensures judged { IfOk result (λ judged. IsJudgement M.bytes (set_state_of M.bytes start.now)
        (rows_of columns.now segment.now.lines) judged) }
    ensures usable { IfOk result (λ judged. IsUsable M.ram (M.ram start.now.mem) judged) }
    // What was read of memory is all of it that the verdict depends on.
    ensures stands { IfOk result (λ judged. HoldsInOtherMemories M.bytes
        (set_state_of M.bytes start.now) (rows_of columns.now segment.now.lines) judged) }
    ensures history { IfOk result (λ judged. IsKept origin (history_from
        (set_state_of M.bytes start.now) (rows_of columns.now segment.now.lines))
        judged.history) }
{
    judge_from(alloc, start.copy()?, columns, segment, origin)
}

/// The same of harts that are not needed any more.
pub fn judge_from<M: PhysMem + Drop>(
    alloc: Global,
    start: Harts<M>,
    columns: &Columns,
    segment: &Segment,
    origin: bool,
) -> Result<Judged<M>, NoMemory>
    requires { SetCanStep M.ram start }
    ensures judged { IfOk result (λ judged. IsJudgement M.bytes (set_state_of M.bytes start)
        (rows_of columns.now segment.now.lines) judged) }
    ensures usable { IfOk result (λ judged. IsUsable M.ram (M.ram start.mem) judged) }
    ensures stands { IfOk result (λ judged. HoldsInOtherMemories M.bytes
        (set_state_of M.bytes start) (rows_of columns.now segment.now.lines) judged) }
    ensures history { IfOk result (λ judged. IsKept origin (history_from
        (set_state_of M.bytes start) (rows_of columns.now segment.now.lines)) judged.history) }
{
    match segment.rows(columns) {
        Some(rows) => judge_rows(alloc, start, rows, origin),
        None => {
            let rows = read_rows(alloc, columns, &segment.lines)?;
            judge_rows(alloc, start, &rows, origin)
        }
    }
}

/// Judges rows that were read.
fn judge_rows<M: PhysMem + Drop>(
    alloc: Global,
    start: Harts<M>,
    rows: &Rows,
    origin: bool,
) -> Result<Judged<M>, NoMemory>
    requires { SetCanStep M.ram start }
    ensures judged { IfOk result (λ judged.
        IsJudgement M.bytes (set_state_of M.bytes start) (readings_in rows.now) judged) }
    ensures usable { IfOk result (λ judged. IsUsable M.ram (M.ram start.mem) judged) }
    ensures stands { IfOk result (λ judged.
        HoldsInOtherMemories M.bytes (set_state_of M.bytes start) (readings_in rows.now) judged) }
    ensures history { IfOk result (λ judged. IsKept origin
        (history_from (set_state_of M.bytes start) (readings_in rows.now)) judged.history) }
{
    let mut progress = Progress::before(alloc, start, origin);
    let mut row = Row::empty();
    for place in 0..rows.len() {
        let reading = match rows.get(place, &mut row) {
            None => unreachable!(),
            Some(reading) => reading,
        };
        match progress.judge_row(reading, &row)? {
            None => {}
            Some(verdict) => return Ok(Judged {
                verdict,
                end: None,
                footprint: progress.footprint,
                history: progress.history,
            }),
        }
    }
    Ok(Judged {
        verdict: Verdict::Agrees {
            rows: progress.counts.rows,
            valid: progress.counts.valid,
        },
        end: Some(progress.harts),
        footprint: progress.footprint,
        history: progress.history,
    })
}
