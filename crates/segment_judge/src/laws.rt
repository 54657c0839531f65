//! What holds of judgements.

ghost use Rattle.std.specs.Prelude.{ℕ, List};
ghost use Rattle.hart_words.specs.declared.span.Span.{Span};
ghost use Rattle.hart_words.specs.Memory.{Bytes};
ghost use Rattle.hart_words.specs.States.{State};
ghost use Rattle.rvfi_rows.specs.Columns.{TraceColumns};
ghost use Rattle.rvfi_rows.specs.Rows.{RowReading};
ghost use Rattle.hart_step.specs.declared.state.Core.{Core};
ghost use Rattle.hart_step.specs.HartSets.{SetState};
ghost use Rattle.segment_judge.specs.declared.judged.Judged.{Judged};
ghost use Rattle.segment_judge.specs.Judgements.{Judging};
ghost use Rattle.segment_judge.specs.Histories.{HistoryInParts, HistoryIsFramed, HistoryIsTold};
ghost use Rattle.segment_judge.specs.Laws.{FramedByFootprint, JudgedInParts};
ghost use Rattle.segment_judge.specs.OneHart.{OneHartJudgesAlone, RowsAreOfFirst};
ghost use Rattle.segment_judge.specs.Ram.{FootprintLiesInRam, TouchesRamAlone};

/// Rows may be judged in parts: all of them, or the first part and then the others from the state
/// after it, come to the same verdict and the same end.
pub fn rows_are_judged_in_parts<C>()
    ensures { (judging : Judging C) (state : State C) (rows others : List RowReading)
        → JudgedInParts judging state rows others }
{}

/// A judgement depends on no more of memory than it read before it wrote it: from memories that
/// agree on that it is the same, and what it wrote can be moved from one to the other.
pub fn judgements_are_framed<C>()
    ensures { (judging : Judging C) (core : C) (rows : List RowReading) (one other : Bytes)
        → FramedByFootprint judging core rows one other }
{}

/// A judgement by the reference harts reads and writes RAM alone, and so all bytes that are noted
/// of it are RAM: who judges elsewhere, over the same RAM, owes no proof of that.
pub fn judgements_touch_ram_alone<M>()
    ensures accesses { (ram : Span) (cores : List Core) (rows : List RowReading) (bytes : Bytes)
        → TouchesRamAlone ram cores rows bytes }
    ensures noted { (bytes_of : M → Bytes) (ram : Span) (start : SetState) (rows : List RowReading)
        (judged : Judged M) → FootprintLiesInRam bytes_of ram start rows judged }
{}

/// With one hart the set is the hart: the rows of a trace of one hart come to what they come to by
/// that hart alone. Each valid row that is read for one hart is of it.
pub fn one_hart_judges_alone()
    ensures alone { (core : Core) (rows : List RowReading) (bytes : Bytes)
        → OneHartJudgesAlone core rows bytes }
    ensures rows { (columns : TraceColumns) (lines : List (List ℕ))
        → RowsAreOfFirst columns lines }
{}

/// What rows did up to the verdict on them, row by row, is what the trail of all of them tells: what
/// each row before the one that ends the judgement did, and what this one did, where it differs.
pub fn histories_are_told()
    ensures { (state : SetState) (rows : List RowReading) → HistoryIsTold state rows }
{}

/// What rows did may be told in parts: what the first part did, and then the others from the state
/// after it.
pub fn histories_are_told_in_parts()
    ensures { (state : SetState) (rows others : List RowReading)
        → HistoryInParts state rows others }
{}

/// From memories that agree on what a judgement read before it wrote it the rows do the same: so the
/// last writers of a segment that was judged from a guess which is met are the true ones.
pub fn histories_are_framed()
    ensures { (cores : List Core) (rows : List RowReading) (one other : Bytes)
        → HistoryIsFramed cores rows one other }
{}
