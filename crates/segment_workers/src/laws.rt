//! What holds of what workers found.

ghost use Rattle.std.specs.Prelude.{map};
ghost use Rattle.hart_words.specs.declared.span.Span.{Span};
ghost use Rattle.hart_words.specs.Memory.{Bytes};
ghost use Rattle.rvfi_rows.specs.Segments.{segment_lines};
ghost use Rattle.hart_step.specs.HartSets.{SetState};
ghost use Rattle.segment_judge.specs.Judgements.{by_set};
ghost use Rattle.verdict_join.specs.Guessed.{AgreesFrom};
ghost use Rattle.verdict_join.specs.Joining.{candidates_of};
ghost use Rattle.verdict_join.specs.Laws.{AreJudgedInTurn, EachIsJudged};
ghost use Rattle.segment_workers.specs.Laws.{EventsLeaveFounds, IsGuessedFrom, IsPromised, WorkerRun};

/// Some events of the board's machine leave what `run` found: each list of events by which the
/// closing of the board explains the draws, posts and looks of the seat that `run` returned. What
/// the run found of segments is told by these events: who drew each segment, what a look answered
/// that made a worker judge or skip it, and that just those were posted which ended the trace.
pub fn some_events_leave_what_run_found<M>()
    ensures { (bytes_of : M → Bytes) (ram_of : M → Span) (ran : WorkerRun M)
        → IsPromised bytes_of ram_of ran → EventsLeaveFounds bytes_of ram_of ran }
{}

/// Each segment is judged, up to the first that does not agree from its guess: one is skipped only
/// where one before it was posted, and that one was found to end the trace.
pub fn segments_are_judged_in_turn<M>()
    ensures { (bytes_of : M → Bytes) (ram_of : M → Span) (ran : WorkerRun M)
        → IsPromised bytes_of ram_of ran → AreJudgedInTurn by_set
        (candidates_of bytes_of ran.columns ran.segments ran.guesses ran.founds) }
{}

/// In a trace whose rows agree and show what they change, each segment is judged: none is skipped.
pub fn agreeing_segments_are_judged<M>()
    ensures { (bytes_of : M → Bytes) (ram_of : M → Span) (ran : WorkerRun M) (start : SetState)
        → IsPromised bytes_of ram_of ran → IsGuessedFrom bytes_of start ran
        → AgreesFrom start ran.columns (map segment_lines ran.segments)
        → EachIsJudged (candidates_of bytes_of ran.columns ran.segments ran.guesses ran.founds) }
{}
