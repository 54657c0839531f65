//! What holds of every join.

ghost use Rattle.std.specs.Prelude.{◌≡◌, ℕ, List, All, true};
ghost use Rattle.hart_words.specs.declared.span.Span.{Span};
ghost use Rattle.hart_words.specs.Memory.{Bytes};
ghost use Rattle.hart_words.specs.States.{State};
ghost use Rattle.rvfi_rows.specs.Columns.{TraceColumns};
ghost use Rattle.rvfi_rows.specs.Rows.{RowReading};
ghost use Rattle.hart_step.specs.declared.state.Core.{Core};
ghost use Rattle.hart_step.specs.HartSets.{SetState};
ghost use Rattle.segment_judge.specs.declared.found.Found.{Found};
ghost use Rattle.segment_judge.specs.declared.judged.Judged.{Judged};
ghost use Rattle.segment_judge.specs.Judgements.{Judgement, Judging, by_set};
ghost use Rattle.verdict_join.specs.Agreement.{AgreeAsJudged};
ghost use Rattle.verdict_join.specs.Elsewhere.{IsUsableOverEqualRam};
ghost use Rattle.verdict_join.specs.Guessed.{AgreesFrom, ShowsFrom, guessed_candidates};
ghost use Rattle.verdict_join.specs.Joins.{Candidate, Joined, Sameness, joined, walk};
ghost use Rattle.verdict_join.specs.Laws.{AllMet, AreJudgedInTurn, EachIsJudged, IsLawfulCandidate, JoinsAnyGuesses, TellsApart, misses};
ghost use Rattle.verdict_join.specs.Rounds.{AreRounds, SettleAll, SettlesSome, rejudged_in};

/// Whatever was guessed, and whichever segments were judged from their guesses: the verdict of the
/// join is that on all rows from the true state, and so is the state after them.
pub fn guesses_decide_nothing<C>()
    ensures { (judging : Judging C) (same : Sameness C) (segments : List (Candidate C))
        (now : State C) → JoinsAnyGuesses judging same segments now }
{}

/// A segment is judged again just where it is reached and its judgement is not adopted: so many
/// are. None is where each was judged from a guess that is the true state.
pub fn guesses_cost_judging_again<C>()
    ensures counted { (judging : Judging C) (same : Sameness C) (segments : List (Candidate C))
        (now : State C) → TellsApart same → All (IsLawfulCandidate judging) segments
        → (joined judging same segments now).rejudged ≡ misses judging same segments now }
    ensures none { (judging : Judging C) (same : Sameness C) (segments : List (Candidate C))
        (now : State C) → TellsApart same → AllMet judging segments now
        → misses judging same segments now ≡ 0 }
{}

/// A trace whose valid rows show what they change, where A and D that are clear are page faults, is
/// judged once, whether they agree or not: up to the first segment that does not agree each guess
/// is the true state, and none is judged again.
pub fn true_guesses_cost_nothing()
    ensures { (start : SetState) (columns : TraceColumns) (pieces : List (List (List ℕ)))
        (founds : List (Found (Judgement (List Core)))) (same : Sameness (List Core))
        → ShowsFrom start columns pieces → TellsApart same
        → let segments = guessed_candidates start columns pieces founds in
        All (IsLawfulCandidate by_set) segments → AreJudgedInTurn by_set segments
        → (joined by_set same segments start).rejudged ≡ 0 }
{}

/// Rows agree from a state exactly where the verdict on them says so; it then counts them all, and
/// the harts after them are in the state after them.
pub fn rows_agree_where_the_verdict_says_so()
    ensures { (start : SetState) (rows : List RowReading) → AgreeAsJudged start rows }
{}

/// Where the rows of a trace agree, the valid ones show what they change, and A and D that are
/// clear are page faults, each segment that is judged in turn is judged: none is skipped.
pub fn agreeing_segments_are_judged()
    ensures { (start : SetState) (columns : TraceColumns) (pieces : List (List (List ℕ)))
        (founds : List (Found (Judgement (List Core)))) → AgreesFrom start columns pieces
        → let segments = guessed_candidates start columns pieces founds in
        AreJudgedInTurn by_set segments → EachIsJudged segments }
{}

/// Who judges a segment elsewhere, from a state that harts can be in, owes equal RAM alone: then
/// the judgement may be used as any other.
pub fn equal_ram_is_enough<M>()
    ensures { (bytes_of : M → Bytes) (ram_of : M → Span) (start : SetState)
        (ram : Span) (columns : TraceColumns) (lines : List (List ℕ)) (judged : Judged M)
        → IsUsableOverEqualRam bytes_of ram_of ram start columns lines judged }
{}

/// A walk that ends after the first segment which it has to judge again settles one at least, and
/// has the verdict on the rows of those that it settled, and the state after them.
pub fn a_round_settles_some<C>()
    ensures { (judging : Judging C) (same : Sameness C) (segments : List (Candidate C))
        (now : State C) → TellsApart same → All (IsLawfulCandidate judging) segments
        → SettlesSome judging segments now (walk judging same true segments now) }
{}

/// Rounds, each made anew from the true state after the one before, come to the verdict on all
/// lines: there are as many as segments that are judged again, or one more, at least one where
/// there is a segment, and no more than segments. Where the valid rows show what they change, and A
/// and D that are clear are page faults, no segment is judged again.
pub fn rounds_settle_all()
    ensures all { (start : SetState) (columns : TraceColumns) (pieces : List (List (List ℕ)))
        (rounds : List (Joined (List Core))) → AreRounds start columns pieces rounds
        → SettleAll start columns pieces rounds }
    ensures none { (start : SetState) (columns : TraceColumns) (pieces : List (List (List ℕ)))
        (rounds : List (Joined (List Core))) → AreRounds start columns pieces rounds
        → ShowsFrom start columns pieces → rejudged_in rounds ≡ 0 }
{}

/// Some test tells the states of harts apart, so that what holds of every such test says
/// something.
pub fn states_are_told_apart()
    ensures { (same : Sameness (List Core)) × TellsApart same }
{}
