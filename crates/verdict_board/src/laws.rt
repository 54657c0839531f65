//! What the rule comes to, and what each step is.

ghost use Rattle.std.specs.Prelude.{ℕ, List};
ghost use Rattle.verdict_board.specs.declared.view.View.{View};
ghost use Rattle.verdict_board.specs.Points.{FollowsRule};
ghost use Rattle.verdict_board.specs.Rule.{Kept};
ghost use Rattle.verdict_board.specs.Steps.{ClaimIsEvent, JoinIsNone, LookIsEvent, OpeningShows, PostIsEvent, SplitIsNone};

/// What the rule says of the words and the views, without the machine.
pub fn rule_is_followed()
    ensures { (n seats : ℕ) (words : List ℕ) (views : List View) → Kept n seats words views
        → FollowsRule n seats words views }
{}

/// Each step takes words and views that show a run of the machine to some that show it with one
/// event more: its own. Cutting and joining seats is no event.
pub fn steps_are_events()
    ensures opening { OpeningShows }
    ensures claim { ClaimIsEvent }
    ensures look { LookIsEvent }
    ensures post { PostIsEvent }
    ensures split { SplitIsNone }
    ensures join { JoinIsNone }
{}
