//! What the answers of a board say of its run.
ghost use Rattle.std.specs.Prelude.{◌≡◌, ◌∷◌, [], ℕ, List, Ok, Err};
ghost use Rattle.hk_base.specs.TailoringParts.{TailoringParts};
ghost use Rattle.board_steps.specs.Cores.{Core, new_core};
ghost use Rattle.board_steps.specs.Runs.{IsMade, IsRun};
ghost use Rattle.board_steps.specs.Steps.{Answers, IsEvent};
ghost use Rattle.board_steps.specs.declared.event.BoardFault.{BoardFault};
ghost use Rattle.board_steps.specs.declared.event.Event.{Event};

/// A new board has made no steps. A step that gives a number is one that was made, and makes a run of a board longer by its
/// event. One that answers a fault leaves the board as it was, with the run that it had. So all that is said of runs is said
/// of each board that was made by `BoardCore::new` and `BoardCore::step`.
pub fn answers_make_runs()
    ensures begins { (t : TailoringParts) → IsRun t [] (new_core t) }
    ensures makes { (before : Core) (event : Event) (after : Core) (count : ℕ) → IsEvent before event → Answers before event after (Ok count) → IsMade before event after }
    ensures goes_on { (t : TailoringParts) (earlier : List Event) (before : Core) (event : Event) (after : Core) (count : ℕ) → IsRun t earlier before
        → IsEvent before event → Answers before event after (Ok count) → IsRun t (event ∷ earlier) after }
    ensures refused { (t : TailoringParts) (earlier : List Event) (before : Core) (event : Event) (after : Core) (fault : BoardFault) → IsRun t earlier before
        → Answers before event after (Err fault) → IsRun t earlier after }
{}
