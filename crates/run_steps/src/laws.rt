//! What holds of the steps of a run.

ghost use Rattle.std.specs.Prelude.{◌≡◌, ◌+◌, ℕ, List, []};
ghost use Rattle.mse_calls.specs.declared.events.Event.{Event};
ghost use Rattle.run_steps.specs.Happenings.{Happening};
ghost use Rattle.run_steps.specs.Laws.{AreAtRest, HasEnded, IsFrontOf, IsResting, IsWhereHeard};
ghost use Rattle.run_steps.specs.Steps.{Run, Todo, run_for};
ghost use Rattle.run_steps.specs.Ways.{Way};

/// What happened after some steps is a front of what happened after more; and a run has one end.
pub fn front_law()
    ensures front { (ways : List Way) (r : Run) (n m : ℕ)
        → IsFrontOf (run_for n ways r).happened (run_for (n + m) ways r).happened }
    ensures one_end { (ways : List Way) (r : Run) (n m : ℕ) → HasEnded (run_for n ways r)
        → HasEnded (run_for m ways r) → run_for n ways r ≡ run_for m ways r }
{}

/// No step changes how a run is set.
pub fn setting_law()
    ensures { (ways : List Way) (r : Run) (n : ℕ) → (run_for n ways r).setting ≡ r.setting }
{}

/// In a run in which nothing happened yet and no listener's turn is begun, each listener rests where one hears an event.
pub fn hearing_law()
    ensures { (ways : List Way) (r : Run) (n w : ℕ) (event : Event) (before after : List Happening)
        → r.happened ≡ [] → AreAtRest r.todo
        → IsWhereHeard w event before after (run_for n ways r).happened
        → (v : ℕ) → IsResting v before }
{}
