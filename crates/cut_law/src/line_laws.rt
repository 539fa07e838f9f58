//! Lines of a script that were cut off: a function that does nothing, with the law as its contract.

ghost use Rattle.std.specs.Prelude.{ℕ, List, ◌++◌};
ghost use Rattle.mse_calls.specs.declared.entry.Entry.{Entry};
ghost use Rattle.call_script.specs.declared.script.StepLine.{StepLine};
ghost use Rattle.mse_engine.specs.State.{State};
ghost use Rattle.script_run.specs.Lines.{IsLineEntries, IsLineFront};

/// The entries of a line that was cut off are a front of those of a whole line.
pub fn fronts_of_lines()
    ensures { (blobs : List (List ℕ)) (st : State) (line : StepLine) (part : List Entry)
        → IsLineFront blobs st line part
        → (rest : List Entry) × IsLineEntries blobs st line (part ++ rest) }
{}
