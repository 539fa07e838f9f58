//! What follows from the definitions: functions that do nothing, with the laws as their contracts.

ghost use Rattle.std.specs.Prelude.{◌≡◌, ℕ, List};
ghost use Rattle.std.specs.List.{concat, flat_map};
ghost use Rattle.mse_calls.specs.declared.entry.Entry.{Entry};
ghost use Rattle.call_script.specs.declared.script.StepLine.{StepLine};
ghost use Rattle.event_text.specs.Lines.{line_text};
ghost use Rattle.mse_engine.specs.State.{State};
ghost use Rattle.script_run.specs.Follows.{AreLinesBegun};
ghost use Rattle.script_run.specs.Fronts.{IsFrontOfLines};
ghost use Rattle.script_run.specs.Lines.{PlayInputs};
ghost use Rattle.script_run.specs.Text.{lines_in, lines_of};

/// One behind the other, the lines of a text are the text, and those of a journal the texts of its
/// entries.
pub fn lines_are_the_text()
    ensures text { (text : List ℕ) → concat (lines_in text) ≡ text }
    ensures journal { (entries : List Entry)
        → concat (lines_of entries) ≡ flat_map line_text entries }
{}

/// A script that was cut off: some of its lines are done, and then the next may have begun.
pub fn fronts_of_scripts()
    ensures front { (inputs : PlayInputs) (n : ℕ) (st : State) (lines : List StepLine)
        (entries : List Entry) → AreLinesBegun inputs n st lines entries
        → IsFrontOfLines inputs n st lines entries }
    ensures begun { (inputs : PlayInputs) (n : ℕ) (st : State) (lines : List StepLine)
        (entries : List Entry) → IsFrontOfLines inputs n st lines entries
        → AreLinesBegun inputs n st lines entries }
{}
