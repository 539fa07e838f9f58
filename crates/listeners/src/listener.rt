ghost use Rattle.std.specs.Prelude.{◌≡◌, ◌++◌, ◌∷◌, [], List, Option, None, OnOk, OnErr, IfOk};
ghost use Rattle.std.specs.Bool.{OnTrue, OnFalse};
ghost use Rattle.std.specs.Option.{option_copied};
ghost use Rattle.mse_calls.specs.declared.rules.Rule.{Rule};
ghost use Rattle.run_steps.specs.declared.note.Note.{Note};
ghost use Rattle.listeners.specs.Notes.{told_note, asked_note};
ghost use Rattle.listeners.specs.Ways.{IsAnswerOf};
ghost use Rattle.run_steps.specs.Ways.{Way};

use mse_base::OutOfMemory;
use mse_calls::{Answer, Call, Event, Rule};

/// A listener. It hears an event, and is then asked for calls, each of which is made at once, until it
/// has no further one. It means two lists, and may tell by which function of them it answers. What it
/// means is known by contracts alone: a listener need not keep notes.
pub trait Listener: Drop {
    /// The function by which it answers, where it tells one, as it may not where it looks at a clock.
    ghost way: { Self → Option Way };

    /// The rules that it was given.
    ghost rules: { Self → List Rule };

    /// All that it was given and did, in its order.
    ghost notes: { Self → List Note };

    /// Gives it its rules, before it has heard or made anything. It takes no memory.
    fn set_rules(&mut self, list: Vec<Rule>)
        requires { notes self.old ≡ [] }
        ensures way { way self.new ≡ way self.old }
        ensures rules { rules self.new ≡ list.items }
        ensures notes { notes self.new ≡ notes self.old };

    /// Tells it an event. After want of memory it has not heard it.
    fn hear(&mut self, event: &Event) -> Result<(), OutOfMemory>
        ensures way { way self.new ≡ way self.old }
        ensures rules { rules self.new ≡ rules self.old }
        ensures ok { OnOk result (notes self.new ≡ notes self.old ++ Note.Heard event.now ∷ []) }
        ensures err { OnErr result (notes self.new ≡ notes self.old) };

    /// Tells the listener an event and lets it rest, where it sees at once that it has no call to make: `true`. Else
    /// `false`, and it hears nothing; any listener may answer `false`. It takes no memory.
    fn hear_if_idle(&mut self, event: &Event) -> bool
        ensures way { way self.new ≡ way self.old }
        ensures rules { rules self.new ≡ rules self.old }
        ensures idle { OnTrue result (notes self.new
            ≡ notes self.old ++ Note.Heard event.now ∷ Note.Rested ∷ []) }
        ensures by_way { OnTrue result (IsAnswerOf (way self.old) (rules self.old)
            (notes self.old ++ Note.Heard event.now ∷ []) None) }
        ensures busy { OnFalse result (notes self.new ≡ notes self.old) }
    {
        false
    }

    /// Tells it what its last call answered, if it made one, and asks it for a call. After want of
    /// memory it was told and asked nothing. Where it tells its way, it answers what that gives.
    fn next(&mut self, last: Option<&Answer>) -> Result<Option<Call>, OutOfMemory>
        ensures way { way self.new ≡ way self.old }
        ensures rules { rules self.new ≡ rules self.old }
        ensures ok { IfOk result (λ call. notes self.new
            ≡ notes self.old ++ (told_note (option_copied last.entry) ++ asked_note call)) }
        ensures by_way { IfOk result (λ call. IsAnswerOf (way self.old) (rules self.old)
            (notes self.old ++ told_note (option_copied last.entry)) call) }
        ensures err { OnErr result (notes self.new ≡ notes self.old) };
}
