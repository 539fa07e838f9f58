//! What a listener heard and did, for proofs alone: it takes no memory.

ghost use Rattle.std.specs.Prelude.{◌≡◌, ◌++◌, ◌∷◌, [], List};
ghost use Rattle.std.specs.Option.{option_copied};
ghost use Rattle.mse_calls.specs.declared.answers.Answer.TheVariants.{Done};
ghost use Rattle.mse_calls.specs.declared.rules.Rule.{Rule};
ghost use Rattle.listeners.specs.Notes.{told_note};
ghost use Rattle.listeners.specs.Coming.{note_of, notes_of};

use http_server::Log;
use mse_calls::{Answer, Event};

/// Something that a listener by rules was given, or did.
#[derive(Clone, Copy, Debug)]
pub enum Remark {
    /// It heard this event.
    Heard(Event),
    /// It made the call of this number of the rule at this place.
    Made(usize, usize),
    /// It was told an answer, which stands beside this.
    Told,
    /// It had no further call.
    Rested,
}

/// Remarks in their order, each with the answer where it was told one.
pub type History = Log<Remark, Answer>;

/// With one remark more, beside which no answer stands.
pub fn with_remark(history: &History, remark: Remark) -> History
    ensures { (rules : List Rule) → notes_of rules result.items
        ≡ notes_of rules history.now.items ++ note_of rules (remark, Done) ∷ [] }
{
    history.and(&remark, &Answer::Done)
}

/// With the answer that was told, if any, and one remark more.
pub fn with_answer_and_remark(history: &History, last: Option<&Answer>, remark: Remark) -> History
    ensures { (rules : List Rule) → notes_of rules result.items ≡ notes_of rules history.now.items
        ++ (told_note (option_copied last.entry) ++ note_of rules (remark, Done) ∷ []) }
{
    match last {
        Some(answer) => {
            let with_answer = history.and(&Remark::Told, answer);
            with_remark(&with_answer, remark)
        }
        None => with_remark(history, remark),
    }
}
