ghost use Rattle.std.specs.Prelude.{◌≡◌, [], ◌∷◌, ◌++◌, codes, IfOk, OnOk, string_bytes};
ghost use Rattle.event_text.specs.Calls.{call_text};
ghost use Rattle.event_text.specs.Answers.{answer_text};
ghost use Rattle.event_text.specs.Lines.{line_text};

use crate::answers::push_answer;
use crate::calls::push_call;
use crate::events::push_event;
use crate::words::push_decimal;
use mse_base::{OutOfMemory, Text};
use mse_calls::{Answer, Call, Entry, Event};
use std::alloc::{AllocError, Global};

/// The bytes for which a line has room when it is begun: more than most lines have.
const LINE_ROOM: usize = 192;

/// Appends a call, what it answers, and a line feed.
fn push_answered(text: &mut String, call: &Call, answer: &Answer) -> Result<(), AllocError>
    ensures { OnOk result (string_bytes text.new ≡ string_bytes text.old
        ++ (call_text call.now ++ (codes ": " ++ (answer_text answer.now ++ 10 ∷ [])))) }
{
    push_call(text, call)?;
    text.push_str(": ")?;
    push_answer(text, answer)?;
    text.push_str("\n")
}

/// The line of a script's call, with its line feed.
pub fn script_line(alloc: Global, call: &Call, answer: &Answer) -> Result<Text, OutOfMemory>
    ensures { IfOk result (λ text. text ≡ line_text (Entry.Script call.now answer.now)) }
{
    let mut line = String::with_capacity(alloc, LINE_ROOM)?;
    line.push_str("call ")?;
    push_answered(&mut line, call, answer)?;
    Ok(Text::from_string(alloc, line))
}

/// The line of a call of the listener of that number, with its line feed.
pub fn listener_line(
    alloc: Global,
    number: u32,
    call: &Call,
    answer: &Answer,
) -> Result<Text, OutOfMemory>
    ensures { IfOk result (λ text. text
        ≡ line_text (Entry.Listener number call.now answer.now)) }
{
    let mut line = String::with_capacity(alloc, LINE_ROOM)?;
    line.push_str("listener ")?;
    push_decimal(&mut line, number)?;
    line.push_str(" ")?;
    push_answered(&mut line, call, answer)?;
    Ok(Text::from_string(alloc, line))
}

/// The line of an event that was fired, with its line feed.
pub fn event_line(alloc: Global, event: &Event) -> Result<Text, OutOfMemory>
    ensures { IfOk result (λ text. text ≡ line_text (Entry.Fired event.now)) }
{
    let mut line = String::with_capacity(alloc, LINE_ROOM)?;
    push_event(&mut line, event)?;
    Ok(Text::from_string(alloc, line))
}

/// The line of a journal's entry, with its line feed; the empty text for an entry that prints
/// nothing.
pub fn line_of(alloc: Global, entry: &Entry) -> Result<Text, OutOfMemory>
    ensures { IfOk result (λ text. text ≡ line_text entry.now) }
{
    match entry {
        Entry::Script(call, answer) => script_line(alloc, call, answer),
        Entry::Listener(number, call, answer) => listener_line(alloc, *number, call, answer),
        Entry::Fired(event) => event_line(alloc, event),
        Entry::Step(_) | Entry::Work(_) | Entry::Element => {
            Ok(Text::from_string(alloc, String::new(alloc)))
        }
    }
}
