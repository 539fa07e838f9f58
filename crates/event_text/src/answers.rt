ghost use Rattle.std.specs.Prelude.{◌≡◌, ◌++◌, OnOk, codes, string_bytes};
ghost use Rattle.std.specs.Fmt.{decimal};
ghost use Rattle.mse_calls.specs.Level.{level_number};
ghost use Rattle.event_text.specs.Words.{bool_text};
ghost use Rattle.event_text.specs.Answers.{ready_text, element_text, state_text, refused_text, answer_text};

use crate::times::{push_moment, push_range, push_ranges, push_ticks};
use crate::words::push_decimal;
use mse_calls::{Answer, Level, Name, Ready, StateView};
use std::alloc::AllocError;

/// The words in front of the duration.
fn source_words(ready: Ready) -> &'static str
    ensures { result.now ≡ codes "source " ++ (ready_text ready ++ codes " duration ") }
{
    match ready {
        Ready::Closed => "source closed duration ",
        Ready::Opened => "source open duration ",
        Ready::Ended => "source ended duration ",
    }
}

/// The words between the duration and what is told of the element.
fn level_words(level: Level) -> &'static str
    ensures { result.now ≡ codes " level " ++ (decimal (level_number level) ++ codes " ") }
{
    match level {
        Level::Nothing => " level 0 ",
        Level::Metadata => " level 1 ",
        Level::Current => " level 2 ",
        Level::Future => " level 3 ",
        Level::Enough => " level 4 ",
    }
}

/// The words between the position and the error's number.
fn playing_words(paused: bool, seeking: bool) -> &'static str
    ensures { result.now ≡ codes " paused " ++ (bool_text paused
        ++ (codes " seeking " ++ (bool_text seeking ++ codes " error "))) }
{
    match (paused, seeking) {
        (false, false) => " paused false seeking false error ",
        (false, true) => " paused false seeking true error ",
        (true, false) => " paused true seeking false error ",
        (true, true) => " paused true seeking true error ",
    }
}

/// Appends the part of the state that is the element's alone.
fn push_element(text: &mut String, state: &StateView) -> Result<(), AllocError>
    ensures { OnOk result (string_bytes text.new
        ≡ string_bytes text.old ++ element_text state.now) }
{
    text.push_str("position ")?;
    push_ticks(text, state.position)?;
    text.push_str(playing_words(state.paused, state.seeking))?;
    push_decimal(text, u32::from(state.error))
}

/// Appends the state of the source and of the element.
pub fn push_state(text: &mut String, state: &StateView) -> Result<(), AllocError>
    ensures { OnOk result (string_bytes text.new ≡ string_bytes text.old ++ state_text state.now) }
{
    text.push_str(source_words(state.source))?;
    push_moment(text, state.duration)?;
    text.push_str(level_words(state.level))?;
    push_element(text, state)
}

fn name_word(name: Name) -> &'static str
    ensures { result.now ≡ refused_text name }
{
    match name {
        Name::InvalidState => "InvalidStateError",
        Name::NotSupported => "NotSupportedError",
        Name::QuotaExceeded => "QuotaExceededError",
        Name::TypeError => "TypeError",
        Name::NotFound => "NotFoundError",
        Name::NoSuchBuffer => "NoSuchBuffer",
        Name::NoSuchBytes => "NoSuchBytes",
    }
}

/// Appends what a call answers.
pub fn push_answer(text: &mut String, answer: &Answer) -> Result<(), AllocError>
    ensures { OnOk result (string_bytes text.new
        ≡ string_bytes text.old ++ answer_text answer.now) }
{
    match answer {
        Answer::Done => text.push_str("done"),
        Answer::Ranges(ranges) => {
            text.push_str("ranges ")?;
            push_ranges(text, ranges)
        }
        Answer::Range(range) => {
            text.push_str("range ")?;
            push_range(text, range)
        }
        Answer::State(state) => push_state(text, state),
        Answer::Refused(name) => {
            text.push_str("refused ")?;
            text.push_str(name_word(*name))
        }
    }
}
