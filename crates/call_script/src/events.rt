ghost use Rattle.std.specs.Prelude.{◌≡◌};
ghost use Rattle.event_text.specs.Events.{target_text, kind_text};
ghost use Rattle.call_script.specs.Names.{first_named};
ghost use Rattle.call_script.specs.Events.{kinds_at, single_targets, event_named, buffer_event, event_of};

use crate::numbers::read_index;
use crate::words::split_word;
use event_text::kind_name;
use mse_calls::{Event, EventKind, Target};

const SOURCE_KINDS: [EventKind; 2] = [EventKind::SourceOpen, EventKind::SourceEnded];

const LIST_KINDS: [EventKind; 2] = [EventKind::AddSourceBuffer, EventKind::RemoveSourceBuffer];

const BUFFER_KINDS: [EventKind; 5] = [
    EventKind::UpdateStart,
    EventKind::Update,
    EventKind::UpdateEnd,
    EventKind::Error,
    EventKind::Abort,
];

const ELEMENT_KINDS: [EventKind; 14] = [
    EventKind::DurationChange,
    EventKind::LoadedMetadata,
    EventKind::LoadedData,
    EventKind::Waiting,
    EventKind::TimeUpdate,
    EventKind::CanPlay,
    EventKind::Playing,
    EventKind::CanPlayThrough,
    EventKind::Seeking,
    EventKind::Seeked,
    EventKind::Play,
    EventKind::Pause,
    EventKind::Ended,
    EventKind::Error,
];

/// The kind of this name among some kinds.
fn kind_named(kinds: &[EventKind], text: &str) -> Option<EventKind>
    ensures { result ≡ first_named kind_text kinds.now text.now }
{
    kinds.iter().copied().find(|kind| text == kind_name(*kind))
}

/// The kinds of events that are fired at a target.
fn kinds_of(target: Target) -> &'static [EventKind]
    ensures { result.now ≡ kinds_at target }
{
    match target {
        Target::Source => &SOURCE_KINDS,
        Target::SourceBuffers => &LIST_KINDS,
        Target::ActiveSourceBuffers => &LIST_KINDS,
        Target::Buffer(_) => &BUFFER_KINDS,
        Target::Element => &ELEMENT_KINDS,
    }
}

/// An event of this name at a target.
fn read_kind(target: Target, text: &str) -> Option<Event>
    ensures { result ≡ event_named target text.now }
{
    kind_named(kinds_of(target), text).map(|kind| Event { target, kind })
}

/// A buffer's number, and an event at a buffer.
fn read_buffer_event(text: &str) -> Option<Event>
    ensures { result ≡ buffer_event text.now }
{
    let (first, rest) = split_word(text);
    let k = read_index(first)?;
    read_kind(Target::Buffer(k), rest?)
}

/// The target of this name, of which there is one.
fn single_target(text: &str) -> Option<Target>
    ensures { result ≡ first_named target_text single_targets text.now }
{
    if text == "source" {
        Some(Target::Source)
    } else if text == "sourcebuffers" {
        Some(Target::SourceBuffers)
    } else if text == "activesourcebuffers" {
        Some(Target::ActiveSourceBuffers)
    } else if text == "element" {
        Some(Target::Element)
    } else {
        None
    }
}

/// The event that a text names, as events are printed; `None` exactly where it names none, or one
/// that is never fired at its target.
#[tactic(auto, unfolding(crate::specs::Events::event_of))]
pub fn read_event(text: &str) -> Option<Event>
    ensures { result ≡ event_of text.now }
{
    let (word, rest) = split_word(text);
    let rest = rest?;
    if word == "buffer" {
        return read_buffer_event(rest);
    }
    let target = single_target(word)?;
    read_kind(target, rest)
}
