ghost use Rattle.std.specs.Prelude.{◌≡◌, ◌++◌, OnOk, string_bytes};
ghost use Rattle.event_text.specs.Events.{target_text, kind_text, event_line};

use crate::words::push_decimal;
use mse_calls::{Event, EventKind, Target};
use std::alloc::AllocError;

fn push_target(text: &mut String, target: Target) -> Result<(), AllocError>
    ensures { OnOk result (string_bytes text.new ≡ string_bytes text.old ++ target_text target) }
{
    match target {
        Target::Source => text.push_str("source"),
        Target::SourceBuffers => text.push_str("sourcebuffers"),
        Target::ActiveSourceBuffers => text.push_str("activesourcebuffers"),
        Target::Buffer(k) => {
            text.push_str("buffer ")?;
            push_decimal(text, k)
        }
        Target::Element => text.push_str("element"),
    }
}

/// The type of an event as it is written (Media Source Extensions, event summaries; HTML, media
/// element events): lower-case letters alone.
pub fn kind_name(kind: EventKind) -> &'static str
    ensures { result.now ≡ kind_text kind }
{
    match kind {
        EventKind::SourceOpen => "sourceopen",
        EventKind::SourceEnded => "sourceended",
        EventKind::AddSourceBuffer => "addsourcebuffer",
        EventKind::RemoveSourceBuffer => "removesourcebuffer",
        EventKind::UpdateStart => "updatestart",
        EventKind::Update => "update",
        EventKind::UpdateEnd => "updateend",
        EventKind::Error => "error",
        EventKind::Abort => "abort",
        EventKind::DurationChange => "durationchange",
        EventKind::LoadedMetadata => "loadedmetadata",
        EventKind::LoadedData => "loadeddata",
        EventKind::Waiting => "waiting",
        EventKind::TimeUpdate => "timeupdate",
        EventKind::CanPlay => "canplay",
        EventKind::Playing => "playing",
        EventKind::CanPlayThrough => "canplaythrough",
        EventKind::Seeking => "seeking",
        EventKind::Seeked => "seeked",
        EventKind::Play => "play",
        EventKind::Pause => "pause",
        EventKind::Ended => "ended",
    }
}

/// Appends the line of an event.
pub fn push_event(text: &mut String, event: &Event) -> Result<(), AllocError>
    ensures { OnOk result (string_bytes text.new ≡ string_bytes text.old ++ event_line event.now) }
{
    text.push_str("event ")?;
    push_target(text, event.target)?;
    text.push_str(" ")?;
    text.push_str(kind_name(event.kind))?;
    text.push_str("\n")
}
