ghost use Rattle.std.specs.Prelude.{◌≡◌, ◌<◌, ◌^◌};
ghost use Rattle.listeners.specs.Events.{kind_number, target_number, event_number};

use mse_calls::{Event, EventKind, Target};

fn kind_number(kind: EventKind) -> u64
    ensures value { result ≡ kind_number kind }
    ensures small { result < 32 }
{
    match kind {
        EventKind::SourceOpen => 0,
        EventKind::SourceEnded => 1,
        EventKind::AddSourceBuffer => 2,
        EventKind::RemoveSourceBuffer => 3,
        EventKind::UpdateStart => 4,
        EventKind::Update => 5,
        EventKind::UpdateEnd => 6,
        EventKind::Error => 7,
        EventKind::Abort => 8,
        EventKind::DurationChange => 9,
        EventKind::LoadedMetadata => 10,
        EventKind::LoadedData => 11,
        EventKind::Waiting => 12,
        EventKind::TimeUpdate => 13,
        EventKind::CanPlay => 14,
        EventKind::Playing => 15,
        EventKind::CanPlayThrough => 16,
        EventKind::Seeking => 17,
        EventKind::Seeked => 18,
        EventKind::Play => 19,
        EventKind::Pause => 20,
        EventKind::Ended => 21,
    }
}

fn target_number(target: Target) -> u64
    ensures value { result ≡ target_number target }
    ensures small { result < 2 ^ 33 }
{
    match target {
        Target::Source => 0,
        Target::SourceBuffers => 1,
        Target::ActiveSourceBuffers => 2,
        Target::Element => 3,
        Target::Buffer(k) => k as u64 + 4,
    }
}

/// The number of an event, which no other event has.
#[tactic(auto, unfolding(crate::specs::Events::event_number))]
pub fn event_number(event: &Event) -> u64
    ensures { result ≡ event_number event.now }
{
    target_number(event.target) * 32 + kind_number(event.kind)
}
