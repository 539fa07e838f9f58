ghost use Rattle.std.specs.Prelude.{◌≡◌, ◌+◌, ◌≤◌, ◌++◌, length};
ghost use Rattle.element_ready.specs.Events.{data_events, future_events, stall_events, change_events, is_first_data};

use crate::Facts;
use mse_calls::{Changes, EventKind, Level};

/// `loadeddata`, where it was not queued before.
fn push_data(events: &mut Changes, facts: Facts)
    requires { length events.old ≤ 3 }
    ensures events { events.new ≡ events.old ++ data_events facts }
    ensures at_most_one_more { length events.new ≤ length events.old + 1 }
{
    if !facts.first_loaded {
        events.push(EventKind::LoadedData);
    }
}

/// `canplay`, and `playing` where the element is not paused.
fn push_future(events: &mut Changes, facts: Facts)
    requires { length events.old ≤ 2 }
    ensures events { events.new ≡ events.old ++ future_events facts }
    ensures at_most_two_more { length events.new ≤ length events.old + 2 }
{
    events.push(EventKind::CanPlay);
    if !facts.paused {
        events.push(EventKind::Playing);
    }
}

/// `timeupdate` and `waiting`, where the element was playing.
fn push_stall(events: &mut Changes, facts: Facts)
    requires { length events.old ≤ 2 }
    ensures { events.new ≡ events.old ++ stall_events facts }
{
    if facts.playing {
        events.push(EventKind::TimeUpdate);
        events.push(EventKind::Waiting);
    }
}

/// What is fired at the element where its level changes from one to another, in order (HTML, media
/// elements, ready states). At most four events.
pub fn events_of_change(old: Level, new: Level, facts: Facts) -> Changes
    ensures { result ≡ change_events old new facts }
{
    let mut events = Changes::new();
    match (old, new) {
        (Level::Nothing, Level::Metadata) => events.push(EventKind::LoadedMetadata),
        (Level::Metadata, Level::Current) => push_data(&mut events, facts),
        (Level::Metadata, Level::Future) => {
            push_data(&mut events, facts);
            push_future(&mut events, facts);
        }
        (Level::Metadata, Level::Enough) => {
            push_data(&mut events, facts);
            push_future(&mut events, facts);
            events.push(EventKind::CanPlayThrough);
        }
        (Level::Future | Level::Enough, Level::Metadata | Level::Current) => {
            push_stall(&mut events, facts);
        }
        (Level::Nothing | Level::Current, Level::Future) => push_future(&mut events, facts),
        (Level::Nothing | Level::Current, Level::Enough) => {
            push_future(&mut events, facts);
            events.push(EventKind::CanPlayThrough);
        }
        (Level::Future, Level::Enough) => events.push(EventKind::CanPlayThrough),
        _ => {}
    }
    events
}

/// Whether `loadeddata` is fired where the level changes from one to another, and it was not fired
/// before.
pub fn is_first_data(old: Level, new: Level) -> bool
    ensures { result ≡ is_first_data old new }
{
    old == Level::Metadata && new.has_current_data()
}
