ghost use Rattle.std.specs.Prelude.{◌≡◌, [], ◌∷◌, Some};
ghost use Rattle.mse_base.specs.Moments.{IsNotAfter};
ghost use Rattle.buffer_state.specs.Replies.{refused_reply, effect_reply, event_reply, error_reply, quiet_reply};

use mse_base::Moment;
use mse_calls::{Changes, EventKind, FaultView, Name};
use track_buffers::{SourceEffect, no_effect};

/// What comes of a call or a turn at the source, the element and the buffer. In which order the
/// events of its parts are told goes by the call, or by the step of running work.
#[derive(Debug, Drop)]
pub struct Reply {
    /// The name by which the call is refused, if it is.
    pub refused: Option<Name>,
    /// Whether the source is opened again before all else.
    pub reopened: bool,
    /// How often the duration changed.
    pub duration_changes: u64,
    /// What the duration is now.
    pub duration: Moment,
    /// Whether the buffer became active.
    pub activated: bool,
    /// Whether an initialization segment was received, the first one of the buffer or a later one:
    /// at each of them the element may get its metadata (Media Source Extensions, 3.5.7).
    pub received_init: bool,
    /// The events at the buffer, in order.
    pub events: Changes,
    /// The fault of an append error.
    pub fault: Option<FaultView>,
}

/// What one step of running work did.
#[derive(Clone, Copy, Debug, PartialEq, Eq)]
pub enum Turned {
    /// Something ran, and made a reply. That may tell nothing, as at the end of a segment.
    Did,
    /// Something ran of which nothing comes at the source, and no event at the buffer: a coded frame
    /// that leaves the duration as it is.
    Quiet,
    /// Nothing runs.
    Idle,
}

impl Reply {
    /// That nothing comes at the source, and no event at the buffer, where the duration is this.
    pub fn quiet(duration: &Moment) -> Reply
        ensures { result ≡ quiet_reply duration.now }
    {
        event_reply(false, duration, Changes::new())
    }

    /// A refusal by a name, where the duration is this.
    pub fn refused(name: Name, reopened: bool, duration: &Moment) -> Reply
        ensures reply { result ≡ refused_reply name reopened duration.now }
        ensures no_fall { IsNotAfter duration.now result.duration }
    {
        Reply {
            refused: Some(name),
            reopened,
            duration_changes: 0,
            duration: *duration,
            activated: false,
            received_init: false,
            events: Changes::new(),
            fault: None,
        }
    }
}

/// What comes of it at the source, and the events at the buffer.
pub(crate) fn effect_reply(reopened: bool, effect: SourceEffect, events: Changes) -> Reply
    ensures { result ≡ effect_reply reopened effect events }
{
    Reply {
        refused: None,
        reopened,
        duration_changes: effect.duration_changes,
        duration: effect.duration,
        activated: effect.activated,
        received_init: effect.received_init,
        events,
        fault: None,
    }
}

/// An append error, behind what came at the source before it.
pub(crate) fn error_reply(fault: FaultView, effect: SourceEffect) -> Reply
    ensures { result ≡ error_reply fault effect }
{
    let events = two(EventKind::Error, EventKind::UpdateEnd);
    let mut reply = effect_reply(false, effect, events);
    reply.fault = Some(fault);
    reply
}

/// Events at the buffer alone.
pub(crate) fn event_reply(reopened: bool, duration: &Moment, events: Changes) -> Reply
    ensures reply { result ≡ event_reply reopened duration.now events }
    ensures no_fall { IsNotAfter duration.now result.duration }
{
    effect_reply(reopened, no_effect(duration), events)
}

/// One event.
pub(crate) fn one(kind: EventKind) -> Changes
    ensures { result ≡ kind ∷ [] }
{
    let mut events = Changes::new();
    events.push(kind);
    events
}

/// Two events, one after the other.
pub(crate) fn two(first: EventKind, second: EventKind) -> Changes
    ensures { result ≡ first ∷ second ∷ [] }
{
    let mut events = one(first);
    events.push(second);
    events
}
