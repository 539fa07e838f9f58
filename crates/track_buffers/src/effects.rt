ghost use Rattle.std.specs.Prelude.{◌≡◌, ◌+◌, ◌<◌, ◌^◌, false};
ghost use Rattle.track_buffers.specs.Media.{no_effect, with_duration};
ghost use Rattle.track_buffers.specs.Frames.{effect_of_both};

use mse_base::Moment;

/// What breaks a byte stream at the media.
#[derive(Clone, Copy, Debug, PartialEq, Eq)]
pub enum MediaFault {
    /// An initialization segment has neither a video nor an audio track.
    NoTracks,
    /// A track of an initialization segment has a codec that is not known.
    UnknownCodec,
    /// The tracks of an initialization segment are not those of the first one.
    TracksDiffer,
    /// A time of a coded frame would be more than `2^110` ticks from 0.
    TimeRange,
    /// A track received `2^62` frames, or the stored bytes would be `2^62` or more.
    Counts,
}

/// What an item of the byte stream brings about at the media source.
#[derive(Clone, Copy, Debug, PartialEq, Eq)]
pub struct SourceEffect {
    /// How often the duration changed.
    pub duration_changes: u64,
    /// What it is then.
    pub duration: Moment,
    /// Whether the source buffer became active.
    pub activated: bool,
    /// Whether an initialization segment was received, the first one or a later one.
    pub received_init: bool,
}

/// What an item of the byte stream did. After a fault the media is as before.
#[derive(Clone, Copy, Debug, PartialEq, Eq)]
pub enum MediaEffect {
    /// It went well.
    Done(SourceEffect),
    /// It breaks the byte stream, which is an append error.
    AppendError(MediaFault, SourceEffect),
}

/// Nothing at the source, where this is the duration.
pub fn no_effect(duration: &Moment) -> SourceEffect
    ensures { result ≡ no_effect duration.now }
{
    SourceEffect {
        duration_changes: 0,
        duration: *duration,
        activated: false,
        received_init: false,
    }
}

/// What a change of the duration brings about, where it was `from` and nothing else happened
/// (Media Source Extensions, 2.4.6).
pub(crate) fn duration_change(to: &Moment, from: &Moment) -> SourceEffect
    ensures effect { result ≡ with_duration to.now (no_effect from.now) }
    ensures no_init { result.received_init ≡ false }
{
    if to == from {
        return no_effect(from);
    }
    SourceEffect {
        duration_changes: 1,
        duration: *to,
        activated: false,
        received_init: false,
    }
}

/// What two things in a row bring about.
pub(crate) fn effect_of_both(a: &SourceEffect, b: &SourceEffect) -> SourceEffect
    requires { a.now.duration_changes + b.now.duration_changes < 2 ^ 64 }
    ensures { result ≡ effect_of_both a.now b.now }
{
    SourceEffect {
        duration_changes: a.duration_changes + b.duration_changes,
        duration: b.duration,
        activated: a.activated || b.activated,
        received_init: a.received_init || b.received_init,
    }
}
