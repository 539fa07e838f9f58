/// What an event is fired at.
#[derive(Clone, Copy, Debug, PartialEq, Eq)]
pub enum Target {
    /// The `MediaSource`.
    Source,
    /// `MediaSource.sourceBuffers`.
    SourceBuffers,
    /// `MediaSource.activeSourceBuffers`.
    ActiveSourceBuffers,
    /// The `SourceBuffer` of that number.
    Buffer(u32),
    /// The media element.
    Element,
}

/// The type of an event (Media Source Extensions, event summaries; HTML, media element events).
#[derive(Clone, Copy, Debug, PartialEq, Eq)]
pub enum EventKind {
    /// `sourceopen`.
    SourceOpen,
    /// `sourceended`.
    SourceEnded,
    /// `addsourcebuffer`.
    AddSourceBuffer,
    /// `removesourcebuffer`.
    RemoveSourceBuffer,
    /// `updatestart`.
    UpdateStart,
    /// `update`.
    Update,
    /// `updateend`.
    UpdateEnd,
    /// `error`.
    Error,
    /// `abort`.
    Abort,
    /// `durationchange`.
    DurationChange,
    /// `loadedmetadata`.
    LoadedMetadata,
    /// `loadeddata`.
    LoadedData,
    /// `waiting`.
    Waiting,
    /// `timeupdate`.
    TimeUpdate,
    /// `canplay`.
    CanPlay,
    /// `playing`.
    Playing,
    /// `canplaythrough`.
    CanPlayThrough,
    /// `seeking`.
    Seeking,
    /// `seeked`.
    Seeked,
    /// `play`.
    Play,
    /// `pause`.
    Pause,
    /// `ended`.
    Ended,
}

/// An event that was queued, or fired.
#[derive(Clone, Copy, Debug, PartialEq, Eq)]
pub struct Event {
    /// What it is fired at.
    pub target: Target,
    /// Its type.
    pub kind: EventKind,
}
