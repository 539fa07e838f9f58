/// What the events of a change look at beside the two levels.
#[derive(Clone, Copy, Debug, PartialEq, Eq)]
pub struct Facts {
    /// Whether the element plays: it is not paused, has no error, and playback has not ended.
    pub playing: bool,
    /// Whether the element is paused.
    pub paused: bool,
    /// Whether `loadeddata` was queued before.
    pub first_loaded: bool,
}
