/// Why a coded frame is dropped.
#[derive(Clone, Copy, Debug, PartialEq, Eq)]
pub enum Why {
    /// It begins before the append window or ends after it (Media Source Extensions, coded frame
    /// processing, steps 1.8 and 1.9).
    Window,
    /// A random access point is needed, and it is none (step 1.10).
    NoSync,
}

/// What became of a coded frame.
#[derive(Clone, Copy, Debug, PartialEq, Eq)]
pub enum Placed {
    /// It is in its track buffer.
    Stored,
    /// It is dropped, and counts as received.
    Dropped(Why),
    /// One of its times, or an offset, would be more than `2^110` ticks from 0. All is as before.
    TimeRange,
    /// Its track received `2^62` frames, or the stored bytes with its own would be `2^62` or more.
    /// All is as before.
    Counts,
}
