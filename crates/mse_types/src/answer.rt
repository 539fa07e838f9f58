/// The byte stream format of a type.
#[derive(Clone, Copy, Debug, PartialEq, Eq)]
pub enum Container {
    /// ISO BMFF, for `video/mp4` and `audio/mp4`.
    Mp4,
    /// ADTS, for `audio/aac`.
    Adts,
}

/// What a type text says.
#[derive(Clone, Copy, Debug, PartialEq, Eq)]
pub enum TypeAnswer {
    /// A type that a source buffer takes.
    Supported(Container),
    /// The empty text.
    Empty,
    /// Any other text.
    Unsupported,
}
