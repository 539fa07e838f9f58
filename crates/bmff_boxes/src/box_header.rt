/// What is wrong with the size that a box header gives.
#[derive(Clone, Copy, Debug, PartialEq, Eq)]
pub enum HeadFault {
    /// The size is 0. In a file such a box runs to the file's end; a byte stream that is fed piece by
    /// piece has no end to run to.
    SizeZero,
    /// The size is below that of the header itself.
    BoxSize,
}

/// The header at the front of a box (ISO/IEC 14496-12, 4.2).
#[derive(Clone, Copy, Debug, PartialEq, Eq)]
pub enum Header {
    /// A whole header, whether or not the payload is there. `head` is the header's length, 8 or 16 bytes.
    /// `len` is that of the whole box with its header, so `head <= len`.
    Whole { kind: [u8; 4], head: u64, len: u64 },
    /// Bytes of the header are missing.
    Short,
    /// The header is there, and its size cannot be that of a box.
    Bad(HeadFault),
}
