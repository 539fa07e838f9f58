use crate::header::FrameHeader;
use crate::next::AdtsFault;

/// Where the parser is.
#[derive(Clone, Copy, Debug, PartialEq, Eq)]
pub(crate) enum ParsePoint {
    /// Before a frame or a tag.
    AtHeader,
    /// In a tag of which so many bytes are left.
    InTag(u64),
    /// The header of a frame was accepted: the coded frame comes next.
    AtFrame(FrameHeader),
    /// The coded frame of this header was given: the end of its media segment comes next.
    AtEnd(FrameHeader),
}

/// The place of the parser, its offset in the string, and whether it met a fault.
#[derive(Clone, Copy, Debug, PartialEq, Eq)]
pub(crate) struct ParsePosition {
    pub(crate) point: ParsePoint,
    pub(crate) offset: u64,
    pub(crate) failed: bool,
}

/// The next item, with the frame that it is of.
#[derive(Clone, Copy, Debug, PartialEq, Eq)]
pub(crate) enum NextItem {
    Dry,
    Init(FrameHeader),
    Frame(FrameHeader),
    End(FrameHeader),
    Fault(AdtsFault),
}
