use bmff_fragment::{MoofFault, Slot};
use bmff_init::InitFault;
use mse_base::Phase;

/// Why a byte stream cannot be parsed any further.
#[derive(Clone, Copy, Debug, PartialEq, Eq)]
pub enum StreamFault {
    /// A box has the size 0.
    SizeZero,
    /// A box is smaller than its header.
    BoxSize,
    /// A box is too large: above `2^24` bytes for a moov or a moof, above `2^40` bytes for another box,
    /// or one that ends more than `2^27` bytes behind the start of its movie fragment.
    TooLarge,
    /// A moov stands where no initialization segment was begun.
    MoovPlace,
    /// A moof stands in an initialization segment.
    MoofPlace,
    /// A moof stands before any initialization segment.
    NoInit,
    /// A box that begins a segment stands in a media segment that is not at its end.
    InSegment,
    /// The data of a sample lie in no mdat of their segment.
    OutsideMdat,
    /// A moov has a fault.
    Init(InitFault),
    /// A moof has a fault.
    Moof(MoofFault),
}

/// What a top-level box is to the parser (ISO/IEC 14496-12; ISO BMFF byte stream format).
#[derive(Clone, Copy, Debug, PartialEq, Eq)]
pub enum TopLevelBox {
    /// `ftyp`: it begins an initialization segment.
    FileType,
    /// `styp`: it begins a media segment.
    SegmentType,
    /// `moov`.
    Movie,
    /// `moof`.
    MovieFragment,
    /// `mdat`.
    MediaData,
    /// Any other box, which is skipped.
    Other,
}

/// A place in an open movie fragment, counted from the first byte of its moof.
#[derive(Clone, Copy, Debug, PartialEq, Eq)]
pub enum WalkPlace {
    /// Before the header of a box.
    AtBox(u64),
    /// In an mdat that ends there.
    InData(u64),
}

/// The payload of an mdat, from `start` up to `end`. The parser counts from the first byte of the moof before it, the
/// definition of a string of segments from the first byte of the string.
#[derive(Clone, Copy, Debug, PartialEq, Eq)]
pub struct DataRange {
    /// The place of its first byte.
    pub start: u64,
    /// The place behind its last byte.
    pub end: u64,
}

/// An open movie fragment, but for its tables.
#[derive(Clone, Copy, Debug, PartialEq, Eq)]
pub struct Fragment {
    /// How many of its slots were taken.
    pub taken: usize,
    /// How many of its mdats are known.
    pub known: usize,
    /// Where the last of these ends, in bytes from the first byte of the moof.
    pub end: u64,
    /// The place of the parser.
    pub place: WalkPlace,
}

/// What the parser is doing.
#[derive(Clone, Copy, Debug, PartialEq, Eq)]
pub enum ParserMode {
    /// It stands before a top-level box, and no movie fragment is open in this append state.
    Between(Phase),
    /// It passes over the bytes of a box that are left; the append state counts from the header on.
    Skipping { to: Phase, left: u64 },
    /// A movie fragment is open.
    Within(Fragment),
}

/// What the parser does next.
#[derive(Clone, Copy, Debug, PartialEq, Eq)]
pub enum BoxStep {
    /// It waits; below so many bytes there is nothing to do.
    Wait(u64),
    /// It passes over a box of so many bytes.
    Skip { to: Phase, len: u64 },
    /// It reads a moov of so many bytes.
    ReadInit(u64),
    /// It reads a moof of so many bytes.
    ReadMoof(u64),
    /// It enters an mdat with this payload.
    EnterData { start: u64, end: u64 },
    /// It goes on to the box at this place.
    NextBox(u64),
    /// It gives the frame of this slot.
    GiveFrame(Slot),
    /// It ends the segment at this place.
    EndSegment(u64),
    /// It stops for good with a fault at this place.
    Fail(StreamFault, u64),
}
