use adts_stream::AdtsFault;
use segment_stream::StreamFault;

/// Why a string cannot be parsed any further: a fault of ISO BMFF segments, or one of ADTS frames.
#[derive(Clone, Copy, Debug, PartialEq, Eq)]
pub enum ByteFault {
    /// A fault of ISO BMFF segments.
    Segments(StreamFault),
    /// A fault of ADTS frames.
    Frames(AdtsFault),
}

/// What a stream gives next.
pub type Next = parser_loop::Next<ByteFault>;
