use parser_loop::Next;

/// Why a string cannot be parsed any further.
#[derive(Clone, Copy, Debug, PartialEq, Eq)]
pub enum AdtsFault {
    /// Where a frame must stand, the bytes have no sync word, or another layer than 0.
    Sync,
    /// The index of the sampling frequency is above 12: it is reserved, or an escape that ADTS has not.
    Rate,
    /// The length of the frame is below that of its header.
    Length,
}

/// What a stream gives next. An initialization segment stands where a frame has another sampling frequency than those
/// before it, or is the first; a coded frame is there header and all, and is a media segment.
pub type AdtsNext = Next<AdtsFault>;
