use bmff_fragment::Slot;
use mse_base::Presentation;
use segment_walk::{DataRange, ParserMode, StreamFault};

/// A position of the parser: what it is doing, the offset in the string, and whether it met a fault.
#[derive(Clone, Copy, Debug, PartialEq, Eq)]
pub(crate) struct ParserPosition {
    pub(crate) mode: ParserMode,
    pub(crate) offset: u64,
    pub(crate) failed: bool,
}

/// How far the parser came: the position behind the frames that are ready, where it lies in the input, the first
/// of these frames by its slot and how many there are, and the number of bytes from that place on below which
/// there is nothing more to do.
#[derive(Clone, Copy, Debug, PartialEq, Eq)]
pub(crate) struct Progress {
    pub(crate) position: ParserPosition,
    pub(crate) from: usize,
    pub(crate) first: usize,
    pub(crate) ready: usize,
    pub(crate) want: u64,
}

/// What a move comes to.
#[derive(Clone, Copy, Debug, PartialEq, Eq)]
pub(crate) enum MoveResult {
    /// The parser stays, and has nothing to do below so many bytes.
    Rest(u64),
    /// It goes on from there.
    Go(Progress),
}

/// The slots of the open movie fragment, and the payloads of its mdats. A position of the parser counts how many
/// of them it knows, so that they may grow behind it.
#[derive(Debug, Drop)]
pub(crate) struct Tables {
    pub(crate) slots: Vec<Slot>,
    pub(crate) known: Vec<DataRange>,
}

/// How far the parser came, with the tables that it sees.
#[derive(Debug, Drop)]
pub(crate) struct ProgressWithTables {
    pub(crate) progress: Progress,
    pub(crate) tables: Tables,
}

/// The next item, where it is no frame and was not given yet: with the number of bytes up to where the parser goes on,
/// or with the place of a fault.
#[derive(Debug, Drop)]
pub(crate) enum PendingItem {
    Dry,
    Init(Presentation, u64),
    End(u64),
    Fault(StreamFault, u64),
}
