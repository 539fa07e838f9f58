use parser_loop::Next;
use segment_walk::StreamFault;

/// What a stream gives next.
pub type SegmentNext = Next<StreamFault>;
