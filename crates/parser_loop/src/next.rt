ghost use Rattle.std.specs.Prelude.{◌≡◌};
ghost use Rattle.std.specs.Option.{option_map};
ghost use Rattle.parser_loop.specs.Items.{answer_item, with_fault};

use mse_base::{CodedFrame, Presentation};

/// What the parser of a byte stream gives next (Media Source Extensions, 3.5.1, segment parser loop), where `F` is
/// the type of what may be wrong with a string.
#[derive(Debug, Drop)]
pub enum Next<F> {
    /// An initialization segment was received, with its offset in the string.
    Init(Presentation, u64),
    /// A coded frame, with the offset of its first byte in the string.
    Frame(CodedFrame, u64),
    /// A media segment is at its end.
    SegmentEnd,
    /// The string breaks its byte stream format at this offset: nothing follows.
    Fault { fault: F, offset: u64 },
    /// The string gives no further item.
    Dry,
}

impl<F> Next<F> {
    /// The same answer, where `name` says what a fault is called among the faults of several formats.
    pub fn with_fault<G, N: FnOnce(F) -> G>(self, name: N) -> Next<G>
        requires { N.IsAlwaysCallable name }
        ensures { (g : F → G) → ((f : F) (named : G) → N.post name f named → named ≡ g f) →
            answer_item result ≡ option_map (with_fault g) (answer_item self) }
    {
        match self {
            Next::Init(presentation, offset) => Next::Init(presentation, offset),
            Next::Frame(frame, offset) => Next::Frame(frame, offset),
            Next::SegmentEnd => Next::SegmentEnd,
            Next::Fault { fault, offset } => Next::Fault {
                fault: name(fault),
                offset,
            },
            Next::Dry => Next::Dry,
        }
    }
}
