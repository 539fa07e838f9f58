ghost use Rattle.std.specs.Prelude.{◌≡◌};
ghost use Rattle.buffer_state.specs.AllCalls.{early_name, name_unless_finite, removed_name, call_at};
ghost use Rattle.buffer_state.specs.declared.buffer_context.BufferContext.{BufferContext};

use mse_base::{Bytes, Moment};
use mse_calls::{Mode, Name};
use mse_types::TypeAnswer;

/// A call on a source buffer (Media Source Extensions, 3.1 and 3.2; `changeType` of its second
/// edition).
#[derive(Clone, Copy, Debug)]
pub enum BufferCall<'a> {
    /// Sets the append mode.
    SetMode(Mode),
    /// Sets the timestamp offset.
    SetOffset(Moment),
    /// Sets the start of the append window.
    SetWindowStart(Moment),
    /// Sets the end of the append window.
    SetWindowEnd(Moment),
    /// Begins a removal from the first time on and before the second.
    Remove(Moment, Moment),
    /// Begins an append of bytes, if there are such.
    Append(Option<&'a Bytes>),
    /// Aborts an append that runs, and resets the parser.
    Abort,
    /// Resets the parser and changes the byte stream format to that of a type.
    ChangeType(TypeAnswer),
}

/// The name by which a time is refused that must be finite (Web IDL, double).
fn name_unless_finite(t: Moment) -> Option<Name>
    ensures { result ≡ name_unless_finite t }
{
    match t {
        Moment::At(_) => None,
        Moment::Nan | Moment::Infinite => Some(Name::TypeError),
    }
}

impl BufferCall<'_> {
    /// The name by which the call is refused whatever the state of the buffer, and where it was
    /// removed.
    pub fn early_name(&self) -> Option<Name>
        ensures { (a : BufferContext) → result ≡ early_name (call_at a self.now) }
    {
        match self {
            BufferCall::SetOffset(t) | BufferCall::SetWindowStart(t) | BufferCall::Remove(t, _) =>
                name_unless_finite(*t),
            BufferCall::Append(None) => Some(Name::NoSuchBytes),
            BufferCall::ChangeType(TypeAnswer::Empty) => Some(Name::TypeError),
            BufferCall::SetMode(_)
            | BufferCall::SetWindowEnd(_)
            | BufferCall::Append(Some(_))
            | BufferCall::Abort
            | BufferCall::ChangeType(TypeAnswer::Supported(_) | TypeAnswer::Unsupported) => None,
        }
    }

    /// The name by which the call is refused where the buffer was removed.
    pub fn removed_name(&self) -> Name
        ensures { (a : BufferContext) → result ≡ removed_name (call_at a self.now) }
    {
        match self.early_name() {
            Some(name) => name,
            None => Name::InvalidState,
        }
    }
}
