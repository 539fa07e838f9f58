ghost use Rattle.std.specs.Prelude.{◌≡◌, ℕ, suc, ◌+◌, ◌≤◌, List, Some, length, slice_range, All};
ghost use Rattle.mse_base.specs.declared.frame.CodedFrame.{CodedFrame};
ghost use Rattle.mse_base.specs.declared.track.Presentation.{Presentation};
ghost use Rattle.parser_loop.specs.Items.{InitItem, FrameItem, FaultItem, IsPrefix};
ghost use Rattle.parser_loop.specs.Parse.{IsSuffix};
ghost use Rattle.byte_stream.specs.declared.next.ByteFault.{ByteFault};
ghost use Rattle.byte_stream.specs.Readings.{Reading, items_in, next_item, ready_at, phase_at, held_at, latest_at, with_bytes, IsInitIn, IsLasting};
ghost use Rattle.byte_stream.specs.Streams.{StreamView, ForEachReading, latest_of, ready_of, phase_of, held_of};

/// No coded frame of a string ends before it begins.
pub fn lasting_law()
    ensures { (r : Reading) → All IsLasting (items_in r) }
{}

/// The items of a string are the first items of each longer string, and all of them where one is a fault.
pub fn prefix_law()
    ensures { (r : Reading) (bytes : List ℕ) →
        IsPrefix (items_in r) (items_in (with_bytes bytes r)) }
{}

/// Of a reading for which a stream stands no more items were given than there are, and what the stream keeps tells
/// the coded frames that come next, the phase, the bytes that are held, and the presentation of the last
/// initialization segment that was given.
pub fn stands_law()
    ensures given { (s : StreamView) →
        ForEachReading s (λ r. r.string.taken ≤ length (items_in r)) }
    ensures ready { (s : StreamView) → ForEachReading s (λ r. ready_of s ≡ length (ready_at r)) }
    ensures phase { (s : StreamView) → ForEachReading s (λ r. phase_of s ≡ phase_at r) }
    ensures held { (s : StreamView) → ForEachReading s (λ r. held_of s ≡ held_at r) }
    ensures latest { (s : StreamView) → ForEachReading s (λ r. latest_of s ≡ latest_at r) }
{}

/// A presentation is what stands in the string at its offset. The payload of a coded frame is the bytes of the string
/// from its offset on, all of which are there. A fault is the last item.
pub fn place_law()
    ensures init { (r : Reading) (p : Presentation) (offset : ℕ) →
        next_item r ≡ Some (InitItem p offset) → IsInitIn r.container r.string.whole offset p }
    ensures frame { (r : Reading) (frame : CodedFrame) (offset : ℕ) →
        next_item r ≡ Some (FrameItem frame offset) →
        frame.payload ≡ slice_range r.string.whole offset (offset + length frame.payload) }
    ensures there { (r : Reading) (frame : CodedFrame) (offset : ℕ) →
        next_item r ≡ Some (FrameItem frame offset) →
        offset + length frame.payload ≤ length r.string.whole }
    ensures fault { (r : Reading) (f : ByteFault) (offset : ℕ) →
        next_item r ≡ Some (FaultItem f offset) → suc r.string.taken ≡ length (items_in r) }
{}

/// The bytes that are held are the end of the string from some offset on.
pub fn held_law()
    ensures { (r : Reading) → IsSuffix (held_at r) r.string.whole }
{}
