ghost use Rattle.std.specs.Prelude.{ℕ, ◌≡◌, suc, ◌+◌, ◌<◌, ◌≤◌, List, [], ◌∷◌, ◌++◌, Option, Some, None, length, take, drop, slice_range};
ghost use Rattle.std.specs.List.{concat};
ghost use Rattle.mse_base.specs.declared.frame.CodedFrame.{CodedFrame};
ghost use Rattle.mse_base.specs.declared.frame.Phase.TheVariants.{InMedia};
ghost use Rattle.mse_base.specs.declared.track.Presentation.{Presentation};
ghost use Rattle.parser_loop.specs.Walk.{IsWalk, items_from};
ghost use Rattle.parser_loop.specs.Items.{InitItem, FrameItem, FaultItem, IsPrefix, latest_after_all};
ghost use Rattle.parser_loop.specs.Parse.{IsSuffix};
ghost use Rattle.parser_loop.specs.StringReadings.{StringReading, with_bytes};
ghost use Rattle.adts_stream.specs.declared.header.Found.TheVariants as found;
ghost use Rattle.adts_stream.specs.declared.next.AdtsFault.{AdtsFault};
ghost use Rattle.adts_stream.specs.declared.next.AdtsFault.TheVariants as fault;
ghost use Rattle.adts_stream.specs.Headers.{found_at};
ghost use Rattle.adts_stream.specs.Frames.{items_of_string, next_item, held_before, phase_before, parse_at, presentation_of, string_parse, view_before};
ghost use Rattle.adts_stream.specs.Places.{IsFrameAt, IsInitAt};
ghost use Rattle.adts_stream.specs.Rows.{first_frame_items, frame_44100, frame_48000, id3_tag, next_frame_items, reading_of};
ghost use Rattle.adts_stream.specs.Walk.{WalkState, adts, start, state_before, view_of};
ghost use Rattle.adts_stream.specs.Streams.{IsKeptFor, kept_with_all};

/// The items of a string are the first items of each longer string, and all of them where one is a fault.
pub fn prefix_law()
    ensures { (before : Option Presentation) (bytes more : List ℕ) →
        IsPrefix (items_of_string before bytes) (items_of_string before (bytes ++ more)) }
{}

/// What the parser gives for a string is what its frames tell: the items, and what is seen of the parser before each.
/// There are no more tags and frames in a string than bytes.
pub fn frames_law()
    ensures walk { IsWalk adts }
    ensures items { (before : Option Presentation) (whole : List ℕ) →
        items_of_string before whole ≡ items_from adts (start before whole) }
    ensures view { (r : StringReading) → view_before r ≡ view_of (state_before r) }
    ensures enough { (before : Option Presentation) (whole : List ℕ) (parts : ℕ) →
        length whole < parts → parse_at parts whole before 0 ≡ string_parse before whole }
{}

/// Each item is what stands at its offset in the string: an initialization segment and a coded frame are of the frame
/// whose header stands there, and a fault is what the bytes there are refused for. The payload of a coded frame is the
/// bytes of the string from its offset on, all of which are there.
pub fn place_law()
    ensures init { (r : StringReading) (p : Presentation) (offset : ℕ) →
        next_item r ≡ Some (InitItem p offset) → IsInitAt r.whole offset p }
    ensures header { (r : StringReading) (frame : CodedFrame) (offset : ℕ) →
        next_item r ≡ Some (FrameItem frame offset) → IsFrameAt r.whole offset frame }
    ensures frame { (r : StringReading) (frame : CodedFrame) (offset : ℕ) →
        next_item r ≡ Some (FrameItem frame offset) →
        frame.payload ≡ slice_range r.whole offset (offset + length frame.payload) }
    ensures there { (r : StringReading) (frame : CodedFrame) (offset : ℕ) →
        next_item r ≡ Some (FrameItem frame offset) →
        offset + length frame.payload ≤ length r.whole }
    ensures refused { (r : StringReading) (f : AdtsFault) (offset : ℕ) →
        next_item r ≡ Some (FaultItem f offset) → found_at (drop offset r.whole) ≡ found.Fault f }
{}

/// A fault is the last item.
pub fn fault_law()
    ensures { (r : StringReading) (f : AdtsFault) (offset : ℕ) →
        next_item r ≡ Some (FaultItem f offset) →
        suc r.taken ≡ length (items_of_string r.before r.whole) }
{}

/// The bytes that are held before an item are the end of the string from some offset on.
pub fn held_law()
    ensures { (r : StringReading) → IsSuffix (held_before r) r.whole }
{}

/// However a string was cut, what is kept after its pieces stands for the whole string. And its presentation
/// is that of the last initialization segment that was given.
pub fn pieces_law()
    ensures pieces { (kept : WalkState) (pieces : List (List ℕ)) (r : StringReading) →
        IsKeptFor kept r →
        IsKeptFor (kept_with_all kept pieces) (with_bytes (concat pieces) r) }
    ensures latest { (kept : WalkState) (r : StringReading) → IsKeptFor kept r →
        kept.last ≡ latest_after_all r.before (take r.taken (items_of_string r.before r.whole)) }
{}

/// What the definitions give for two frames, for the first 17 of their bytes, for a frame behind a tag, for one of
/// another sampling frequency, and for headers that are refused.
pub fn row_law()
    ensures two { items_of_string None (frame_44100 ++ frame_44100)
        ≡ first_frame_items 0 ++ next_frame_items 10 }
    ensures cut { items_of_string None (take 17 (frame_44100 ++ frame_44100))
        ≡ first_frame_items 0 }
    ensures phase { phase_before (reading_of (take 17 (frame_44100 ++ frame_44100)) 3) ≡ InMedia }
    ensures held { held_before (reading_of (take 17 (frame_44100 ++ frame_44100)) 3)
        ≡ take 7 frame_44100 }
    ensures tag { items_of_string None (id3_tag ++ frame_44100) ≡ first_frame_items 12 }
    ensures in_tag { held_before (reading_of (take 11 id3_tag) 0) ≡ [] }
    ensures faster { next_item (reading_of (frame_44100 ++ frame_48000) 3)
        ≡ Some (InitItem (presentation_of 48000) 10) }
    ensures sync { items_of_string None (0 ∷ 0 ∷ 0 ∷ 0 ∷ 0 ∷ 0 ∷ 0 ∷ [])
        ≡ FaultItem fault.Sync 0 ∷ [] }
    ensures rate { items_of_string None (255 ∷ 241 ∷ 116 ∷ 128 ∷ 1 ∷ 95 ∷ 252 ∷ [])
        ≡ FaultItem fault.Rate 0 ∷ [] }
    ensures length { items_of_string None (255 ∷ 241 ∷ 80 ∷ 128 ∷ 0 ∷ 223 ∷ 252 ∷ [])
        ≡ FaultItem fault.Length 0 ∷ [] }
{}
