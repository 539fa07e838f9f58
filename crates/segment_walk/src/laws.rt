ghost use Rattle.std.specs.Prelude.{ℕ, suc, ◌+◌, ◌≡◌, ◌<◌, ◌≤◌, List, ◌++◌, Option, Some, Ok, length, take, slice_range};
ghost use Rattle.mse_base.specs.declared.frame.CodedFrame.{CodedFrame};
ghost use Rattle.mse_base.specs.declared.frame.Phase.TheVariants.{Waiting};
ghost use Rattle.mse_base.specs.declared.track.Presentation.{Presentation};
ghost use Rattle.bmff_init.specs.Movies.{init_of};
ghost use Rattle.parser_loop.specs.Items.{IsPrefix, InitItem, FrameItem, FaultItem, latest_after_all};
ghost use Rattle.parser_loop.specs.Parse.{IsSuffix};
ghost use Rattle.parser_loop.specs.StringReadings.{StringReading};
ghost use Rattle.parser_loop.specs.Walk.{IsWalk};
ghost use Rattle.segment_walk.specs.declared.kinds.StreamFault.{StreamFault};
ghost use Rattle.segment_walk.specs.Segments.{IsFrameOfMoof, items_of_string, NoFragment, box_at, held_before, latest_before, next_item, parse_of_boxes, phase_before, ready_before, segment_parse};
ghost use Rattle.segment_walk.specs.Moves.{segments};
ghost use Rattle.segment_walk.specs.Strings.{state_before, walk_held, walk_items, walk_phase, walk_ready};

/// The items of a string are the first items of each longer string, and all of them where one is a fault.
pub fn prefix_law()
    ensures { (before : Option Presentation) (bytes more : List ℕ) →
        IsPrefix (items_of_string before bytes) (items_of_string before (bytes ++ more)) }
{}

/// The latest presentation of a reading is the one of the last initialization segment among the items that were given,
/// or the one that was left by what came before the string.
pub fn latest_law()
    ensures { (r : StringReading) →
        latest_before r
        ≡ latest_after_all r.before (take r.taken (items_of_string r.before r.whole)) }
{}

/// The walk of the parser gives what the boxes of the string tell: the items, and before each the append state, the
/// latest presentation and the bytes held. No box comes behind as many as there are bytes.
pub fn boxes_law()
    ensures walk { IsWalk segments }
    ensures items { (before : Option Presentation) (whole : List ℕ) →
        walk_items before whole ≡ items_of_string before whole }
    ensures phase { (r : StringReading) → walk_phase r ≡ phase_before r }
    ensures held { (r : StringReading) → walk_held r ≡ held_before r }
    ensures latest { (r : StringReading) → (state_before r).last ≡ latest_before r }
    ensures ready { (r : StringReading) → walk_ready r ≡ ready_before r }
    ensures enough { (before : Option Presentation) (whole : List ℕ) (boxes : ℕ) →
        length whole < boxes →
        parse_of_boxes boxes whole before (NoFragment Waiting) 0 ≡ segment_parse before whole }
{}

/// A presentation is what the whole box at its offset reads as. A coded frame is that of a slot which the moof at an
/// offset of the string has by the tracks of the latest presentation: its track, times and sync mark are the slot's.
/// Its payload are the bytes of the string at its offset, which are there. A fault is the last item.
pub fn place_law()
    ensures init { (r : StringReading) (p : Presentation) (offset : ℕ) →
        next_item r ≡ Some (InitItem p offset) → init_of (box_at r.whole offset) ≡ Ok p }
    ensures announced { (r : StringReading) (frame : CodedFrame) (offset : ℕ) →
        next_item r ≡ Some (FrameItem frame offset) →
        IsFrameOfMoof (latest_before r) r.whole frame offset }
    ensures frame { (r : StringReading) (frame : CodedFrame) (offset : ℕ) →
        next_item r ≡ Some (FrameItem frame offset) →
        frame.payload ≡ slice_range r.whole offset (offset + length frame.payload) }
    ensures there { (r : StringReading) (frame : CodedFrame) (offset : ℕ) →
        next_item r ≡ Some (FrameItem frame offset) →
        offset + length frame.payload ≤ length r.whole }
    ensures fault { (r : StringReading) (f : StreamFault) (offset : ℕ) →
        next_item r ≡ Some (FaultItem f offset) →
        suc r.taken ≡ length (items_of_string r.before r.whole) }
{}

/// The bytes that are held are the end of the string from an offset on.
pub fn held_law()
    ensures { (r : StringReading) → IsSuffix (held_before r) r.whole }
{}
