ghost use Rattle.std.specs.Prelude.{◌≡◌, [], ◌∷◌, Option, Some, None};
ghost use lib.Chars.{codes};
ghost use Rattle.mse_base.specs.declared.frame.CodedFrame.{CodedFrame};
ghost use Rattle.mse_base.specs.declared.track.Presentation.{Presentation};
ghost use Rattle.parser_loop.specs.Items.{Item, InitItem, FrameItem, SegmentEnd, FaultItem, latest_after_all, leading_frames, answer_item, with_fault};
ghost use Rattle.parser_loop.specs.Parse.{NoItem, ItemThen, parse_from, seen_before, items_of};
ghost use Rattle.parser_loop.specs.declared.next.Next.TheVariants as next;
ghost use Rattle.parser_loop.specs.StringReadings.{after_answer, after_reset, string_from, with_bytes};
ghost use Rattle.parser_loop.specs.Walk.{IsWalk, items_from, state_at, lookahead_from, kept_with, first_item, after_first};
ghost use Rattle.parser_loop.specs.Example.{zero_ended, example_state};

/// What the definitions give for a walk over texts that end at a zero byte.
pub fn example_law()
    ensures is_walk { IsWalk zero_ended }
    ensures items { items_from zero_ended (example_state (codes "a b")) ≡ codes "ab" }
    ensures ended { items_from zero_ended (example_state (97 ∷ 0 ∷ 98 ∷ [])) ≡ 97 ∷ 0 ∷ [] }
    ensures parse { parse_from zero_ended (λ s. s.rest) (example_state (codes "a b")) ≡
        ItemThen (codes "a b") 97 (ItemThen (codes "b") 98 (NoItem [])) }
    ensures state { state_at zero_ended 1 (example_state (codes "a bc"))
        ≡ example_state (codes "bc") }
    ensures ahead { lookahead_from zero_ended (example_state (97 ∷ 32 ∷ 0 ∷ 98 ∷ [])) ≡
        record { items = codes "a"; state = example_state (0 ∷ 98 ∷ []) } }
    ensures pieces { kept_with zero_ended (lookahead_from zero_ended (example_state (codes "a ")))
        (codes " b") ≡ record { items = codes "ab"; state = example_state [] } }
    ensures first { first_item zero_ended (lookahead_from zero_ended (example_state (codes " ab")))
        ≡ Some 97 }
    ensures after { (after_first zero_ended
        (lookahead_from zero_ended (example_state (codes " ab")))).items ≡ codes "b" }
{}

/// What the definitions give for lists of items, and for a parse of three.
pub fn item_example_law<F>()
    ensures latest { (last : Option Presentation) (p q : Presentation) (f : F) →
        latest_after_all last (InitItem p 0 ∷ InitItem q 9 ∷ SegmentEnd ∷ FaultItem f 20 ∷ [])
        ≡ Some q }
    ensures frames { (x y : CodedFrame) (f : F) →
        leading_frames {F = F} (FrameItem x 8 ∷ FrameItem y 9 ∷ SegmentEnd ∷ FrameItem x 20 ∷ [])
        ≡ x ∷ y ∷ [] }
    ensures named { (f : F) → with_fault Some (FaultItem f 4) ≡ FaultItem (Some f) 4 }
    ensures parse { (a b c : F) (x y : CodedFrame) →
        items_of (ItemThen a x (ItemThen b y (NoItem c))) ≡ x ∷ y ∷ [] }
    ensures seen { (a b c : F) (x y : CodedFrame) →
        seen_before 1 (ItemThen a x (ItemThen b y (NoItem c))) ≡ b }
    ensures end { (a b c : F) (x y : CodedFrame) →
        seen_before 3 (ItemThen a x (ItemThen b y (NoItem c))) ≡ c }
    ensures answer { (f : F) → answer_item (next.Fault f 4) ≡ Some (FaultItem f 4) }
    ensures dry { answer_item {F = F} next.Dry ≡ None }
{}

/// What the definitions give for a string that comes in two pieces, of whose items one was given, and for a reset
/// behind its first item.
pub fn string_example_law<F>()
    ensures bytes { (last : Option Presentation) →
        with_bytes (codes "c") (with_bytes (codes "ab") (string_from last))
        ≡ record { before = last; whole = codes "abc"; taken = 0 } }
    ensures given { (last : Option Presentation) (item : Item F) →
        after_answer (Some item) (with_bytes (codes "ab") (string_from last))
        ≡ record { before = last; whole = codes "ab"; taken = 1 } }
    ensures none { (last : Option Presentation) →
        after_answer {I = Item F} None (with_bytes (codes "ab") (string_from last))
        ≡ with_bytes (codes "ab") (string_from last) }
    ensures reset { (last : Option Presentation) (p q : Presentation) →
        after_reset {F = F} (InitItem p 0 ∷ InitItem q 9 ∷ [])
        (record { before = last; whole = codes "ab"; taken = 1 }) ≡ string_from (Some p) }
{}
