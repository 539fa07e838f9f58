ghost use Rattle.std.specs.Prelude.{◌≡◌, suc, ◌+◌, ◌<◌, ◌≤◌, ◌++◌, ℕ, List, Bool, true, Option, Some, length, take, drop, slice_get};
ghost use Rattle.mse_base.specs.declared.track.Presentation.{Presentation};
ghost use Rattle.parser_loop.specs.Items.{Item, IsPrefix, latest_after_all, leading_frames, is_fault, is_frame};
ghost use Rattle.parser_loop.specs.Parse.{items_of, seen_before, parse_from, IsTrue, IfMoved, IsHaltBehind, IsSuffixLeft, IsSuffix, IsLatestAfterMove};
ghost use Rattle.parser_loop.specs.Walk.{StreamKind, IsWalk, AreFrontItems, Lookahead, Stands, items_from, settled_state, state_at, more_all, lookahead_from, kept_with, kept_with_all, first_item, after_first, count_after, leading_count};

/// With more bytes the items begin with those that were there, and none follow one that ends the walk.
pub fn prefix_law<S, I>()
    ensures { (k : StreamKind S I) → IsWalk k → (s : S) (c : List ℕ) →
        AreFrontItems k (items_from k s) (items_from k (k.more s c)) }
{}

/// With more bytes the state before an item that is there is the one before, with more bytes, after the moves that
/// lead up to the next item.
pub fn state_law<S, I>()
    ensures { (k : StreamKind S I) → IsWalk k → (n : ℕ) (s : S) (c : List ℕ) →
        n ≤ length (items_from k s) →
        state_at k n (k.more s c) ≡ settled_state k (k.more (state_at k n s) c) }
{}

/// From the state before item `n` on the items are those from `n` on.
pub fn items_law<S, I>()
    ensures { (k : StreamKind S I) → IsWalk k → (n : ℕ) (s : S) →
        items_from k (state_at k n s) ≡ drop n (items_from k s) }
{}

/// Items that are taken ahead are the next ones (the code parses frames before they are asked for), and to take them
/// before more bytes come or after is the same.
pub fn lookahead_law<S, I>()
    ensures items { (k : StreamKind S I) → IsWalk k → (s : S) →
        items_from k s ≡ (lookahead_from k s).items ++ items_from k (lookahead_from k s).state }
    ensures more { (k : StreamKind S I) → IsWalk k → (s : S) (c : List ℕ) →
        lookahead_from k (k.more s c) ≡ kept_with k (lookahead_from k s) c }
{}

/// What is kept stands for the walk, at the start, after each piece and behind each item that was given, and it
/// gives the items of the walk. It is all that can be taken ahead from the state before the next item on.
pub fn kept_law<S, I>()
    ensures start { (k : StreamKind S I) → IsWalk k → (s : S) → Stands k (lookahead_from k s) s 0 }
    ensures pieces { (k : StreamKind S I) → IsWalk k →
        (kept : Lookahead S I) (s : S) (n : ℕ) (cs : List (List ℕ)) → Stands k kept s n →
        Stands k (kept_with_all k kept cs) (more_all k s cs) n }
    ensures first { (k : StreamKind S I) → IsWalk k → (kept : Lookahead S I) (s : S) (n : ℕ) →
        Stands k kept s n → first_item k kept ≡ slice_get (items_from k s) n }
    ensures after { (k : StreamKind S I) → IsWalk k → (kept : Lookahead S I) (s : S) (n : ℕ) →
        Stands k kept s n →
        Stands k (after_first k kept) s (count_after n (first_item k kept)) }
    ensures look { (k : StreamKind S I) → IsWalk k → (kept : Lookahead S I) (s : S) (n i : ℕ) →
        i < length kept.items → Stands k kept s n →
        slice_get kept.items i ≡ slice_get (items_from k s) (n + i) }
    ensures ready { (k : StreamKind S I) → IsWalk k → (kept : Lookahead S I) (s : S) (n : ℕ) →
        Stands k kept s n → length kept.items ≡ leading_count k (drop n (items_from k s)) }
    ensures lookahead { (k : StreamKind S I) → IsWalk k → (kept : Lookahead S I) (s : S) (n : ℕ) →
        Stands k kept s n → kept ≡ lookahead_from k (state_at k n s) }
{}

/// The parse that a walk makes has its items, and shows before each what is seen of its state.
pub fn parse_law<S, V, I>()
    ensures items { (k : StreamKind S I) → IsWalk k → (see : S → V) (s : S) →
        items_of (parse_from k see s) ≡ items_from k s }
    ensures seen { (k : StreamKind S I) → IsWalk k → (see : S → V) (s : S) (n : ℕ) →
        seen_before n (parse_from k see s) ≡ see (state_at k n s) }
{}

/// What all moves keep holds of each item, and of the state before each.
pub fn invariant_law<S, I>()
    ensures items { (k : StreamKind S I) (p : S → Bool) (q : I → Bool) → IsWalk k →
        ((s : S) → p s ≡ true → IfMoved (IsTrue p) (IsTrue q) (k.move s)) →
        (s : S) (n : ℕ) (item : I) → p s ≡ true →
        slice_get (items_from k s) n ≡ Some item → q item ≡ true }
    ensures states { (k : StreamKind S I) (p : S → Bool) (q : I → Bool) → IsWalk k →
        ((s : S) → p s ≡ true → IfMoved (IsTrue p) (IsTrue q) (k.move s)) →
        (s : S) (n : ℕ) → p s ≡ true → p (state_at k n s) ≡ true }
{}

/// An item behind which the walk halts is the last one.
pub fn last_law<S, I>()
    ensures { (k : StreamKind S I) (q : I → Bool) → IsWalk k →
        ((s : S) → IsHaltBehind k (IsTrue q) (k.move s)) →
        (s : S) (n : ℕ) (item : I) → slice_get (items_from k s) n ≡ Some item → q item ≡ true →
        suc n ≡ length (items_from k s) }
{}

/// Where each move leaves an end of the bytes that are kept, what is kept before an item is an end of the string.
pub fn suffix_law<S, I>()
    ensures { (k : StreamKind S I) (bytes : S → List ℕ) → IsWalk k →
        ((s : S) → IsSuffixLeft bytes (bytes s) (k.move s)) →
        (s : S) (n : ℕ) → IsSuffix (bytes (state_at k n s)) (bytes s) }
{}

/// Where each move remembers the presentation of an initialization segment, the one before an item is that of the
/// last initialization segment among the items before it, or that of the start.
pub fn latest_law<S, F>()
    ensures { (k : StreamKind S (Item F)) (latest : S → Option Presentation) → IsWalk k →
        ((s : S) → IsLatestAfterMove latest (latest s) (k.move s)) →
        (s : S) (n : ℕ) →
        latest (state_at k n s) ≡ latest_after_all (latest s) (take n (items_from k s)) }
{}

/// Where faults end the walk, more bytes leave its items the first ones; where coded frames may be taken ahead,
/// those ahead are the ones up to the first item that is none.
pub fn item_law<S, F>()
    ensures prefix { (k : StreamKind S (Item F)) → IsWalk k →
        ((item : Item F) → k.ends item ≡ is_fault item) → (s : S) (c : List ℕ) →
        IsPrefix (items_from k s) (items_from k (k.more s c)) }
    ensures ahead { (k : StreamKind S (Item F)) → ((item : Item F) → k.runs item ≡ is_frame item) →
        (items : List (Item F)) → leading_count k items ≡ length (leading_frames items) }
{}
