//! What follows from the definitions of this crate: functions that do nothing, with the laws as
//! their contracts.

ghost use Rattle.std.specs.Prelude.{◌≡◌, ◌+ℤ◌, ◌≤ℤ◌, ℤ, Bool, true, false, List, [], ◌∷◌, ◌++◌, ◌||◌, Some, None};
ghost use Rattle.std.specs.List.{AllByRecursion};
ghost use Rattle.track_store.specs.Calls.{AnswerView, AreSameAnswers, IsCallRun, IsGiven, answer_of, frames_after};
ghost use Rattle.mse_base.specs.Moments.{greatest};
ghost use Rattle.track_store.specs.Frames.{ends, frames_without, from_sync};
ghost use Rattle.track_store.specs.Kept.{AreEndedBy};
ghost use Rattle.track_store.specs.Sound.{IsSound, IsDecodable};
ghost use Rattle.track_store.specs.State.{TrackState};
ghost use Rattle.track_store.specs.declared.calls.StoreCall.{StoreCall};
ghost use Rattle.track_store.specs.declared.calls.StoreCall.TheVariants.{Change, Look};
ghost use Rattle.track_store.specs.declared.calls.StoreChange.{StoreChange};
ghost use Rattle.track_store.specs.declared.calls.StoreLook.{StoreLook};
ghost use Rattle.track_store.specs.declared.store.Stored.{Stored};

/// What a removal is, in the words of the standard (Media Source Extensions, coded frame removal,
/// step 3.4; coded frame processing, step 1.15): with a frame that is named go all frames up to
/// the next random access point, and frames before the first that is named stay. The first three
/// laws determine the removal; by the fourth, two removals one after the other are one of both.
pub fn clearing()
    ensures none { (named : Stored → Bool) → frames_without named [] ≡ [] }
    ensures named { (named : Stored → Bool) (f : Stored) (fs : List Stored) → named f ≡ true
        → frames_without named (f ∷ fs) ≡ frames_without named (from_sync fs) }
    ensures unnamed { (named : Stored → Bool) (before after : List Stored)
        → AllByRecursion (λ f. named f ≡ false) before
        → frames_without named (before ++ after) ≡ before ++ frames_without named after }
    ensures twice { (p q : Stored → Bool) (fs : List Stored)
        → frames_without q (frames_without p fs) ≡ frames_without (λ f. p f || q f) fs }
{}

/// In a track buffer that is sound each frame is a random access point, or the frame that the
/// track received just before it is held too.
pub fn decodable()
    ensures { (t : TrackState) → IsSound t → IsDecodable t.frames }
{}

/// Calls one after another are a run: none at all, and one call more than a run, as `change` or
/// `look_up` ensures it.
pub fn call_runs()
    ensures none { (gap : ℤ) (fs : List Stored) → IsCallRun gap fs [] [] fs }
    ensures change { (gap : ℤ) (fs gs : List Stored) (calls : List StoreCall)
        (given : List AnswerView) (c : StoreChange) → IsCallRun gap fs calls given gs
        → IsCallRun gap fs (calls ++ Change c ∷ []) given (frames_after c gs) }
    ensures look { (gap : ℤ) (fs gs : List Stored) (calls : List StoreCall)
        (given : List AnswerView) (l : StoreLook) (a : AnswerView) → IsCallRun gap fs calls given gs
        → IsGiven (answer_of gap l gs) a
        → IsCallRun gap fs (calls ++ Look l ∷ []) (given ++ a ∷ []) gs }
{}

/// Any two stores give the same answers: from the same frames and gap, over the same calls, the
/// answers to the look-ups are the same, but that a store may find no memory, and so are the
/// frames that are left. So any store gives the answers of the plain store. The calls are all of
/// `FrameStore`; `run_calls` makes such a run of any store, and knows of it only the contract of
/// `FrameStore`.
pub fn same_answers()
    ensures { (gap : ℤ) (fs gs hs : List Stored) (calls : List StoreCall)
        (xs ys : List AnswerView) → IsCallRun gap fs calls xs gs → IsCallRun gap fs calls ys hs
        → AreSameAnswers xs ys × (gs ≡ hs) }
{}

/// The greatest frame end timestamp bounds those of all frames, and there is one where there is a
/// frame.
pub fn highest_end_bounds()
    ensures bound { (fs : List Stored) (end : ℤ) → greatest (ends fs) ≡ Some end
        → AllByRecursion (λ f. (f.frame.pts +ℤ f.frame.dur) ≤ℤ end) fs }
    ensures none { (fs : List Stored) → greatest (ends fs) ≡ None → fs ≡ [] }
{}

/// Frames that end at or before a time end at or before a later one.
pub fn raised_limit()
    ensures { (limit more : ℤ) (ts : List TrackState) → limit ≤ℤ more → AreEndedBy limit ts
        → AreEndedBy more ts }
{}
