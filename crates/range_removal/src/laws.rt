//! What follows from the definitions of this crate: functions that do nothing, with the laws as
//! their contracts.

ghost use Rattle.std.specs.Prelude.{◌≡◌, Bool, false, ℤ, List, [], ◌∷◌, ◌++◌, if◌then◌else◌};
ghost use Rattle.std.specs.List.{AllByRecursion};
ghost use Rattle.mse_base.specs.declared.ticks.Moment.{Moment};
ghost use Rattle.track_store.specs.Frames.{is_between};
ghost use Rattle.range_removal.specs.Removal.{is_last_removed, remove_end, track_after_removal};
ghost use Rattle.track_store.specs.Frames.{frames_without};
ghost use Rattle.track_store.specs.State.{TrackState};
ghost use Rattle.track_store.specs.declared.store.Stored.{Stored};

/// After a removal no frame of a track begins at or after the start and before the remove end
/// timestamp.
pub fn nothing_left()
    ensures { (start : ℤ) (end duration : Moment) (t : TrackState)
        → AllByRecursion (λ f. is_between start (remove_end end duration t.frames) f ≡ false)
        (track_after_removal start end duration t).frames }
{}

/// When the last frame goes: what is left of a list is what is left of it without its last frame,
/// and then the last frame, unless that one goes.
pub fn last_frame()
    ensures none { (named : Stored → Bool) → is_last_removed named [] ≡ false }
    ensures last { (named : Stored → Bool) (fs : List Stored) (f : Stored)
        → frames_without named (fs ++ f ∷ [])
        ≡ (if is_last_removed named (fs ++ f ∷ []) then frames_without named fs
        else (frames_without named fs ++ f ∷ [])) }
{}
