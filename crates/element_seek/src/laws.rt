//! What follows from the definitions of this crate: functions that do nothing, with the laws as
//! their contracts.

ghost use Rattle.std.specs.Prelude.{◌≡◌, ℤ, []};
ghost use Rattle.mse_calls.specs.declared.calls.EndKind.{EndKind};
ghost use Rattle.element_seek.specs.declared.scene.Scene.{Scene};
ghost use Rattle.element_seek.specs.State.{PlayerState, player_change};
ghost use Rattle.element_seek.specs.Seeking.{after_seek, after_load};
ghost use Rattle.element_seek.specs.Playing.{after_play, after_pause, after_advance, after_fail};
ghost use Rattle.element_seek.specs.Turns.{after_turn};
ghost use Rattle.element_seek.specs.Settling.{after_settle};
ghost use Rattle.element_seek.specs.Inside.{HasSpansInside, IsStillInside};

/// The end of a step, made twice, is made once: the second tells nothing and leaves the state.
pub fn settled_once()
    ensures { (scene : Scene) (p : PlayerState)
        → after_settle scene (after_settle scene p).state
        ≡ player_change [] (after_settle scene p).state }
{}

/// Where the buffered range at the position and what can be sought lie between 0 and the duration,
/// no call takes the position out of there.
pub fn position_inside()
    ensures seek { (t : ℤ) (scene : Scene) (p : PlayerState) → HasSpansInside scene
        → IsStillInside scene p (after_seek t scene p).state }
    ensures load { (scene : Scene) (p : PlayerState) → HasSpansInside scene
        → IsStillInside scene p (after_load scene p).state }
    ensures play { (scene : Scene) (p : PlayerState) → HasSpansInside scene
        → IsStillInside scene p (after_play scene p).state }
    ensures pause { (scene : Scene) (p : PlayerState)
        → IsStillInside scene p (after_pause p).state }
    ensures advance { (t : ℤ) (scene : Scene) (p : PlayerState) → HasSpansInside scene
        → IsStillInside scene p (after_advance t scene p).state }
    ensures turn { (scene : Scene) (p : PlayerState)
        → IsStillInside scene p (after_turn scene p).state }
    ensures fail { (kind : EndKind) (scene : Scene) (p : PlayerState)
        → IsStillInside scene p (after_fail kind p).state }
    ensures settle { (scene : Scene) (p : PlayerState)
        → IsStillInside scene p (after_settle scene p).state }
{}
