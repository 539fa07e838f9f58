//! What follows from the definitions of this crate: functions that do nothing, with the laws as
//! their contracts.

ghost use Rattle.std.specs.Prelude.{◌≡◌, ℤ, false, List, None};
ghost use Rattle.mse_base.specs.Moments.{greater_moment, is_nan, IsNotAfter};
ghost use Rattle.mse_base.specs.declared.ticks.Moment.{Moment};
ghost use Rattle.mse_calls.specs.Level.{has_metadata};
ghost use Rattle.mse_calls.specs.declared.events.Event.{Event};
ghost use Rattle.element_seek.specs.declared.scene.Scene.{Scene};
ghost use Rattle.element_seek.specs.Inside.{IsInside};
ghost use Rattle.element_seek.specs.Settling.{after_settle};
ghost use Rattle.element_seek.specs.State.{PlayerState};
ghost use Rattle.media_element.specs.DurationChange.{sought_end};
ghost use Rattle.media_element.specs.State.{ElementState};
ghost use Rattle.media_element.specs.Queueing.{with_events, after_fire, after_action};
ghost use Rattle.media_element.specs.Settled.{IsSettled};

/// The end of a step settles the element, and changes nothing of a settled one: made twice it is
/// made once.
pub fn settled_once()
    ensures settled { (scene : Scene) (e : ElementState)
        → IsSettled scene (after_action (after_settle scene) e) }
    ensures unchanged { (scene : Scene) (e : ElementState)
        → IsSettled scene e → after_action (after_settle scene) e ≡ e }
    ensures once { (scene : Scene) (e : ElementState)
        → after_action (after_settle scene) (after_action (after_settle scene) e)
        ≡ after_action (after_settle scene) e }
{
    // The proof reads off this that a settled player is settled once.
    element_seek::laws::settled_once();
}

/// No seek follows from a duration that is not before the one that there was, where the position
/// lay inside that: a coded frame, an initialization segment and a reset of the parser only raise
/// the duration, so what they change it to is told by an event alone. Nor does one follow where the
/// element has no metadata.
pub fn raised_duration()
    ensures no_seek { (old new : Moment) (p : PlayerState) → is_nan old ≡ false
        → IsNotAfter old new → IsInside old p.position → sought_end new p ≡ None }
    ensures blank { (new : Moment) (p : PlayerState) → has_metadata p.level ≡ false
        → sought_end new p ≡ None }
    ensures raised { (old : Moment) (t : ℤ) → IsNotAfter old (greater_moment old t) }
{}

/// A settled element stays settled where events are queued, at whatever target, and where one is
/// fired.
pub fn stays_settled()
    ensures queued { (events : List Event) (scene : Scene) (e : ElementState)
        → IsSettled scene e → IsSettled scene (with_events events e) }
    ensures fired { (scene : Scene) (e : ElementState)
        → IsSettled scene e → IsSettled scene (after_fire e) }
{}
