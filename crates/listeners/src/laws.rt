//! What holds of the definitions.

ghost use Rattle.std.specs.Prelude.{◌≡◌};
ghost use Rattle.mse_calls.specs.declared.events.Event.{Event};
ghost use Rattle.listeners.specs.Events.{event_number};

/// No two events have one number, so that rules are found by it.
pub fn numbers_tell_events()
    ensures { (a b : Event) → event_number a ≡ event_number b → a ≡ b }
{}
