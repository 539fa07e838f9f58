//! What follows from the definitions of this crate: functions that do nothing, with the laws as
//! their contracts.

ghost use Rattle.std.specs.Prelude.{◌≡◌, ℤ, [], true, Option};
ghost use Rattle.mse_base.specs.declared.span.Span.{Span};
ghost use Rattle.mse_base.specs.declared.ticks.Moment.{Moment};
ghost use Rattle.mse_calls.specs.Level.{has_metadata};
ghost use Rattle.mse_calls.specs.declared.answers.Level.{Level};
ghost use Rattle.element_ready.specs.declared.facts.Facts.{Facts};
ghost use Rattle.element_ready.specs.Levels.{level_at};
ghost use Rattle.element_ready.specs.Events.{change_events};

/// A level that stays fires nothing.
pub fn no_change()
    ensures { (l : Level) (f : Facts) → change_events l l f ≡ [] }
{}

/// The level of a position is never `HAVE_NOTHING`.
pub fn has_data()
    ensures { (range : Option Span) (position : ℤ) (duration : Moment)
        → has_metadata (level_at range position duration) ≡ true }
{}
