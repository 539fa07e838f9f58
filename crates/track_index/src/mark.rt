//! Times, and numbers of ticks a little beyond them.

ghost use Rattle.std.specs.Prelude.{◌≡◌, ℤ, pos, ◌+ℤ◌, ◌-ℤ◌, int_le, int_lt};
ghost use Rattle.mse_base.specs.Time.{tick};

use mse_base::Ticks;
use std::marker::Model;

/// A time, or one a little beyond the ticks.
#[derive(Clone, Copy, Drop, PartialEq, Eq, PartialOrd, Ord)]
pub(crate) struct TimeMark {
    value: i128,
}

impl Model for TimeMark {
    ghost use Rattle.std.specs.Prelude.{ℤ};

    ghost Value = { ℤ };

    ghost view = { λ m. m.value };

    ghost inverse = { λ z. record { value = z } };
}

impl TimeMark {
    /// At a time.
    pub(crate) fn at(t: Ticks) -> TimeMark
        ensures { result ≡ t }
    {
        TimeMark { value: t.get() }
    }

    /// Just after a time.
    pub(crate) fn after(t: Ticks) -> TimeMark
        ensures { result ≡ t +ℤ pos 1 }
    {
        TimeMark { value: t.get() + 1 }
    }

    /// Some ticks after a time.
    pub(crate) fn beyond(t: Ticks, gap: Ticks) -> TimeMark
        ensures { result ≡ t +ℤ gap }
    {
        TimeMark {
            value: t.get() + gap.get(),
        }
    }

    /// Some ticks before a time.
    pub(crate) fn ahead(t: Ticks, gap: Ticks) -> TimeMark
        ensures { result ≡ t -ℤ gap }
    {
        TimeMark {
            value: t.get() - gap.get(),
        }
    }

    /// Whether it is after a time.
    pub(crate) fn is_after(self, t: Ticks) -> bool
        ensures { result ≡ int_lt t self }
    {
        t.get() < self.value
    }

    /// Whether it is not before a time.
    pub(crate) fn is_from(self, t: Ticks) -> bool
        ensures { result ≡ int_le t self }
    {
        t.get() <= self.value
    }

    /// Whether it is not after a time.
    pub(crate) fn is_by(self, t: Ticks) -> bool
        ensures { result ≡ int_le self t }
    {
        self.value <= t.get()
    }

    /// As a time; `None` exactly where it is out of range.
    pub(crate) fn time(self) -> Option<Ticks>
        ensures { result ≡ tick self }
    {
        Ticks::new(self.value)
    }
}
