//! Comparisons of times and of points of time. Of two times the lesser and the greater are std's
//! `min` and `max`, and whether two points of time, or two kinds, are the same is `==`.

ghost use Rattle.std.specs.Prelude.{◌≡◌};
ghost use Rattle.mse_base.specs.Moments.{is_before, is_after, is_at_or_before, is_nan, greater_moment, lesser_moment, time_or, lesser_of, greater_of, greater_with, lesser_with};

use crate::{Moment, Ticks};

impl Ticks {
    /// Whether the time is before a point of time: never before `Moment::Nan`, always before
    /// `Moment::Infinite`.
    pub fn is_before(self, moment: Moment) -> bool
        ensures { result ≡ is_before self moment }
    {
        match moment {
            Moment::At(m) => self < m,
            Moment::Infinite => true,
            Moment::Nan => false,
        }
    }

    /// Whether the time is after a point of time: never after `Moment::Nan` or
    /// `Moment::Infinite`.
    pub fn is_after(self, moment: Moment) -> bool
        ensures { result ≡ is_after self moment }
    {
        match moment {
            Moment::At(m) => m < self,
            Moment::Infinite | Moment::Nan => false,
        }
    }

    /// The lesser of the least time so far, where there is one, and this time.
    pub fn lesser_of(self, least: Option<Ticks>) -> Option<Ticks>
        ensures { result ≡ lesser_of least self }
    {
        match least {
            Some(other) => Some(other.min(self)),
            None => Some(self),
        }
    }

    /// The greater of the greatest time so far, where there is one, and this time.
    pub fn greater_of(self, greatest: Option<Ticks>) -> Option<Ticks>
        ensures { result ≡ greater_of greatest self }
    {
        match greatest {
            Some(other) => Some(other.max(self)),
            None => Some(self),
        }
    }

    /// The greater of another time, where there is one, and this time.
    pub fn greater_with(self, other: Option<Ticks>) -> Ticks
        ensures { result ≡ greater_with other self }
    {
        match other {
            Some(other) => other.max(self),
            None => self,
        }
    }

    /// The lesser of another time, where there is one, and this time.
    pub fn lesser_with(self, other: Option<Ticks>) -> Ticks
        ensures { result ≡ lesser_with other self }
    {
        match other {
            Some(other) => other.min(self),
            None => self,
        }
    }

    /// The lesser of this time and a point of time: this time where that is `Moment::Nan`.
    pub fn at_most(self, moment: Moment) -> Ticks
        ensures { result ≡ lesser_moment self moment }
    {
        match moment {
            Moment::At(m) => self.min(m),
            Moment::Nan | Moment::Infinite => self,
        }
    }
}

impl Moment {
    /// Whether it is a time, and not after `t`.
    pub fn is_at_or_before(self, t: Ticks) -> bool
        ensures { result ≡ is_at_or_before self t }
    {
        match self {
            Moment::At(m) => m <= t,
            Moment::Infinite | Moment::Nan => false,
        }
    }

    /// Whether it is not a number.
    pub fn is_nan(self) -> bool
        ensures { result ≡ is_nan self }
    {
        match self {
            Moment::Nan => true,
            Moment::At(_) | Moment::Infinite => false,
        }
    }

    /// The greater of this point of time and a time: the time where this is `Moment::Nan`.
    pub fn at_least(self, t: Ticks) -> Moment
        ensures { result ≡ greater_moment self t }
    {
        match self {
            Moment::Nan => Moment::At(t),
            Moment::At(m) => Moment::At(m.max(t)),
            Moment::Infinite => Moment::Infinite,
        }
    }

    /// The time, or `otherwise` where there is none.
    pub fn time_or(time: Option<Ticks>, otherwise: Moment) -> Moment
        ensures { result ≡ time_or time otherwise }
    {
        match time {
            Some(t) => Moment::At(t),
            None => otherwise,
        }
    }
}
