ghost use Rattle.std.specs.Prelude.{◌≡◌, ◌≤◌, ◌^◌, ◌+ℤ◌, ◌-ℤ◌, ◌*ℤ◌, pos, unsigned_abs};
ghost use Rattle.mse_base.specs.Time.{IsTick, tick, media_ticks, SECOND as ticks_in_a_second};

use std::marker::Model;

/// How many ticks a second has: `2^12 * 3^2 * 5^7 * 7^2`, which the common frame rates and sample
/// rates divide.
const SECOND: u64 = 141_120_000_000;

/// The greatest number of ticks.
const MOST: i128 = 1 << 110;

/// A time, or a length of time, in ticks of 1/141,120,000,000 of a second: at most `2^110` ticks
/// from 0, on either side.
#[derive(Clone, Copy, Debug, PartialEq, Eq, PartialOrd, Ord)]
pub struct Ticks {
    value: i128,
}

impl Model for Ticks {
    ghost use Rattle.std.specs.Prelude.{ℤ};
    ghost use Rattle.mse_base.specs.Time.{IsTick};

    ghost Value = { ℤ };

    ghost view = { λ t. t.value };

    ghost invariant = { λ t. IsTick t.value };

    ghost inverse = { λ z. record { value = z } };
}

impl Ticks {
    /// So many ticks; `None` exactly where they are more than `2^110` from 0.
    #[tactic(auto, unfolding(crate::specs::Time::tick))]
    pub fn new(v: i128) -> Option<Ticks>
        ensures { result ≡ tick v }
    {
        if -MOST <= v && v <= MOST {
            Some(Ticks { value: v })
        } else {
            None
        }
    }

    /// The time 0.
    pub fn zero() -> Ticks
        ensures { result ≡ pos 0 }
    {
        Ticks { value: 0 }
    }

    /// The number of ticks.
    pub fn get(self) -> i128
        ensures value { result ≡ self }
        ensures is_tick { IsTick self }
    {
        self.value
    }

    /// The sum; `None` exactly where it is more than `2^110` from 0.
    pub fn checked_add(self, other: Ticks) -> Option<Ticks>
        ensures { result ≡ tick (self +ℤ other) }
    {
        Ticks::new(self.get() + other.get())
    }

    /// The difference; `None` exactly where it is more than `2^110` from 0.
    pub fn checked_sub(self, other: Ticks) -> Option<Ticks>
        ensures { result ≡ tick (self -ℤ other) }
    {
        Ticks::new(self.get() - other.get())
    }
}

/// A media time by a whole number of ticks.
fn product(m: i128, ticks: u64) -> i128
    requires small { unsigned_abs m ≤ 2 ^ 80 }
    requires within_a_second { ticks ≤ ticks_in_a_second }
    ensures { result ≡ m *ℤ pos ticks }
{
    m * i128::from(ticks)
}

/// A media time `m`, of which `scale` units make a second, in ticks: the floor of
/// `m * 141120000000 / scale`, towards minus infinity. `None` exactly where that is more than
/// `2^110` from 0.
pub fn convert(m: i128, scale: u32) -> Option<Ticks>
    requires small { unsigned_abs m ≤ 2 ^ 80 }
    requires positive { 1 ≤ scale }
    ensures { result ≡ tick (media_ticks m scale) }
{
    let scale = u64::from(scale);
    // The usual scales divide a second, and a product costs less than a division of 128 bits.
    if SECOND % scale == 0 {
        return Ticks::new(product(m, SECOND / scale));
    }
    let numerator = product(m, SECOND);
    Ticks::new(numerator.div_euclid(i128::from(scale)))
}

/// A point of time, as a duration or the end of a window has it: not a number, a time, or later
/// than all times. Web APIs write it as a double.
#[derive(Clone, Copy, Debug, PartialEq, Eq)]
pub enum Moment {
    Nan,
    At(Ticks),
    Infinite,
}
