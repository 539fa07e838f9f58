ghost use Rattle.std.specs.Prelude.{◌≡◌, ◌≤◌, ◌^◌, IfSome, unsigned_abs};
ghost use Rattle.call_script.specs.Times.{signed_of, scale_of, finite_of, time_of};

use crate::numbers::{read_amount, read_index};
use crate::words::split_at_mark;
use mse_base::{Moment, Ticks, convert};

/// An amount, behind a minus sign where it is below zero. 0 takes no sign.
fn signed_amount(text: &str) -> Option<i128>
    ensures value { result ≡ signed_of text.now }
    ensures small { IfSome result (λ n. unsigned_abs n ≤ 2 ^ 80) }
{
    match text.strip_prefix('-') {
        Some(digits) => {
            let n = read_amount(digits)?;
            if n == 0 { None } else { Some(-n) }
        }
        None => read_amount(text),
    }
}

/// How many units make a second.
fn scale(text: &str) -> Option<u32>
    ensures value { result ≡ scale_of text.now }
    ensures positive { IfSome result (λ units. 1 ≤ units) }
{
    let units = read_index(text)?;
    if units == 0 { None } else { Some(units) }
}

/// A time that is a number of ticks, or a fraction of a second.
fn finite_time(text: &str) -> Option<Ticks>
    ensures { result ≡ finite_of text.now }
{
    let (front, rest) = split_at_mark(text, '/');
    let n = signed_amount(front)?;
    match rest {
        None => Ticks::new(n),
        Some(units) => {
            let units = scale(units)?;
            convert(n, units)
        }
    }
}

/// The time that a text writes: `nan`, `inf`, or an optional minus sign and a number of 1 to 24
/// decimal digits without leading zeros. The number is in ticks, or, where a slash and a scale from
/// 1 to `2^32 - 1` follow, in units of which so many make a second: then it is rounded down to whole
/// ticks. `None` exactly where the text is no time: `-0` is none, and neither is a value more than
/// `2^110` ticks from 0. It takes no memory.
#[tactic(auto, unfolding(crate::specs::Times::time_of))]
pub fn read_time(text: &str) -> Option<Moment>
    ensures { result ≡ time_of text.now }
{
    if text == "nan" {
        Some(Moment::Nan)
    } else if text == "inf" {
        Some(Moment::Infinite)
    } else {
        finite_time(text).map(Moment::At)
    }
}
