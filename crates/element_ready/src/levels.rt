ghost use Rattle.std.specs.Prelude.{◌≡◌};
ghost use Rattle.element_ready.specs.Levels.{has_enough_left, level_at};

use mse_base::{Moment, Span, Ticks};
use mse_calls::Level;

/// Three seconds, in ticks.
pub const THREE_SECONDS: i128 = 3 * 141_120_000_000;

/// Whether the range goes on for 3 seconds or more from the position, or ends at the duration.
fn has_enough_left(range: &Span, position: Ticks, duration: Moment) -> bool
    ensures { result ≡ has_enough_left range.now position duration }
{
    let ticks_left = range.end.get() - position.get();
    ticks_left >= THREE_SECONDS || Moment::At(range.end) == duration
}

/// How much data there is at a position (HTML, `HTMLMediaElement.readyState`), by the buffered range
/// of the element that has the position or ends at it: `HAVE_METADATA` where there is none,
/// `HAVE_CURRENT_DATA` at its end, `HAVE_ENOUGH_DATA` where it goes on for 3 seconds or more or ends
/// at the duration, else `HAVE_FUTURE_DATA`.
pub fn level(span: Option<Span>, position: Ticks, duration: Moment) -> Level
    ensures { result ≡ level_at span position duration }
{
    match span {
        None => Level::Metadata,
        Some(range) if position == range.end => Level::Current,
        Some(range) if has_enough_left(&range, position, duration) => Level::Enough,
        Some(_) => Level::Future,
    }
}
