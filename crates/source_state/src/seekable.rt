ghost use Rattle.std.specs.Prelude.{◌≡◌};
ghost use Rattle.source_state.specs.Seekable.{live_union, seekable_span};

use mse_base::{Moment, Span, Ticks};

/// The least span that has the live seekable range and all that is buffered.
fn live_union(live: &Span, first: Option<Ticks>, last: Option<Ticks>) -> Span
    ensures { result ≡ live_union live.now first last }
{
    Span {
        start: live.start.lesser_with(first),
        end: live.end.greater_with(last),
    }
}

/// What can be sought, by the duration, the live seekable range, and where the first buffered range
/// of the element starts and the last one ends.
pub(crate) fn seekable_span(
    duration: &Moment,
    live: &Option<Span>,
    first: Option<Ticks>,
    last: Option<Ticks>,
) -> Option<Span>
    ensures { result ≡ seekable_span duration.now live.now first last }
{
    let start = Ticks::zero();
    match duration {
        Moment::Nan => None,
        Moment::At(d) => Some(Span { start, end: *d }),
        Moment::Infinite => match live {
            Some(live) => Some(live_union(live, first, last)),
            None => last.map(|end| Span { start, end }),
        },
    }
}
