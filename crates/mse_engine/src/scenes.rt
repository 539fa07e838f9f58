//! What the element sees of the source and its buffers.

ghost use Rattle.std.specs.Prelude.{◌≡◌, pos, int_lt, Bool, true, false, IfOk, OnOk};
ghost use Rattle.mse_calls.specs.Level.{has_metadata};
ghost use Rattle.track_buffers.specs.Buffered.{lasts_to};
ghost use Rattle.mse_engine.specs.Scenes.{buffered_in, seekable_in, scene_with, span_at};
ghost use Rattle.mse_engine.specs.Standing.{HasBounds, bounds_at, view_of};
ghost use Rattle.source_buffers.specs.State.{all_kept_media};
ghost use Rattle.source_buffers.specs.Buffered.{element_ranges};

use crate::media_source::MediaSource;
use element_seek::Scene;
use media_element::Element;
use mse_base::{Moment, OutOfMemory, Ranges, Span, Ticks};
use source_buffers::SourceBuffers;
use track_store::FrameStore;

/// Where the first buffered range of the element starts, and where the last one ends.
#[derive(Clone, Copy, Debug)]
pub(crate) struct Bounds {
    pub(crate) first: Option<Ticks>,
    pub(crate) last: Option<Ticks>,
}

/// The bounds of what is buffered at the element where it gets its metadata: where the source is not
/// ended, and where it is.
#[derive(Clone, Copy, Debug)]
pub(crate) struct LoadBounds {
    pub(crate) open: Bounds,
    pub(crate) ended: Bounds,
}

impl Bounds {
    /// Those of no range.
    pub(crate) const NONE: Bounds = Bounds {
        first: None,
        last: None,
    };
}

impl LoadBounds {
    /// Those of no range.
    pub(crate) const NONE: LoadBounds = LoadBounds {
        open: Bounds::NONE,
        ended: Bounds::NONE,
    };

    /// Those where the source is ended or not.
    pub(crate) fn at(self, ended: bool) -> Bounds
        ensures { result ≡ bounds_at self ended }
    {
        if ended { self.ended } else { self.open }
    }
}

/// The bounds of some ranges.
pub(crate) fn bounds_of(ranges: &Ranges) -> Bounds
    ensures { HasBounds result ranges.now.spans }
{
    Bounds {
        first: ranges.get(0).map(|span| span.start),
        last: ranges.last().map(|span| span.end),
    }
}

/// The buffered range of the element that has a position or ends at it.
pub(crate) fn span_at<S: FrameStore>(
    source: &MediaSource,
    buffers: &SourceBuffers<S>,
    position: Ticks,
) -> Option<Span>
    ensures { result ≡ span_at position (view_of source.now buffers.now.buffers) }
{
    let ended = source.state.ready().is_ended();
    buffers.element_span(source.state.active_numbers(), position, ended)
}

/// Whether the buffered range of the element that has a position or ends at it lasts to a time.
pub(crate) fn is_buffered_up_to<S: FrameStore>(
    source: &MediaSource,
    buffers: &SourceBuffers<S>,
    position: Ticks,
    until: Ticks,
) -> bool
    ensures { result ≡ lasts_to until (span_at position (view_of source.now buffers.now.buffers)) }
{
    let active = source.state.active_numbers();
    buffers.is_buffered_up_to(active, position, until, source.state.ready().is_ended())
}

/// The element's buffered ranges, where the source is ended or not.
fn buffered_by<S: FrameStore>(
    source: &MediaSource,
    buffers: &SourceBuffers<S>,
    ended: bool,
) -> Result<Ranges, OutOfMemory>
    ensures { IfOk result (λ ranges. ranges.spans
        ≡ element_ranges ended source.now.state.active (all_kept_media buffers.now.buffers)) }
{
    buffers.element_ranges(source.state.active_numbers(), ended)
}

/// The element's buffered ranges.
pub(crate) fn buffered<S: FrameStore>(
    source: &MediaSource,
    buffers: &SourceBuffers<S>,
) -> Result<Ranges, OutOfMemory>
    ensures { IfOk result (λ ranges. ranges.spans
        ≡ buffered_in (view_of source.now buffers.now.buffers)) }
{
    buffered_by(source, buffers, source.state.ready().is_ended())
}

/// What can be sought. It builds the ranges only where the duration is infinite, since else they do
/// not matter.
pub(crate) fn seekable<S: FrameStore>(
    source: &MediaSource,
    buffers: &SourceBuffers<S>,
) -> Result<Option<Span>, OutOfMemory>
    ensures { IfOk result (λ span. span
        ≡ seekable_in (view_of source.now buffers.now.buffers)) }
{
    if source.state.duration() != Moment::Infinite {
        return Ok(source.state.seekable(None, None));
    }
    let bounds = bounds_of(&buffered(source, buffers)?);
    Ok(source.state.seekable(bounds.first, bounds.last))
}

/// The scene of the element, with what can be sought.
pub(crate) fn scene<S: FrameStore>(
    source: &MediaSource,
    buffers: &SourceBuffers<S>,
    element: &Element,
    seekable: Option<Span>,
) -> Scene
    ensures { result ≡ scene_with seekable element.now.state.player.position
        (view_of source.now buffers.now.buffers) }
{
    Scene {
        duration: source.state.duration(),
        ended: source.state.ready().is_ended(),
        span: span_at(source, buffers, element.position()),
        seekable,
    }
}

/// Finds the bounds of what is buffered at the element, where it has no metadata: it may get it in
/// the next step, and then it seeks where its default playback start position is above 0.
pub(crate) fn find_bounds<S: FrameStore>(
    source: &MediaSource,
    buffers: &SourceBuffers<S>,
    element: &Element,
    bounds: &mut LoadBounds,
) -> Result<(), OutOfMemory>
    ensures { has_metadata element.now.state.player.level ≡ false
        → int_lt (pos 0) element.now.state.player.default_start ≡ true
        → OnOk result ((ended : Bool) → HasBounds (bounds_at bounds.new ended)
        (element_ranges ended source.now.state.active (all_kept_media buffers.now.buffers))) }
{
    if element.level().has_metadata() || element.default_start() <= Ticks::zero() {
        return Ok(());
    }
    find_all_bounds(source, buffers, bounds)
}

/// Finds the bounds of what is buffered at the element.
#[cold]
#[inline(never)]
fn find_all_bounds<S: FrameStore>(
    source: &MediaSource,
    buffers: &SourceBuffers<S>,
    bounds: &mut LoadBounds,
) -> Result<(), OutOfMemory>
    ensures { OnOk result ((ended : Bool) → HasBounds (bounds_at bounds.new ended)
        (element_ranges ended source.now.state.active (all_kept_media buffers.now.buffers))) }
{
    bounds.open = bounds_of(&buffered_by(source, buffers, false)?);
    bounds.ended = bounds_of(&buffered_by(source, buffers, true)?);
    Ok(())
}
