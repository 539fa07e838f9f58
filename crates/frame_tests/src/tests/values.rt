//! Ticks and ranges, and copies of bytes, texts and presentations.

ghost use Rattle.std.specs.Prelude.{◌≤ℤ◌, pos};
ghost use Rattle.mse_base.specs.Bridging.{IsRanges};

use super::rows::{Bounds, are, bounds_of, expect, not_negative, span, ticks};
use mse_base::{
    Bytes, Kind, Moment, OutOfMemory, Presentation, Ranges, Span, Text, Ticks, TrackInfo,
    TrackList, convert,
};
use std::alloc::Global;
use std::process::Abort;

/// Media times, how many units a second has, and the ticks; none where they are out of range.
static CONVERSIONS: [(i128, u32, Option<i128>); 6] = [
    (1000, 44_101, Some(3_199_927_439)),
    (-1, 44_101, Some(-3_199_928)),
    (-1, 90_000, Some(-1_568_000)),
    (1 << 80, u32::MAX, Some(39_721_748_722_656_215_042_153_320)),
    (
        -1 << 80,
        u32::MAX,
        Some(-39_721_748_722_656_215_042_153_321),
    ),
    (-1 << 80, 1, None),
];

/// The ticks of a media time.
fn conversion(rt: &impl Abort, m: i128, scale: u32) -> Option<i128> {
    assert!(rt; m.unsigned_abs() <= 1 << 80 && scale != 0);
    match convert(m, scale) {
        Some(t) => Some(t.get()),
        None => None,
    }
}

#[test]
fn converts(rt: HostRuntime) {
    for (i, (m, scale, wanted)) in CONVERSIONS.iter().enumerate() {
        let told = conversion(&rt, *m, *scale);
        expect(&rt, "a media time", i, told == *wanted);
    }
}

/// Numbers, and whether they are ticks.
static NUMBERS: [(i128, bool); 4] = [
    ((1 << 110) + 1, false),
    (1 << 110, true),
    (-(1 << 110), true),
    (-(1 << 110) - 1, false),
];

#[test]
fn keeps_ticks_in_range(rt: HostRuntime) {
    for (i, (number, wanted)) in NUMBERS.iter().enumerate() {
        expect(&rt, "a number", i, Ticks::new(*number).is_some() == *wanted);
    }
    let most = ticks(&rt, 1 << 110);
    let one = ticks(&rt, 1);
    let told = (most.checked_add(one), most.checked_sub(one));
    assert!(rt; told == (None, Ticks::new((1 << 110) - 1)));
}

/// Ranges of spans that are added one by one, at a gap.
fn ranges_of(rt: &(impl Abort + AllocGlobal), gap: Ticks, spans: &[Bounds]) -> Ranges
    requires { pos 0 ≤ℤ gap }
    ensures { IsRanges gap result.spans }
{
    let mut ranges = Ranges::new(rt.alloc());
    for bounds in spans {
        ranges.reserve(1).expect(rt, "memory");
        ranges.add_span(span(rt, *bounds), gap);
    }
    ranges
}

/// What is made of ranges.
#[derive(Clone, Copy)]
enum Made {
    Copy,
    /// Ranges at such a gap are one.
    Bridged(i128),
    /// The union with others.
    Union(&'static [Bounds]),
    /// What they have in common with others.
    Meet(&'static [Bounds]),
}

fn made_of(rt: &(impl Abort + AllocGlobal), ranges: &Ranges, what: Made) -> Ranges {
    let made = match what {
        Made::Copy => ranges.copy(),
        Made::Bridged(gap) => ranges.bridge(ticks(rt, gap)),
        Made::Union(others) => ranges.union(&ranges_of(rt, Ticks::zero(), others)),
        Made::Meet(others) => ranges.meet(&ranges_of(rt, Ticks::zero(), others)),
    };
    made.expect(rt, "memory")
}

/// Spans that are added one by one, where ranges at such a gap are one; the ranges then; what is
/// made of them; and the ranges of that.
type Row = (
    &'static [Bounds],
    i128,
    &'static [Bounds],
    Made,
    &'static [Bounds],
);

/// Four spans, with a gap of 4, 5 and 6 ticks behind the first three.
const FOUR: &[Bounds] = &[(0, 10), (14, 20), (25, 30), (36, 40)];

const THREE: &[Bounds] = &[(0, 10), (20, 30), (40, 50)];

const OTHERS: &[Bounds] = &[(5, 20), (30, 35), (45, 60)];

static ROWS: [Row; 12] = [
    (FOUR, 0, FOUR, Made::Bridged(-7), FOUR),
    (FOUR, 0, FOUR, Made::Bridged(0), FOUR),
    (
        FOUR,
        0,
        FOUR,
        Made::Bridged(4),
        &[(0, 20), (25, 30), (36, 40)],
    ),
    (FOUR, 0, FOUR, Made::Bridged(5), &[(0, 30), (36, 40)]),
    (FOUR, 0, FOUR, Made::Bridged(6), &[(0, 40)]),
    (FOUR, 0, FOUR, Made::Copy, FOUR),
    (
        FOUR,
        4,
        &[(0, 20), (25, 30), (36, 40)],
        Made::Copy,
        &[(0, 20), (25, 30), (36, 40)],
    ),
    (
        FOUR,
        5,
        &[(0, 30), (36, 40)],
        Made::Copy,
        &[(0, 30), (36, 40)],
    ),
    (FOUR, 6, &[(0, 40)], Made::Copy, &[(0, 40)]),
    (THREE, 0, THREE, Made::Union(OTHERS), &[(0, 35), (40, 60)]),
    (THREE, 0, THREE, Made::Meet(OTHERS), &[(5, 10), (45, 50)]),
    (
        &[(0, 10), (20, 30)],
        0,
        &[(0, 10), (20, 30)],
        Made::Copy,
        &[(0, 10), (20, 30)],
    ),
];

/// Whether the ranges are as a row says, before and after others are made of them.
fn are_made(rt: &(impl Abort + AllocGlobal), row: &Row) -> bool {
    let (spans, gap, before, what, after) = *row;
    let ranges = ranges_of(rt, not_negative(rt, ticks(rt, gap)), spans);
    let made = made_of(rt, &ranges, what);
    are(&ranges, before) && are(&made, after)
}

#[test]
fn bridges_and_combines(rt: HostRuntime) {
    for (i, row) in ROWS.iter().enumerate() {
        expect(&rt, "ranges", i, are_made(&rt, row));
    }
}

/// A change of ranges that join where they touch.
#[derive(Clone, Copy)]
enum Change {
    /// Adds a range to none, as the last.
    AddFirst(Bounds),
    Add(Bounds),
    Carve(Bounds),
    Clear,
}

/// Adds a range to none as their last.
fn add_first(rt: &impl Abort, ranges: &mut Ranges, bounds: Bounds)
    requires { IsRanges (pos 0) ranges.old.spans }
    ensures { IsRanges (pos 0) ranges.new.spans }
{
    ranges.clear();
    ranges.reserve(1).expect(rt, "memory");
    ranges.add_last(span(rt, bounds), Ticks::zero());
}

fn add(rt: &impl Abort, ranges: &mut Ranges, bounds: Bounds)
    requires { IsRanges (pos 0) ranges.old.spans }
    ensures { IsRanges (pos 0) ranges.new.spans }
{
    ranges.reserve(1).expect(rt, "memory");
    ranges.add_span(span(rt, bounds), Ticks::zero());
}

/// Carves a span out, which leaves the room as it is.
fn carve(rt: &impl Abort, ranges: &mut Ranges, bounds: Bounds)
    requires { IsRanges (pos 0) ranges.old.spans }
    ensures { IsRanges (pos 0) ranges.new.spans }
{
    let hole = span(rt, bounds);
    if hole.start < hole.end {
        ranges.reserve(1).expect(rt, "memory");
        let room = ranges.spare().checked_add(ranges.len());
        ranges.carve(hole, Ticks::zero());
        let left = ranges.spare().checked_add(ranges.len());
        expect(rt, "the room", 0, left == room);
    }
}

fn make(rt: &impl Abort, ranges: &mut Ranges, change: Change)
    requires { IsRanges (pos 0) ranges.old.spans }
    ensures { IsRanges (pos 0) ranges.new.spans }
{
    match change {
        Change::AddFirst(bounds) => add_first(rt, ranges, bounds),
        Change::Add(bounds) => add(rt, ranges, bounds),
        Change::Carve(bounds) => carve(rt, ranges, bounds),
        Change::Clear => ranges.clear(),
    }
}

/// Changes, one behind the other, and the ranges then.
static CHANGES: [(Change, &[Bounds]); 4] = [
    (
        Change::AddFirst((0, 14_112_000_000)),
        &[(0, 14_112_000_000)],
    ),
    (
        Change::Add((42_336_000_000, 84_672_000_000)),
        &[(0, 14_112_000_000), (42_336_000_000, 84_672_000_000)],
    ),
    (
        Change::Carve((14_000_000_000, 50_000_000_000)),
        &[(0, 14_000_000_000), (50_000_000_000, 84_672_000_000)],
    ),
    (Change::Clear, &[]),
];

/// Whether these are all ranges, the last of them is told, and each holds its end.
fn are_told(rt: &impl Abort, ranges: &Ranges, wanted: &[Bounds]) -> bool {
    let mut last = None;
    for bounds in wanted {
        if !holds_end(rt, ranges, &span(rt, *bounds)) {
            return false;
        }
        last = Some(*bounds);
    }
    ranges.is_empty() == wanted.is_empty()
        && bounds_of(ranges.last()) == last
        && are(ranges, wanted)
}

/// Whether a range holds its end, and no range the tick behind it.
fn holds_end(rt: &impl Abort, ranges: &Ranges, range: &Span) -> bool {
    let behind = range.end.checked_add(ticks(rt, 1)).expect(rt, "ticks");
    ranges.holding(range.end) == Some(*range) && ranges.holding(behind) == None
}

#[test]
fn adds_and_carves(rt: HostRuntime) {
    let mut ranges = Ranges::new(rt.alloc());
    ranges.reserve(3).expect(&rt, "memory");
    expect(
        &rt,
        "no ranges",
        0,
        ranges.is_empty() && ranges.spare() >= 3,
    );
    for (i, (change, wanted)) in CHANGES.iter().enumerate() {
        make(&rt, &mut ranges, *change);
        expect(&rt, "a change", i, are_told(&rt, &ranges, wanted));
    }
}

/// Ranges of 5 ticks at each tenth tick up to 30,000, added in no order: more than one block has room
/// for.
fn many(rt: &(impl Abort + AllocGlobal)) -> Ranges
    ensures { IsRanges (pos 0) result.spans }
{
    let mut ranges = Ranges::new(rt.alloc());
    for i in 0..3000_u32 {
        let start = i128::from(i * 1009 % 3000 * 10);
        add(rt, &mut ranges, (start, start + 5));
    }
    ranges
}

/// Fills the first 1,400 gaps between those but for each second one.
fn fill(rt: &impl Abort, ranges: &mut Ranges)
    requires { IsRanges (pos 0) ranges.old.spans }
    ensures { IsRanges (pos 0) ranges.new.spans }
{
    for i in 0..700_u32 {
        let start = i128::from(i * 20 + 5);
        add(rt, ranges, (start, start + 5));
    }
}

fn is_range_at(ranges: &Ranges, place: usize, wanted: &Span) -> bool {
    ranges.get(place) == Some(*wanted)
}

/// Whether the first ranges begin at each multiple of a number and are so long, and each holds its
/// end.
fn are_at_multiples(
    rt: &impl Abort,
    ranges: &Ranges,
    count: usize,
    step: i128,
    length: i128,
) -> bool {
    let mut start = Ticks::zero();
    for place in 0..count {
        let end = start.checked_add(ticks(rt, length)).expect(rt, "ticks");
        let wanted = Span { start, end };
        if !is_range_at(ranges, place, &wanted) || !holds_end(rt, ranges, &wanted) {
            return false;
        }
        start = start.checked_add(ticks(rt, step)).expect(rt, "ticks");
    }
    true
}

#[test]
fn holds_many(rt: HostRuntime) {
    let ranges = many(&rt);
    let apart = ranges.len() == 3000 && are_at_multiples(&rt, &ranges, 3000, 10, 5);
    let bridged = made_of(&rt, &ranges, Made::Bridged(5));
    assert!(rt; apart && are(&bridged, &[(0, 29_995)]));
}

/// How many ranges the union of ranges with a copy of them has, and how many there are that both
/// have in common.
fn lens_with_copy(rt: &impl Abort, ranges: &Ranges) -> (usize, usize) {
    let copy = ranges.copy().expect(rt, "memory");
    let union = ranges.union(&copy).expect(rt, "memory").len();
    let meet = ranges.meet(&copy).expect(rt, "memory").len();
    (union, meet)
}

#[test]
fn fills_and_combines_many(rt: HostRuntime) {
    let mut ranges = many(&rt);
    fill(&rt, &mut ranges);
    let lens = (ranges.len(), lens_with_copy(&rt, &ranges));
    assert!(rt; lens == (2300, (2300, 2300)) && are_at_multiples(&rt, &ranges, 700, 20, 15));
}

#[test]
fn carves_many(rt: HostRuntime) {
    let mut ranges = many(&rt);
    let len = ranges.len();
    carve(&rt, &mut ranges, (3, 29_991));
    assert!(rt; len == 3000 && are(&ranges, &[(0, 3), (29_991, 29_995)]));
}

/// Parts of bytes stay as they are, whatever becomes of the bytes.
#[test]
fn parts_of_bytes_stay(rt: HostRuntime) {
    let mut bytes = Bytes::copy_of(rt.alloc(), b"abcdef").expect(&rt, "memory");
    let part = bytes.part(1, 4).expect(&rt, "memory");
    bytes.drop_front(2);
    bytes.truncate(2);
    bytes.extend(b"gh").expect(&rt, "memory");
    let stays = part.as_slice() == b"bcd".as_slice();
    let len = part.into_vec().expect(&rt, "memory").len();
    bytes.extend(b"i").expect(&rt, "memory");
    assert!(rt; stays && len == 3 && bytes.as_slice() == b"cdghi".as_slice());
}

#[test]
fn copies_bytes(rt: HostRuntime) {
    let bytes = Bytes::copy_of(rt.alloc(), &[1, 2, 3]).expect(&rt, "memory");
    let copy = bytes.copy().expect(&rt, "memory");
    let len = bytes.into_vec().expect(&rt, "memory").len();
    assert!(rt; copy.as_slice() == [1, 2, 3].as_slice() && len == 3);
}

#[test]
fn copies_texts(rt: HostRuntime) {
    let text = Text::copy_of(rt.alloc(), "moof").expect(&rt, "memory");
    let copy = text.copy().expect(&rt, "memory");
    let len = text.into_string().len();
    assert!(rt; copy.as_str() == "moof" && len == 4);
}

/// A presentation of one track.
fn presentation_of(
    alloc: Global,
    scale: u32,
    duration: Moment,
    track: TrackInfo,
) -> Result<Presentation, OutOfMemory> {
    Ok(Presentation {
        scale,
        duration,
        tracks: TrackList::from_vec(alloc, [track].to_vec(alloc)?),
    })
}

/// Whether there is one track of those that are told.
fn has_track(tracks: &TrackList, track: TrackInfo) -> bool {
    let found = (tracks.find(1).is_some(), tracks.find(2).is_some());
    found == (true, false) && tracks.as_slice() == [track].as_slice()
}

#[test]
fn copies_presentations(rt: HostRuntime) {
    let track = TrackInfo {
        id: 1,
        kind: Kind::Video,
        codec: *b"avc1",
        scale: 90_000,
        media_shift: -3,
        empty_shift: Ticks::zero(),
        default_duration: 3_000,
        default_size: 0,
        default_flags: 0,
    };
    let duration = Moment::At(ticks(&rt, 5));
    let presentation = presentation_of(rt.alloc(), 1_000, duration, track).expect(&rt, "memory");
    let copy = presentation.copy().expect(&rt, "memory");
    let tracks = copy.tracks.copy().expect(&rt, "memory");
    let numbers = copy.scale == 1_000 && copy.duration == duration;
    assert!(rt; numbers && has_track(&copy.tracks, track) && has_track(&tracks, track));
}
