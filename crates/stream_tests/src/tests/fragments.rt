ghost use Rattle.std.specs.Prelude.{◌≤◌, ◌^◌, pos, ◌≤ℤ◌, IfOk};
ghost use Rattle.std.specs.List.{AllByRecursion};
ghost use Rattle.mse_base.specs.Presentation.{IsReadable};

mod moofs;

use super::boxes::{MOOF, Part, TWO_TRACKS, made};
use super::rows::{expect, expect_at};
use bmff_fragment::*;
use moofs::*;
use mse_base::{Kind, Moment, Presentation, Ticks, TrackInfo, TrackList};
use std::alloc::Global;
use std::process::Abort;
use std::test::*;

/// What a slot is wanted to be: its track, presentation and decode time, duration, whether it is a sync
/// sample, its start and its end.
type Wanted = (u32, i128, i128, i128, bool, u64, u64);

/// A track of the scale 90000 whose presentation waits for an empty edit.
fn waiting_track(wait: Ticks) -> TrackInfo
    requires { (pos 0 ≤ℤ wait) × (wait ≤ℤ pos (2 ^ 109)) }
    ensures { IsReadable result }
{
    TrackInfo {
        empty_shift: wait,
        ..track(1, Kind::Video, 90000, 0)
    }
}

/// A track whose samples last 10 units and have 5 bytes and no sync sample among them, if nothing else is
/// told.
fn track(id: u32, kind: Kind, scale: u32, media_shift: i64) -> TrackInfo
    requires scale { 1 ≤ scale }
    requires shift { pos 0 ≤ℤ media_shift }
    ensures { IsReadable result }
{
    TrackInfo {
        id,
        kind,
        codec: *b"avc1",
        scale,
        media_shift,
        empty_shift: Ticks::zero(),
        default_duration: 10,
        default_size: 5,
        default_flags: 0x10000,
    }
}

fn presentation(alloc: Global, first: TrackInfo, second: TrackInfo) -> Result<Presentation, Fail>
    requires first { IsReadable first }
    requires second { IsReadable second }
    ensures { IfOk result (λ p. AllByRecursion IsReadable p.tracks) }
{
    let tracks = vec![in alloc; first, second]?;
    Ok(Presentation {
        scale: 1000,
        duration: Moment::Infinite,
        tracks: TrackList::from_vec(alloc, tracks),
    })
}

fn parts_of(slot: &Slot) -> Wanted {
    (
        slot.track_id,
        slot.pts.get(),
        slot.dts.get(),
        slot.dur.get(),
        slot.sync,
        slot.start,
        slot.end,
    )
}

/// Whether a movie fragment has these slots.
fn has_slots(
    rt: &(impl Abort + AllocGlobal),
    with: &Presentation,
    moof: &[Part],
    wanted: &[Wanted],
) -> bool
    requires { AllByRecursion IsReadable with.now.tracks }
{
    let bytes = made(rt, &[moof]);
    let plan = read_moof(rt.alloc(), bytes.as_slice(), with).expect(rt, "a movie fragment");
    let slots = plan.slots.as_slice();
    for (slot, want) in slots.iter().zip(wanted.iter()) {
        if parts_of(slot) != *want {
            return false;
        }
    }
    slots.len() == wanted.len()
}

/// The kind, the scale and the media shift of track 1.
type First = (Kind, u32, u32);

/// The number, the kind and the scale of the other track.
type Second = (u32, Kind, u32);

/// A track that no movie fragment here has.
const UNUSED: Second = (7, Kind::Other, 1);

/// The second track beside a track of the scale 1000.
const OTHER: Second = (2, Kind::Other, 1000);

/// A presentation of two tracks.
fn presentation_of(alloc: Global, first: &First, second: &Second) -> Result<Presentation, Fail>
    ensures { IfOk result (λ p. AllByRecursion IsReadable p.tracks) }
{
    let (kind, scale, shift) = *first;
    let (number, other_kind, other_scale) = *second;
    if scale == 0 || other_scale == 0 {
        return Err(Fail::new("a scale is 0"));
    }
    presentation(
        alloc,
        track(1, kind, scale, i64::from(shift)),
        track(number, other_kind, other_scale, 0),
    )
}

/// A name, the two tracks, a movie fragment and its slots.
type Case = (
    &'static str,
    First,
    Second,
    &'static [Part],
    &'static [Wanted],
);

/// Whether the movie fragment of a case has its slots.
fn are_slots(rt: &(impl Abort + AllocGlobal), case: &Case) -> Result<bool, Fail> {
    let (_, first, second, moof, wanted) = case;
    let with = presentation_of(rt.alloc(), first, second)?;
    Ok(has_slots(rt, &with, moof, wanted))
}

/// Asserts the slots of each movie fragment.
fn expect_slots(rt: &(impl Abort + AllocGlobal), cases: &[Case]) -> Result<(), Fail> {
    for case in cases {
        expect(rt, case.0, are_slots(rt, case)?);
    }
    Ok(())
}

static ONE_TRACK: [Case; 4] = [
    (
        "three frames",
        (Kind::Video, 90000, 0),
        UNUSED,
        MOOF,
        &[
            (1, 0, 0, 4704000000, true, 144, 148),
            (1, 4704000000, 4704000000, 4704000000, false, 148, 152),
            (1, 9408000000, 9408000000, 4704000000, false, 152, 156),
        ],
    ),
    (
        "frames of units that are no whole ticks",
        (Kind::Video, 44101, 0),
        UNUSED,
        FIVE_FRAMES,
        &[
            (1, 0, 0, 3199927439, true, 176, 180),
            (1, 3199927439, 3199927439, 3199927439, false, 180, 184),
            (1, 6399854878, 6399854878, 3199927439, false, 184, 188),
            (1, 9599782317, 9599782317, 3199927440, false, 188, 192),
            (1, 12799709757, 12799709757, 3199927439, false, 192, 196),
        ],
    ),
    (
        "a frame far away",
        (Kind::Video, 10000000, 0),
        UNUSED,
        FAR_AWAY,
        &[(
            1,
            249390876672000000000,
            249390876672000000000,
            5644800000,
            true,
            112,
            116,
        )],
    ),
    (
        "frames behind an edit of the media",
        (Kind::Video, 90000, 3000),
        UNUSED,
        SHIFTED,
        &[
            (1, 0, -4704000000, 4704000000, true, 144, 148),
            (1, 4704000000, 0, 4704000000, false, 148, 152),
            (1, 9408000000, 4704000000, 4704000000, false, 152, 156),
        ],
    ),
];

#[test]
fn frames_of_one_track(rt: HostRuntime) -> Result<(), Fail> {
    expect_slots(&rt, &ONE_TRACK)
}

/// What no initialization segment gives: more than 64 tracks, all of one number, and no duration.
fn too_many_tracks(alloc: Global, media: TrackInfo) -> Result<Presentation, Fail>
    requires { IsReadable media }
    ensures { IfOk result (λ p. AllByRecursion IsReadable p.tracks) }
{
    let tracks = Vec::from_slice(alloc, &[media; 65])?;
    Ok(Presentation {
        scale: 0,
        duration: Moment::Nan,
        tracks: TrackList::from_vec(alloc, tracks),
    })
}

static OF_NO_PRESENTATION: [Wanted; 3] = [
    (1, 0, 0, 4704000000, true, 144, 148),
    (1, 4704000000, 4704000000, 4704000000, false, 148, 152),
    (1, 9408000000, 9408000000, 4704000000, false, 152, 156),
];

#[test]
fn frames_of_no_presentation(rt: HostRuntime) -> Result<(), Fail> {
    let with = too_many_tracks(rt.alloc(), track(1, Kind::Video, 90000, 0))?;
    expect(
        &rt,
        "too many tracks",
        has_slots(&rt, &with, MOOF, &OF_NO_PRESENTATION),
    );
    Ok(())
}

static BEHIND_AN_EMPTY_EDIT: [Wanted; 3] = [
    (1, 70560000000, 70560000000, 4704000000, true, 144, 148),
    (1, 75264000000, 75264000000, 4704000000, false, 148, 152),
    (1, 79968000000, 79968000000, 4704000000, false, 152, 156),
];

/// An empty edit of half a second, and then the media from its start.
#[test]
fn frames_behind_an_empty_edit(rt: HostRuntime) -> Result<(), Fail> {
    let wait = Ticks::new(70560000000).ok_or("a time")?;
    let with = presentation(rt.alloc(), waiting_track(wait), track(7, Kind::Other, 1, 0))?;
    expect(
        &rt,
        "an empty edit",
        has_slots(&rt, &with, MOOF, &BEHIND_AN_EMPTY_EDIT),
    );
    Ok(())
}

static ANOTHER_ORDER: [Case; 3] = [
    (
        "reordered frames",
        (Kind::Video, 1000, 0),
        UNUSED,
        REORDERED,
        &[
            (1, 0, 0, 14112000000, true, 192, 196),
            (1, 42336000000, 14112000000, 14112000000, false, 196, 200),
            (1, 14112000000, 28224000000, 14112000000, false, 200, 204),
            (1, 28224000000, 42336000000, 14112000000, false, 204, 208),
            (1, 56448000000, 56448000000, 14112000000, true, 208, 212),
            (1, 70560000000, 70560000000, 14112000000, false, 212, 216),
        ],
    ),
    (
        "one later frame",
        (Kind::Video, 1000, 0),
        UNUSED,
        ONE_LATER_FRAME,
        &[(1, 42336000000, 42336000000, 14112000000, true, 112, 116)],
    ),
    (
        "two long frames",
        (Kind::Video, 1000, 0),
        UNUSED,
        TWO_LONG_FRAMES,
        &[
            (1, 564480000000, 564480000000, 141120000000, true, 128, 132),
            (1, 705600000000, 705600000000, 141120000000, false, 132, 136),
        ],
    ),
];

#[test]
fn frames_in_another_order(rt: HostRuntime) -> Result<(), Fail> {
    expect_slots(&rt, &ANOTHER_ORDER)
}

static AUDIO: [Case; 3] = [
    (
        "two sync frames",
        (Kind::Audio, 48000, 0),
        UNUSED,
        TWO_SYNC_FRAMES,
        &[
            (1, 0, 0, 3010560000, true, 128, 132),
            (1, 3010560000, 3010560000, 3010560000, true, 132, 136),
        ],
    ),
    (
        "one audio frame",
        (Kind::Audio, 48000, 0),
        UNUSED,
        ONE_AUDIO_FRAME,
        &[(1, 1505280000, 1505280000, 3010560000, true, 112, 116)],
    ),
    (
        "video and audio",
        (Kind::Video, 90000, 0),
        (2, Kind::Audio, 48000),
        TWO_TRACKS,
        &[
            (1, 0, 0, 4704000000, true, 288, 292),
            (1, 4704000000, 4704000000, 4704000000, false, 292, 296),
            (1, 9408000000, 9408000000, 4704000000, false, 296, 300),
            (2, 0, 0, 3010560000, true, 300, 303),
            (2, 3010560000, 3010560000, 3010560000, true, 303, 306),
            (2, 6021120000, 6021120000, 3010560000, true, 306, 309),
            (2, 9031680000, 9031680000, 3010560000, true, 309, 312),
            (2, 12042240000, 12042240000, 3010560000, true, 312, 315),
        ],
    ),
];

#[test]
fn frames_of_audio_and_of_two_tracks(rt: HostRuntime) -> Result<(), Fail> {
    expect_slots(&rt, &AUDIO)
}

/// At the scale 1000 a unit is 141120000 ticks.
static FLAGS_OFFSETS_AND_PLACES: [Case; 4] = [
    (
        "unsigned offsets",
        (Kind::Video, 1000, 0),
        OTHER,
        UNSIGNED_OFFSETS,
        &[
            (1, 606105784670400000, 0, 987840000, true, 256, 259),
            (1, 606105785658240000, 987840000, 987840000, false, 259, 262),
        ],
    ),
    (
        "signed offsets",
        (Kind::Video, 1000, 0),
        OTHER,
        SIGNED_OFFSETS,
        &[
            (1, -141120000, 0, 987840000, true, 256, 259),
            (1, 846720000, 987840000, 987840000, false, 259, 262),
        ],
    ),
    (
        "places from each base",
        (Kind::Video, 1000, 0),
        OTHER,
        BASES,
        &[
            (1, 14112000000, 14112000000, 1411200000, false, 0, 5),
            (1, 15523200000, 15523200000, 1411200000, false, 5, 10),
            (1, 14112000000, 14112000000, 1411200000, false, 10, 15),
            (1, 28224000000, 28224000000, 1411200000, false, 135, 140),
            (1, 29635200000, 29635200000, 1411200000, false, 140, 145),
            (1, 31046400000, 31046400000, 1411200000, false, 100, 105),
            (1, 0, 0, 1411200000, false, 0, 5),
        ],
    ),
    (
        "an empty run before the data",
        (Kind::Video, 1000, 0),
        OTHER,
        EMPTY_RUN_BEFORE,
        &[(1, 0, 0, 1411200000, false, 0, 5)],
    ),
];

#[test]
fn flags_offsets_and_places(rt: HostRuntime) -> Result<(), Fail> {
    expect_slots(&rt, &FLAGS_OFFSETS_AND_PLACES)
}

/// Whether this is the first fault of a movie fragment.
fn has_fault(
    rt: &(impl Abort + AllocGlobal),
    with: &Presentation,
    moof: &[Part],
    fault: MoofFault,
) -> bool
    requires { AllByRecursion IsReadable with.now.tracks }
{
    let bytes = made(rt, &[moof]);
    match read_moof(rt.alloc(), bytes.as_slice(), with) {
        Err(MoofError::Fault(found)) => found == fault,
        _ => false,
    }
}

#[test]
fn first_fault(rt: HostRuntime) -> Result<(), Fail> {
    let with = presentation_of(rt.alloc(), &(Kind::Video, 1000, 0), &OTHER)?;
    for (i, (moof, fault)) in FAULTS.iter().enumerate() {
        expect_at(&rt, i, has_fault(&rt, &with, moof, *fault));
    }
    Ok(())
}

const LAST_OF_MOST: Wanted = (
    1,
    1479749040000000,
    1479749040000000,
    1411200000,
    false,
    5242875,
    5242880,
);

#[test]
fn most_samples(rt: HostRuntime) -> Result<(), Fail> {
    let with = presentation_of(rt.alloc(), &(Kind::Video, 1000, 0), &OTHER)?;
    let bytes = made(&rt, &[MOST_SAMPLES]);
    let plan = read_moof(rt.alloc(), bytes.as_slice(), &with)?;
    let slots = plan.slots.as_slice();
    let last = slots.last().map(parts_of);
    assert!(rt; slots.len() == 1 << 20 && last == Some(LAST_OF_MOST));
    Ok(())
}
