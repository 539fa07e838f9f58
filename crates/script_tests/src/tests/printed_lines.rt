//! Printed lines of answers, events and entries, and the lines that close a run.

use super::rows::{Bounds, expect_printed, span, time, time_ranges};
use event_text::{closing, init_fault, line_of, printable_text, script_line};
use mse_base::{Kind, Moment, Phase, Ticks};
use mse_calls::{
    Answer, BufferView, BufferViews, Call, Entry, Event, EventKind, FaultView, Level, Mode, Name,
    Piece, Ready, StateView, Target, TrackView, TrackViews, View,
};
use std::process::Abort;

/// Entries, and their lines; an entry of a step or of work prints nothing.
const ENTRIES: [(Entry, &str); 9] = [
    (Entry::Step(1), ""),
    (Entry::Work(1), ""),
    (Entry::Element, ""),
    (
        Entry::Script(Call::Attach, Answer::Done),
        "call attach: done\n",
    ),
    (
        Entry::Script(
            Call::SetMode(0, Mode::Sequence),
            Answer::Refused(Name::InvalidState),
        ),
        "call mode 0 sequence: refused InvalidStateError\n",
    ),
    (
        Entry::Listener(0, Call::Abort(0), Answer::Done),
        "listener 0 abort 0: done\n",
    ),
    (
        Entry::Listener(15, Call::Abort(0), Answer::Done),
        "listener 15 abort 0: done\n",
    ),
    (
        Entry::Listener(
            0,
            Call::AppendBuffer(
                0,
                Piece {
                    blob: 0,
                    part: None,
                },
            ),
            Answer::Done,
        ),
        "listener 0 append 0 0: done\n",
    ),
    (
        Entry::Fired(Event {
            target: Target::Source,
            kind: EventKind::SourceOpen,
        }),
        "event source sourceopen\n",
    ),
];

#[test]
fn prints_entries(rt: HostRuntime) {
    for (entry, wanted) in &ENTRIES {
        expect_printed(&rt, line_of(rt.alloc(), entry), wanted);
    }
}

/// Copies an answer, prints the copy behind a call, and compares the line.
fn expect_answer(rt: &(impl Abort + AllocGlobal), answer: &Answer, wanted: &str) {
    let answer = answer.copy().expect(rt, "memory");
    expect_printed(rt, script_line(rt.alloc(), &Call::Play, &answer), wanted);
}

const RANGES: [(&[Bounds], &str); 4] = [
    (&[], "call play: ranges none\n"),
    (&[(0, 7)], "call play: ranges [0,7)\n"),
    (&[(0, 4704000000)], "call play: ranges [0,4704000000)\n"),
    (
        &[(-7, 14112000000), (42336000000, 84672000000)],
        "call play: ranges [-7,14112000000) [42336000000,84672000000)\n",
    ),
];

#[test]
fn prints_ranges(rt: HostRuntime) {
    for &(bounds, wanted) in &RANGES {
        expect_answer(&rt, &Answer::Ranges(time_ranges(&rt, bounds)), wanted);
    }
}

/// What can be sought, and a state with each word of its own.
#[test]
fn prints_answers_with_times(rt: HostRuntime) {
    let live = span(&rt, (705600000000, 1411200000000));
    let busy = StateView {
        source: Ready::Ended,
        duration: Moment::Infinite,
        level: Level::Current,
        position: time(&rt, 9),
        paused: false,
        seeking: true,
        error: 3,
    };
    let answers = [
        (
            Answer::Range(Some(live)),
            "call play: range [705600000000,1411200000000]\n",
        ),
        (
            Answer::State(state(Ready::Closed, Moment::Nan, Level::Nothing)),
            "call play: source closed duration nan level 0 position 0 paused true seeking false error 0\n",
        ),
        (
            Answer::State(busy),
            "call play: source ended duration inf level 2 position 9 paused false seeking true error 3\n",
        ),
    ];
    for (answer, wanted) in &answers {
        expect_answer(&rt, answer, wanted);
    }
}

/// The answers that have no time.
const ANSWERS: [(Answer, &str); 8] = [
    (Answer::Range(None), "call play: range none\n"),
    (
        Answer::Refused(Name::InvalidState),
        "call play: refused InvalidStateError\n",
    ),
    (
        Answer::Refused(Name::NotSupported),
        "call play: refused NotSupportedError\n",
    ),
    (
        Answer::Refused(Name::QuotaExceeded),
        "call play: refused QuotaExceededError\n",
    ),
    (
        Answer::Refused(Name::TypeError),
        "call play: refused TypeError\n",
    ),
    (
        Answer::Refused(Name::NotFound),
        "call play: refused NotFoundError\n",
    ),
    (
        Answer::Refused(Name::NoSuchBuffer),
        "call play: refused NoSuchBuffer\n",
    ),
    (
        Answer::Refused(Name::NoSuchBytes),
        "call play: refused NoSuchBytes\n",
    ),
];

#[test]
fn prints_answers(rt: HostRuntime) {
    for (answer, wanted) in &ANSWERS {
        expect_answer(&rt, answer, wanted);
    }
}

/// Each target, and each type of event at a target that has it.
const EVENTS: [(Target, EventKind, &str); 23] = [
    (
        Target::Source,
        EventKind::SourceOpen,
        "event source sourceopen\n",
    ),
    (
        Target::Source,
        EventKind::SourceEnded,
        "event source sourceended\n",
    ),
    (
        Target::SourceBuffers,
        EventKind::AddSourceBuffer,
        "event sourcebuffers addsourcebuffer\n",
    ),
    (
        Target::ActiveSourceBuffers,
        EventKind::AddSourceBuffer,
        "event activesourcebuffers addsourcebuffer\n",
    ),
    (
        Target::ActiveSourceBuffers,
        EventKind::RemoveSourceBuffer,
        "event activesourcebuffers removesourcebuffer\n",
    ),
    (
        Target::Buffer(0),
        EventKind::UpdateStart,
        "event buffer 0 updatestart\n",
    ),
    (
        Target::Buffer(1),
        EventKind::Update,
        "event buffer 1 update\n",
    ),
    (
        Target::Buffer(2),
        EventKind::UpdateEnd,
        "event buffer 2 updateend\n",
    ),
    (
        Target::Buffer(3),
        EventKind::Error,
        "event buffer 3 error\n",
    ),
    (
        Target::Buffer(4),
        EventKind::Abort,
        "event buffer 4 abort\n",
    ),
    (
        Target::Element,
        EventKind::DurationChange,
        "event element durationchange\n",
    ),
    (
        Target::Element,
        EventKind::LoadedMetadata,
        "event element loadedmetadata\n",
    ),
    (
        Target::Element,
        EventKind::LoadedData,
        "event element loadeddata\n",
    ),
    (
        Target::Element,
        EventKind::Waiting,
        "event element waiting\n",
    ),
    (
        Target::Element,
        EventKind::TimeUpdate,
        "event element timeupdate\n",
    ),
    (
        Target::Element,
        EventKind::CanPlay,
        "event element canplay\n",
    ),
    (
        Target::Element,
        EventKind::Playing,
        "event element playing\n",
    ),
    (
        Target::Element,
        EventKind::CanPlayThrough,
        "event element canplaythrough\n",
    ),
    (
        Target::Element,
        EventKind::Seeking,
        "event element seeking\n",
    ),
    (Target::Element, EventKind::Seeked, "event element seeked\n"),
    (Target::Element, EventKind::Play, "event element play\n"),
    (Target::Element, EventKind::Pause, "event element pause\n"),
    (Target::Element, EventKind::Ended, "event element ended\n"),
];

#[test]
fn prints_events(rt: HostRuntime) {
    for &(target, kind, wanted) in &EVENTS {
        let entry = Entry::Fired(Event { target, kind });
        expect_printed(&rt, line_of(rt.alloc(), &entry), wanted);
    }
}

/// The state of a source at whose element nothing happened.
fn state(source: Ready, duration: Moment, level: Level) -> StateView {
    StateView {
        source,
        duration,
        level,
        position: Ticks::zero(),
        paused: true,
        seeking: false,
        error: 0,
    }
}

/// Each fault's name, with what is wrong inside it and the box that is missing.
const FAULTS: [(u8, u8, &str); 36] = [
    (1, 0, "duration nan\nfault 1 SizeZero buffer 1 at 775\n"),
    (2, 0, "duration nan\nfault 2 BoxSize buffer 1 at 775\n"),
    (3, 0, "duration nan\nfault 3 TooLarge buffer 1 at 775\n"),
    (4, 0, "duration nan\nfault 4 MoovPlace buffer 1 at 775\n"),
    (5, 0, "duration nan\nfault 5 MoofPlace buffer 1 at 775\n"),
    (6, 0, "duration nan\nfault 6 NoInit buffer 1 at 775\n"),
    (7, 0, "duration nan\nfault 7 InSegment buffer 1 at 775\n"),
    (8, 0, "duration nan\nfault 8 OutsideMdat buffer 1 at 775\n"),
    (11, 0, "duration nan\nfault 11 NoTracks buffer 1 at 775\n"),
    (12, 0, "duration nan\nfault 12 Codec buffer 1 at 775\n"),
    (
        13,
        0,
        "duration nan\nfault 13 TracksDiffer buffer 1 at 775\n",
    ),
    (14, 0, "duration nan\nfault 14 TimeRange buffer 1 at 775\n"),
    (15, 0, "duration nan\nfault 15 Sync buffer 1 at 775\n"),
    (16, 0, "duration nan\nfault 16 Rate buffer 1 at 775\n"),
    (17, 0, "duration nan\nfault 17 Length buffer 1 at 775\n"),
    (18, 0, "duration nan\nfault 18 Counts buffer 1 at 775\n"),
    (0, 0, "duration nan\nfault 0 Unknown buffer 1 at 775\n"),
    (19, 0, "duration nan\nfault 19 Unknown buffer 1 at 775\n"),
    (9, 1, "duration nan\nfault 9 Init Size buffer 1 at 775\n"),
    (
        9,
        2,
        "duration nan\nfault 9 Init Missing mv?d buffer 1 at 775\n",
    ),
    (
        9,
        3,
        "duration nan\nfault 9 Init HasSamples buffer 1 at 775\n",
    ),
    (9, 4, "duration nan\nfault 9 Init NoMvex buffer 1 at 775\n"),
    (
        9,
        5,
        "duration nan\nfault 9 Init EditList buffer 1 at 775\n",
    ),
    (
        9,
        6,
        "duration nan\nfault 9 Init ZeroTimescale buffer 1 at 775\n",
    ),
    (
        9,
        7,
        "duration nan\nfault 9 Init DuplicateTrack buffer 1 at 775\n",
    ),
    (
        9,
        8,
        "duration nan\nfault 9 Init TooManyTracks buffer 1 at 775\n",
    ),
    (9, 9, "duration nan\nfault 9 Init Unknown buffer 1 at 775\n"),
    (10, 1, "duration nan\nfault 10 Moof Size buffer 1 at 775\n"),
    (
        10,
        2,
        "duration nan\nfault 10 Moof NoTraf buffer 1 at 775\n",
    ),
    (
        10,
        3,
        "duration nan\nfault 10 Moof NoTfhd buffer 1 at 775\n",
    ),
    (
        10,
        4,
        "duration nan\nfault 10 Moof NoTfdt buffer 1 at 775\n",
    ),
    (
        10,
        5,
        "duration nan\nfault 10 Moof BaseOffset buffer 1 at 775\n",
    ),
    (
        10,
        6,
        "duration nan\nfault 10 Moof UnknownTrack buffer 1 at 775\n",
    ),
    (
        10,
        7,
        "duration nan\nfault 10 Moof TooManySamples buffer 1 at 775\n",
    ),
    (10, 8, "duration nan\nfault 10 Moof Place buffer 1 at 775\n"),
    (
        10,
        0,
        "duration nan\nfault 10 Moof Unknown buffer 1 at 775\n",
    ),
];

/// Prints the lines that close a run with a fault, and compares them.
fn expect_fault(rt: &(impl Abort + AllocGlobal), number: u8, inner: u8, wanted: &str) {
    let fault = FaultView {
        number,
        inner,
        missing: *b"mv\x00d",
        buffer: 1,
        offset: 775,
    };
    let view = View {
        state: state(Ready::Ended, Moment::Nan, Level::Nothing),
        buffers: BufferViews::from_vec(Vec::new(rt.alloc())),
        fault: Some(fault),
    };
    expect_printed(rt, closing(rt.alloc(), &view, false), wanted);
}

#[test]
fn prints_faults(rt: HostRuntime) {
    for &(number, inner, wanted) in &FAULTS {
        expect_fault(&rt, number, inner, wanted);
    }
    expect_printed(&rt, init_fault(rt.alloc(), 2, b"mvhd"), "Missing mvhd");
    expect_printed(&rt, printable_text(rt.alloc(), "caf\u{e9} \n"), "caf? ?");
}

/// A track: its id, kind, codec, number of frames and ranges.
type Track = (u32, Kind, [u8; 4], u64, &'static [Bounds]);

/// A buffer: its number and phase, how many bytes it holds and uses, its ranges and its tracks.
type Buffer = (u32, Phase, u64, u64, &'static [Bounds], &'static [Track]);

const BUFFERS: [Buffer; 3] = [
    (
        0,
        Phase::Waiting,
        0,
        27,
        &[(0, 14112000000)],
        &[
            (1, Kind::Video, *b"avc1", 3, &[(0, 14112000000)]),
            (2, Kind::Audio, *b"mp4a", 5, &[(0, 15052800000)]),
        ],
    ),
    (
        1,
        Phase::InMedia,
        150,
        0,
        &[],
        &[(3, Kind::Other, *b"t\x7f~\xff", 0, &[])],
    ),
    (15, Phase::InInit, 727, 0, &[], &[]),
];

fn track_views(rt: &(impl Abort + AllocGlobal), tracks: &[Track]) -> TrackViews {
    let mut views = Vec::new(rt.alloc());
    for &(id, kind, codec, frames, ranges) in tracks {
        let view = TrackView {
            id,
            kind,
            codec,
            frames,
            ranges: time_ranges(rt, ranges),
        };
        views.push(view).expect(rt, "memory");
    }
    TrackViews::from_vec(views)
}

fn buffer_views(rt: &(impl Abort + AllocGlobal), buffers: &[Buffer]) -> BufferViews {
    let mut views = Vec::new(rt.alloc());
    for &(number, phase, held, used, ranges, tracks) in buffers {
        let view = BufferView {
            number,
            phase,
            held,
            used,
            ranges: time_ranges(rt, ranges),
            tracks: track_views(rt, tracks),
        };
        views.push(view).expect(rt, "memory");
    }
    BufferViews::from_vec(views)
}

const CLOSING: &str = "\
state source open duration 4704000000 level 4 position 0 paused true seeking false error 0
duration 4704000000
buffer 0 phase waiting held 0 used 27 buffered [0,14112000000)
track 0 1 video avc1 frames 3 ranges [0,14112000000)
track 0 2 audio mp4a frames 5 ranges [0,15052800000)
buffer 1 phase media held 150 used 0 buffered none
track 1 3 other t?~? frames 0 ranges none
buffer 15 phase init held 727 used 0 buffered none
";

/// The closing lines, with the line of the state and no fault.
#[test]
fn prints_the_closing_lines(rt: HostRuntime) {
    let duration = Moment::At(time(&rt, 4704000000));
    let view = View {
        state: state(Ready::Opened, duration, Level::Enough),
        buffers: buffer_views(&rt, &BUFFERS),
        fault: None,
    };
    expect_printed(&rt, closing(rt.alloc(), &view, true), CLOSING);
}

/// The closing lines of no buffer, without the line of the state, with a fault.
#[test]
fn prints_the_closing_fault(rt: HostRuntime) {
    let fault = FaultView {
        number: 7,
        inner: 0,
        missing: [0; 4],
        buffer: 0,
        offset: 735,
    };
    let view = View {
        state: state(Ready::Ended, Moment::Infinite, Level::Future),
        buffers: BufferViews::from_vec(Vec::new(rt.alloc())),
        fault: Some(fault),
    };
    expect_printed(
        &rt,
        closing(rt.alloc(), &view, false),
        "duration inf\nfault 7 InSegment buffer 0 at 735\n",
    );
}
