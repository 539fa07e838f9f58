use mse_base::{Moment, Span, Ticks};
use mse_calls::{EndKind, Name, Ready};
use source_state::{Added, AllBuffers, Changed, Removed, Source};
use std::alloc::Global;
use std::process::Abort;
use std::test::Fail;

/// So many ticks; 0 for a number that is no time, of which there is none below.
fn time(t: i128) -> Ticks {
    Ticks::new(t).unwrap_or(Ticks::zero())
}

/// A duration, in ticks.
#[derive(Clone, Copy)]
enum Duration {
    Nan,
    Infinite,
    At(i128),
}

fn moment(duration: Duration) -> Moment {
    match duration {
        Duration::Nan => Moment::Nan,
        Duration::Infinite => Moment::Infinite,
        Duration::At(t) => Moment::At(time(t)),
    }
}

/// What comes of the duration.
#[derive(Clone, Copy)]
enum Comes {
    Same,
    To(Duration),
    Refused(Name),
}

fn change_of(comes: Comes) -> Changed {
    match comes {
        Comes::Same => Changed::Same,
        Comes::To(duration) => Changed::To(moment(duration)),
        Comes::Refused(name) => Changed::Refused(name),
    }
}

const WRONG_STATE: Option<Name> = Some(Name::InvalidState);

/// A call on a source, or a question, with the answer.
#[derive(Clone, Copy)]
enum SourceCall {
    Ready(Ready),
    Duration(Duration),
    Attach(Option<Name>),
    /// The refusal of an end where a buffer is updating, or none is.
    EndRefusal(bool, Option<Name>),
    /// An end, at the highest end of all frames.
    End(EndKind, Option<i128>, Comes),
    Reopen(bool),
}

/// Ends the stream, and tells whether what comes of it is what the row says.
fn is_end(source: &mut Source, kind: EndKind, end: Option<i128>, comes: Comes) -> bool {
    let highest = match end {
        Some(t) => Some(time(t)),
        None => None,
    };
    source.end(kind, highest) == change_of(comes)
}

/// Makes the call, and tells whether the answer is the one of the row.
fn is_answered(source: &mut Source, act: SourceCall) -> bool {
    match act {
        SourceCall::Ready(wanted) => source.ready() == wanted,
        SourceCall::Duration(wanted) => source.duration() == moment(wanted),
        SourceCall::Attach(wanted) => source.attach() == wanted,
        SourceCall::EndRefusal(updating, wanted) => source.end_refusal(updating) == wanted,
        SourceCall::End(kind, end, comes) => is_end(source, kind, end, comes),
        SourceCall::Reopen(wanted) => source.reopen() == wanted,
    }
}

/// Makes the calls on a new source, and compares the answers.
fn play(rt: &(impl Abort + AllocGlobal), acts: &[SourceCall]) {
    let mut source = Source::new(rt.alloc());
    for (i, act) in acts.iter().enumerate() {
        assert!(rt; is_answered(&mut source, *act), "call {i}");
    }
}

/// A closed source, an open one and an ended one.
static ENDS: [SourceCall; 14] = [
    SourceCall::Ready(Ready::Closed),
    SourceCall::EndRefusal(false, WRONG_STATE),
    SourceCall::Reopen(false),
    SourceCall::Attach(None),
    SourceCall::Attach(WRONG_STATE),
    SourceCall::EndRefusal(true, WRONG_STATE),
    SourceCall::EndRefusal(false, None),
    SourceCall::End(EndKind::Decode, Some(5), Comes::Same),
    SourceCall::Ready(Ready::Ended),
    SourceCall::Duration(Duration::Nan),
    SourceCall::Attach(WRONG_STATE),
    SourceCall::EndRefusal(false, WRONG_STATE),
    SourceCall::Reopen(true),
    SourceCall::Ready(Ready::Opened),
];

/// The duration at a plain end is the highest end, or 0.
static HIGHEST_ENDS: [SourceCall; 5] = [
    SourceCall::Attach(None),
    SourceCall::End(EndKind::Plain, Some(7), Comes::To(Duration::At(7))),
    SourceCall::End(EndKind::Plain, Some(7), Comes::Same),
    SourceCall::End(EndKind::Network, None, Comes::Same),
    SourceCall::End(EndKind::Plain, None, Comes::To(Duration::At(0))),
];

#[test]
fn opens_ends_and_opens_again(rt: HostRuntime) {
    play(&rt, &ENDS);
}

#[test]
fn ends_at_the_highest_end(rt: HostRuntime) {
    play(&rt, &HIGHEST_ENDS);
}

/// A source with sixteen buffers, to which no other is added.
fn full(rt: &impl Abort, alloc: Global) -> Result<Source, Fail> {
    let mut source = Source::new(alloc);
    assert!(rt; source.add_buffer()? == Added::Refused(Name::InvalidState));
    source.attach();
    for k in 0..16 {
        assert!(rt; source.add_buffer()? == Added::Number(k));
    }
    assert!(rt; source.add_buffer()? == Added::Refused(Name::QuotaExceeded));
    Ok(source)
}

/// A buffer that is in the list becomes active.
fn activate(rt: &impl Abort, source: &mut Source, k: u32) -> Result<(), Fail> {
    if !source.listed(k) || source.active(k) {
        return Err(Fail::new("a new buffer is in the list, and not active"));
    }
    source.activate(k);
    assert!(rt; source.active(k));
    Ok(())
}

/// Buffers that are removed, and what comes of it.
static REMOVALS: [(u32, Removed); 3] = [
    (3, Removed::Gone { active: true }),
    (2, Removed::Gone { active: false }),
    (3, Removed::Refused(Name::NotFound)),
];

/// Numbers are given once; a buffer leaves both lists.
#[test]
fn adds_and_removes_buffers(rt: HostRuntime) -> Result<(), Fail> {
    let mut source = full(&rt, rt.alloc())?;
    assert!(rt; is_end(&mut source, EndKind::Network, None, Comes::Same));
    assert!(rt; source.add_buffer()? == Added::Refused(Name::QuotaExceeded));
    activate(&rt, &mut source, 3)?;
    for &(k, wanted) in &REMOVALS {
        assert!(rt; source.remove_buffer(k) == wanted, "buffer {k}");
    }
    assert!(rt; !source.listed(3) && !source.active(3));
    assert!(rt; (source.len(), source.at(2), source.at(14)) == (14, Some(4), None));
    assert!(rt; source.add_buffer()? == Added::Refused(Name::InvalidState));
    assert!(rt; source.reopen());
    assert!(rt; source.add_buffer()? == Added::Number(16));
    assert!(rt; (source.made(), source.at(14)) == (17, Some(16)));
    Ok(())
}

/// What is told of all buffers where none is updating: by which times frames start and end, if there are any.
fn idle(frames: Option<(i128, i128)>) -> AllBuffers {
    match frames {
        Some((start, end)) => AllBuffers {
            updating: false,
            highest_start: Some(time(start)),
            highest_end: Some(time(end)),
        },
        None => AllBuffers {
            updating: false,
            highest_start: None,
            highest_end: None,
        },
    }
}

const UPDATING: AllBuffers = AllBuffers {
    updating: true,
    highest_start: None,
    highest_end: None,
};

const WRONG_TYPE: Comes = Comes::Refused(Name::TypeError);

const NOT_NOW: Comes = Comes::Refused(Name::InvalidState);

/// Durations that a closed source is to get.
static OF_A_CLOSED_SOURCE: [(Duration, Comes); 3] = [
    (Duration::Nan, WRONG_TYPE),
    (Duration::At(-1), WRONG_TYPE),
    (Duration::At(0), NOT_NOW),
];

/// Durations that an open source is to get while a buffer is updating.
static WHILE_UPDATING: [(Duration, Comes); 2] = [
    (Duration::At(-1), WRONG_TYPE),
    (Duration::At(0), NOT_NOW),
];

/// By which times frames start and end, and the duration that an open source is to get.
static OF_AN_OPEN_SOURCE: [(Option<(i128, i128)>, Duration, Comes); 6] = [
    (None, Duration::Infinite, Comes::To(Duration::Infinite)),
    (Some((10, 15)), Duration::At(9), NOT_NOW),
    (
        Some((10, 15)),
        Duration::At(10),
        Comes::To(Duration::At(15)),
    ),
    (Some((10, 15)), Duration::At(11), Comes::Same),
    (
        Some((10, 15)),
        Duration::At(20),
        Comes::To(Duration::At(20)),
    ),
    (Some((30, 35)), Duration::At(20), Comes::Same),
];

/// Sets the duration, and tells whether what comes of it is what the row says.
fn is_set(source: &mut Source, duration: Duration, all: &AllBuffers, comes: Comes) -> bool {
    source.set_duration(moment(duration), all) == change_of(comes)
}

/// Each refusal of a duration comes before the next one, and the ends of frames raise it.
#[test]
fn sets_the_duration(rt: HostRuntime) {
    let mut source = Source::new(rt.alloc());
    for (i, row) in OF_A_CLOSED_SOURCE.iter().enumerate() {
        assert!(rt;
            is_set(&mut source, row.0, &idle(None), row.1),
            "closed, {i}"
        );
    }
    source.attach();
    for (i, row) in WHILE_UPDATING.iter().enumerate() {
        assert!(rt;
            is_set(&mut source, row.0, &UPDATING, row.1),
            "updating, {i}"
        );
    }
    for (i, row) in OF_AN_OPEN_SOURCE.iter().enumerate() {
        assert!(rt;
            is_set(&mut source, row.1, &idle(row.0), row.2),
            "open, {i}"
        );
    }
    let later = Moment::At(time(35));
    assert!(rt; source.change_duration(later) && !source.change_duration(later));
    assert!(rt; source.duration() == later);
}

fn span(ends: Option<(i128, i128)>) -> Option<Span> {
    match ends {
        Some((start, end)) => Some(Span {
            start: time(start),
            end: time(end),
        }),
        None => None,
    }
}

/// From where to where frames are buffered, if any are, and what can then be sought.
type Row = (Option<(i128, i128)>, Option<(i128, i128)>);

fn expect_seekable(rt: &impl Abort, source: &Source, rows: &[Row]) {
    for &(buffered, wanted) in rows {
        let (first, last) = match span(buffered) {
            Some(span) => (Some(span.start), Some(span.end)),
            None => (None, None),
        };
        assert!(rt;
            source.seekable(first, last) == span(wanted),
            "{buffered:?}"
        );
    }
}

/// Live seekable ranges, and the refusals of an open source.
static LIVE: [(i128, i128, Option<Name>); 3] = [
    (10, 5, Some(Name::TypeError)),
    (-1, 5, Some(Name::TypeError)),
    (5, 6, None),
];

/// An open source with a live seekable range, and no duration.
fn live_source(rt: &impl Abort, alloc: Global) -> Source {
    let mut source = Source::new(alloc);
    assert!(rt; source.set_live(time(10), time(5)) == WRONG_STATE);
    assert!(rt; source.clear_live() == WRONG_STATE);
    source.attach();
    for &(start, end, wanted) in &LIVE {
        assert!(rt;
            source.set_live(time(start), time(end)) == wanted,
            "from {start}"
        );
    }
    source
}

/// What can be sought by the duration, the live seekable range and what is buffered.
#[test]
fn tells_what_can_be_sought(rt: HostRuntime) {
    let mut source = live_source(&rt, rt.alloc());
    expect_seekable(&rt, &source, &[(Some((3, 8)), None)]);
    assert!(rt; source.change_duration(Moment::Infinite));
    let rows = [
        (None, Some((5, 6))),
        (Some((3, 8)), Some((3, 8))),
        (Some((6, 6)), Some((5, 6))),
    ];
    expect_seekable(&rt, &source, &rows);
    assert!(rt; source.clear_live().is_none());
    assert!(rt; source.live().is_none());
    expect_seekable(&rt, &source, &[(Some((3, 8)), Some((0, 8))), (None, None)]);
    assert!(rt; source.change_duration(Moment::At(time(20))));
    expect_seekable(&rt, &source, &[(Some((3, 8)), Some((0, 20)))]);
}
