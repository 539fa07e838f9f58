//! The element with the events that wait: each case is a row of steps.

use super::scenes::{SECOND, Told, scene_of, time};
use element_seek::Scene;
use media_element::Element;
use mse_calls::{Changes, EndKind, Event, EventKind, Level, Name, Target};
use std::process::Abort;

/// A call on an element with its answer, its turn, the end of a step, the events that wait, or what
/// holds then. Times are in ticks.
#[derive(Clone, Copy)]
enum Step {
    /// What the element is told of its source from here on.
    Scene(Told),
    /// An element whose metadata is there, at the level of the scene, all of whose events were
    /// fired.
    Loaded,
    Load,
    Seek(i128),
    Play(Option<Name>),
    Pause,
    Advance(i128, Option<Name>),
    /// The duration changes to that of the scene.
    ChangeDuration,
    Fail(EndKind),
    /// Whether something was due.
    Turn(bool),
    Settle,
    /// The events that wait; they are fired.
    Fires(&'static [EventKind]),
    /// Whether something is due.
    Due(bool),
    Position(i128),
    Level(Level),
    Seeking(bool),
    Paused(bool),
    Error(u8),
}

/// An element whose metadata is there, at the level of a scene, all of whose events were fired.
fn loaded_element(rt: &(impl Abort + AllocGlobal), scene: &Scene) -> Element {
    let mut element = Element::new(rt.alloc());
    element.reserve(6).expect(rt, "memory");
    element.load(scene);
    element.settle(scene);
    for _ in 0..6 {
        let _ = element.fire();
    }
    element
}

/// Whether the events that wait are these at the element; they are fired.
fn fires(element: &mut Element, wanted: &[EventKind]) -> bool {
    let mut same = true;
    for kind in wanted {
        let event = Event {
            target: Target::Element,
            kind: *kind,
        };
        same = same && element.fire() == Some(event);
    }
    same && element.fire().is_none()
}

/// Whether this holds of the element.
fn holds(rt: &impl Abort, element: &Element, scene: &Scene, step: &Step) -> bool {
    match *step {
        Step::Due(wanted) => element.due(scene) == wanted,
        Step::Position(t) => element.position() == time(rt, t),
        Step::Level(wanted) => element.level() == wanted,
        Step::Seeking(wanted) => element.seeking() == wanted,
        Step::Paused(wanted) => element.paused() == wanted,
        Step::Error(wanted) => element.error() == wanted,
        _ => true,
    }
}

/// Takes a step; whether it answers what is wanted.
fn does(
    rt: &(impl Abort + AllocGlobal),
    element: &mut Element,
    scene: &Scene,
    step: &Step,
) -> bool {
    element.reserve(4).expect(rt, "memory");
    match *step {
        Step::Loaded => *element = loaded_element(rt, scene),
        Step::Load => element.load(scene),
        Step::Seek(t) => element.seek(time(rt, t), scene),
        Step::Play(wanted) => return element.play(scene) == wanted,
        Step::Pause => element.pause(),
        Step::Advance(t, wanted) => return element.advance(time(rt, t), scene) == wanted,
        Step::ChangeDuration => element.change_duration(scene.duration, scene),
        Step::Fail(kind) => element.fail(kind),
        Step::Turn(wanted) => return element.turn(scene) == wanted,
        Step::Settle => element.settle(scene),
        Step::Fires(wanted) => return fires(element, wanted),
        _ => return holds(rt, element, scene, step),
    }
    true
}

/// A second of which nothing is buffered.
const SHORT: Told = (Some(SECOND), false, None, Some((0, SECOND)));

/// Takes the steps of a case, from a new element on.
fn run(rt: &(impl Abort + AllocGlobal), case: &str, steps: &[Step]) {
    let mut scene = scene_of(rt, &SHORT);
    let mut element = Element::new(rt.alloc());
    for (i, step) in steps.iter().enumerate() {
        if let Step::Scene(told) = step {
            scene = scene_of(rt, told);
        }
        assert!(rt; does(rt, &mut element, &scene, step), "{case}, step {i}");
    }
}

/// Of ten seconds the first six are buffered, the first two, none, and the two from four on.
const SIX: Told = (
    Some(10 * SECOND),
    false,
    Some((0, 6 * SECOND)),
    Some((0, 10 * SECOND)),
);

const TWO: Told = (
    Some(10 * SECOND),
    false,
    Some((0, 2 * SECOND)),
    Some((0, 10 * SECOND)),
);

const NONE: Told = (Some(10 * SECOND), false, None, Some((0, 10 * SECOND)));

const TWO_LATER: Told = (
    Some(10 * SECOND),
    false,
    Some((4 * SECOND, 6 * SECOND)),
    Some((0, 10 * SECOND)),
);

static CASES: [(&str, &[Step]); 6] = [
    // An element without metadata is told of a change of the duration, and does not seek.
    (
        "duration_of_an_element_without_metadata",
        &[
            Step::Scene(SHORT),
            Step::Seek(5 * SECOND),
            Step::ChangeDuration,
            Step::Fires(&[EventKind::DurationChange]),
            Step::Level(Level::Nothing),
            Step::Position(0),
            Step::Seeking(false),
        ],
    ),
    // An element whose position is after the new duration seeks to it; one whose position is the
    // new duration, or before it, does not.
    (
        "seeks_to_a_lesser_duration",
        &[
            Step::Scene(SIX),
            Step::Loaded,
            Step::Seek(5 * SECOND),
            Step::Fires(&[EventKind::Seeking]),
            Step::Scene((
                Some(5 * SECOND),
                false,
                Some((0, 5 * SECOND)),
                Some((0, 5 * SECOND)),
            )),
            Step::ChangeDuration,
            Step::Fires(&[EventKind::DurationChange]),
            Step::Position(5 * SECOND),
            Step::Scene((
                Some(2 * SECOND),
                false,
                Some((0, 2 * SECOND)),
                Some((0, 2 * SECOND)),
            )),
            Step::ChangeDuration,
            Step::Fires(&[EventKind::DurationChange, EventKind::Seeking]),
            Step::Position(2 * SECOND),
            Step::Seeking(true),
            Step::Scene((None, false, Some((0, 2 * SECOND)), Some((0, 2 * SECOND)))),
            Step::ChangeDuration,
            Step::Fires(&[EventKind::DurationChange]),
            Step::Position(2 * SECOND),
        ],
    ),
    // An element that was told where to start seeks there once its metadata is there, and stays
    // there.
    (
        "loads_at_its_start",
        &[
            Step::Scene(SIX),
            Step::Seek(5 * SECOND),
            Step::Fires(&[]),
            Step::Load,
            Step::Settle,
            Step::Fires(&[
                EventKind::LoadedMetadata,
                EventKind::Seeking,
                EventKind::LoadedData,
                EventKind::CanPlay,
            ]),
            Step::Position(5 * SECOND),
            Step::Level(Level::Future),
            Step::Due(true),
            Step::Turn(true),
            Step::Fires(&[EventKind::TimeUpdate, EventKind::Seeked]),
            Step::Seeking(false),
            Step::Due(false),
            Step::Turn(false),
            Step::Fires(&[]),
        ],
    ),
    // A seek while the element plays where its data is, to a place whose data comes only later.
    (
        "seeks_while_it_plays",
        &[
            Step::Scene(TWO),
            Step::Loaded,
            Step::Play(None),
            Step::Fires(&[EventKind::Play, EventKind::Playing]),
            Step::Seek(5 * SECOND),
            Step::Scene(NONE),
            Step::Settle,
            Step::Fires(&[
                EventKind::Seeking,
                EventKind::TimeUpdate,
                EventKind::Waiting,
            ]),
            Step::Due(false),
            Step::Scene(TWO_LATER),
            Step::Settle,
            Step::Fires(&[EventKind::CanPlay, EventKind::Playing]),
            Step::Turn(true),
            Step::Fires(&[EventKind::TimeUpdate, EventKind::Seeked]),
            Step::Level(Level::Future),
            Step::Position(5 * SECOND),
        ],
    ),
    // The element plays to the end of an ended source.
    (
        "plays_to_the_end",
        &[
            Step::Scene((
                Some(14_112_000_000),
                true,
                Some((0, 14_112_000_000)),
                Some((0, 14_112_000_000)),
            )),
            Step::Loaded,
            Step::Play(None),
            Step::Fires(&[EventKind::Play, EventKind::Playing]),
            Step::Advance(-1, Some(Name::TypeError)),
            Step::Advance(SECOND, None),
            Step::Settle,
            Step::Turn(true),
            Step::Fires(&[
                EventKind::TimeUpdate,
                EventKind::TimeUpdate,
                EventKind::Pause,
                EventKind::Ended,
            ]),
            Step::Level(Level::Current),
            Step::Position(14_112_000_000),
            Step::Paused(true),
        ],
    ),
    // An error before there is metadata is one of code 4, after which the element does not play.
    (
        "fails_without_metadata",
        &[
            Step::Scene(SHORT),
            Step::Pause,
            Step::Fail(EndKind::Plain),
            Step::Fires(&[]),
            Step::Fail(EndKind::Network),
            Step::Fail(EndKind::Decode),
            Step::Fires(&[EventKind::Error]),
            Step::Error(4),
            Step::Play(Some(Name::NotSupported)),
            Step::Fires(&[]),
            Step::Paused(true),
        ],
    ),
];

#[test]
fn elements(rt: HostRuntime) {
    for (case, steps) in &CASES {
        run(&rt, case, steps);
    }
}

/// Whether these events are fired next, in this order.
fn fires_each(element: &mut Element, wanted: &[Event]) -> bool {
    let mut same = true;
    for event in wanted {
        same = same && element.fire() == Some(*event);
    }
    same
}

/// Events are fired in the order in which they were queued, at whatever target.
#[test]
fn fires_in_order(rt: HostRuntime) {
    let mut element = Element::new(rt.alloc());
    let none_before = element.fire().is_none();
    element.reserve(8).expect(&rt, "memory");
    let opened = Event {
        target: Target::Source,
        kind: EventKind::SourceOpen,
    };
    element.tell(opened);
    let changed = Event {
        target: Target::Element,
        kind: EventKind::DurationChange,
    };
    element.tell_again(changed, 2);
    element.tell_again(changed, 0);
    let mut kinds = Changes::new();
    kinds.push(EventKind::Update);
    kinds.push(EventKind::UpdateEnd);
    element.tell_kinds(Target::Buffer(3), &kinds);
    let first = fires_each(&mut element, &[opened, changed, changed]);
    let last = fires_each(&mut element, &UPDATES);
    assert!(rt; none_before && first && last && element.fire().is_none());
}

static UPDATES: [Event; 2] = [
    Event {
        target: Target::Buffer(3),
        kind: EventKind::Update,
    },
    Event {
        target: Target::Buffer(3),
        kind: EventKind::UpdateEnd,
    },
];
