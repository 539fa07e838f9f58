//! The position of an element: each case is a row of steps.

use super::scenes::{SECOND, Told, scene_of, time};
use element_seek::{Player, PlayerAnswer, Scene};
use mse_calls::{Changes, EndKind, EventKind, Level, Name};
use std::process::Abort;

/// A call on the element and the events that it tells, its turn, the end of a step, or what holds
/// then. Times are in ticks.
#[derive(Clone, Copy)]
enum Step {
    /// What the element is told of its source from here on.
    Scene(Told),
    /// A new element.
    New,
    /// An element whose metadata is there, at the level of the scene.
    Loaded,
    Load(&'static [EventKind]),
    Seek(i128, &'static [EventKind]),
    Play(&'static [EventKind]),
    PlayRefused(Name),
    Pause(&'static [EventKind]),
    Advance(i128, &'static [EventKind]),
    AdvanceRefused(i128, Name),
    Fail(EndKind, &'static [EventKind]),
    /// Nothing is due.
    NoTurn,
    Turn(&'static [EventKind]),
    /// A turn, whatever it tells.
    AnyTurn,
    Settle(&'static [EventKind]),
    /// The end of a step, whatever it tells.
    AnySettle,
    Position(i128),
    Seeking(bool),
    Level(Level),
    Paused(bool),
    Due(bool),
    Error(u8),
}

/// An element whose metadata is there, at the level of a scene.
fn loaded_player(scene: &Scene) -> Player {
    let mut player = Player::new();
    let _ = player.load(scene);
    let _ = player.settle(scene);
    player
}

/// Whether the events are those.
fn are_events(events: &Changes, wanted: &[EventKind]) -> bool {
    events.as_slice() == wanted
}

fn is_told(answer: PlayerAnswer, wanted: &[EventKind]) -> bool {
    match answer {
        PlayerAnswer::Done(events) => are_events(&events, wanted),
        PlayerAnswer::Refused(_) => false,
    }
}

fn is_refused_with(answer: PlayerAnswer, wanted: Name) -> bool {
    match answer {
        PlayerAnswer::Refused(name) => name == wanted,
        PlayerAnswer::Done(_) => false,
    }
}

/// Whether there is a turn with these events.
fn is_turn(turn: Option<Changes>, wanted: &[EventKind]) -> bool {
    match turn {
        Some(events) => are_events(&events, wanted),
        None => false,
    }
}

/// Whether this holds of the element.
fn holds(rt: &impl Abort, player: &Player, scene: &Scene, step: &Step) -> bool {
    match *step {
        Step::Position(t) => player.position() == time(rt, t),
        Step::Seeking(wanted) => player.seeking() == wanted,
        Step::Level(wanted) => player.level() == wanted,
        Step::Paused(wanted) => player.paused() == wanted,
        Step::Due(wanted) => player.due(scene) == wanted,
        Step::Error(wanted) => player.error() == wanted,
        _ => true,
    }
}

/// Takes a step of the element itself; whether it tells what is wanted.
fn settles(rt: &impl Abort, player: &mut Player, scene: &Scene, step: &Step) -> bool {
    match *step {
        Step::NoTurn => player.turn(scene).is_none(),
        Step::Turn(wanted) => is_turn(player.turn(scene), wanted),
        Step::AnyTurn => player.turn(scene).is_some(),
        Step::Settle(wanted) => are_events(&player.settle(scene), wanted),
        Step::AnySettle => {
            let _ = player.settle(scene);
            true
        }
        _ => holds(rt, player, scene, step),
    }
}

/// Takes a step; whether it tells what is wanted.
fn does(rt: &impl Abort, player: &mut Player, scene: &Scene, step: &Step) -> bool {
    match *step {
        Step::New => *player = Player::new(),
        Step::Loaded => *player = loaded_player(scene),
        Step::Load(wanted) => return are_events(&player.load(scene), wanted),
        Step::Seek(t, wanted) => return are_events(&player.seek(time(rt, t), scene), wanted),
        Step::Play(wanted) => return is_told(player.play(scene), wanted),
        Step::PlayRefused(wanted) => return is_refused_with(player.play(scene), wanted),
        Step::Pause(wanted) => return are_events(&player.pause(), wanted),
        Step::Advance(t, wanted) => return is_told(player.advance(time(rt, t), scene), wanted),
        Step::AdvanceRefused(t, wanted) => {
            return is_refused_with(player.advance(time(rt, t), scene), wanted);
        }
        Step::Fail(kind, wanted) => return are_events(&player.fail(kind), wanted),
        _ => return settles(rt, player, scene, step),
    }
    true
}

/// Ten seconds, of which the first is buffered.
const TEN: Told = (
    Some(10 * SECOND),
    false,
    Some((0, SECOND)),
    Some((0, 10 * SECOND)),
);

/// The same where nothing is buffered round the position.
const NOWHERE: Told = (Some(10 * SECOND), false, None, Some((0, 10 * SECOND)));

/// Four seconds that are buffered, of an ended source.
const FOUR: Told = (
    Some(4 * SECOND),
    true,
    Some((0, 4 * SECOND)),
    Some((0, 4 * SECOND)),
);

/// Takes the steps of a case.
fn run(rt: &impl Abort, case: &str, steps: &[Step]) {
    let mut scene = scene_of(rt, &TEN);
    let mut player = Player::new();
    for (i, step) in steps.iter().enumerate() {
        if let Step::Scene(told) = step {
            scene = scene_of(rt, told);
        }
        assert!(rt; does(rt, &mut player, &scene, step), "{case}, step {i}");
    }
}

static CASES: [(&str, &[Step]); 7] = [
    // A seek before there is metadata sets where playback starts; where nothing can be sought once
    // the metadata is there, it starts at 0.
    (
        "starts_where_it_was_told",
        &[
            Step::Seek(SECOND / 2, &[]),
            Step::Seeking(false),
            Step::Load(&[EventKind::LoadedMetadata, EventKind::Seeking]),
            Step::Position(SECOND / 2),
            Step::Settle(&[EventKind::LoadedData, EventKind::CanPlay]),
            Step::Turn(&[EventKind::TimeUpdate, EventKind::Seeked]),
            Step::Level(Level::Future),
            Step::Seeking(false),
            Step::New,
            Step::Seek(SECOND / 2, &[]),
            Step::Scene((None, false, Some((0, SECOND)), None)),
            Step::Load(&[EventKind::LoadedMetadata]),
            Step::Position(0),
            Step::Seeking(false),
        ],
    ),
    // A seek is brought down to the duration, up to 0 and into what can be sought.
    (
        "seeks_inside",
        &[
            Step::Loaded,
            Step::Seek(-5, &[EventKind::Seeking]),
            Step::Position(0),
            Step::Seek(7, &[EventKind::Seeking]),
            Step::Position(7),
            Step::Seek(20 * SECOND, &[EventKind::Seeking]),
            Step::Position(10 * SECOND),
            Step::Scene((Some(10 * SECOND), false, Some((0, SECOND)), Some((3, 8)))),
            Step::Seek(-5, &[EventKind::Seeking]),
            Step::Position(3),
            Step::Seek(3, &[EventKind::Seeking]),
            Step::Position(3),
            Step::Seek(5, &[EventKind::Seeking]),
            Step::Position(5),
            Step::Seek(20 * SECOND, &[EventKind::Seeking]),
            Step::Position(8),
            Step::Seeking(true),
            Step::Scene((Some(10 * SECOND), false, Some((0, SECOND)), None)),
            Step::Seek(5, &[]),
            Step::Position(8),
            Step::Seeking(false),
        ],
    ),
    // Play tells `waiting` or `playing` by the level before the end of the step; a call that
    // changes nothing tells nothing.
    (
        "plays_and_pauses",
        &[
            Step::Loaded,
            Step::Level(Level::Future),
            Step::Pause(&[]),
            Step::Play(&[EventKind::Play, EventKind::Playing]),
            Step::Play(&[]),
            Step::Pause(&[EventKind::TimeUpdate, EventKind::Pause]),
            Step::Paused(true),
            Step::Scene(NOWHERE),
            Step::Settle(&[]),
            Step::Play(&[EventKind::Play, EventKind::Waiting]),
            Step::Scene(TEN),
            Step::Settle(&[EventKind::CanPlay, EventKind::Playing]),
            Step::Scene(NOWHERE),
            Step::Settle(&[EventKind::TimeUpdate, EventKind::Waiting]),
        ],
    ),
    // The position moves on up to the end of the buffered range, while the element plays.
    (
        "moves_on",
        &[
            Step::Loaded,
            Step::AdvanceRefused(-1, Name::TypeError),
            Step::Advance(1, &[]),
            Step::Play(&[EventKind::Play, EventKind::Playing]),
            Step::Advance(0, &[]),
            Step::Advance(5, &[EventKind::TimeUpdate]),
            Step::Position(5),
            Step::Advance(1 << 110, &[EventKind::TimeUpdate]),
            Step::Position(SECOND),
            Step::Settle(&[EventKind::TimeUpdate, EventKind::Waiting]),
            Step::Advance(1, &[]),
        ],
    ),
    // The end of playback is told once, until the position leaves it; play begins at 0 again.
    (
        "ends_and_begins_again",
        &[
            Step::Scene(FOUR),
            Step::Loaded,
            Step::NoTurn,
            Step::Play(&[EventKind::Play, EventKind::Playing]),
            Step::Advance(9 * SECOND, &[EventKind::TimeUpdate]),
            Step::Settle(&[]),
            Step::Level(Level::Current),
            Step::Due(true),
            Step::Turn(&[EventKind::TimeUpdate, EventKind::Pause, EventKind::Ended]),
            Step::Paused(true),
            Step::Due(false),
            Step::Play(&[EventKind::Seeking, EventKind::Play, EventKind::Waiting]),
            Step::Position(0),
            Step::Seeking(true),
            Step::Settle(&[
                EventKind::CanPlay,
                EventKind::Playing,
                EventKind::CanPlayThrough,
            ]),
            Step::Turn(&[EventKind::TimeUpdate, EventKind::Seeked]),
            Step::Pause(&[EventKind::TimeUpdate, EventKind::Pause]),
            Step::Seek(4 * SECOND, &[EventKind::Seeking]),
            Step::AnySettle,
            Step::AnyTurn,
            Step::Turn(&[EventKind::TimeUpdate, EventKind::Ended]),
        ],
    ),
    // Playback that has ended begins again at 0 also where the element is not paused.
    (
        "begins_again_while_it_plays",
        &[
            Step::Scene(FOUR),
            Step::Loaded,
            Step::Play(&[EventKind::Play, EventKind::Playing]),
            Step::Advance(4 * SECOND, &[EventKind::TimeUpdate]),
            Step::Play(&[EventKind::Seeking]),
            Step::Position(0),
        ],
    ),
    // The code of an error is 4 before there is metadata, and the first error stays.
    (
        "keeps_the_first_error",
        &[
            Step::Fail(EndKind::Plain, &[]),
            Step::Fail(EndKind::Decode, &[EventKind::Error]),
            Step::Error(4),
            Step::PlayRefused(Name::NotSupported),
            Step::Loaded,
            Step::Fail(EndKind::Network, &[EventKind::Error]),
            Step::Fail(EndKind::Network, &[]),
            Step::Error(2),
            Step::Play(&[EventKind::Play, EventKind::Playing]),
            Step::Advance(5, &[]),
            Step::Loaded,
            Step::Fail(EndKind::Decode, &[EventKind::Error]),
            Step::Fail(EndKind::Network, &[]),
            Step::Error(3),
            Step::Play(&[EventKind::Play, EventKind::Playing]),
            Step::Advance(5, &[]),
        ],
    ),
];

#[test]
fn positions(rt: HostRuntime) {
    for (case, steps) in &CASES {
        run(&rt, case, steps);
    }
}
