//! How ready an element is, and the events of each change.

use super::scenes::time;
use element_ready::{Facts, events_of_change, is_first_data, level};
use mse_base::{Moment, Span, Ticks};
use mse_calls::{EventKind, Level};
use std::process::Abort;

/// Three seconds in ticks.
const LONG: i128 = 423_360_000_000;

/// A position, the end of the range from 0 on, the duration, and the level there.
type Border = (i128, i128, i128, Level);

/// Whether the level at a border is what is wanted.
fn is_told(rt: &impl Abort, border: &Border) -> bool {
    let (position, end, duration, wanted) = *border;
    let span = Span {
        start: Ticks::zero(),
        end: time(rt, end),
    };
    let duration = Moment::At(time(rt, duration));
    level(Some(span), time(rt, position), duration) == wanted
}

/// The borders between the levels.
static BORDERS: [Border; 9] = [
    (0, LONG, 10 * LONG, Level::Enough),
    (0, LONG - 1, 10 * LONG, Level::Future),
    (1, LONG, 10 * LONG, Level::Future),
    (0, 1, 10 * LONG, Level::Future),
    (0, 1, 1, Level::Enough),
    (0, 1, 2, Level::Future),
    (1, 1, 1, Level::Current),
    (LONG, LONG, 10 * LONG, Level::Current),
    (0, 0, 10 * LONG, Level::Current),
];

#[test]
fn tells_levels(rt: HostRuntime) {
    let without = level(None, Ticks::zero(), Moment::Infinite);
    assert!(rt; without == Level::Metadata, "without a range");
    for (i, border) in BORDERS.iter().enumerate() {
        assert!(rt; is_told(&rt, border), "border {i}");
    }
}

/// One letter for each event.
fn letter(kind: EventKind) -> char {
    match kind {
        EventKind::LoadedMetadata => 'm',
        EventKind::LoadedData => 'd',
        EventKind::CanPlay => 'c',
        EventKind::Playing => 'p',
        EventKind::CanPlayThrough => 't',
        EventKind::TimeUpdate => 'u',
        EventKind::Waiting => 'w',
        _ => '?',
    }
}

static LEVELS: [Level; 5] = [
    Level::Nothing,
    Level::Metadata,
    Level::Current,
    Level::Future,
    Level::Enough,
];

/// Whether a change fires the events of these letters.
fn fires(old: Level, new: Level, facts: Facts, wanted: &str) -> bool {
    let events = events_of_change(old, new, facts);
    let mut letters = wanted.chars();
    for kind in events.as_slice() {
        if letters.next() != Some(letter(*kind)) {
            return false;
        }
    }
    letters.next().is_none()
}

/// Whether all changes from a level fire the events of a row, in which there is one for each new
/// level.
fn fires_row(old: Level, facts: Facts, row: &[&str; 5]) -> bool {
    for (new, wanted) in LEVELS.iter().zip(row.iter()) {
        if !fires(old, *new, facts, wanted) {
            return false;
        }
    }
    true
}

/// What holds of an element, and the events of each change of its level: a row for each old level.
type Table = (Facts, &'static [[&'static str; 5]; 5]);

/// An element that plays, one that is paused, and one that is at the end.
static TABLES: [Table; 3] = [
    (
        Facts {
            playing: true,
            paused: false,
            first_loaded: false,
        },
        &[
            ["", "m", "", "cp", "cpt"],
            ["", "", "d", "dcp", "dcpt"],
            ["", "", "", "cp", "cpt"],
            ["", "uw", "uw", "", "t"],
            ["", "uw", "uw", "", ""],
        ],
    ),
    (
        Facts {
            playing: false,
            paused: true,
            first_loaded: true,
        },
        &[
            ["", "m", "", "c", "ct"],
            ["", "", "", "c", "ct"],
            ["", "", "", "c", "ct"],
            ["", "", "", "", "t"],
            ["", "", "", "", ""],
        ],
    ),
    (
        Facts {
            playing: false,
            paused: false,
            first_loaded: true,
        },
        &[
            ["", "m", "", "cp", "cpt"],
            ["", "", "", "cp", "cpt"],
            ["", "", "", "cp", "cpt"],
            ["", "", "", "", "t"],
            ["", "", "", "", ""],
        ],
    ),
];

#[test]
fn fires_events_of_changes(rt: HostRuntime) {
    for (facts, table) in &TABLES {
        for (i, (old, row)) in LEVELS.iter().zip(table.iter()).enumerate() {
            assert!(rt; fires_row(*old, *facts, row), "{facts:?} from level {i}");
        }
    }
    let is_first = is_first_data(Level::Metadata, Level::Enough);
    assert!(rt; is_first && !is_first_data(Level::Current, Level::Enough));
}
