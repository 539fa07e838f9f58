//! A listener by rules: its calls on the events that it hears.
//!
//! Each thing that a listener is told or asked may find no memory once. Its rules and what it heard are then as before,
//! so that it is told or asked again. An allocation is refused from outside, by `rt try --test --fail-alloc` or by
//! `bench/refused.py` of the repository.

use listeners::{Listener, RuleListener};
use mse_base::{OutOfMemory, OwnedList, Text};
use mse_calls::{Answer, Call, Event, EventKind, Rule, Target};
use std::alloc::Global;
use std::process::Abort;
use std::test::Fail;

pub(super) const OPEN: Event = Event {
    target: Target::Source,
    kind: EventKind::SourceOpen,
};

const ENDED: Event = Event {
    target: Target::Source,
    kind: EventKind::SourceEnded,
};

const PLAY: Event = Event {
    target: Target::Element,
    kind: EventKind::Play,
};

/// The event of a rule, how many times it answers, whether it repeats, and the numbers of the buffers whose type it
/// changes.
type RuleRow<'a> = (Event, u32, bool, &'a [u32]);

/// The rule of a row. Its calls take memory when they are copied.
fn rule(alloc: Global, row: &RuleRow) -> Result<Rule, OutOfMemory> {
    let (on, times, repeat, numbers) = row;
    let mut calls = Vec::new(alloc);
    for k in *numbers {
        calls.push(Call::ChangeType(*k, Text::copy_of(alloc, "audio/mp4")?))?;
    }
    Ok(Rule {
        listener: 0,
        on: *on,
        times: *times,
        repeat: *repeat,
        calls: OwnedList::from_vec(calls),
    })
}

pub(super) fn boxed_listener(
    alloc: Global,
    rules: Vec<Rule>,
) -> Result<Box<RuleListener>, OutOfMemory> {
    let mut listener = RuleListener::new(alloc);
    listener.set_rules(rules);
    let listener = Box::new(alloc, listener)?;
    Ok(listener)
}

fn rules(alloc: Global, rows: &[RuleRow]) -> Result<Vec<Rule>, OutOfMemory> {
    let mut rules = Vec::new(alloc);
    for row in rows {
        rules.push(rule(alloc, row)?)?;
    }
    Ok(rules)
}

fn listener_once(alloc: Global, rows: &[RuleRow]) -> Result<Box<dyn Listener>, OutOfMemory> {
    let listener = boxed_listener(alloc, rules(alloc, rows)?)?;
    Ok(listener)
}

/// A listener with these rules.
fn listener(alloc: Global, rows: &[RuleRow]) -> Result<Box<dyn Listener>, OutOfMemory> {
    match listener_once(alloc, rows) {
        Ok(listener) => Ok(listener),
        Err(_) => listener_once(alloc, rows),
    }
}

fn hear(listener: &mut Box<dyn Listener>, event: &Event) -> Result<(), OutOfMemory> {
    match listener.hear(event) {
        Ok(()) => Ok(()),
        Err(_) => listener.hear(event),
    }
}

fn next(
    listener: &mut Box<dyn Listener>,
    last: Option<&Answer>,
) -> Result<Option<Call>, OutOfMemory> {
    match listener.next(last) {
        Ok(asked) => Ok(asked),
        Err(_) => listener.next(last),
    }
}

/// Asks a listener for a call, and tells whether that changes the type of the buffer of this number; without a number
/// it is to rest.
fn is_next(
    listener: &mut Box<dyn Listener>,
    last: Option<&Answer>,
    number: Option<u32>,
) -> Result<bool, OutOfMemory> {
    match next(listener, last)? {
        Some(Call::ChangeType(k, _)) => Ok(number == Some(k)),
        Some(_) => Ok(false),
        None => Ok(number.is_none()),
    }
}

/// The same of the first call for what was heard, or of one behind a call that was made.
fn is_call(
    listener: &mut Box<dyn Listener>,
    is_first: bool,
    number: u32,
) -> Result<bool, OutOfMemory> {
    if is_first {
        return is_next(listener, None, Some(number));
    }
    let done = Answer::Done;
    is_next(listener, Some(&done), Some(number))
}

/// Asks a listener for as many calls as there are numbers, and tells whether they are on the buffers of these numbers.
fn makes(listener: &mut Box<dyn Listener>, numbers: &[u32]) -> Result<bool, OutOfMemory> {
    for (i, k) in numbers.iter().enumerate() {
        if !is_call(listener, i == 0, *k)? {
            return Ok(false);
        }
    }
    Ok(true)
}

/// What a listener is told or asked, and what it then does.
#[derive(Clone, Copy)]
enum Act {
    /// It hears an event.
    Hears(Event),
    /// It is told an event that it may be passed over at.
    IsPassedOver(Event, bool),
    /// It is asked for calls, and makes them on the buffers of these numbers.
    Makes(&'static [u32]),
    /// It is asked for a call, and has none.
    Rests,
}

/// Whether a listener does what the row says.
fn does(listener: &mut Box<dyn Listener>, act: Act) -> Result<bool, OutOfMemory> {
    match act {
        Act::Hears(event) => {
            hear(listener, &event)?;
            Ok(true)
        }
        Act::IsPassedOver(event, wanted) => Ok(listener.hear_if_idle(&event) == wanted),
        Act::Makes(numbers) => makes(listener, numbers),
        Act::Rests => is_next(listener, None, None),
    }
}

/// A name, rules, and what a listener with these rules does.
type Case = (&'static str, &'static [RuleRow<'static>], &'static [Act]);

static CASES: [Case; 6] = [
    (
        "rules in their order",
        &[
            (OPEN, 9, false, &[1, 2]),
            (PLAY, 9, false, &[3]),
            (OPEN, 9, false, &[4]),
        ],
        &[
            Act::Hears(OPEN),
            Act::Makes(&[1, 2, 4]),
            Act::Rests,
            Act::Hears(ENDED),
            Act::Rests,
            Act::Hears(PLAY),
            Act::Makes(&[3]),
            Act::Rests,
            Act::Hears(OPEN),
            Act::Makes(&[1, 2, 4]),
            Act::Rests,
        ],
    ),
    (
        "times are used up",
        &[
            (OPEN, 1, false, &[1]),
            (OPEN, 2, false, &[2]),
            (OPEN, 0, false, &[3]),
            (PLAY, 1, false, &[4]),
        ],
        &[
            Act::Hears(OPEN),
            Act::Makes(&[1, 2]),
            Act::Rests,
            Act::Hears(PLAY),
            Act::Makes(&[4]),
            Act::Rests,
            Act::Hears(OPEN),
            Act::Makes(&[2]),
            Act::Rests,
            Act::Hears(PLAY),
            Act::Rests,
            Act::Hears(OPEN),
            Act::Rests,
        ],
    ),
    (
        "one rule is used up, one is not",
        &[
            (OPEN, 9, false, &[1, 2]),
            (PLAY, 1, false, &[3]),
            (OPEN, 1, false, &[4]),
        ],
        &[
            Act::Hears(OPEN),
            Act::Makes(&[1, 2, 4]),
            Act::Rests,
            Act::Hears(ENDED),
            Act::Rests,
            Act::Hears(PLAY),
            Act::Makes(&[3]),
            Act::Rests,
            Act::Hears(OPEN),
            Act::Makes(&[1, 2]),
            Act::Rests,
        ],
    ),
    (
        "a rule repeats",
        &[
            (PLAY, 1, true, &[]),
            (PLAY, 1, false, &[7]),
            (PLAY, 1, true, &[8, 9]),
            (PLAY, 1, false, &[5]),
        ],
        &[
            Act::Hears(OPEN),
            Act::Rests,
            Act::Hears(PLAY),
            Act::Makes(&[7, 8, 9, 8, 9, 8]),
        ],
    ),
    (
        "events that are heard before it is asked are answered one after the other",
        &[(OPEN, 1, false, &[1, 2]), (PLAY, 2, false, &[3])],
        &[
            Act::Hears(OPEN),
            Act::Makes(&[1]),
            Act::Hears(PLAY),
            Act::Hears(OPEN),
            Act::Hears(PLAY),
            Act::Makes(&[2, 3, 3]),
            Act::Rests,
        ],
    ),
    (
        "a listener that has heard an event is passed over where nothing is due and no rule is on the event",
        &[(OPEN, 1, false, &[1])],
        &[
            Act::IsPassedOver(ENDED, false),
            Act::Hears(ENDED),
            Act::Rests,
            Act::IsPassedOver(ENDED, true),
            Act::Rests,
            Act::IsPassedOver(OPEN, false),
            Act::Hears(OPEN),
            Act::IsPassedOver(ENDED, false),
            Act::Hears(ENDED),
            Act::Makes(&[1]),
            Act::Rests,
            Act::IsPassedOver(ENDED, true),
            Act::IsPassedOver(OPEN, false),
            Act::Hears(OPEN),
            Act::Rests,
        ],
    ),
];

/// The number of the first act of the case that the listener does not do, if there is one.
fn first_undone(
    listener: &mut Box<dyn Listener>,
    acts: &[Act],
) -> Result<Option<usize>, OutOfMemory> {
    for (i, act) in acts.iter().enumerate() {
        if !does(listener, *act)? {
            return Ok(Some(i));
        }
    }
    Ok(None)
}

/// The same of a listener with the rules of the rows.
fn first_undone_by(
    alloc: Global,
    rows: &[RuleRow],
    acts: &[Act],
) -> Result<Option<usize>, OutOfMemory> {
    let mut listener = listener(alloc, rows)?;
    first_undone(&mut listener, acts)
}

fn run_cases(rt: &(impl Abort + AllocGlobal), cases: &[Case]) -> Result<(), Fail> {
    for (name, rows, acts) in cases {
        let undone = first_undone_by(rt.alloc(), rows, acts)?;
        assert!(rt; undone.is_none(), "{name}: {undone:?}");
    }
    Ok(())
}

#[test]
fn calls_by_rules(rt: HostRuntime) -> Result<(), Fail> {
    run_cases(&rt, &CASES)
}

fn first_numbers(alloc: Global, count: u32) -> Result<Vec<u32>, OutOfMemory> {
    let mut numbers = Vec::new(alloc);
    for k in 0..count {
        numbers.push(k)?;
    }
    Ok(numbers)
}

/// Whether a listener that hears its event makes these calls, and then rests.
fn makes_these(listener: &mut Box<dyn Listener>, numbers: &[u32]) -> Result<bool, OutOfMemory> {
    hear(listener, &OPEN)?;
    if !makes(listener, numbers)? {
        return Ok(false);
    }
    is_next(listener, None, None)
}

/// The same of a listener with one rule of these calls.
fn makes_its_calls(alloc: Global, numbers: &[u32]) -> Result<bool, OutOfMemory> {
    let mut listener = listener(alloc, &[(OPEN, 1, false, numbers)])?;
    makes_these(&mut listener, numbers)
}

/// Whether a listener makes all calls of a rule of so many, and then rests.
fn makes_all(alloc: Global, count: u32) -> Result<bool, OutOfMemory> {
    let numbers = first_numbers(alloc, count)?;
    makes_its_calls(alloc, numbers.as_slice())
}

/// A listener sets no limit: that of 1,000 calls for one event is kept where its calls are made.
#[test]
fn many_calls(rt: HostRuntime) -> Result<(), Fail> {
    for count in &[1000, 1001] {
        assert!(rt; makes_all(rt.alloc(), *count)?, "{count}");
    }
    Ok(())
}

fn of_buffer(k: u32, kind: EventKind) -> Event {
    Event {
        target: Target::Buffer(k),
        kind,
    }
}

fn rules_of_many(alloc: Global, count: u32) -> Result<Vec<Rule>, OutOfMemory> {
    let mut rules = Vec::new(alloc);
    for k in 0..count {
        let on = of_buffer(k, EventKind::UpdateEnd);
        rules.push(rule(alloc, &(on, 1, false, &[k]))?)?;
    }
    Ok(rules)
}

/// A listener with a rule on the `updateend` of each of so many buffers.
fn listener_of_many(alloc: Global, count: u32) -> Result<Box<dyn Listener>, OutOfMemory> {
    let listener = boxed_listener(alloc, rules_of_many(alloc, count)?)?;
    Ok(listener)
}

/// Whether a listener has a call on the `updateend` of a buffer, and none on its `update`.
fn answers_end(listener: &mut Box<dyn Listener>, k: u32) -> Result<bool, OutOfMemory> {
    hear(listener, &of_buffer(k, EventKind::Update))?;
    let rests = is_next(listener, None, None)?;
    hear(listener, &of_buffer(k, EventKind::UpdateEnd))?;
    Ok(rests && is_next(listener, None, Some(k))?)
}

/// Rules on buffers of many numbers, of which each is found.
#[test]
fn many_rules(rt: HostRuntime) -> Result<(), Fail> {
    let mut listener = listener_of_many(rt.alloc(), 50)?;
    for k in 0..50 {
        assert!(rt; answers_end(&mut listener, k)?, "buffer {k}");
    }
    Ok(())
}
