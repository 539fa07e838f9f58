//! A journal: what is put in, and what is found at each place.

use mse_calls::{Answer, Call, Entry, Event, EventKind, Name, Piece, Target};
use run_journal::Journal;
use std::process::Abort;

/// The entries of `journal_of_calls`, and then none.
static CALLS: [&str; 6] = [
    "Some(Append(3, Piece { blob: 2, part: Some((7, 1)) }))",
    "Some(Step(9))",
    "Some(Script(AppendBuffer(4, Piece { blob: 2, part: Some((7, 1)) }), Refused(InvalidState)))",
    "Some(Listener(5, Play, Done))",
    "Some(Fired(Event { target: Buffer(1), kind: Update }))",
    "None",
];

/// Calls of the script and of a listener with their answers, a step between them, and an event.
fn journal_of_calls(rt: &(impl Abort + AllocGlobal)) -> Journal {
    let piece = Piece {
        blob: 2,
        part: Some((7, 1)),
    };
    let event = Event {
        target: Target::Buffer(1),
        kind: EventKind::Update,
    };
    let refused = Answer::Refused(Name::InvalidState);
    let mut journal = Journal::new(rt.alloc());
    journal.reserve(5).expect(rt, "memory");
    journal.push_reserved(Entry::Script(Call::AppendBuffer(3, piece), Answer::Done));
    journal.push_reserved(Entry::Step(9));
    journal.push_reserved(Entry::Script(Call::AppendBuffer(4, piece), refused));
    journal.push_reserved(Entry::Listener(5, Call::Play, Answer::Done));
    journal.push_reserved(Entry::Fired(event));
    journal
}

/// The entries of `journal_of_work`, and then none.
static RUNS_OF_WORK: [&str; 11] = [
    "Some(Work(1))",
    "Some(Work(1))",
    "Some(Work(1))",
    "Some(Work(2))",
    "Some(Work(2))",
    "Some(Work(1))",
    "Some(Step(7))",
    "Some(Work(1))",
    "Some(Work(1))",
    "Some(Element)",
    "None",
];

/// Steps of work, with whatever ends a run of them: one on another buffer, or another entry.
fn journal_of_work(rt: &(impl Abort + AllocGlobal)) -> Journal {
    let mut journal = Journal::new(rt.alloc());
    journal.reserve(10).expect(rt, "memory");
    journal.push_work_reserved(1);
    journal.push_work_reserved(1);
    journal.push_reserved(Entry::Work(1));
    journal.push_work_reserved(2);
    journal.push_work_reserved(2);
    journal.push_work_reserved(1);
    journal.push_reserved(Entry::Step(7));
    journal.push_work_reserved(1);
    journal.push_work_reserved(1);
    journal.push_reserved(Entry::Element);
    journal
}

/// Asserts what is found at each place; behind the last entry that is nothing.
fn expect_entries(rt: &(impl Abort + AllocGlobal), journal: &Journal, wanted: &[&str]) {
    for (i, wanted) in wanted.iter().enumerate() {
        let found = format!(in rt.alloc(); "{:?}", journal.get(i)).expect(rt, "memory");
        assert!(rt; found.as_str() == *wanted, "{i}: {}", found.as_str());
    }
}

/// Entries stand one behind the other, each as it was put in.
#[test]
fn keeps_entries(rt: HostRuntime) {
    let calls = journal_of_calls(&rt);
    expect_entries(&rt, &calls, &CALLS);
    let work = journal_of_work(&rt);
    expect_entries(&rt, &work, &RUNS_OF_WORK);
    assert!(rt; (calls.len(), work.len()) == (5, 10));
}
