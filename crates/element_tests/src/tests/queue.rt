//! The queue of events.

use mse_calls::{Event, EventKind, Target};
use task_queue::Queue;

/// The event of the buffer of a number.
fn event_of(number: u32) -> Event {
    Event {
        target: Target::Buffer(number),
        kind: EventKind::Update,
    }
}

/// What is queued first is fired first, also where the queue has gone round in its room.
#[test]
fn first_in_first_out(rt: HostRuntime) {
    let mut queue = Queue::new(rt.alloc());
    assert!(rt; queue.pop().is_none(), "before all");
    for round in 0..5 {
        queue.reserve(3).expect(&rt, "memory");
        for place in 0..3 {
            assert!(rt;
                queue.is_empty() == (place == 0),
                "round {round}, event {place}"
            );
            queue.reserve(1).expect(&rt, "memory");
            queue.push_reserved(event_of(round * 3 + place));
        }
        for place in 0..3 {
            let same = queue.pop() == Some(event_of(round * 3 + place));
            let left = queue.len() == 2 - place as usize;
            assert!(rt; same && left, "round {round}, event {place}");
        }
    }
}
