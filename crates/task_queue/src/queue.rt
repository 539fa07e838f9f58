ghost use Rattle.std.specs.Prelude.{◌≡◌, ◌==◌, ◌≤◌, ◌+◌, ◌++◌, ◌∷◌, [], OnOk, length, drop, slice_get};

use mse_base::OutOfMemory;
use mse_calls::Event;
use std::alloc::Global;
use std::collections::VecDeque;
use std::marker::Model;

/// The events that were queued and not yet fired, in order, and room for more.
#[derive(Debug, Drop)]
pub struct Queue {
    events: VecDeque<Event>,
}

impl Model for Queue {
    ghost use Rattle.std.specs.Prelude.{◌-◌};
    ghost use Rattle.std.specs.VecDeque.{deque_len, deque_capacity};
    ghost use Rattle.task_queue.specs.Queued.{QueueView};

    ghost Value = { QueueView };

    ghost view = { λ q. record {
      events = q.events.items;
      spare = deque_capacity q.events - deque_len q.events;
    } };
}

impl Queue {
    /// A queue with no event. It takes no memory.
    pub fn new(alloc: Global) -> Queue
        ensures { result.events ≡ [] }
    {
        Queue {
            events: VecDeque::new(alloc),
        }
    }

    /// How many events wait.
    pub fn len(&self) -> usize
        ensures { result ≡ length self.now.events }
    {
        self.events.len()
    }

    /// Whether no event waits.
    pub fn is_empty(&self) -> bool
        ensures { result ≡ (length self.now.events == 0) }
    {
        self.events.is_empty()
    }

    /// Makes room for at least `n` more events. An `Err` changes nothing but room.
    pub fn reserve(&mut self, n: usize) -> Result<(), OutOfMemory>
        ensures events { self.new.events ≡ self.old.events }
        ensures spare { OnOk result (n ≤ self.new.spare) }
        ensures no_room_lost { self.old.spare ≤ self.new.spare }
    {
        if n <= self.events.capacity() - self.events.len() {
            return Ok(());
        }
        self.reserve_more(n)
    }

    /// Makes room for at least `n` more events where there is less.
    #[cold]
    #[inline(never)]
    fn reserve_more(&mut self, n: usize) -> Result<(), OutOfMemory>
        ensures events { self.new.events ≡ self.old.events }
        ensures spare { OnOk result (n ≤ self.new.spare) }
        ensures no_room_lost { self.old.spare ≤ self.new.spare }
    {
        self.events.reserve(n)?;
        Ok(())
    }

    /// Puts an event last, in reserved room. It takes no memory.
    pub fn push_reserved(&mut self, event: Event)
        requires { 1 ≤ self.old.spare }
        ensures events { self.new.events ≡ self.old.events ++ event ∷ [] }
        ensures spare { self.new.spare + 1 ≡ self.old.spare }
    {
        self.events.push_back_reserved(event);
    }

    /// Takes the first event off the queue; `None` exactly where it is empty. The others are not
    /// moved, and its place is room again.
    pub fn pop(&mut self) -> Option<Event>
        ensures event { result ≡ slice_get self.old.events 0 }
        ensures events { self.new.events ≡ drop 1 self.old.events }
        ensures room { self.old.spare + length self.old.events
            ≡ self.new.spare + length self.new.events }
    {
        self.events.pop_front()
    }
}
