ghost use Rattle.std.specs.Prelude.{◌≡◌, ◌+◌, ◌≤◌, ◌<◌, ◌++◌, ◌∷◌, [], length, slice_get};

use crate::EventKind;
use std::marker::Model;

/// At most four kinds of events, in the order in which they are queued. It takes no memory.
#[derive(Debug, Drop)]
pub struct Changes {
    kinds: [EventKind; 4],
    count: usize,
}

impl Model for Changes {
    ghost use Rattle.std.specs.Prelude.{List, ◌≤◌, take};
    ghost use Rattle.mse_calls.specs.declared.events.EventKind.{EventKind};

    ghost Value = { List EventKind };

    ghost view = { λ c. take c.count c.kinds };

    ghost invariant = { λ c. c.count ≤ 4 };
}

impl Changes {
    /// No kind.
    pub fn new() -> Changes
        ensures { result ≡ [] }
    {
        Changes {
            kinds: [EventKind::Update; 4],
            count: 0,
        }
    }

    /// Puts a kind last.
    pub fn push(&mut self, kind: EventKind)
        requires { length self.old < 4 }
        ensures { self.new ≡ self.old ++ kind ∷ [] }
    {
        self.kinds[self.count] = kind;
        self.count += 1;
    }

    /// The kinds as a slice.
    pub fn as_slice(&self) -> &[EventKind]
        ensures kinds { result.now ≡ self.now }
        ensures few { length result.now ≤ 4 }
    {
        &self.kinds[..self.count]
    }

    /// How many kinds there are.
    pub fn len(&self) -> usize
        ensures len { result ≡ length self.now }
        ensures few { result ≤ 4 }
    {
        self.as_slice().len()
    }

    /// The kind at a place; `None` exactly past the end.
    pub fn get(&self, i: usize) -> Option<EventKind>
        ensures { result ≡ slice_get self.now i }
    {
        self.as_slice().get(i).copied()
    }
}
