//! A sink of bytes, by what was written and its count of failures.

ghost use Rattle.std.specs.Prelude.{◌≡◌, ◌≢◌, ◌≤◌, ℕ};
ghost use Rattle.mse_outside.specs.Outside.{HasRisen, IsPutEffect, SinkView};

/// What a put answers. With `Failed` the count of failures (`faults`) has risen, or stands at 2^64 - 1.
#[derive(Clone, Copy, Debug, PartialEq, Eq)]
pub enum Put {
    /// All bytes were appended.
    Done,
    /// The sink could not finish the put, and has counted this failure. A front of the bytes was
    /// appended, perhaps all.
    Failed,
    /// There was no memory for the bytes: they were not all appended, unless there were none.
    OutOfMemory,
}

/// Takes bytes.
pub trait Sink {
    /// What was written so far, where the sink tells it: the bytes that were appended, and the bytes of each put. A put
    /// is told whole, also where it failed and only a front of it was appended; one that found no memory may be missing.
    ghost written: { Self → SinkView };

    /// How often a put has failed; each failed put is told. The count stands still at 2^64 - 1.
    ghost faults: { Self → ℕ };

    /// Appends the bytes. After any answer but `Done`, a front part of them was appended; after
    /// `OutOfMemory` not all of them, unless there were none.
    fn put(&mut self, bytes: &[u8]) -> Put
        ensures told { IsPutEffect bytes.now (written self.old) (written self.new) result }
        ensures no_fewer_faults { faults self.old ≤ faults self.new }
        ensures cause { result ≡ Put.Failed → HasRisen (faults self.old) (faults self.new) }
        ensures failures_told { result ≢ Put.Failed → faults self.new ≡ faults self.old };
}
