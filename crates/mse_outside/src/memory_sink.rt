//! Sinks in memory.

ghost use Rattle.std.specs.Prelude.{◌≡◌, ◌≢◌, ◌++◌, ◌∷◌, [], Option, Some, None, IsSome, OnOk, OnErr, map, take};
ghost use Rattle.mse_outside.specs.Count.{next_count};
ghost use Rattle.mse_outside.specs.Outside.{IsPutEffect, sink_view};
ghost use Rattle.mse_outside.specs.Memory.{SinkState, SureSinkState, failed_len_at, after_put};

use crate::{Put, Sink};
use std::alloc::{AllocError, Global};
use std::marker::Model;

/// Keeps the bytes, and those of each put, in memory. No put fails.
#[derive(Drop)]
pub struct SureSink {
    alloc: Global,
    written: Vec<u8>,
    puts: Vec<Vec<u8>>,
}

impl Model for SureSink {
    ghost Value = { SureSinkState };

    ghost view = { λ s. record {
      written = s.written.items;
      puts = map (λ put. put.items) s.puts.items;
    } };
}

impl SureSink {
    /// Nothing is written.
    pub fn new(alloc: Global) -> SureSink
        ensures { result ≡ record { written = []; puts = [] } }
    {
        SureSink {
            alloc,
            written: Vec::new(alloc),
            puts: Vec::new(alloc),
        }
    }

    /// The bytes that were appended so far.
    pub fn written(&self) -> &[u8]
        ensures { result.now ≡ self.now.written }
    {
        &self.written
    }

    /// Keeps the bytes of a put, and appends a part of them. An `Err` changes nothing.
    fn keep_put(&mut self, bytes: &[u8], part: &[u8]) -> Result<(), AllocError>
        ensures ok { OnOk result (self.new ≡ record {
          written = self.old.written ++ part.now;
          puts = self.old.puts ++ bytes.now ∷ [];
        }) }
        ensures err { OnErr result (self.new ≡ self.old) }
    {
        let copy = bytes.to_vec(self.alloc)?;
        self.puts.push(copy)?;
        match self.written.extend_from_slice(part) {
            Ok(()) => Ok(()),
            Err(error) => {
                self.puts.pop();
                Err(error)
            }
        }
    }
}

impl Sink for SureSink {
    ghost written = { λ sink. sink_view (Some sink.written) (Some sink.puts) };

    ghost faults = { λ _. 0 };

    fn put(&mut self, bytes: &[u8]) -> Put
        ensures told { IsPutEffect bytes.now
            (sink_view (Some self.old.written) (Some self.old.puts))
            (sink_view (Some self.new.written) (Some self.new.puts)) result }
        ensures sure { result ≢ Put.Failed }
        ensures done { result ≡ Put.Done → self.new ≡ record {
          written = self.old.written ++ bytes.now;
          puts = self.old.puts ++ bytes.now ∷ [];
        } }
        ensures unchanged { result ≡ Put.OutOfMemory → self.new ≡ self.old }
    {
        match self.keep_put(bytes, bytes) {
            Ok(()) => Put::Done,
            Err(_) => Put::OutOfMemory,
        }
    }
}

/// How many bytes the put of this number appends, where it fails.
fn find_cut(failing: &[(u64, u64)], call: u64) -> Option<u64>
    ensures { result ≡ failed_len_at failing.now call }
{
    for (number, count) in failing {
        if *number == call {
            return Some(*count);
        }
    }
    None
}

/// The first bytes, or all where there are not so many.
fn front(bytes: &[u8], count: u64) -> &[u8]
    ensures { result.now ≡ take count bytes.now }
{
    if count < bytes.len() as u64 {
        &bytes[..count as usize]
    } else {
        bytes
    }
}

/// Keeps the bytes, and those of each put, in memory. Puts that were chosen fail, and all others succeed where there is
/// memory.
#[derive(Drop)]
pub struct MemorySink {
    kept: SureSink,
    failing: Vec<(u64, u64)>,
    calls: u64,
    faults: u64,
}

impl Model for MemorySink {
    ghost Value = { SinkState };

    ghost view = { λ s. record {
      written = s.kept.written;
      puts = s.kept.puts;
      failing = s.failing.items;
      calls = s.calls;
      faults = s.faults;
    } };
}

impl MemorySink {
    /// Nothing is written. Puts are counted from 1. A pair names a put that fails, and how many of its bytes are
    /// appended before that, at most all. Of two pairs for one put the first counts.
    pub fn new(alloc: Global, failing: Vec<(u64, u64)>) -> MemorySink
        ensures { result
            ≡ record { written = []; puts = []; failing = failing.items; calls = 0; faults = 0 } }
    {
        MemorySink {
            kept: SureSink::new(alloc),
            failing,
            calls: 0,
            faults: 0,
        }
    }

    /// The bytes that were appended so far.
    pub fn written(&self) -> &[u8]
        ensures { result.now ≡ self.now.written }
    {
        self.kept.written()
    }
}

impl Sink for MemorySink {
    ghost written = { λ sink. sink_view (Some sink.written) (Some sink.puts) };

    ghost faults = { λ sink. sink.faults };

    fn put(&mut self, bytes: &[u8]) -> Put
        ensures state { self.new ≡ after_put self.old bytes.now result }
        ensures told { IsPutEffect bytes.now
            (sink_view (Some self.old.written) (Some self.old.puts))
            (sink_view (Some self.new.written) (Some self.new.puts)) result }
        ensures done { result ≡ Put.Done →
            failed_len_at self.old.failing (next_count self.old.calls) ≡ None }
        ensures failed { result ≡ Put.Failed →
            IsSome (failed_len_at self.old.failing (next_count self.old.calls)) }
    {
        self.calls = self.calls.saturating_add(1);
        let Some(count) = find_cut(&self.failing, self.calls) else {
            return self.kept.put(bytes);
        };
        match self.kept.keep_put(bytes, front(bytes, count)) {
            Ok(()) => {
                self.faults = self.faults.saturating_add(1);
                Put::Failed
            }
            Err(_) => Put::OutOfMemory,
        }
    }
}
