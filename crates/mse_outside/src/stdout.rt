//! Standard output.

ghost use Rattle.std.specs.Prelude.{◌≡◌, ◌≢◌, None, option_map};
ghost use Rattle.mse_outside.specs.Counted.{Counted};
ghost use Rattle.mse_outside.specs.Folder.{faults_after_put};
ghost use Rattle.mse_outside.specs.Outside.{IfTold, sink_view};
ghost use Rattle.mse_outside.specs.Output.{IsOutputPut};

use crate::{Output, Put, Sink};
use std::io::ErrorKind;
use std::marker::Model;

/// Puts on an output, as [`SystemOutput`](crate::SystemOutput). It tells the bytes where the output does, and no puts.
/// Contracts see the output, and how many puts have failed.
///
/// Each put writes all of its bytes and flushes. A write that takes nothing is a failure.
#[derive(Drop)]
pub struct StdoutSink<O: Output + Drop> {
    output: O,
    faults: u64,
}

impl<O: Output + Drop> Model for StdoutSink<O> {
    ghost Value = { Counted O };

    ghost view = { λ s. record { over = s.output; faults = s.faults } };
}

impl<O: Output + Drop> StdoutSink<O> {
    /// No put has failed yet.
    pub fn new(output: O) -> StdoutSink<O>
        ensures { result ≡ record { over = output; faults = 0 } }
    {
        StdoutSink { output, faults: 0 }
    }

    /// The output that it puts on.
    pub fn output(&self) -> &O
        ensures { result.now ≡ self.now.over }
    {
        &self.output
    }
}

/// Writes all of the bytes, and flushes. An interrupted write is done again.
fn write_whole<O: Output>(output: &mut O, bytes: &[u8]) -> Put
    ensures told { IfTold (O.told output.old) (O.told output.new) (IsOutputPut bytes.now result) }
    ensures enough_memory { result ≢ Put.OutOfMemory }
{
    let mut rest = bytes;
    for turn in 0..u64::MAX {
        if rest.is_empty() {
            return match output.flush() {
                Ok(()) => Put::Done,
                Err(_) => Put::Failed,
            };
        }
        match output.write_some(rest) {
            Ok(0) => return Put::Failed,
            Ok(count) => rest = &rest[count..],
            Err(error) => match error.kind() {
                ErrorKind::Interrupted => {}
                _ => return Put::Failed,
            },
        }
    }
    Put::Failed
}

impl<O: Output + Drop> Sink for StdoutSink<O> {
    ghost written = { λ sink. sink_view (option_map (λ s. s.taken) (O.told sink.over)) None };

    ghost faults = { λ sink. sink.faults };

    fn put(&mut self, bytes: &[u8]) -> Put
        ensures output { IfTold (O.told self.old.over) (O.told self.new.over)
            (IsOutputPut bytes.now result) }
        ensures faults { self.new.faults ≡ faults_after_put self.old.faults result }
        ensures enough_memory { result ≢ Put.OutOfMemory }
    {
        let answer = write_whole(&mut self.output, bytes);
        if answer == Put::Failed {
            self.faults = self.faults.saturating_add(1);
        }
        answer
    }
}
