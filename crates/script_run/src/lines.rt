//! The lines of a script.

ghost use Rattle.std.specs.Prelude.{◌≡◌, ◌<◌, ◌^◌, OnOk, OnErr, length, map, vec_len};
ghost use Rattle.call_script.specs.declared.script.StepLine.{StepLine};
ghost use Rattle.script_run.specs.RunParts.{line_part, numbered_line_part, script_part};
ghost use Rattle.script_run.specs.Lines.{limits, play_inputs};
ghost use Rattle.script_run.specs.PlayedParts.{IsCallHalted, IsCallMade, IsPlayedBy, IsPlayedInLineBy};
ghost use Rattle.script_run.specs.Keeps.{AreFailuresTold, AreListenersKept};
ghost use Rattle.script_run.specs.RunStates.{printed_run, run_at};
ghost use Rattle.script_run.specs.Turns.{HasCallsLeftInLine};

use crate::put::put_entries;
use crate::run::ScriptRun;
use crate::stop::{Halt, Stop};
use call_script::StepLine;
use listeners::Listener;
use mse_calls::{Blobs, Call};
use mse_outside::Sink;
use track_store::FrameStore;

impl<S: FrameStore> ScriptRun<S> {
    /// Makes a call of the script, and puts its line.
    fn call_and_print<K: Sink>(
        &mut self,
        blobs: &Blobs,
        sink: &mut K,
        call: &Call,
    ) -> Result<(), Halt>
        ensures ok { OnOk result (IsCallMade blobs.now call.now
            (printed_run self.old (K.written sink.old))
            (printed_run self.new (K.written sink.new))) }
        ensures err { OnErr result (IsCallHalted blobs.now call.now
            (printed_run self.old (K.written sink.old))
            (printed_run self.new (K.written sink.new))) }
        ensures puts { AreFailuresTold Halt.Write (K.faults sink.old) (K.faults sink.new) result }
    {
        let from = self.journal.len();
        let Ok(()) = self.call(blobs, call) else {
            return Err(Halt::Memory);
        };
        put_entries(self.alloc, sink, &self.journal, from)
    }

    /// Does a line.
    fn do_line<K: Sink>(
        &mut self,
        blobs: &Blobs,
        sink: &mut K,
        listeners: &mut Vec<Box<dyn Listener>>,
        line: &StepLine,
    ) -> Result<(), Stop>
        requires { vec_len listeners.old < 2 ^ 32 }
        ensures count { vec_len listeners.new ≡ vec_len listeners.old }
        ensures listeners { AreListenersKept (λ b. b.vtable) way rules notes listeners.old.items
            listeners.new.items }
        ensures ran { IsPlayedInLineBy (line_part blobs.now line.now)
            (run_at self.old (K.written sink.old) (map (λ b. notes b) listeners.old.items))
            (run_at self.new (K.written sink.new) (map (λ b. notes b) listeners.new.items)) result }
        ensures puts { AreFailuresTold Stop.Write (K.faults sink.old) (K.faults sink.new) result }
    {
        match line {
            StepLine::Call(call) => match self.call_and_print(blobs, sink, call) {
                Ok(()) => Ok(()),
                Err(halt) => Err(Stop::of_halt(halt)),
            },
            StepLine::Fire => match self.fire(blobs, sink, listeners) {
                Ok(_) => Ok(()),
                Err(stop) => Err(stop),
            },
            StepLine::Work(k) => match self.work(*k) {
                Ok(_) => Ok(()),
                Err(_) => Err(Stop::Memory),
            },
            StepLine::Element => match self.turn() {
                Ok(_) => Ok(()),
                Err(_) => Err(Stop::Memory),
            },
            StepLine::Drain => self.drain(blobs, sink, listeners),
        }
    }

    /// Does the line of a number, in which listeners may make `limit` calls.
    fn play_line<K: Sink>(
        &mut self,
        blobs: &Blobs,
        sink: &mut K,
        listeners: &mut Vec<Box<dyn Listener>>,
        limit: u64,
        n: u32,
        line: &StepLine,
    ) -> Result<(), Stop>
        requires { vec_len listeners.old < 2 ^ 32 }
        ensures count { vec_len listeners.new ≡ vec_len listeners.old }
        ensures listeners { AreListenersKept (λ b. b.vtable) way rules notes listeners.old.items
            listeners.new.items }
        ensures played { IsPlayedBy (HasCallsLeftInLine limit) (numbered_line_part
            (play_inputs blobs.now (limits limit (vec_len listeners.old))) n line.now)
            (run_at self.old (K.written sink.old) (map (λ b. notes b) listeners.old.items))
            (run_at self.new (K.written sink.new) (map (λ b. notes b) listeners.new.items)) result }
        ensures puts { AreFailuresTold Stop.Write (K.faults sink.old) (K.faults sink.new) result }
    {
        match self.open_line(n, limit) {
            Ok(()) => self.do_line(blobs, sink, listeners, line),
            Err(_) => Err(Stop::Memory),
        }
    }

    /// Does the lines of a script one after the other; listeners may make `limit` calls in each.
    /// Each printed line is one put, made when its entry has come.
    ///
    /// It stops where memory is wanting (`Memory`), where a put fails (`Write`), where a listener
    /// answers an event with more than 1000 calls (`CallBudget`), and where listeners answer more than
    /// `limit` calls in one line (`TaskBudget`). What was done by then stands in the journal and in the
    /// engine.
    pub fn play<K: Sink>(
        &mut self,
        blobs: &Blobs,
        sink: &mut K,
        listeners: &mut Vec<Box<dyn Listener>>,
        limit: u64,
        lines: &[StepLine],
    ) -> Result<(), Stop>
        requires lines { length lines.now < 2 ^ 32 }
        requires listeners { vec_len listeners.old < 2 ^ 32 }
        ensures count { vec_len listeners.new ≡ vec_len listeners.old }
        ensures listeners { AreListenersKept (λ b. b.vtable) way rules notes listeners.old.items
            listeners.new.items }
        ensures played { IsPlayedBy (HasCallsLeftInLine limit) (script_part blobs.now
            (limits limit (vec_len listeners.old)) lines.now)
            (run_at self.old (K.written sink.old) (map (λ b. notes b) listeners.old.items))
            (run_at self.new (K.written sink.new) (map (λ b. notes b) listeners.new.items)) result }
        ensures puts { AreFailuresTold Stop.Write (K.faults sink.old) (K.faults sink.new) result }
    {
        for n in 0..lines.len() {
            match self.play_line(blobs, sink, listeners, limit, n as u32, &lines[n]) {
                Ok(()) => {}
                Err(stop) => return Err(stop),
            }
        }
        Ok(())
    }
}
