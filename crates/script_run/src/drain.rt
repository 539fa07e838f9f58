//! A drain.

ghost use Rattle.std.specs.Prelude.{◌≡◌, ◌<◌, ◌^◌, Ok, true, false, map, vec_len};
ghost use Rattle.call_script.specs.declared.script.StepLine.{StepLine};
ghost use Rattle.mse_engine.specs.State.{State};
ghost use Rattle.mse_engine.specs.Standing.{Stands};
ghost use Rattle.script_run.specs.RunParts.{line_part, drain_part};
ghost use Rattle.script_run.specs.DrainSteps.{IsAtRest, IsQuiet, HasNoEvent};
ghost use Rattle.script_run.specs.Progress.{IsCalm, HasFewerEvents};
ghost use Rattle.script_run.specs.PlayedParts.{IsPlayedInLineBy};
ghost use Rattle.script_run.specs.Keeps.{AreFailuresTold, AreListenersKept};
ghost use Rattle.script_run.specs.RunStates.{run_at};

use crate::put::put_entries;
use crate::run::ScriptRun;
use crate::stop::{Stop, is_out_of_memory};
use listeners::{Listener, dispatch};
use mse_calls::Blobs;
use mse_outside::Sink;
use track_store::FrameStore;

impl<S: FrameStore> ScriptRun<S> {
    /// Fires the first event of the queue: each listener hears it, and answers it; false where
    /// there is none.
    pub(crate) fn fire<K: Sink>(
        &mut self,
        blobs: &Blobs,
        sink: &mut K,
        listeners: &mut Vec<Box<dyn Listener>>,
    ) -> Result<bool, Stop>
        requires { vec_len listeners.old < 2 ^ 32 }
        ensures count { vec_len listeners.new ≡ vec_len listeners.old }
        ensures listeners { AreListenersKept (λ b. b.vtable) way rules notes listeners.old.items
            listeners.new.items }
        ensures ran { IsPlayedInLineBy (line_part blobs.now StepLine.Fire)
            (run_at self.old (K.written sink.old) (map (λ b. notes b) listeners.old.items))
            (run_at self.new (K.written sink.new) (map (λ b. notes b) listeners.new.items)) result }
        ensures fewer { result ≡ Ok true → self.new.left ≡ self.old.left
            → HasFewerEvents self.old.engine self.new.engine }
        ensures none { result ≡ Ok false → self.new ≡ self.old }
        ensures empty { result ≡ Ok false → (st : State) → Stands self.old.engine st →
            HasNoEvent st }
        ensures puts { AreFailuresTold Stop.Write (K.faults sink.old) (K.faults sink.new) result }
    {
        let from = self.journal.len();
        let Ok(next_event) = self.take_event() else {
            return Err(Stop::Memory);
        };
        let Some(event) = next_event else {
            return Ok(false);
        };
        let outcome = dispatch(
            &mut self.engine,
            blobs,
            listeners,
            &event,
            &mut self.left,
            &mut self.journal,
        );
        if is_out_of_memory(outcome) {
            return Err(Stop::Memory);
        }
        match put_entries(self.alloc, sink, &self.journal, from) {
            Ok(()) => {}
            Err(halt) => return Err(Stop::of_halt(halt)),
        }
        match outcome {
            Ok(()) => {}
            Err(fault) => return Err(Stop::of(fault)),
        }
        Ok(true)
    }

    /// Fires events until none waits, which answers true, or until a listener has made a call,
    /// which answers false.
    fn fire_all<K: Sink>(
        &mut self,
        blobs: &Blobs,
        sink: &mut K,
        listeners: &mut Vec<Box<dyn Listener>>,
    ) -> Result<bool, Stop>
        requires { vec_len listeners.old < 2 ^ 32 }
        ensures count { vec_len listeners.new ≡ vec_len listeners.old }
        ensures listeners { AreListenersKept (λ b. b.vtable) way rules notes listeners.old.items
            listeners.new.items }
        ensures ran { IsPlayedInLineBy (drain_part blobs.now)
            (run_at self.old (K.written sink.old) (map (λ b. notes b) listeners.old.items))
            (run_at self.new (K.written sink.new) (map (λ b. notes b) listeners.new.items)) result }
        ensures calm { result ≡ Ok true → IsCalm self.old.engine self.new.engine }
        ensures nothing_left { result ≡ Ok true → (st : State) → Stands self.new.engine st
            → HasNoEvent st }
        ensures called { result ≡ Ok false → self.new.left < self.old.left }
        ensures puts { AreFailuresTold Stop.Write (K.faults sink.old) (K.faults sink.new) result }
    {
        let before = self.left;
        'firing: loop {
            match self.fire(blobs, sink, listeners) {
                Err(stop) => return Err(stop),
                Ok(false) => return Ok(true),
                Ok(true) => {}
            }
            if self.left < before {
                return Ok(false);
            }
        }
    }

    /// Fires, and works on buffers, until no event waits and no buffer works, or until a listener
    /// has made a call.
    fn work_all<K: Sink>(
        &mut self,
        blobs: &Blobs,
        sink: &mut K,
        listeners: &mut Vec<Box<dyn Listener>>,
    ) -> Result<bool, Stop>
        requires { vec_len listeners.old < 2 ^ 32 }
        ensures count { vec_len listeners.new ≡ vec_len listeners.old }
        ensures listeners { AreListenersKept (λ b. b.vtable) way rules notes listeners.old.items
            listeners.new.items }
        ensures ran { IsPlayedInLineBy (drain_part blobs.now)
            (run_at self.old (K.written sink.old) (map (λ b. notes b) listeners.old.items))
            (run_at self.new (K.written sink.new) (map (λ b. notes b) listeners.new.items)) result }
        ensures nothing_left { result ≡ Ok true → (st : State) → Stands self.new.engine st
            → IsQuiet st }
        ensures called { result ≡ Ok false → self.new.left < self.old.left }
        ensures puts { AreFailuresTold Stop.Write (K.faults sink.old) (K.faults sink.new) result }
    {
        'working: loop {
            match self.fire_all(blobs, sink, listeners) {
                Err(stop) => return Err(stop),
                Ok(false) => return Ok(false),
                Ok(true) => {}
            }
            // The proof reads off this that there is a state that the engine stands for.
            self.engine.sound();
            let Some(k) = self.engine.running() else {
                return Ok(true);
            };
            let Ok(_has_worked) = self.work(k) else {
                return Err(Stop::Memory);
            };
        }
    }

    /// Fires, works and takes turns of the element until nothing is left to do, or until a listener has
    /// made a call.
    fn finish_work<K: Sink>(
        &mut self,
        blobs: &Blobs,
        sink: &mut K,
        listeners: &mut Vec<Box<dyn Listener>>,
    ) -> Result<bool, Stop>
        requires { vec_len listeners.old < 2 ^ 32 }
        ensures count { vec_len listeners.new ≡ vec_len listeners.old }
        ensures listeners { AreListenersKept (λ b. b.vtable) way rules notes listeners.old.items
            listeners.new.items }
        ensures ran { IsPlayedInLineBy (drain_part blobs.now)
            (run_at self.old (K.written sink.old) (map (λ b. notes b) listeners.old.items))
            (run_at self.new (K.written sink.new) (map (λ b. notes b) listeners.new.items)) result }
        ensures nothing_left { result ≡ Ok true → (st : State) → Stands self.new.engine st
            → IsAtRest st }
        ensures called { result ≡ Ok false → self.new.left < self.old.left }
        ensures puts { AreFailuresTold Stop.Write (K.faults sink.old) (K.faults sink.new) result }
    {
        match self.work_all(blobs, sink, listeners) {
            Err(stop) => return Err(stop),
            Ok(false) => return Ok(false),
            Ok(true) => {}
        }
        'turning: loop {
            // The proof reads off this that there is a state that the engine stands for.
            self.engine.sound();
            if !self.engine.due() {
                return Ok(true);
            }
            let Ok(_has_turned) = self.turn() else {
                return Err(Stop::Memory);
            };
            match self.fire_all(blobs, sink, listeners) {
                Err(stop) => return Err(stop),
                Ok(false) => return Ok(false),
                Ok(true) => {}
            }
        }
    }

    /// Fires, works and takes turns until there is nothing left to do.
    pub(crate) fn drain<K: Sink>(
        &mut self,
        blobs: &Blobs,
        sink: &mut K,
        listeners: &mut Vec<Box<dyn Listener>>,
    ) -> Result<(), Stop>
        requires { vec_len listeners.old < 2 ^ 32 }
        ensures count { vec_len listeners.new ≡ vec_len listeners.old }
        ensures listeners { AreListenersKept (λ b. b.vtable) way rules notes listeners.old.items
            listeners.new.items }
        ensures ran { IsPlayedInLineBy (line_part blobs.now StepLine.Drain)
            (run_at self.old (K.written sink.old) (map (λ b. notes b) listeners.old.items))
            (run_at self.new (K.written sink.new) (map (λ b. notes b) listeners.new.items)) result }
        ensures puts { AreFailuresTold Stop.Write (K.faults sink.old) (K.faults sink.new) result }
    {
        'draining: loop {
            match self.finish_work(blobs, sink, listeners) {
                Err(stop) => return Err(stop),
                Ok(true) => return Ok(()),
                Ok(false) => {}
            }
        }
    }
}
