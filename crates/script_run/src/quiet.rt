//! A drain that nobody hears of and that writes nothing.

ghost use Rattle.std.specs.Prelude.{ℕ, List, Ok, OnOk};
ghost use Rattle.mse_engine.specs.State.{State};
ghost use Rattle.mse_engine.specs.Standing.{Stands};
ghost use Rattle.script_run.specs.DrainSteps.{IsAtRest, IsQuiet, HasNoEvent};
ghost use Rattle.script_run.specs.Progress.{IsCalm};
ghost use Rattle.script_run.specs.PlayedParts.{IsSilentDrain};

use crate::run::ScriptRun;
use mse_base::OutOfMemory;
use track_store::FrameStore;

impl<S: FrameStore> ScriptRun<S> {
    /// Fires all events of the queue.
    fn fire_quietly(&mut self) -> Result<(), OutOfMemory>
        ensures drains { (blobs : List (List ℕ)) → IsSilentDrain blobs self.old self.new }
        ensures calm { IsCalm self.old.engine self.new.engine }
        ensures nothing_left { OnOk result ((st : State) → Stands self.new.engine st
            → HasNoEvent st) }
    {
        'firing: loop {
            let Ok(next_event) = self.take_event() else {
                return Err(OutOfMemory);
            };
            let Some(_event) = next_event else {
                return Ok(());
            };
        }
    }

    /// Fires, and works on buffers, until no event waits and no buffer works.
    fn work_quietly(&mut self) -> Result<(), OutOfMemory>
        ensures drains { (blobs : List (List ℕ)) → IsSilentDrain blobs self.old self.new }
        ensures nothing_left { OnOk result ((st : State) → Stands self.new.engine st → IsQuiet st) }
    {
        'working: loop {
            let Ok(()) = self.fire_quietly() else {
                return Err(OutOfMemory);
            };
            // The proof reads off this that there is a state that the engine stands for.
            self.engine.sound();
            let Some(k) = self.engine.running() else {
                return Ok(());
            };
            let Ok(_has_worked) = self.work(k) else {
                return Err(OutOfMemory);
            };
        }
    }

    /// Fires, works and takes turns until there is nothing left to do. No listener hears of it, and
    /// nothing is written.
    ///
    /// An `Err` is want of memory; then it has come part of the way, and what was done stands in the
    /// engine and in the journal.
    pub fn drain_quietly(&mut self) -> Result<(), OutOfMemory>
        ensures drains { (blobs : List (List ℕ)) → IsSilentDrain blobs self.old self.new }
        ensures nothing_left { OnOk result ((st : State) → Stands self.new.engine st
            → IsAtRest st) }
    {
        let Ok(()) = self.work_quietly() else {
            return Err(OutOfMemory);
        };
        'turning: loop {
            // The proof reads off this that there is a state that the engine stands for.
            self.engine.sound();
            if !self.engine.due() {
                return Ok(());
            }
            let Ok(_has_turned) = self.turn() else {
                return Err(OutOfMemory);
            };
            let Ok(()) = self.fire_quietly() else {
                return Err(OutOfMemory);
            };
        }
    }
}
