//! How far a run has come, and its single steps.

ghost use Rattle.std.specs.Prelude.{◌≡◌, ◌<◌, ◌≤ℤ◌, ◌++◌, ◌∷◌, [], ℕ, List, pos, Ok, true, IfOk, OnOk, OnErr, IsSome};
ghost use Rattle.mse_calls.specs.declared.answers.Answer.{Answer};
ghost use Rattle.mse_calls.specs.declared.entry.Entry.{Entry};
ghost use Rattle.source_buffers.specs.All.{all_steps_left};
ghost use Rattle.mse_engine.specs.State.{opening_state};
ghost use Rattle.mse_engine.specs.Sound.{IsSoundEngine};
ghost use Rattle.mse_engine.specs.Standing.{IsStanding, Stands};
ghost use Rattle.script_run.specs.DrainSteps.{element_step, work_step};
ghost use Rattle.script_run.specs.Progress.{HasFewerEvents, HasFewerTurns};
ghost use Rattle.script_run.specs.PlayedParts.{IsOwnStep, IsOwnStepIf, IsEventTaken};

use mse_base::{OutOfMemory, Ticks};
use mse_calls::{Blobs, Call, Entry, Event};
use mse_engine::{Engine, Worked};
use run_journal::Journal;
use std::alloc::Global;
use std::marker::Model;
use track_store::FrameStore;

/// A run of a script: its engine, its journal, and how many calls the listeners may still make in
/// the line that runs.
#[derive(Drop)]
pub struct ScriptRun<S: FrameStore> {
    pub(crate) alloc: Global,
    pub(crate) engine: Engine<S>,
    pub(crate) journal: Journal,
    pub(crate) left: u64,
}

impl<S: FrameStore> Model for ScriptRun<S> {
    ghost use Rattle.listeners.specs.Views.{RunView};

    ghost Value = { RunView };

    ghost view = { λ r. record { engine = r.engine; entries = r.journal.entries; left = r.left } };
}

impl<S: FrameStore> ScriptRun<S> {
    /// A run that begins: a closed source, whose buffers hold at most `quota` bytes each and have
    /// ranges that join across gaps of at most `gap` ticks. It takes no memory.
    pub fn new(alloc: Global, quota: u64, gap: Ticks, journal: Journal) -> ScriptRun<S>
        requires { pos 0 ≤ℤ gap }
        ensures engine { Stands result.engine (opening_state quota gap) }
        ensures entries { result.entries ≡ journal.entries }
    {
        ScriptRun {
            alloc,
            engine: Engine::new(alloc, quota, gap),
            journal,
            left: 0,
        }
    }

    /// The engine.
    pub fn engine(&self) -> &Engine<S>
        ensures { result.now ≡ self.now.engine }
    {
        &self.engine
    }

    /// The journal.
    pub fn journal(&self) -> &Journal
        ensures { result.now.entries ≡ self.now.entries }
    {
        &self.journal
    }

    /// Forgets the journal, and gives back its memory. The engine stays.
    pub fn forget(&mut self)
        ensures { self.new ≡ record self.old { entries = [] } }
    {
        self.journal = Journal::new(self.alloc);
    }

    /// The engine and the journal.
    pub fn into_parts(self) -> (Engine<S>, Journal)
        ensures engine { result.0 ≡ self.engine }
        ensures entries { result.1.entries ≡ self.entries }
    {
        (self.engine, self.journal)
    }

    /// Makes a call of the script, and puts it with its answer into the journal. An `Err` changes
    /// nothing.
    pub fn call(&mut self, blobs: &Blobs, call: &Call) -> Result<(), OutOfMemory>
        ensures ok { OnOk result ((answer : Answer)
            × IsOwnStep blobs.now (Entry.Script call.now answer ∷ []) self.old self.new) }
        ensures err { OnErr result (self.new ≡ self.old) }
    {
        self.journal.reserve(1)?;
        let copy = call.copy()?;
        let Ok(answer) = self.engine.call(call, blobs) else {
            return Err(OutOfMemory);
        };
        self.journal.push_reserved(Entry::Script(copy, answer));
        Ok(())
    }

    /// One item of the work that runs on the buffer of a number; false where none runs there, and
    /// then nothing changed. An `Err` changes nothing.
    pub fn work(&mut self, k: u32) -> Result<bool, OutOfMemory>
        ensures ok { (blobs : List (List ℕ)) → IfOk result (λ worked.
            IsOwnStepIf blobs (work_step k) self.old self.new worked) }
        ensures fewer { result ≡ Ok true
            → all_steps_left self.new.engine.buffers < all_steps_left self.old.engine.buffers }
        ensures err { OnErr result (self.new ≡ self.old) }
    {
        // The proof reads off this that there is a state that the engine stands for.
        self.engine.sound();
        self.journal.reserve(1)?;
        match self.engine.work(k) {
            Ok(Worked::Did) => {
                self.journal.push_work_reserved(k);
                Ok(true)
            }
            Ok(Worked::Idle) => Ok(false),
            Err(_) => Err(OutOfMemory),
        }
    }

    /// One turn of the element; false where none is due, and then nothing changed. An `Err` changes
    /// nothing.
    pub fn turn(&mut self) -> Result<bool, OutOfMemory>
        ensures ok { (blobs : List (List ℕ)) → IfOk result (λ turned.
            IsOwnStepIf blobs element_step self.old self.new turned) }
        ensures fewer { result ≡ Ok true → HasFewerTurns self.old.engine self.new.engine }
        ensures err { OnErr result (self.new ≡ self.old) }
    {
        // The proof reads off this that there is a state that the engine stands for.
        self.engine.sound();
        self.journal.reserve(1)?;
        match self.engine.element_turn() {
            Ok(Worked::Did) => {
                self.journal.push_reserved(Entry::Element);
                Ok(true)
            }
            Ok(Worked::Idle) => Ok(false),
            Err(_) => Err(OutOfMemory),
        }
    }

    /// Takes the first event off the queue; `None` where it is empty, and then nothing changed. An
    /// `Err` changes nothing.
    pub fn take_event(&mut self) -> Result<Option<Event>, OutOfMemory>
        ensures ok { (blobs : List (List ℕ))
            → IfOk result (λ taken. IsEventTaken blobs self.old self.new taken) }
        ensures fewer { IfOk result (λ taken. IsSome taken
            → HasFewerEvents self.old.engine self.new.engine) }
        ensures err { OnErr result (self.new ≡ self.old) }
    {
        if !self.engine.has_event() {
            return Ok(None);
        }
        self.fire_first()
    }

    /// The same, with room for its entry.
    #[inline(never)]
    fn fire_first(&mut self) -> Result<Option<Event>, OutOfMemory>
        ensures ok { (blobs : List (List ℕ))
            → IfOk result (λ taken. IsEventTaken blobs self.old self.new taken) }
        ensures fewer { IfOk result (λ taken. IsSome taken
            → HasFewerEvents self.old.engine self.new.engine) }
        ensures err { OnErr result (self.new ≡ self.old) }
    {
        // The proof reads off this that there is a state that the engine stands for.
        self.engine.sound();
        self.journal.reserve(1)?;
        let Some(event) = self.engine.fire() else {
            return Ok(None);
        };
        self.journal.push_reserved(Entry::Fired(event));
        Ok(Some(event))
    }

    /// A line of this number begins, in which listeners may make so many calls.
    pub(crate) fn open_line(&mut self, n: u32, limit: u64) -> Result<(), OutOfMemory>
        ensures ok { OnOk result (self.new
            ≡ record self.old { entries = self.old.entries ++ Entry.Step n ∷ []; left = limit }) }
        ensures sound { IsSoundEngine self.old.engine }
        ensures standing { IsStanding self.old.engine }
        ensures err { OnErr result (self.new ≡ self.old) }
    {
        // The proof reads off this that the engine is sound, and that it stands for a state.
        self.engine.sound();
        self.journal.reserve(1)?;
        self.journal.push_reserved(Entry::Step(n));
        self.left = limit;
        Ok(())
    }
}
