//! A session and its steps.

ghost use Rattle.std.specs.Prelude.{◌≡◌, ◌≤ℤ◌, ◌++◌, ◌∷◌, [], pos, true, IfOk, OnOk, OnErr, length};
ghost use Rattle.mse_engine.specs.State.{State, opening_state};
ghost use Rattle.mse_engine.specs.Standing.{Stands};
ghost use Rattle.mse_engine.specs.Views.{attributes_in, buffer_attributes_in};
ghost use Rattle.mse_commands.specs.Works.{script_closing};
ghost use Rattle.script_run.specs.Writes.{IsWritten, IsFrontWritten};
ghost use Rattle.script_run.specs.Keeps.{AreFailuresTold};
ghost use Rattle.live_session.specs.Next.{next_line};
ghost use Rattle.live_session.specs.Steps.{IsStepDone, IsStepHalted, blob_of, halt_of_stop, has_its_bytes, last_refusal, without_front};

use call_script::StepLine;
use listeners::Listener;
use mse_base::{Bytes, OutOfMemory, Ticks};
use mse_calls::{Answer, Attributes, Blobs, BufferAttributes, Call, Name};
use mse_commands::close;
use mse_outside::Sink;
use run_journal::{EntryRef, Journal};
use script_run::{Halt, ScriptRun, Stop};
use std::alloc::Global;
use std::marker::Model;
use std::slice;
use track_store::FrameStore;

/// A run that is played step by step, and the bytes that were handed over so far, each a blob with the next number,
/// from 0 on. Nobody listens in it: its caller makes calls between two steps. No journal is kept.
#[derive(Drop)]
pub struct Session<S: FrameStore> {
    alloc: Global,
    run: ScriptRun<S>,
    blobs: Blobs,
    forgotten: usize,
}

impl<S: FrameStore> Model for Session<S> {
    ghost use Rattle.std.specs.Prelude.{◌≡◌, []};
    ghost use Rattle.live_session.specs.Steps.{SessionView};

    ghost Value = { SessionView };

    ghost view = { λ s. record {
      engine = s.run.engine;
      blobs = s.blobs;
      forgotten = s.forgotten;
    } };

    ghost invariant = { λ s. s.run.entries ≡ [] };
}

/// What a stop is where nobody listens.
fn halt_of(stop: Stop) -> Halt
    ensures { result ≡ halt_of_stop stop }
{
    match stop {
        Stop::Write => Halt::Write,
        Stop::Memory | Stop::CallBudget(_) | Stop::TaskBudget => Halt::Memory,
    }
}

/// The blob that a line takes its bytes from, if it is an append.
fn blob_of(line: &StepLine) -> Option<u32>
    ensures { result ≡ blob_of line.now }
{
    match line {
        StepLine::Call(Call::AppendBuffer(_, piece)) => Some(piece.blob),
        _ => None,
    }
}

/// The name by which the last entry of a journal was refused, if it is a call that was.
fn last_refusal(journal: &Journal) -> Option<Name>
    ensures { result ≡ last_refusal journal.now.entries }
{
    let last = journal.len().checked_sub(1)?;
    match journal.get(last)? {
        EntryRef::Script(_, Answer::Refused(name)) => Some(*name),
        _ => None,
    }
}

impl<S: FrameStore> Session<S> {
    /// A session that begins: a closed source, whose buffers hold at most `quota` bytes each and have ranges that
    /// join across gaps of at most `gap` ticks. It takes no memory.
    pub fn new(alloc: Global, quota: u64, gap: Ticks) -> Session<S>
        requires { pos 0 ≤ℤ gap }
        ensures engine { Stands result.engine (opening_state quota gap) }
        ensures blobs { result.blobs ≡ [] }
        ensures none_forgotten { result.forgotten ≡ 0 }
    {
        Session {
            alloc,
            run: ScriptRun::new(alloc, quota, gap, Journal::new(alloc)),
            blobs: Blobs::new(alloc),
            forgotten: 0,
        }
    }

    /// How many blobs were handed over.
    pub fn blob_count(&self) -> usize
        ensures { result ≡ length self.now.blobs }
    {
        self.blobs.len()
    }

    /// Hands over the bytes of the next blob. An `Err` changes nothing.
    pub fn hand_over(&mut self, bytes: Bytes) -> Result<(), OutOfMemory>
        ensures ok { OnOk result (self.new
            ≡ record self.old { blobs = self.old.blobs ++ bytes ∷ [] }) }
        ensures err { OnErr result (self.new ≡ self.old) }
    {
        self.blobs.push(bytes)
    }

    /// Forgets the blobs with numbers below `n`, which no step may name from then on, and gives back what memory the
    /// buffers do not have of them. An `Err` changes nothing.
    pub fn forget_before(&mut self, n: usize) -> Result<(), OutOfMemory>
        ensures ok { OnOk result (self.new ≡ without_front n self.old) }
        ensures err { OnErr result (self.new ≡ self.old) }
    {
        let last = n.min(self.blobs.len());
        self.blobs.forget_before(n)?;
        self.forgotten = self.forgotten.max(last);
        Ok(())
    }

    /// Whether the line names no blob, or one that was handed over and is not forgotten.
    pub fn has_its_bytes(&self, line: &StepLine) -> bool
        ensures { result ≡ has_its_bytes self.now line.now }
    {
        match blob_of(line) {
            Some(blob) => self.forgotten <= blob as usize && (blob as usize) < self.blobs.len(),
            None => true,
        }
    }

    /// Does a step whose bytes are there, and puts the lines that it prints, each with one put; a call that is refused
    /// gives the name. After an `Err` a front of the lines was put, and the engine may be anywhere in the step: the
    /// session is of no more use.
    pub fn step<K: Sink>(&mut self, sink: &mut K, line: &StepLine) -> Result<Option<Name>, Halt>
        requires { has_its_bytes self.old line.now ≡ true }
        ensures ok { (st : State) → Stands self.old.engine st
            → IfOk result (λ refused. IsStepDone st line.now refused self.old self.new
            (K.written sink.old) (K.written sink.new)) }
        ensures err { (st : State) → Stands self.old.engine st
            → OnErr result (IsStepHalted st line.now self.old
            (K.written sink.old) (K.written sink.new)) }
        ensures puts { AreFailuresTold Halt.Write (K.faults sink.old) (K.faults sink.new) result }
    {
        let mut none: Vec<Box<dyn Listener>> = Vec::new(self.alloc);
        let played = self
            .run
            .play(&self.blobs, sink, &mut none, 0, slice::from_ref(line));
        let refused = last_refusal(self.run.journal());
        self.run.forget();
        match played {
            Ok(()) => Ok(refused),
            Err(stop) => Err(halt_of(stop)),
        }
    }

    /// The step that a drain does next; `None` exactly where there is nothing left to do.
    pub fn next(&self) -> Option<StepLine>
        ensures { (st : State) → Stands self.now.engine st → result ≡ next_line st }
    {
        let engine = self.run.engine();
        if engine.has_event() {
            return Some(StepLine::Fire);
        }
        match engine.running() {
            Some(k) => Some(StepLine::Work(k)),
            None => {
                if engine.due() {
                    Some(StepLine::Element)
                } else {
                    None
                }
            }
        }
    }

    /// What a page reads of the source and of the element.
    pub fn attributes(&self) -> Result<Attributes, OutOfMemory>
        ensures { (st : State) → Stands self.now.engine st
            → IfOk result (λ found. found ≡ attributes_in st) }
    {
        match self.run.engine().attributes() {
            Ok(found) => Ok(found),
            Err(_) => Err(OutOfMemory),
        }
    }

    /// What a page reads of the source buffer of a number; `None` exactly where it is not in the list of source
    /// buffers.
    pub fn buffer_attributes(&self, k: u32) -> Result<Option<BufferAttributes>, OutOfMemory>
        ensures { (st : State) → Stands self.now.engine st
            → IfOk result (λ found. found ≡ buffer_attributes_in k st) }
    {
        match self.run.engine().buffer_attributes(k) {
            Ok(found) => Ok(found),
            Err(_) => Err(OutOfMemory),
        }
    }

    /// Puts the block that closes a script. After an `Err` a front of it was put.
    pub fn close<K: Sink>(&self, sink: &mut K) -> Result<(), Halt>
        ensures ok { (st : State) → Stands self.now.engine st
            → OnOk result (IsWritten (script_closing st) (K.written sink.old) (K.written sink.new)) }
        ensures err { (st : State) → Stands self.now.engine st
            → OnErr result (IsFrontWritten (script_closing st)
            (K.written sink.old) (K.written sink.new)) }
        ensures puts { AreFailuresTold Halt.Write (K.faults sink.old) (K.faults sink.new) result }
    {
        let (before, whole) = (String::new(self.alloc), true);
        close(self.alloc, self.run.engine(), sink, before, whole)
    }
}
