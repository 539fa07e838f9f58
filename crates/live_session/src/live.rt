//! A session that reads its lines as texts, and keeps what its last step printed.

ghost use Rattle.std.specs.Prelude.{◌≡◌, ◌≤ℤ◌, ◌++◌, ◌∷◌, [], pos, true, false, is_err, IfOk, IsErr, OnOk, OnErr};
ghost use Rattle.mse_engine.specs.State.{State, opening_state};
ghost use Rattle.mse_engine.specs.Standing.{Stands};
ghost use Rattle.mse_engine.specs.Views.{attributes_in, buffer_attributes_in};
ghost use Rattle.mse_commands.specs.Works.{script_closing};
ghost use Rattle.script_run.specs.Writes.{IsWritten, IsFrontWritten};
ghost use Rattle.live_session.specs.Next.{next_line};
ghost use Rattle.live_session.specs.Steps.{without_front};
ghost use Rattle.live_session.specs.Lives.{IsStepResult, no_text, step_in, text_view, with_no_text};

use crate::session::Session;
use call_script::{StepLine, read_step};
use mse_base::{Bytes, OutOfMemory, Ticks};
use mse_calls::{Attributes, BufferAttributes, Name};
use mse_outside::SureSink;
use std::alloc::Global;
use std::marker::Model;
use track_store::FrameStore;

/// How a step of a live session ended.
#[derive(Clone, Copy, Debug, PartialEq, Eq)]
pub enum StepResult {
    /// It was done; a call that was refused has its name.
    Done(Option<Name>),
    /// The line is no step; nothing is printed, and the session is as before.
    NoStep,
    /// It names bytes that were not handed over, or were forgotten; nothing is printed, and the session is as before.
    NoBytes,
    /// There was no memory, now or in an earlier step: the session has ended. What the step printed before is a front
    /// of its lines.
    Memory,
}

/// A session, with the text that its last step printed. Where a step finds no memory the session ends, and each later
/// call says so and does nothing.
#[derive(Drop)]
pub struct LiveSession<S: FrameStore> {
    alloc: Global,
    session: Session<S>,
    sink: SureSink,
    ended: bool,
}

impl<S: FrameStore> Model for LiveSession<S> {
    ghost use Rattle.live_session.specs.Lives.{LiveView};

    ghost Value = { LiveView };

    ghost view = { λ l. record {
      session = l.session;
      sink = l.sink;
      ended = l.ended;
    } };
}

/// The step of a line in UTF-8, if it is one.
fn read_line(alloc: Global, line: &[u8]) -> Result<Option<StepLine>, OutOfMemory>
    ensures { IfOk result (λ step. step ≡ step_in line.now) }
{
    match str::from_utf8(line) {
        Ok(text) => read_step(alloc, text),
        Err(_) => Ok(None),
    }
}

impl<S: FrameStore> LiveSession<S> {
    /// A session that begins: a closed source, whose buffers hold at most `quota` bytes each and have ranges that
    /// join across gaps of at most `gap` ticks. It takes no memory.
    pub fn new(alloc: Global, quota: u64, gap: Ticks) -> LiveSession<S>
        requires { pos 0 ≤ℤ gap }
        ensures engine { Stands result.session.engine (opening_state quota gap) }
        ensures blobs { result.session.blobs ≡ [] }
        ensures none_forgotten { result.session.forgotten ≡ 0 }
        ensures text { result.sink ≡ no_text }
        ensures going_on { result.ended ≡ false }
    {
        LiveSession {
            alloc,
            session: Session::new(alloc, quota, gap),
            sink: SureSink::new(alloc),
            ended: false,
        }
    }

    /// What the last step or block printed.
    pub fn printed(&self) -> &[u8]
        ensures { result.now ≡ self.now.sink.written }
    {
        self.sink.written()
    }

    /// Hands over the bytes of the next blob. An `Err` changes nothing.
    pub fn hand_over(&mut self, bytes: &[u8]) -> Result<(), OutOfMemory>
        ensures ok { OnOk result (self.new ≡ record self.old {
          session = record self.old.session {
            blobs = self.old.session.blobs ++ bytes.now ∷ [];
          };
        }) }
        ensures err { OnErr result (self.new ≡ self.old) }
        ensures ended { self.old.ended ≡ true → IsErr result }
    {
        if self.ended {
            return Err(OutOfMemory);
        }
        let bytes = Bytes::copy_of(self.alloc, bytes)?;
        self.session.hand_over(bytes)
    }

    /// Forgets the blobs with numbers below `n`: no step may name them from then on. An `Err` changes nothing.
    pub fn forget_before(&mut self, n: usize) -> Result<(), OutOfMemory>
        ensures ok { OnOk result (self.new
            ≡ record self.old { session = without_front n self.old.session }) }
        ensures err { OnErr result (self.new ≡ self.old) }
        ensures ended { self.old.ended ≡ true → IsErr result }
    {
        if self.ended {
            return Err(OutOfMemory);
        }
        self.session.forget_before(n)
    }

    /// Does the step of a line.
    pub fn step(&mut self, line: &[u8]) -> StepResult
        ensures result { self.old.ended ≡ false
            → IsStepResult line.now result self.old self.new }
        ensures ended { self.old.ended ≡ true
            → (result ≡ StepResult.Memory) × (self.new ≡ with_no_text self.old) }
    {
        self.begin_text();
        if self.ended {
            return StepResult::Memory;
        }
        let Ok(read) = read_line(self.alloc, line) else {
            return self.end();
        };
        let Some(step) = read else {
            return StepResult::NoStep;
        };
        if !self.session.has_its_bytes(&step) {
            return StepResult::NoBytes;
        }
        match self.session.step(&mut self.sink, &step) {
            Ok(refused) => StepResult::Done(refused),
            Err(_) => self.end(),
        }
    }

    /// Begins a text anew.
    fn begin_text(&mut self)
        ensures { self.new ≡ with_no_text self.old }
    {
        self.sink = SureSink::new(self.alloc);
    }

    /// Ends the session.
    fn end(&mut self) -> StepResult
        ensures result { result ≡ StepResult.Memory }
        ensures ended { self.new ≡ record self.old { ended = true } }
    {
        self.ended = true;
        StepResult::Memory
    }

    /// The step that a drain does next; `None` where there is nothing left to do. An `Err` comes exactly where the
    /// session has ended.
    pub fn next(&self) -> Result<Option<StepLine>, OutOfMemory>
        ensures next { (st : State) → Stands self.now.session.engine st
            → IfOk result (λ next. next ≡ next_line st) }
        ensures ended { is_err result ≡ self.now.ended }
    {
        if self.ended {
            return Err(OutOfMemory);
        }
        Ok(self.session.next())
    }

    /// What a page reads of the source and of the element.
    pub fn attributes(&self) -> Result<Attributes, OutOfMemory>
        ensures found { (st : State) → Stands self.now.session.engine st
            → IfOk result (λ found. found ≡ attributes_in st) }
        ensures ended { self.now.ended ≡ true → IsErr result }
    {
        if self.ended {
            return Err(OutOfMemory);
        }
        self.session.attributes()
    }

    /// What a page reads of the source buffer of a number; `None` exactly where it is not in the list of source
    /// buffers.
    pub fn buffer_attributes(&self, k: u32) -> Result<Option<BufferAttributes>, OutOfMemory>
        ensures found { (st : State) → Stands self.now.session.engine st
            → IfOk result (λ found. found ≡ buffer_attributes_in k st) }
        ensures ended { self.now.ended ≡ true → IsErr result }
    {
        if self.ended {
            return Err(OutOfMemory);
        }
        self.session.buffer_attributes(k)
    }

    /// Prints the block that closes a script of the steps so far. The session goes on, also behind an `Err`, where a
    /// front of the block was printed.
    pub fn block(&mut self) -> Result<(), OutOfMemory>
        ensures ok { (st : State) → Stands self.old.session.engine st
            → OnOk result (IsWritten (script_closing st)
            (text_view no_text) (text_view self.new.sink)) }
        ensures err { (st : State) → Stands self.old.session.engine st → self.old.ended ≡ false
            → OnErr result (IsFrontWritten (script_closing st)
            (text_view no_text) (text_view self.new.sink)) }
        ensures stays { self.new ≡ record self.old { sink = self.new.sink } }
        ensures ended { self.old.ended ≡ true → IsErr result × (self.new.sink ≡ no_text) }
    {
        self.begin_text();
        if self.ended {
            return Err(OutOfMemory);
        }
        match self.session.close(&mut self.sink) {
            Ok(()) => Ok(()),
            Err(_) => Err(OutOfMemory),
        }
    }
}
