ghost use Rattle.std.specs.Prelude.{◌≡◌, ◌↔◌, ℕ, ◌+◌, ◌-◌, ◌<◌, ◌≤◌, ◌^◌, ◌⊎◌, List, [], length, Option, Some, None, IsSome, IsTrue, IfSome, IfOk, OnOk, OnErr};
ghost use Rattle.std.specs.List.{concat};
ghost use Rattle.mse_base.specs.declared.frame.Phase.TheVariants.{Waiting};
ghost use Rattle.mse_base.specs.declared.track.Presentation.{Presentation};
ghost use Rattle.parser_loop.specs.Items.{IsTimed, latest_after_any, answer_item};
ghost use Rattle.adts_stream.specs.Frames.{items_of_string, next_item, item_ahead, phase_before, ready_before, held_before};
ghost use Rattle.adts_stream.specs.Walk.{phase_of};
ghost use Rattle.adts_stream.specs.Values.{position_at_start, ready_of, state_of};

use crate::arms::{look_on, next_on};
use crate::next::AdtsNext;
use crate::position::{ParsePoint, ParsePosition};
use crate::walk::accept_on;
use input_chunks::Chunks;
use mse_base::{Bytes, OutOfMemory, Presentation};
use std::alloc::Global;
use std::marker::Model;

/// A string of ADTS frames and tags that comes in pieces, by its items.
///
/// Bytes come by `feed`, or by `offer` and then `accept` or `decline`: between these two no other call may
/// be made. Items go by `next`. Tags are let go as their bytes come; the bytes of a frame are kept until the
/// end of its segment is given.
#[derive(Debug, Drop)]
pub struct AdtsStream {
    alloc: Global,
    last: Option<Presentation>,
    position: ParsePosition,
    input: Chunks,
    fed: u64,
    /// How many bytes at the end of the input are offered.
    offered: Option<usize>,
}

impl Model for AdtsStream {
    ghost use Rattle.std.specs.List.{concat};
    ghost use Rattle.adts_stream.specs.Streams.{AdtsView, adts_view, IsStanding};

    ghost Value = { AdtsView };

    ghost view = { λ s. adts_view s.last s.position (concat s.input) s.fed s.offered };

    ghost invariant = { λ s. IsStanding s.last s.position (concat s.input) s.fed s.offered };
}

/// The place before a string.
fn start() -> ParsePosition
    ensures { result ≡ position_at_start }
{
    ParsePosition {
        point: ParsePoint::AtHeader,
        offset: 0,
        failed: false,
    }
}

/// Lets go of the string.
fn restart(position: &mut ParsePosition, input: &mut Chunks)
    ensures position { position.new ≡ position_at_start }
    ensures input { concat input.new ≡ [] }
{
    let all = input.len();
    input.drop_front(all);
    *position = start();
}

/// How many frames are ready, where so many bytes are kept.
fn ready(position: ParsePosition, there: usize) -> usize
    ensures ready { (last : Option Presentation) (rest : List ℕ) → length rest ≡ there → result
        ≡ ready_of (state_of last position rest) }
    ensures few { result ≤ 1 }
{
    if position.failed {
        return 0;
    }
    match position.point {
        ParsePoint::AtFrame(header) => if header.len <= there as u64 { 1 } else { 0 },
        ParsePoint::AtHeader => 0,
        ParsePoint::InTag(_) => 0,
        ParsePoint::AtEnd(_) => 0,
    }
}

/// Whether the parser waits for a media segment.
fn is_waiting(point: ParsePoint) -> bool
    ensures { IsTrue result ↔ (phase_of point ≡ Waiting) }
{
    match point {
        ParsePoint::AtHeader => true,
        ParsePoint::InTag(_) => true,
        ParsePoint::AtFrame(_) => false,
        ParsePoint::AtEnd(_) => false,
    }
}

impl AdtsStream {
    ghost use Rattle.parser_loop.specs.StringReadings.{after_answer, after_reset, string_from, with_bytes};
    ghost use Rattle.adts_stream.specs.Values.{ready_of};
    ghost use Rattle.adts_stream.specs.Streams.{ForEachReading, HasReading, Stands, StandsAfter};

    /// A stream of the empty string, with no presentation from before.
    pub fn new(alloc: Global) -> AdtsStream
        ensures stands { Stands result (string_from None) }
        ensures last { result.state.last ≡ None }
        ensures fed { result.fed ≡ 0 }
        ensures none_offered { result.offered ≡ None }
    {
        AdtsStream {
            alloc,
            last: None,
            position: start(),
            input: Chunks::new(alloc),
            fed: 0,
            offered: None,
        }
    }

    /// Takes all memory that a feed of these bytes needs, and leaves the string; also where it finds none.
    pub fn offer(&mut self, bytes: &[u8]) -> Result<(), OutOfMemory>
        requires none_offered { self.old.offered ≡ None }
        requires countable { self.old.fed + length bytes.now < 2 ^ 62 }
        ensures ok { OnOk result (self.new
            ≡ record { state = self.old.state; fed = self.old.fed; offered = Some bytes.now }) }
        ensures err { OnErr result (self.new ≡ self.old) }
    {
        self.input.push(bytes)?;
        self.offered = Some(bytes.len());
        Ok(())
    }

    /// As `offer` of the same bytes, whose memory the input has where they become a piece of their own.
    pub fn offer_bytes(&mut self, bytes: Bytes) -> Result<(), OutOfMemory>
        requires none_offered { self.old.offered ≡ None }
        requires countable { self.old.fed + length bytes < 2 ^ 62 }
        ensures ok { OnOk result (self.new
            ≡ record { state = self.old.state; fed = self.old.fed; offered = Some bytes }) }
        ensures err { OnErr result (self.new ≡ self.old) }
    {
        let len = bytes.len();
        self.input.push_bytes(bytes)?;
        self.offered = Some(len);
        Ok(())
    }

    /// Appends the bytes that are offered to the string.
    pub fn accept(&mut self)
        requires { IsSome self.old.offered }
        ensures stands { IfSome self.old.offered
            (λ bytes. StandsAfter self.old (with_bytes bytes) self.new) }
        ensures last { self.new.state.last ≡ self.old.state.last }
        ensures fed { IfSome self.old.offered
            (λ bytes. self.new.fed ≡ self.old.fed + length bytes) }
        ensures none_offered { self.new.offered ≡ None }
    {
        let Some(len) = self.offered else {
            return;
        };
        accept_on(&self.last, &mut self.position, &mut self.input, len);
        self.fed += len as u64;
        self.offered = None;
    }

    /// Forgets the bytes that are offered.
    pub fn decline(&mut self)
        requires { IsSome self.old.offered }
        ensures { self.new ≡ record { state = self.old.state; fed = self.old.fed; offered = None } }
    {
        let Some(len) = self.offered else {
            return;
        };
        self.input.drop_back(len);
        self.offered = None;
    }

    /// Appends bytes to the string. An `Err` changes nothing.
    pub fn feed(&mut self, bytes: &[u8]) -> Result<(), OutOfMemory>
        requires none_offered { self.old.offered ≡ None }
        requires countable { self.old.fed + length bytes.now < 2 ^ 62 }
        ensures stands { OnOk result
            (StandsAfter self.old (with_bytes bytes.now) self.new) }
        ensures last { OnOk result (self.new.state.last ≡ self.old.state.last) }
        ensures fed { OnOk result (self.new.fed ≡ self.old.fed + length bytes.now) }
        ensures none_offered { self.new.offered ≡ None }
        ensures err { OnErr result (self.new ≡ self.old) }
    {
        self.offer(bytes)?;
        self.accept();
        Ok(())
    }

    /// The item that stands `i` places after the next one, or `Dry` exactly where the string gives none.
    /// Nothing changes.
    pub fn look(&self, i: usize) -> Result<AdtsNext, OutOfMemory>
        requires none_offered { self.now.offered ≡ None }
        requires ready { (i ≡ 0) ⊎ (i < ready_of self.now.state) }
        ensures item { ForEachReading self.now
            (λ r. IfOk result (λ next. answer_item next ≡ item_ahead r i)) }
        ensures timed { IfOk result (λ next. IfSome (answer_item next) IsTimed) }
    {
        look_on(self.alloc, &self.last, self.position, &self.input)
    }

    /// The next item, or `Dry` exactly where the string gives none; then nothing changes. After a fault the
    /// string gives none until the next reset. An `Err` changes nothing.
    pub fn next(&mut self) -> Result<AdtsNext, OutOfMemory>
        requires { self.old.offered ≡ None }
        ensures item { ForEachReading self.old
            (λ r. IfOk result (λ next. answer_item next ≡ next_item r)) }
        ensures stands { IfOk result (λ next.
            StandsAfter self.old (after_answer (answer_item next)) self.new) }
        ensures last { IfOk result
            (λ next. self.new.state.last ≡ latest_after_any self.old.state.last
            (answer_item next)) }
        ensures fed { self.new.fed ≡ self.old.fed }
        ensures none_offered { self.new.offered ≡ None }
        ensures dry { IfOk result (λ next. answer_item next ≡ None → self.new ≡ self.old) }
        ensures err { OnErr result (self.new ≡ self.old) }
        ensures timed { IfOk result (λ next. IfSome (answer_item next) IsTimed) }
    {
        next_on(
            self.alloc,
            &mut self.last,
            &mut self.position,
            &mut self.input,
        )
    }

    /// Hands out that the stream stands for some string; it does nothing.
    pub fn stands(&self)
        ensures { HasReading self.now }
    {
        // The proof reads off this what always holds of the fields.
        let _fed = &self.fed;
    }

    /// Whether the parser waits for a segment, before the next item, or at the end of the string where there
    /// is none. Else it is in a media segment: the header of a frame was accepted, and its segment is not at
    /// its end.
    pub fn waiting(&self) -> bool
        requires { self.now.offered ≡ None }
        ensures value { IsTrue result ↔ (phase_of self.now.state.point ≡ Waiting) }
        ensures phase { ForEachReading self.now (λ r.
            IsTrue result ↔ (phase_before r ≡ Waiting)) }
    {
        is_waiting(self.position.point)
    }

    /// How many of the next items are coded frames, up to the first that is none: 1 or 0, since each frame is
    /// a segment of its own.
    pub fn ready_frames(&self) -> usize
        requires { self.now.offered ≡ None }
        ensures value { result ≡ ready_of self.now.state }
        ensures ready { ForEachReading self.now (λ r. result ≡ ready_before r) }
        ensures few { result ≤ 1 }
    {
        ready(self.position, self.input.len())
    }

    /// How many bytes are held in memory.
    pub fn held_len(&self) -> usize
        requires { self.now.offered ≡ None }
        ensures value { result ≡ length self.now.state.rest }
        ensures held { ForEachReading self.now (λ r. result ≡ length (held_before r)) }
    {
        self.input.len()
    }

    /// The string becomes empty, and offsets start at 0. The presentation of the last initialization segment
    /// that was given stays (Media Source Extensions, 3.5.2, reset parser state).
    pub fn reset(&mut self)
        requires { self.old.offered ≡ None }
        ensures stands { Stands self.new (string_from self.old.state.last) }
        ensures latest { ForEachReading self.old
            (λ r. Stands self.new (after_reset (items_of_string r.before r.whole) r)) }
        ensures last { self.new.state.last ≡ self.old.state.last }
        ensures fed { self.new.fed ≡ 0 }
        ensures none_offered { self.new.offered ≡ None }
    {
        restart(&mut self.position, &mut self.input);
        self.fed = 0;
    }

    /// As `reset`, and the presentation is dropped too.
    pub fn forget(&mut self)
        requires { self.old.offered ≡ None }
        ensures stands { Stands self.new (string_from None) }
        ensures last { self.new.state.last ≡ None }
        ensures fed { self.new.fed ≡ 0 }
        ensures none_offered { self.new.offered ≡ None }
    {
        restart(&mut self.position, &mut self.input);
        self.last = None;
        self.fed = 0;
    }
}
