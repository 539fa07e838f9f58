ghost use Rattle.std.specs.Prelude.{◌≡◌, ◌+◌, ◌<◌, ◌≤◌, ◌^◌, ◌⊎◌, pos, ◌≤ℤ◌, length, Some, None, IsSome, IfSome, IfOk, OnOk, OnErr};
ghost use Rattle.parser_loop.specs.Items.{FrameItem, IsTimed, latest_after_any, answer_item};
ghost use Rattle.byte_stream.specs.Readings.{new_reading, reading_from, next_item, item_ahead, ready_at, phase_at, held_at, with_bytes, after_answer, after_reset, IsLasting};

use crate::next::Next;
use crate::parser::Parser;
use mse_base::{Bytes, CodedFrame, OutOfMemory, Phase};
use mse_types::Container;
use std::alloc::Global;
use std::marker::Model;

/// The byte stream of a source buffer: a string of its container that comes in pieces, by its items.
///
/// Bytes come by `offer` and then `accept` or `decline`: between these two no call may be made but `len`, `stands`
/// and `restart`. Items go by `next`. The stream parses as far as the bytes go when they come, so that the frames
/// that are ready are known at once.
#[derive(Debug, Drop)]
pub struct ByteStream {
    alloc: Global,
    parser: Parser,
    /// The length of the string since the last reset.
    fed: u64,
    /// How many bytes are offered.
    offered: usize,
}

impl Model for ByteStream {
    ghost use Rattle.byte_stream.specs.Streams.{StreamView, stream_view, HasLengths};

    ghost Value = { StreamView };

    ghost view = { λ s. stream_view s.parser };

    ghost invariant = { λ s. HasLengths (stream_view s.parser) s.fed s.offered };
}

impl ByteStream {
    ghost use Rattle.byte_stream.specs.Streams.{Stands, HasReading, StandsAfter, ForEachReading, latest_of, ready_of, phase_of, held_of};

    /// A stream of the empty string of a container, with no presentation from before. It takes no memory.
    pub fn new(alloc: Global, container: Container) -> ByteStream
        ensures stands { Stands result (new_reading container) }
        ensures latest { latest_of result ≡ None }
        ensures fed { result.fed ≡ 0 }
        ensures none_offered { result.offered ≡ None }
    {
        ByteStream {
            alloc,
            parser: Parser::new(alloc, container),
            fed: 0,
            offered: 0,
        }
    }

    /// Takes all memory that it needs to append these bytes, and leaves the string; also where it finds none.
    pub fn offer(&mut self, bytes: &[u8]) -> Result<(), OutOfMemory>
        requires none_offered { self.old.offered ≡ None }
        requires countable { self.old.fed + length bytes.now < 2 ^ 62 }
        ensures ok { OnOk result (self.new
            ≡ record { parser = self.old.parser; fed = self.old.fed; offered = Some bytes.now }) }
        ensures err { OnErr result (self.new ≡ self.old) }
    {
        self.parser.offer(bytes)?;
        self.offered = bytes.len();
        Ok(())
    }

    /// As `offer` of the same bytes, whose memory the input has where they become a piece of their own.
    pub fn offer_bytes(&mut self, bytes: Bytes) -> Result<(), OutOfMemory>
        requires none_offered { self.old.offered ≡ None }
        requires countable { self.old.fed + length bytes < 2 ^ 62 }
        ensures ok { OnOk result (self.new
            ≡ record { parser = self.old.parser; fed = self.old.fed; offered = Some bytes }) }
        ensures err { OnErr result (self.new ≡ self.old) }
    {
        let len = bytes.len();
        self.parser.offer_bytes(bytes)?;
        self.offered = len;
        Ok(())
    }

    /// Appends the bytes that are offered to the string. It takes no memory.
    pub fn accept(&mut self)
        requires { IsSome self.old.offered }
        ensures stands { IfSome self.old.offered
            (λ bytes. StandsAfter self.old (with_bytes bytes) self.new) }
        ensures latest { latest_of self.new ≡ latest_of self.old }
        ensures fed { IfSome self.old.offered
            (λ bytes. self.new.fed ≡ self.old.fed + length bytes) }
        ensures none_offered { self.new.offered ≡ None }
    {
        self.parser.accept();
        self.fed += self.offered as u64;
        self.offered = 0;
    }

    /// Forgets the bytes that are offered. It takes no memory.
    pub fn decline(&mut self)
        requires { IsSome self.old.offered }
        ensures { self.new
            ≡ record { parser = self.old.parser; fed = self.old.fed; offered = None } }
    {
        self.parser.decline();
        self.offered = 0;
    }

    /// The item that stands `i` places after the next one, or `Dry` exactly where the string gives none. Nothing
    /// changes.
    pub fn look(&self, i: usize) -> Result<Next, OutOfMemory>
        requires none_offered { self.now.offered ≡ None }
        requires ready { (i ≡ 0) ⊎ (i < ready_of self.now) }
        ensures item { ForEachReading self.now (λ r.
            IfOk result (λ next. answer_item next ≡ item_ahead r i)) }
        ensures dur_not_negative { IfOk result (λ next. IfSome (answer_item next) IsLasting) }
        ensures timed { IfOk result (λ next. IfSome (answer_item next) IsTimed) }
    {
        self.parser.look(i)
    }

    /// The next item, or `Dry` exactly where the string gives none; then nothing changes. After a fault the string
    /// gives none until the next reset. An `Err` changes nothing.
    pub fn next(&mut self) -> Result<Next, OutOfMemory>
        requires { self.old.offered ≡ None }
        ensures item { ForEachReading self.old
            (λ r. IfOk result (λ next. answer_item next ≡ next_item r)) }
        ensures stands { IfOk result
            (λ next. StandsAfter self.old (after_answer (answer_item next)) self.new) }
        ensures latest { IfOk result (λ next.
            latest_of self.new ≡ latest_after_any (latest_of self.old) (answer_item next)) }
        ensures fed { self.new.fed ≡ self.old.fed }
        ensures none_offered { self.new.offered ≡ None }
        ensures dry { IfOk result (λ next. answer_item next ≡ None → self.new ≡ self.old) }
        ensures err { OnErr result (self.new ≡ self.old) }
        ensures dur_not_negative { IfOk result (λ next. IfSome (answer_item next) IsLasting) }
        ensures timed { IfOk result (λ next. IfSome (answer_item next) IsTimed) }
    {
        self.parser.next()
    }

    /// The coded frame that comes next, with the offset of its first byte in the string, where one is ready. An
    /// `Err` changes nothing.
    pub fn next_frame(&mut self) -> Result<(CodedFrame, u64), OutOfMemory>
        requires none_offered { self.old.offered ≡ None }
        requires ready { 0 < ready_of self.old }
        ensures item { ForEachReading self.old (λ r.
            IfOk result (λ x. Some (FrameItem x.0 x.1) ≡ next_item r)) }
        ensures stands { IfOk result
            (λ x. StandsAfter self.old (after_answer (Some (FrameItem x.0 x.1))) self.new) }
        ensures latest { OnOk result (latest_of self.new ≡ latest_of self.old) }
        ensures fed { self.new.fed ≡ self.old.fed }
        ensures none_offered { self.new.offered ≡ None }
        ensures err { OnErr result (self.new ≡ self.old) }
        ensures dur_not_negative { IfOk result (λ x. pos 0 ≤ℤ x.0.dur) }
    {
        self.parser.next_frame()
    }

    /// Hands out that the stream stands for some string; it does nothing.
    pub fn stands(&self)
        ensures { HasReading self.now }
    {
        // The proof reads off this what always holds of the fields.
        let _parser = &self.parser;
    }

    /// The length of the string since the last reset, in bytes.
    pub fn len(&self) -> u64
        ensures { result ≡ self.now.fed }
    {
        self.fed
    }

    /// Where the parser is before the next item, or at the end of the string where there is none.
    pub fn phase(&self) -> Phase
        requires { self.now.offered ≡ None }
        ensures value { result ≡ phase_of self.now }
        ensures phase { ForEachReading self.now (λ r. result ≡ phase_at r) }
    {
        self.parser.phase()
    }

    /// How many of the next items are coded frames, up to the first that is none: at most `2^20`, since a moof has
    /// no more samples. It takes no memory.
    pub fn ready_frames(&self) -> usize
        requires { self.now.offered ≡ None }
        ensures value { result ≡ ready_of self.now }
        ensures ready { ForEachReading self.now (λ r. result ≡ length (ready_at r)) }
        ensures few { result ≤ 2 ^ 20 }
    {
        self.parser.ready_frames()
    }

    /// How many bytes are held in memory.
    pub fn held_len(&self) -> usize
        requires { self.now.offered ≡ None }
        ensures value { result ≡ length (held_of self.now) }
        ensures held { ForEachReading self.now (λ r. result ≡ length (held_at r)) }
    {
        self.parser.held_len()
    }

    /// The string becomes empty, and offsets start at 0. The presentation of the last initialization segment that
    /// was given stays (Media Source Extensions, 3.5.2, reset parser state).
    pub fn reset(&mut self)
        requires { self.old.offered ≡ None }
        ensures stands { StandsAfter self.old after_reset self.new }
        ensures stands_from { ForEachReading self.old
            (λ r. Stands self.new (reading_from r.container (latest_of self.old))) }
        ensures latest { latest_of self.new ≡ latest_of self.old }
        ensures fed { self.new.fed ≡ 0 }
        ensures none_offered { self.new.offered ≡ None }
    {
        self.parser.reset();
        self.fed = 0;
    }

    /// The stream begins anew with a container: the string becomes empty, no bytes are offered, and the presentation
    /// is dropped too (Media Source Extensions, `changeType`). It takes no memory.
    pub fn restart(&mut self, container: Container)
        ensures stands { Stands self.new (new_reading container) }
        ensures latest { latest_of self.new ≡ None }
        ensures fed { self.new.fed ≡ 0 }
        ensures none_offered { self.new.offered ≡ None }
    {
        self.parser = Parser::new(self.alloc, container);
        self.fed = 0;
        self.offered = 0;
    }
}
