ghost use Rattle.std.specs.Prelude.{◌≡◌, ◌+◌, ◌-◌, ◌<◌, ◌≤◌, ◌^◌, ◌⊎◌, List, [], length, Option, Some, None, IsSome, IfSome, IfOk, OnOk, OnErr};
ghost use Rattle.std.specs.List.{concat};
ghost use Rattle.input_chunks.specs.Pieces.{pieces_with};
ghost use Rattle.segment_walk.specs.declared.kinds.DataRange.{DataRange};
ghost use Rattle.bmff_fragment.specs.declared.slot.Slot.{Slot};
ghost use Rattle.segment_walk.specs.Ranges.{mode_of};
ghost use Rattle.segment_walk.specs.Segments.{items_of_string, next_item, item_ahead, phase_before, ready_before, held_before};
ghost use Rattle.parser_loop.specs.Items.{FrameItem, IsTimed, latest_after_any, answer_item};
ghost use Rattle.parser_loop.specs.StringReadings.{after_answer, after_reset, string_from, with_bytes};
ghost use Rattle.segment_walk.specs.Strings.{phase_of};
ghost use Rattle.segment_walk.specs.Tables.{SegmentItem};
ghost use Rattle.segment_stream.specs.Kept.{progress_at_start};

use crate::arms::{next_on, take_frame};
use crate::next::SegmentNext;
use crate::offers::{accept_on, offer_on};
use crate::pending::{look_frame, next_of, pending_item};
use crate::progress::{ParserPosition, Progress, Tables};
use input_chunks::Chunks;
use mse_base::{Bytes, CodedFrame, OutOfMemory, Phase, Presentation};
use segment_walk::ParserMode;
use std::alloc::Global;
use std::marker::Model;

/// Bytes that are offered: how many they are, and how far the parser comes with them.
#[derive(Clone, Copy, Debug)]
pub(crate) struct Offered {
    pub(crate) len: usize,
    pub(crate) progress: Progress,
}

/// A string of initialization and media segments that comes in pieces, by its items.
///
/// Bytes come by `feed`, or by `offer` and then `accept` or `decline`: between these two no other call may
/// be made. Items go by `next`. The stream parses as far as the bytes go when they come, so that the frames
/// that are ready are known at once.
#[derive(Debug, Drop)]
pub struct Stream {
    alloc: Global,
    last: Option<Presentation>,
    progress: Progress,
    tables: Tables,
    input: Chunks,
    fed: u64,
    offered: Option<Offered>,
}

impl Model for Stream {
    ghost use Rattle.segment_stream.specs.Streams.{SegmentView, segment_view, IsStanding};
    ghost use Rattle.segment_stream.specs.Kept.{snapshot};

    ghost Value = { SegmentView };

    ghost view = { λ s. segment_view (snapshot s.last s.progress s.tables s.input) s.input s.fed
        s.offered };

    ghost invariant = { λ s. IsStanding (snapshot s.last s.progress s.tables s.input) s.input
        s.fed s.offered };
}

/// The place before a string.
fn start() -> Progress
    ensures { result ≡ progress_at_start }
{
    let position = ParserPosition {
        mode: ParserMode::Between(Phase::Waiting),
        offset: 0,
        failed: false,
    };
    Progress {
        position,
        from: 0,
        first: 0,
        ready: 0,
        want: 0,
    }
}

/// Lets go of the string.
fn restart(progress: &mut Progress, input: &mut Chunks)
    ensures progress { progress.new ≡ progress_at_start }
    ensures input { input.new ≡ [] }
{
    let all = input.len();
    input.drop_front(all);
    *progress = start();
}

fn phase_in(mode: ParserMode) -> Phase
    ensures { (slots : List Slot) (known : List DataRange) →
        result ≡ phase_of (mode_of slots known mode) }
{
    match mode {
        ParserMode::Between(phase) => phase,
        ParserMode::Skipping { to, .. } => to,
        ParserMode::Within(_) => Phase::InMedia,
    }
}

impl Stream {
    ghost use Rattle.segment_stream.specs.Kept.{last_bytes};
    ghost use Rattle.segment_stream.specs.Streams.{ForEachReading, HasReading, Stands, StandsAfter};

    /// A stream of the empty string, with no presentation from before.
    pub fn new(alloc: Global) -> Stream
        ensures stands { Stands result (string_from None) }
        ensures last { result.kept.state.last ≡ None }
        ensures pieces { result.pieces ≡ [] }
        ensures fed { result.fed ≡ 0 }
        ensures none_offered { result.offered ≡ None }
    {
        Stream {
            alloc,
            last: None,
            progress: start(),
            tables: Tables {
                slots: Vec::new(alloc),
                known: Vec::new(alloc),
            },
            input: Chunks::new(alloc),
            fed: 0,
            offered: None,
        }
    }

    /// The bytes that are kept: of the media segment that is being parsed all from its moof on, else those from
    /// the box at which the next item comes, or which is read and not whole yet, or whose header is not.
    pub fn input(&self) -> &Chunks
        requires { self.now.offered ≡ None }
        ensures pieces { result.now ≡ self.now.pieces }
        ensures held { ForEachReading self.now (λ r. concat result.now ≡ held_before r) }
    {
        &self.input
    }

    /// Takes all memory that a feed of these bytes needs, and leaves the string; also where it finds none.
    pub fn offer(&mut self, bytes: &[u8]) -> Result<(), OutOfMemory>
        requires none_offered { self.old.offered ≡ None }
        requires countable { self.old.fed + length bytes.now < 2 ^ 62 }
        ensures ok { OnOk result (self.new ≡ record {
          kept = self.old.kept;
          pieces = self.old.pieces;
          fed = self.old.fed;
          offered = Some bytes.now;
        }) }
        ensures err { OnErr result (self.new ≡ self.old) }
    {
        let copy = Bytes::copy_of(self.alloc, bytes)?;
        self.offer_bytes(copy)
    }

    /// As `offer` of the same bytes, whose memory the input has where they become a piece of their own.
    pub fn offer_bytes(&mut self, bytes: Bytes) -> Result<(), OutOfMemory>
        requires none_offered { self.old.offered ≡ None }
        requires countable { self.old.fed + length bytes < 2 ^ 62 }
        ensures ok { OnOk result (self.new ≡ record {
          kept = self.old.kept;
          pieces = self.old.pieces;
          fed = self.old.fed;
          offered = Some bytes;
        }) }
        ensures err { OnErr result (self.new ≡ self.old) }
    {
        let len = bytes.len();
        let progress = offer_on(
            self.alloc,
            &self.last,
            self.progress,
            &mut self.tables,
            &mut self.input,
            bytes,
        )?;
        self.offered = Some(Offered { len, progress });
        Ok(())
    }

    /// Appends the bytes that are offered to the string.
    pub fn accept(&mut self)
        requires { IsSome self.old.offered }
        ensures stands { IfSome self.old.offered
            (λ bytes. StandsAfter self.old (with_bytes bytes) self.new) }
        ensures last { self.new.kept.state.last ≡ self.old.kept.state.last }
        ensures pieces { IfSome self.old.offered (λ bytes. self.new.pieces
            ≡ last_bytes (length self.new.kept.state.rest) (pieces_with bytes self.old.pieces)) }
        ensures fed { IfSome self.old.offered
            (λ bytes. self.new.fed ≡ self.old.fed + length bytes) }
        ensures none_offered { self.new.offered ≡ None }
    {
        let Some(offer) = self.offered else {
            return;
        };
        self.progress = accept_on(offer.progress, &mut self.input);
        self.fed += offer.len as u64;
        self.offered = None;
    }

    /// Forgets the bytes that are offered.
    pub fn decline(&mut self)
        requires { IsSome self.old.offered }
        ensures { self.new ≡ record {
          kept = self.old.kept;
          pieces = self.old.pieces;
          fed = self.old.fed;
          offered = None;
        } }
    {
        let Some(offer) = self.offered else {
            return;
        };
        self.input.drop_back(offer.len);
        self.offered = None;
    }

    /// Appends bytes to the string. An `Err` changes nothing.
    pub fn feed(&mut self, bytes: &[u8]) -> Result<(), OutOfMemory>
        requires none_offered { self.old.offered ≡ None }
        requires countable { self.old.fed + length bytes.now < 2 ^ 62 }
        ensures stands { OnOk result
            (StandsAfter self.old (with_bytes bytes.now) self.new) }
        ensures last { OnOk result (self.new.kept.state.last ≡ self.old.kept.state.last) }
        ensures pieces { OnOk result (self.new.pieces
            ≡ last_bytes (length self.new.kept.state.rest)
            (pieces_with bytes.now self.old.pieces)) }
        ensures fed { OnOk result (self.new.fed ≡ self.old.fed + length bytes.now) }
        ensures none_offered { self.new.offered ≡ None }
        ensures err { OnErr result (self.new ≡ self.old) }
    {
        self.offer(bytes)?;
        self.accept();
        Ok(())
    }

    /// The item that stands `i` places after the next one, or `Dry` exactly where the string gives none.
    /// Nothing changes.
    pub fn look(&self, i: usize) -> Result<SegmentNext, OutOfMemory>
        requires none_offered { self.now.offered ≡ None }
        requires ready { (i ≡ 0) ⊎ (i < length self.now.kept.items) }
        ensures item { ForEachReading self.now
            (λ r. IfOk result (λ next. answer_item next ≡ item_ahead r i)) }
        ensures timed { IfOk result (λ next. IfSome (answer_item next) IsTimed) }
    {
        if i < self.progress.ready {
            let (frame, offset) = look_frame(&self.progress, &self.tables, &self.input, i)?;
            return Ok(SegmentNext::Frame(frame, offset));
        }
        let pending = pending_item(
            self.alloc,
            &self.last,
            &self.progress,
            &self.tables,
            &self.input,
        )?;
        Ok(next_of(pending, self.progress.position.offset))
    }

    /// The next item, or `Dry` exactly where the string gives none; then nothing changes. After a fault the
    /// string gives none until the next reset. An `Err` changes nothing.
    pub fn next(&mut self) -> Result<SegmentNext, OutOfMemory>
        requires { self.old.offered ≡ None }
        ensures item { ForEachReading self.old
            (λ r. IfOk result (λ next. answer_item next ≡ next_item r)) }
        ensures stands { IfOk result
            (λ next. StandsAfter self.old (after_answer (answer_item next)) self.new) }
        ensures last { IfOk result (λ next.
            self.new.kept.state.last ≡ latest_after_any self.old.kept.state.last
            (answer_item next)) }
        ensures pieces { OnOk result (self.new.pieces
            ≡ last_bytes (length self.new.kept.state.rest) self.old.pieces) }
        ensures fed { OnOk result (self.new.fed ≡ self.old.fed) }
        ensures none_offered { self.new.offered ≡ None }
        ensures dry { IfOk result (λ next. answer_item next ≡ None → self.new ≡ self.old) }
        ensures err { OnErr result (self.new ≡ self.old) }
        ensures timed { IfOk result (λ next. IfSome (answer_item next) IsTimed) }
    {
        next_on(
            self.alloc,
            &mut self.last,
            &mut self.progress,
            &mut self.tables,
            &mut self.input,
        )
    }

    /// The coded frame that comes next, with the offset of its payload in the string, where one is ready. An
    /// `Err` changes nothing.
    pub fn next_frame(&mut self) -> Result<(CodedFrame, u64), OutOfMemory>
        requires none_offered { self.old.offered ≡ None }
        requires ready { 0 < length self.old.kept.items }
        ensures item { ForEachReading self.old
            (λ r. IfOk result (λ x. Some (FrameItem x.0 x.1) ≡ next_item r)) }
        ensures stands { IfOk result (λ x. StandsAfter self.old
            (after_answer {I = SegmentItem} (Some (FrameItem x.0 x.1))) self.new) }
        ensures last { self.new.kept.state.last ≡ self.old.kept.state.last }
        ensures pieces { self.new.pieces ≡ self.old.pieces }
        ensures fed { self.new.fed ≡ self.old.fed }
        ensures none_offered { self.new.offered ≡ None }
        ensures err { OnErr result (self.new ≡ self.old) }
    {
        take_frame(&mut self.progress, &self.tables, &self.input)
    }

    /// Hands out that the stream stands for some string; it does nothing.
    pub fn stands(&self)
        ensures { HasReading self.now }
    {
        // The proof reads off this what always holds of the fields.
        let _fed = &self.fed;
    }

    /// Where the parser is before the next item, or at the end of the string where there is none.
    pub fn phase(&self) -> Phase
        requires { self.now.offered ≡ None }
        ensures value { result ≡ phase_of self.now.kept.state.mode }
        ensures phase { ForEachReading self.now (λ r. result ≡ phase_before r) }
    {
        phase_in(self.progress.position.mode)
    }

    /// How many of the next items are coded frames, up to the first that is none: at most `2^20`, since a moof
    /// has no more samples.
    pub fn ready_frames(&self) -> usize
        requires { self.now.offered ≡ None }
        ensures value { result ≡ length self.now.kept.items }
        ensures ready { ForEachReading self.now (λ r. result ≡ ready_before r) }
        ensures few { result ≤ 2 ^ 20 }
    {
        self.progress.ready
    }

    /// How many bytes are held in memory.
    pub fn held_len(&self) -> usize
        requires { self.now.offered ≡ None }
        ensures value { result ≡ length self.now.kept.state.rest }
        ensures held { ForEachReading self.now (λ r. result ≡ length (held_before r)) }
    {
        self.input.len()
    }

    /// The string becomes empty, and offsets start at 0. The presentation of the last initialization segment
    /// that was given stays (Media Source Extensions, 3.5.2, reset parser state).
    pub fn reset(&mut self)
        requires { self.old.offered ≡ None }
        ensures stands { Stands self.new (string_from self.old.kept.state.last) }
        ensures latest { ForEachReading self.old
            (λ r. Stands self.new (after_reset (items_of_string r.before r.whole) r)) }
        ensures last { self.new.kept.state.last ≡ self.old.kept.state.last }
        ensures pieces { self.new.pieces ≡ [] }
        ensures fed { self.new.fed ≡ 0 }
        ensures none_offered { self.new.offered ≡ None }
    {
        restart(&mut self.progress, &mut self.input);
        self.fed = 0;
    }

    /// As `reset`, and the presentation is dropped too.
    pub fn forget(&mut self)
        requires { self.old.offered ≡ None }
        ensures stands { Stands self.new (string_from None) }
        ensures last { self.new.kept.state.last ≡ None }
        ensures pieces { self.new.pieces ≡ [] }
        ensures fed { self.new.fed ≡ 0 }
        ensures none_offered { self.new.offered ≡ None }
    {
        self.last = None;
        restart(&mut self.progress, &mut self.input);
        self.fed = 0;
    }
}
