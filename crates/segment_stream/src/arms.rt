ghost use Rattle.std.specs.Prelude.{◌≡◌, ◌-◌, Option, Some, ◌+◌, ◌≤◌, ◌<◌, ◌^◌, length, false, true, IfOk, OnOk, OnErr};
ghost use Rattle.std.specs.List.{concat};
ghost use Rattle.mse_base.specs.declared.track.Presentation.{Presentation};
ghost use Rattle.parser_loop.specs.Walk.{lookahead_from, first_item, after_first};
ghost use Rattle.input_chunks.specs.Pieces.{pieces_without_first, HasNoEmptyPiece};
ghost use Rattle.segment_walk.specs.Moves.{segments};
ghost use Rattle.parser_loop.specs.Items.{FaultItem, FrameItem};
ghost use Rattle.segment_stream.specs.Kept.{IsStillBelowWant, IsConsistent, IsStillAtFront, IsEmptied, IsLast, kept_of, last_bytes, snapshot, state_behind, end_of_input};
ghost use Rattle.parser_loop.specs.Items.{latest_after_any, answer_item};

use crate::moves::{NEVER, run_on};
use crate::next::SegmentNext;
use crate::offers::accept_on;
use crate::pending::{look_frame, pending_item};
use crate::progress::{ParserPosition, PendingItem, Progress, ProgressWithTables, Tables};
use input_chunks::Chunks;
use mse_base::{CodedFrame, OutOfMemory, Phase, Presentation};
use segment_walk::{ParserMode, StreamFault};
use std::alloc::Global;

/// Takes the first ready frame. An `Err` changes nothing.
pub(crate) fn take_frame(
    progress: &mut Progress,
    tables: &Tables,
    input: &Chunks,
) -> Result<(CodedFrame, u64), OutOfMemory>
    requires ready { 0 < progress.old.ready }
    requires front { progress.old.from ≡ 0 }
    requires consistent { IsConsistent progress.old tables.now (concat input.now) }
    ensures item { (last : Option Presentation) → IfOk result (λ x. Some (FrameItem x.0 x.1)
        ≡ first_item segments (kept_of (snapshot last progress.old tables.now input.now))) }
    ensures ok { (last : Option Presentation) → OnOk result
        (kept_of (snapshot last progress.new tables.now input.now)
        ≡ after_first segments (kept_of (snapshot last progress.old tables.now input.now))) }
    ensures progress { OnOk result (progress.new ≡ record {
      position = progress.old.position;
      from = progress.old.from;
      first = progress.old.first + 1;
      ready = progress.old.ready - 1;
      want = progress.old.want;
    }) }
    ensures err { OnErr result (progress.new ≡ progress.old) }
{
    let item = look_frame(progress, tables, input, 0)?;
    progress.first += 1;
    progress.ready -= 1;
    Ok(item)
}

/// Runs on behind an item that ends a segment or is an initialization segment, with tables of its own.
fn leave_on(
    alloc: Global,
    last: &Option<Presentation>,
    offset: u64,
    len: u64,
    input: &Chunks,
) -> Result<ProgressWithTables, OutOfMemory>
    requires inside { len ≤ length (concat input.now) }
    requires readable { IsLast last.now }
    requires small { offset + length (concat input.now) < 2 ^ 62 }
    ensures kept { IfOk result (λ o. kept_of (snapshot last.now o.progress o.tables input.now)
        ≡ lookahead_from segments (state_behind last.now offset len (concat input.now))) }
    ensures consistent { IfOk result (λ o. IsConsistent o.progress o.tables (concat input.now)) }
    ensures waits { IfOk result (λ o. IsStillBelowWant
        (snapshot last.now o.progress o.tables input.now)) }
    ensures total { IfOk result (λ o. end_of_input (snapshot last.now o.progress o.tables input.now)
        ≡ offset + length (concat input.now)) }
    ensures unfailed { IfOk result (λ o. o.progress.position.failed ≡ false) }
{
    let mut tables = Tables {
        slots: Vec::new(alloc),
        known: Vec::new(alloc),
    };
    let position = ParserPosition {
        mode: ParserMode::Between(Phase::Waiting),
        offset: offset + len,
        failed: false,
    };
    let start = Progress {
        position,
        from: len as usize,
        first: 0,
        ready: 0,
        want: 0,
    };
    let progress = run_on(alloc, last, start, &mut tables, input)?;
    Ok(ProgressWithTables { progress, tables })
}

/// Puts the next state in place. It takes no memory.
fn enter(
    next_state: ProgressWithTables,
    progress: &mut Progress,
    tables: &mut Tables,
    input: &mut Chunks,
)
    requires { next_state.progress.from ≤ length (concat input.old) }
    ensures at_front { (last : Option Presentation) →
        IsConsistent next_state.progress next_state.tables (concat input.old) →
        IsStillBelowWant (snapshot last next_state.progress next_state.tables input.old) →
        IsStillAtFront (snapshot last progress.new tables.new input.new) }
    ensures kept { (last : Option Presentation) →
        kept_of (snapshot last progress.new tables.new input.new)
        ≡ kept_of (snapshot last next_state.progress next_state.tables input.old) }
    ensures position { progress.new.position ≡ next_state.progress.position }
    ensures pieces { input.new ≡ pieces_without_first next_state.progress.from input.old }
{
    *progress = accept_on(next_state.progress, input);
    *tables = next_state.tables;
}

/// Goes behind an item of `len` bytes that ends a segment or is an initialization segment. An `Err` changes
/// nothing.
fn pass_item(
    alloc: Global,
    last: &Option<Presentation>,
    progress: &mut Progress,
    tables: &mut Tables,
    input: &mut Chunks,
    len: u64,
) -> Result<(), OutOfMemory>
    requires inside { len ≤ length (concat input.old) }
    requires readable { IsLast last.now }
    requires small { progress.old.position.offset + length (concat input.old) < 2 ^ 62 }
    ensures kept { OnOk result (kept_of (snapshot last.now progress.new tables.new input.new)
        ≡ lookahead_from segments (state_behind last.now progress.old.position.offset len
        (concat input.old))) }
    ensures at_front { OnOk result
        (IsStillAtFront (snapshot last.now progress.new tables.new input.new)) }
    ensures unfailed { OnOk result (progress.new.position.failed ≡ false) }
    ensures total { OnOk result (progress.new.position.offset + length (concat input.new)
        ≡ progress.old.position.offset + length (concat input.old)) }
    ensures pieces { OnOk result (input.new ≡ last_bytes (length (concat input.new)) input.old) }
    ensures err_progress { OnErr result (progress.new ≡ progress.old) }
    ensures err_tables { OnErr result (tables.new ≡ tables.old) }
    ensures err_input { OnErr result (input.new ≡ input.old) }
{
    let next_state = leave_on(alloc, last, progress.position.offset, len, input)?;
    enter(next_state, progress, tables, input);
    Ok(())
}

/// A fault was taken: no byte is kept.
fn fail_on(progress: &mut Progress, input: &mut Chunks, fault: StreamFault, at: u64) -> SegmentNext
    requires { progress.old.position.offset + at < 2 ^ 64 }
    ensures item { answer_item result ≡ Some (FaultItem fault (progress.old.position.offset + at)) }
    ensures progress { progress.new ≡ record {
      position = record {
        mode = progress.old.position.mode;
        offset = progress.old.position.offset;
        failed = true;
      };
      from = 0;
      first = progress.old.first;
      ready = progress.old.ready;
      want = NEVER;
    } }
    ensures input { input.new ≡ pieces_without_first (length (concat input.old)) input.old }
{
    let offset = progress.position.offset + at;
    let all = input.len();
    input.drop_front(all);
    progress.position.failed = true;
    progress.from = 0;
    progress.want = NEVER;
    SegmentNext::Fault { fault, offset }
}

/// Takes the next item. An `Err` changes nothing.
pub(crate) fn next_on(
    alloc: Global,
    last: &mut Option<Presentation>,
    progress: &mut Progress,
    tables: &mut Tables,
    input: &mut Chunks,
) -> Result<SegmentNext, OutOfMemory>
    requires at_front { IsStillAtFront (snapshot last.old progress.old tables.old input.old) }
    requires emptied { IsEmptied progress.old (concat input.old) }
    requires readable { IsLast last.old }
    requires none_empty { HasNoEmptyPiece input.old }
    ensures item { IfOk result (λ x. answer_item x
        ≡ first_item segments (kept_of (snapshot last.old progress.old tables.old input.old))) }
    ensures kept { OnOk result (kept_of (snapshot last.new progress.new tables.new input.new)
        ≡ after_first segments (kept_of (snapshot last.old progress.old tables.old input.old))) }
    ensures last { IfOk result (λ x. last.new ≡ latest_after_any last.old (answer_item x)) }
    ensures readable { IsLast last.new }
    ensures at_front { OnOk result
        (IsStillAtFront (snapshot last.new progress.new tables.new input.new)) }
    ensures emptied { OnOk result (IsEmptied progress.new (concat input.new)) }
    ensures total { OnOk result (progress.new.position.offset + length (concat input.new)
        ≤ progress.old.position.offset + length (concat input.old)) }
    ensures pieces { OnOk result (input.new ≡ last_bytes (length (concat input.new)) input.old) }
    ensures err_last { OnErr result (last.new ≡ last.old) }
    ensures err_progress { OnErr result (progress.new ≡ progress.old) }
    ensures err_tables { OnErr result (tables.new ≡ tables.old) }
    ensures err_input { OnErr result (input.new ≡ input.old) }
{
    if progress.ready > 0 {
        let (frame, offset) = take_frame(progress, tables, input)?;
        return Ok(SegmentNext::Frame(frame, offset));
    }
    match pending_item(alloc, last, progress, tables, input)? {
        PendingItem::Dry => Ok(SegmentNext::Dry),
        PendingItem::Init(presentation, len) => {
            let offset = progress.position.offset;
            let latest = Some(presentation.copy()?);
            pass_item(alloc, &latest, progress, tables, input, len)?;
            *last = latest;
            Ok(SegmentNext::Init(presentation, offset))
        }
        PendingItem::End(end) => {
            pass_item(alloc, last, progress, tables, input, end)?;
            Ok(SegmentNext::SegmentEnd)
        }
        PendingItem::Fault(fault, at) => Ok(fail_on(progress, input, fault, at)),
    }
}
