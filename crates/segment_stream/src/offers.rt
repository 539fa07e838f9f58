ghost use Rattle.std.specs.Prelude.{◌≡◌, ◌-◌, drop, ◌+◌, ◌≤◌, ◌<◌, ◌^◌, length, Option, IfOk, OnOk, OnErr};
ghost use Rattle.std.specs.List.{concat};
ghost use Rattle.mse_base.specs.declared.track.Presentation.{Presentation};
ghost use Rattle.input_chunks.specs.Pieces.{pieces_with, pieces_without_last, pieces_without_first};
ghost use Rattle.segment_stream.specs.declared.progress.Tables.{Tables};
ghost use Rattle.segment_stream.specs.Kept.{IsStillBelowWant, IsConsistent, IsStillAtFront, IsEmptied, IsFoundWith, IsLast, kept_of, snapshot};

use crate::moves::{NEVER, run_on};
use crate::progress::{Progress, Tables};
use input_chunks::Chunks;
use mse_base::{Bytes, OutOfMemory, Presentation};
use std::alloc::Global;

/// The place that lets go of all that is in the input.
fn past_all(progress: Progress, len: usize) -> Progress
    ensures { result ≡ record {
      position = progress.position;
      from = len;
      first = progress.first;
      ready = progress.ready;
      want = NEVER;
    } }
{
    Progress {
        position: progress.position,
        from: len,
        first: progress.first,
        ready: progress.ready,
        want: NEVER,
    }
}

/// Appends bytes to the input, which takes over their memory, and finds how far the parser comes. An `Err` leaves the
/// input; and whatever comes of it, the old place sees what it saw.
pub(crate) fn offer_on(
    alloc: Global,
    last: &Option<Presentation>,
    progress: Progress,
    tables: &mut Tables,
    input: &mut Chunks,
    bytes: Bytes,
) -> Result<Progress, OutOfMemory>
    requires at_front { IsStillAtFront (snapshot last.now progress tables.old input.old) }
    requires emptied { IsEmptied progress (concat input.old) }
    requires readable { IsLast last.now }
    requires countable { progress.position.offset + (length (concat input.old) + length bytes)
        < 2 ^ 62 }
    ensures found { IfOk result (λ r. IsFoundWith (snapshot last.now progress tables.new input.old)
        (snapshot last.now r tables.new input.new) bytes) }
    ensures emptied { IfOk result (λ r. IsEmptied r (drop r.from (concat input.new))) }
    ensures pieces { OnOk result (input.new ≡ pieces_with bytes input.old) }
    ensures back { OnOk result (pieces_without_last (length bytes) input.new ≡ input.old) }
    ensures err { OnErr result (input.new ≡ input.old) }
    ensures as_before { kept_of (snapshot last.now progress tables.new input.old)
        ≡ kept_of (snapshot last.now progress tables.old input.old) }
    ensures at_front { IsStillAtFront (snapshot last.now progress tables.new input.old) }
{
    let len = bytes.len();
    input.push_bytes(bytes)?;
    if progress.position.failed {
        return Ok(past_all(progress, input.len()));
    }
    if (input.len() as u64) < progress.want {
        return Ok(progress);
    }
    match run_on(alloc, last, progress, tables, input) {
        Ok(next) => Ok(next),
        Err(e) => {
            input.drop_back(len);
            Err(e)
        }
    }
}

/// Puts in place what was found. It takes no memory.
pub(crate) fn accept_on(progress: Progress, input: &mut Chunks) -> Progress
    requires { progress.from ≤ length (concat input.old) }
    ensures at_front { (last : Option Presentation) (tables : Tables) →
        IsConsistent progress tables (concat input.old) →
        IsStillBelowWant (snapshot last progress tables input.old) →
        IsStillAtFront (snapshot last result tables input.new) }
    ensures kept { (last : Option Presentation) (tables : Tables) →
        kept_of (snapshot last result tables input.new)
        ≡ kept_of (snapshot last progress tables input.old) }
    ensures progress { result ≡ record {
      position = progress.position;
      from = 0;
      first = progress.first;
      ready = progress.ready;
      want = progress.want;
    } }
    ensures position { result.position ≡ progress.position }
    ensures ready { result.ready ≡ progress.ready }
    ensures pieces { input.new ≡ pieces_without_first progress.from input.old }
{
    input.drop_front(progress.from);
    Progress {
        position: progress.position,
        from: 0,
        first: progress.first,
        ready: progress.ready,
        want: progress.want,
    }
}
