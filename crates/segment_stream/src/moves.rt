ghost use Rattle.std.specs.Prelude.{◌≡◌, ◌+◌, ◌-◌, ◌≤◌, ◌<◌, ◌^◌, All, length, take, drop, Option, false, IfOk, IfSome, OnErr};
ghost use Rattle.std.specs.List.{concat};
ghost use Rattle.mse_base.specs.declared.track.Presentation.{Presentation};
ghost use Rattle.segment_walk.specs.Ranges.{HasAscendingRanges};
ghost use Rattle.segment_stream.specs.declared.progress.Tables.{Tables};
ghost use Rattle.segment_stream.specs.Kept.{kept_of, kept_with_lookahead, IsStillBelowWant, IsConsistent, IsFragmentCounted, IsActive, IsLast, IsMoveResult, IsPlan, AreTablesKept, IsOrdered, IsUnchangedSince, fragment_in, next_step_of, ready_behind, in_mode, snapshot, end_of_input, with_taken};

use crate::progress::{MoveResult, ParserPosition, Progress, Tables};
use bmff_fragment::{MoofError, Slot, read_moof};
use input_chunks::Chunks;
use mse_base::{OutOfMemory, Phase, Presentation};
use segment_walk::{BoxStep, DataRange, Fragment, ParserMode, WalkPlace, count_ready, step};
use std::alloc::Global;

/// More bytes change nothing.
pub(crate) const NEVER: u64 = u64::MAX;

/// Passes over the bytes of a box that are there.
fn pass_over(at: Progress, to: Phase, len_left: u64, input: &Chunks) -> MoveResult
    requires inside { at.from ≤ length (concat input.now) }
    requires none_ready { at.ready ≡ 0 }
    requires small { at.position.offset + (length (concat input.now) - at.from) < 2 ^ 62 }
    requires skipping { at.position.mode ≡ ParserMode.Skipping to len_left }
    requires unfailed { at.position.failed ≡ false }
    ensures { (last : Option Presentation) (tables : Tables) →
        IsMoveResult (snapshot last at tables input.now) tables result }
{
    let there = (input.len() - at.from) as u64;
    if there == 0 && len_left > 0 {
        return MoveResult::Rest(0);
    }
    if there < len_left {
        let position = ParserPosition {
            mode: ParserMode::Skipping {
                to,
                left: len_left - there,
            },
            offset: at.position.offset + there,
            failed: false,
        };
        return MoveResult::Go(Progress {
            position,
            from: input.len(),
            want: 0,
            ..at
        });
    }
    let position = ParserPosition {
        mode: ParserMode::Between(to),
        offset: at.position.offset + len_left,
        failed: false,
    };
    MoveResult::Go(Progress {
        position,
        from: at.from + len_left as usize,
        want: 0,
        ..at
    })
}

/// The slots of a whole moof; `None` where it has a fault, or nothing to be read with.
fn plan(
    alloc: Global,
    last: &Option<Presentation>,
    from: usize,
    len: usize,
    input: &Chunks,
) -> Result<Option<Vec<Slot>>, OutOfMemory>
    requires inside { from + len ≤ length (concat input.now) }
    requires readable { IsLast last.now }
    ensures plan { IfOk result (IsPlan last.now (take len (drop from (concat input.now)))) }
    ensures ordered { IfOk result (λ found. IfSome found (λ slots. All IsOrdered slots.items)) }
    ensures few { IfOk result (λ found. IfSome found (λ slots. length slots.items ≤ 2 ^ 20)) }
{
    let Some(last) = last else {
        return Ok(None);
    };
    let moof = input.copy(from, len)?;
    match read_moof(alloc, moof.as_slice(), last) {
        Ok(plan) => Ok(Some(plan.slots.into_vec())),
        Err(MoofError::OutOfMemory) => Err(OutOfMemory),
        Err(MoofError::Fault(_)) => Ok(None),
    }
}

/// A movie fragment whose first box behind the moof stands at a place: none of its slots was taken.
fn new_fragment(place: u64) -> Fragment
    ensures { result ≡ record { taken = 0; known = 0; end = 0; place = WalkPlace.AtBox place } }
{
    Fragment {
        taken: 0,
        known: 0,
        end: 0,
        place: WalkPlace::AtBox(place),
    }
}

fn fragment(mode: ParserMode) -> Fragment
    ensures { result ≡ fragment_in mode }
{
    match mode {
        ParserMode::Within(fragment) => fragment,
        ParserMode::Between(_) => new_fragment(0),
        ParserMode::Skipping { .. } => new_fragment(0),
    }
}

/// What the parser does next at a place.
pub(crate) fn next_step(
    last: &Option<Presentation>,
    at: Progress,
    tables: &Tables,
    input: &Chunks,
) -> BoxStep
    requires inside { at.from ≤ length (concat input.now) }
    requires ascending { HasAscendingRanges at.position.mode tables.now.known.items }
    ensures { result ≡ next_step_of (snapshot last.now at tables.now input.now) }
{
    step(
        last.is_some(),
        at.position.mode,
        tables.slots.as_slice(),
        tables.known.as_slice(),
        input,
        at.from,
    )
}

/// The same place, in another mode.
fn in_mode(at: Progress, mode: ParserMode) -> Progress
    ensures { result ≡ in_mode at mode }
{
    let position = ParserPosition {
        mode,
        offset: at.position.offset,
        failed: false,
    };
    Progress {
        position,
        want: 0,
        ..at
    }
}

/// Behind a moof of `len` bytes: its movie fragment is open, and no frame is ready.
fn behind_moof(at: Progress, len: u64) -> Progress
    ensures { result ≡ record (in_mode at (ParserMode.Within (record {
      taken = 0;
      known = 0;
      end = 0;
      place = WalkPlace.AtBox len;
    }))) { first = 0; ready = 0 } }
{
    let next = in_mode(at, ParserMode::Within(new_fragment(len)));
    Progress {
        first: 0,
        ready: 0,
        ..next
    }
}

/// The same place, where the next box of the open movie fragment stands at `place`.
fn before_box(at: Progress, fragment: Fragment, place: u64) -> Progress
    ensures { result ≡ in_mode at
        (ParserMode.Within (record fragment { place = WalkPlace.AtBox place })) }
{
    let fragment = Fragment {
        place: WalkPlace::AtBox(place),
        ..fragment
    };
    in_mode(at, ParserMode::Within(fragment))
}

/// Behind the frame of the next slot, and those of the slots behind it that are ready too.
fn behind_frames(at: Progress, fragment: Fragment, tables: &Tables, input: &Chunks) -> Progress
    requires inside { at.from ≤ length (concat input.now) }
    requires counted { IsFragmentCounted fragment tables.now at.first at.ready }
    requires there { fragment.taken < length tables.now.slots.items }
    ensures { result ≡ with_taken at fragment
        (1 + ready_behind (length (concat input.now) - at.from) fragment tables.now) }
{
    let (_, slots) = tables.slots.as_slice().split_at(fragment.taken + 1);
    let (ranges, _) = tables.known.as_slice().split_at(fragment.known);
    let there = (input.len() - at.from) as u64;
    let count = 1 + count_ready(slots, ranges, there);
    let fragment = Fragment {
        taken: fragment.taken + count,
        ..fragment
    };
    let next = in_mode(at, ParserMode::Within(fragment));
    Progress {
        ready: at.ready + count,
        ..next
    }
}

/// One move of the parser by its next step.
fn act_on(
    alloc: Global,
    last: &Option<Presentation>,
    at: Progress,
    tables: &mut Tables,
    input: &Chunks,
) -> Result<MoveResult, OutOfMemory>
    requires consistent { IsConsistent at tables.old (concat input.now) }
    requires readable { IsLast last.now }
    requires unfailed { at.position.failed ≡ false }
    requires active { IsActive at.position.mode }
    ensures ok { IfOk result (IsMoveResult (snapshot last.now at tables.old input.now) tables.new) }
    ensures err { OnErr result (AreTablesKept at.position.mode tables.old tables.new) }
{
    let open = fragment(at.position.mode);
    match next_step(last, at, tables, input) {
        BoxStep::Wait(want) => Ok(MoveResult::Rest(want)),
        BoxStep::Skip { to, len } => Ok(MoveResult::Go(in_mode(
            at,
            ParserMode::Skipping { to, left: len },
        ))),
        BoxStep::ReadMoof(len) => {
            let Some(slots) = plan(alloc, last, at.from, len as usize, input)? else {
                return Ok(MoveResult::Rest(NEVER));
            };
            tables.slots = slots;
            tables.known.clear();
            Ok(MoveResult::Go(behind_moof(at, len)))
        }
        BoxStep::EnterData { start, end } => {
            tables.known.truncate(open.known);
            tables.known.push(DataRange { start, end })?;
            let fragment = Fragment {
                known: open.known + 1,
                end,
                place: WalkPlace::InData(end),
                ..open
            };
            Ok(MoveResult::Go(in_mode(at, ParserMode::Within(fragment))))
        }
        BoxStep::NextBox(place) => Ok(MoveResult::Go(before_box(at, open, place))),
        BoxStep::GiveFrame(_) => Ok(MoveResult::Go(behind_frames(at, open, tables, input))),
        BoxStep::ReadInit(_) => Ok(MoveResult::Rest(NEVER)),
        BoxStep::EndSegment(_) => Ok(MoveResult::Rest(NEVER)),
        BoxStep::Fail(_, _) => Ok(MoveResult::Rest(NEVER)),
    }
}

/// One move of the parser, but for an item that is no frame. Only a moof takes memory, and an mdat a place in
/// the table.
fn move_on(
    alloc: Global,
    last: &Option<Presentation>,
    at: Progress,
    tables: &mut Tables,
    input: &Chunks,
) -> Result<MoveResult, OutOfMemory>
    requires consistent { IsConsistent at tables.old (concat input.now) }
    requires readable { IsLast last.now }
    ensures ok { IfOk result (IsMoveResult (snapshot last.now at tables.old input.now) tables.new) }
    ensures err { OnErr result (AreTablesKept at.position.mode tables.old tables.new) }
{
    if at.position.failed {
        return Ok(MoveResult::Rest(NEVER));
    }
    match at.position.mode {
        ParserMode::Skipping { to, left: len_left } => Ok(pass_over(at, to, len_left, input)),
        ParserMode::Between(_) => act_on(alloc, last, at, tables, input),
        ParserMode::Within(_) => act_on(alloc, last, at, tables, input),
    }
}

/// Runs the parser on as far as the bytes go. An `Err` leaves all that the place sees.
pub(crate) fn run_on(
    alloc: Global,
    last: &Option<Presentation>,
    start: Progress,
    tables: &mut Tables,
    input: &Chunks,
) -> Result<Progress, OutOfMemory>
    requires consistent { IsConsistent start tables.old (concat input.now) }
    requires readable { IsLast last.now }
    ensures kept { IfOk result (λ r. kept_of (snapshot last.now r tables.new input.now)
        ≡ kept_with_lookahead (kept_of (snapshot last.now start tables.old input.now))) }
    ensures consistent { IfOk result (λ r. IsConsistent r tables.new (concat input.now)) }
    ensures since { IfOk result (λ r.
        IsUnchangedSince start.position.mode r.position.mode tables.old tables.new) }
    ensures total { IfOk result (λ r. end_of_input (snapshot last.now r tables.new input.now)
        ≡ end_of_input (snapshot last.now start tables.old input.now)) }
    ensures same_failed { IfOk result (λ r. r.position.failed ≡ start.position.failed) }
    ensures waits { IfOk result (λ r. IsStillBelowWant (snapshot last.now r tables.new input.now)) }
    ensures err { OnErr result (AreTablesKept start.position.mode tables.old tables.new) }
{
    let mut at = start;
    'moves: loop {
        let move_result = move_on(alloc, last, at, tables, input)?;
        match move_result {
            MoveResult::Rest(want) => return Ok(Progress { want, ..at }),
            MoveResult::Go(next) => at = next,
        }
    }
}
