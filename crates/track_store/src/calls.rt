//! Calls of a store as values, so that laws can speak of lists of them.

ghost use Rattle.std.specs.Prelude.{◌≡◌, ◌≤◌, OnOk, OnErr};
ghost use Rattle.track_store.specs.Calls.{IsAllowedChange, IsGiven, IsReserve, answer_of, answer_view, frames_after, room_after};
ghost use Rattle.track_store.specs.Frames.{IsAscending};

use crate::{FrameStore, Stored};
use mse_base::{Moment, OutOfMemory, Ranges, Span, Ticks};

/// A call that may change a store: its frames or its room.
#[derive(Drop)]
pub enum StoreChange {
    Reserve(usize),
    Add(Stored),
    Cut(usize, Ticks),
    RemoveAt(usize),
    RemoveWhereTime(Ticks, Moment, u64),
}

/// A call that looks something up in a store.
#[derive(Drop)]
pub enum StoreLook {
    Len,
    Get(usize),
    PlaceOf(u64),
    GroupStart(usize),
    Overlapped(Ticks),
    SyncAtOrAfter(Moment),
    SpanHolding(Ticks),
    FirstSpanAfter(Ticks),
    LastSpanBefore(Ticks),
    LastSpan,
    HighestStart,
    HighestEnd,
    Used,
    CopyRanges,
}

/// What a look-up answers.
#[derive(Debug, Drop)]
pub enum StoreAnswer<'a> {
    Frames(usize),
    Bytes(u64),
    Frame(Option<&'a Stored>),
    Place(Option<usize>),
    Time(Option<Ticks>),
    Range(Option<Span>),
    Ranges(Result<Ranges, OutOfMemory>),
}

/// A call of a store.
#[derive(Drop)]
pub enum StoreCall {
    Change(StoreChange),
    Look(StoreLook),
}

/// Changes a store by a call. Only `Reserve` takes memory; where it finds none the frames are as
/// before, and no room is lost.
pub fn change<S: FrameStore>(store: &mut S, change: StoreChange) -> Result<(), OutOfMemory>
    requires { IsAllowedChange (S.spare store.old) change (S.frames store.old) }
    ensures frames { S.frames store.new ≡ frames_after change (S.frames store.old) }
    ensures room { OnOk result (room_after change (S.spare store.old) ≤ S.spare store.new) }
    ensures no_memory { OnErr result
        (IsReserve change × (S.spare store.old ≤ S.spare store.new)) }
    ensures gap { S.gap store.new ≡ S.gap store.old }
{
    match change {
        StoreChange::Reserve(n) => return store.reserve(n),
        StoreChange::Add(frame) => store.add(frame),
        StoreChange::Cut(i, dur) => store.cut(i, dur),
        StoreChange::RemoveAt(i) => store.remove_at(i),
        StoreChange::RemoveWhereTime(from, to, below) => store.remove_where_time(from, to, below),
    }
    Ok(())
}

/// Looks something up in a store by a call. Only `CopyRanges` takes memory.
pub fn look_up<'a, S: FrameStore>(store: &'a S, look: &StoreLook) -> StoreAnswer<'a>
    ensures ascending { IsAscending (S.frames store.now) }
    ensures answer { IsGiven (answer_of (S.gap store.now) look.now (S.frames store.now))
        (answer_view result) }
{
    // The proof reads off this that the serials ascend.
    store.serials_ascend();
    match *look {
        StoreLook::Len => StoreAnswer::Frames(store.len()),
        StoreLook::Get(i) => StoreAnswer::Frame(store.get(i)),
        StoreLook::PlaceOf(serial) => StoreAnswer::Place(store.place_of(serial)),
        StoreLook::GroupStart(i) => StoreAnswer::Place(store.group_start(i)),
        StoreLook::Overlapped(t) => StoreAnswer::Place(store.overlapped(t)),
        StoreLook::SyncAtOrAfter(t) => StoreAnswer::Time(store.sync_at_or_after(t)),
        StoreLook::SpanHolding(t) => StoreAnswer::Range(store.span_holding(t)),
        StoreLook::FirstSpanAfter(t) => StoreAnswer::Range(store.first_span_after(t)),
        StoreLook::LastSpanBefore(t) => StoreAnswer::Range(store.last_span_before(t)),
        StoreLook::LastSpan => StoreAnswer::Range(store.last_span()),
        StoreLook::HighestStart => StoreAnswer::Time(store.highest_start()),
        StoreLook::HighestEnd => StoreAnswer::Time(store.highest_end()),
        StoreLook::Used => StoreAnswer::Bytes(store.used()),
        StoreLook::CopyRanges => StoreAnswer::Ranges(store.copy_ranges()),
    }
}
