//! Sessions for C: the calls that take a handle.

ghost use Rattle.std.specs.Prelude.{◌≡◌, ◌≢◌, ◌<◌, ◌+◌, ◌^◌, min, ◌↔◌, ◌⊎◌, None, IsSomeAnd, OnOk, OnErr, length};
ghost use Rattle.mseplay_c.specs.Looks.{ArePut, IsRangeTold, IsTrackTold, ranges_of};
ghost use Rattle.mseplay_c.specs.Sessions.{ByHandle, IsBlock, IsBufferLookCall, IsChange, IsInRoom, IsLookCall, IsNext, IsOpened, IsStepCall, name_number, next_numbers, with_blob, without_front_blobs};

use crate::handle::{Handle, Session};
use crate::look::{
    BufferLook, Look, TickRange, TrackLook, buffer_look_of, look_of, put_ranges, track_look_of,
};
use crate::put::put;
use call_script::StepLine;
use live_session::{LiveSession, StepResult};
use mse_base::Ticks;
use mse_calls::{BufferAttributes, Name};
use std::alloc::Global;

/// The numbers of `mseplay_status` of clients/c/mseplay.h.
const DONE: u8 = 0;

const NO_STEP: u8 = 2;

const MEMORY: u8 = 5;

const NO_BYTES: u8 = 8;

/// The status of a call whose handle has no session.
const NO_SESSION: u8 = 10;

/// The most bytes that a quota may be, and the most ticks that a gap may be.
const MOST: u64 = 1 << 40;

/// The number of a name: its place in the list of docs/SCRIPTS.md, "Lines of calls and events", from 1 on.
fn name_number(name: Name) -> u8
    ensures { result ≡ name_number name }
{
    match name {
        Name::InvalidState => 1,
        Name::NotSupported => 2,
        Name::QuotaExceeded => 3,
        Name::TypeError => 4,
        Name::NotFound => 5,
        Name::NoSuchBuffer => 6,
        Name::NoSuchBytes => 7,
    }
}

/// The number of the step that comes next, and the buffer that it works on.
fn next_numbers(next: Option<StepLine>) -> (u8, u32)
    ensures { result ≡ next_numbers next }
{
    match next {
        Some(StepLine::Fire) => (1, 0),
        Some(StepLine::Work(k)) => (2, k),
        Some(StepLine::Element) => (3, 0),
        _ => (0, 0),
    }
}

/// The status of a call that finds memory or does not.
fn status_of<E: Drop>(done: Result<(), E>) -> u8
    ensures ok { OnOk done (result ≡ 0) }
    ensures err { OnErr done (result ≡ 5) }
{
    match done {
        Ok(()) => DONE,
        Err(_) => MEMORY,
    }
}

/// Shows what the session printed last.
fn show(live: &Session, room: &mut [u8], written: &mut usize)
    ensures { IsInRoom live.now.sink.written written.new room.old room.new }
{
    let text = live.printed();
    put(text, room);
    *written = text.len();
}

/// Opens a session, whose buffers hold at most `quota` bytes each, 1 to `2^40`, and have ranges that join across gaps of at
/// most `gap` ticks, 0 to `2^40`. A session that the handle had is closed.
#[unsafe(no_mangle)]
pub extern "C" fn mseplay_open(alloc: Global, quota: u64, gap: u64, session: &mut Handle) -> u8
    ensures opened { result ≡ 0 → IsSomeAnd session.new.session (IsOpened quota gap) }
    ensures no_settings { (result ≡ 2)
        ↔ ((quota ≡ 0) ⊎ (2 ^ 40 < quota) ⊎ (2 ^ 40 < gap)) }
    ensures not_opened { result ≢ 0 → session.new ≡ session.old }
    ensures answer { (result ≡ 0) ⊎ (result ≡ 2) ⊎ (result ≡ 5) }
{
    if quota == 0 || quota > MOST || gap > MOST {
        return NO_STEP;
    }
    let Some(gap) = Ticks::new(i128::from(gap)) else {
        return NO_STEP;
    };
    let Ok(made) = Box::new(alloc, LiveSession::new(alloc, quota, gap)) else {
        return MEMORY;
    };
    *session = Handle::of(made);
    DONE
}

/// Hands over the bytes of the next blob.
#[unsafe(no_mangle)]
pub extern "C" fn mseplay_give(alloc: Global, session: &mut Handle, bytes: &[u8]) -> u8
    ensures { ByHandle session.old.session session.new.session (result ≡ 10)
        (λ old new. IsChange result old new (with_blob bytes.now old)) }
{
    let Some(live) = session.take(alloc) else {
        return NO_SESSION;
    };
    let mut live = live;
    let status = status_of(live.hand_over(bytes));
    *session = Handle::of(live);
    status
}

/// Forgets the blobs with numbers below `before`.
#[unsafe(no_mangle)]
pub extern "C" fn mseplay_forget(alloc: Global, session: &mut Handle, before: usize) -> u8
    ensures { ByHandle session.old.session session.new.session (result ≡ 10)
        (λ old new. IsChange result old new (without_front_blobs before old)) }
{
    let Some(live) = session.take(alloc) else {
        return NO_SESSION;
    };
    let mut live = live;
    let status = status_of(live.forget_before(before));
    *session = Handle::of(live);
    status
}

/// Does the step of a line, and tells by which number its call was refused, 0 where it was not.
fn step(live: &mut Session, line: &[u8], refused: &mut u8) -> u8
    ensures { IsStepCall line.now result refused.new live.old live.new }
{
    *refused = 0;
    match live.step(line) {
        StepResult::Done(None) => DONE,
        StepResult::Done(Some(name)) => {
            *refused = name_number(name);
            DONE
        }
        StepResult::NoStep => NO_STEP,
        StepResult::NoBytes => NO_BYTES,
        StepResult::Memory => MEMORY,
    }
}

/// Does the step of a line. What it prints goes into the room, as far as there is room; `written` is how many bytes it prints,
/// and `refused` the number of the name by which its call was refused, 0 where it was not.
#[unsafe(no_mangle)]
pub extern "C" fn mseplay_step(
    alloc: Global,
    session: &mut Handle,
    line: &[u8],
    room: &mut [u8],
    written: &mut usize,
    refused: &mut u8,
) -> u8
    ensures { ByHandle session.old.session session.new.session
        ((result ≡ 10) × (refused.new ≡ 0) × (written.new ≡ 0) × (room.new ≡ room.old))
        (λ old new. IsStepCall line.now result refused.new old new
        × IsInRoom new.sink.written written.new room.old room.new) }
{
    let Some(live) = session.take(alloc) else {
        *refused = 0;
        *written = 0;
        return NO_SESSION;
    };
    let mut live = live;
    let status = step(&mut live, line, refused);
    show(&live, room, written);
    *session = Handle::of(live);
    status
}

/// What the last step or block printed, once more.
#[unsafe(no_mangle)]
pub extern "C" fn mseplay_printed(alloc: Global, session: &mut Handle, room: &mut [u8])
    ensures { ByHandle session.old.session session.new.session (room.new ≡ room.old)
        (λ old new. (new ≡ old)
        × IsInRoom old.sink.written (length old.sink.written) room.old room.new) }
{
    let Some(live) = session.take(alloc) else {
        return;
    };
    let mut written = 0;
    show(&live, room, &mut written);
    *session = Handle::of(live);
}

fn next(live: &Session, buffer: &mut u32) -> u8
    ensures { IsNext result buffer.new buffer.old live.now }
{
    match live.next() {
        Ok(next) => {
            let (number, k) = next_numbers(next);
            *buffer = k;
            number
        }
        Err(_) => MEMORY,
    }
}

/// The step that a drain does next: 0 none, 1 `fire`, 2 `work` of the buffer, 3 `element`; 5 where the session has ended.
#[unsafe(no_mangle)]
pub extern "C" fn mseplay_next(alloc: Global, session: &mut Handle, buffer: &mut u32) -> u8
    ensures { ByHandle session.old.session session.new.session
        ((result ≡ 10) × (buffer.new ≡ buffer.old))
        (λ old new. (new ≡ old) × IsNext result buffer.new buffer.old old) }
{
    let Some(live) = session.take(alloc) else {
        return NO_SESSION;
    };
    let answer = next(&live, buffer);
    *session = Handle::of(live);
    answer
}

fn look(live: &Session, found: &mut Look, ranges: &mut [TickRange]) -> u8
    ensures { IsLookCall result live.now found.old found.new ranges.old ranges.new }
{
    let Ok(attributes) = live.attributes() else {
        return MEMORY;
    };
    *found = look_of(&attributes);
    put_ranges(&attributes.buffered, ranges, 0);
    DONE
}

/// What a page reads of the source and of the element. Its buffered ranges go into the room, as many as go in.
#[unsafe(no_mangle)]
pub extern "C" fn mseplay_look(
    alloc: Global,
    session: &mut Handle,
    found: &mut Look,
    ranges: &mut [TickRange],
) -> u8
    ensures { ByHandle session.old.session session.new.session
        ((result ≡ 10) × (found.new ≡ found.old) × (ranges.new ≡ ranges.old))
        (λ old new. (new ≡ old)
        × IsLookCall result old found.old found.new ranges.old ranges.new) }
{
    let Some(live) = session.take(alloc) else {
        return NO_SESSION;
    };
    let status = look(&live, found, ranges);
    *session = Handle::of(live);
    status
}

/// Puts the tracks of a buffer, as many as go in.
fn put_tracks(found: &BufferAttributes, room: &mut [TrackLook])
    ensures { ArePut IsTrackTold 0 found.now.view.tracks room.old room.new }
{
    for i in 0..found.view.tracks.len() {
        let Some(track) = found.view.tracks.get(i) else {
            return;
        };
        if i < room.len() {
            room[i] = track_look_of(track);
        }
    }
}

/// The place behind so many elements, or the end of the room.
fn place_behind(from: usize, count: usize, room: usize) -> usize
    ensures { result ≡ min (from + count) room }
{
    from.saturating_add(count).min(room)
}

/// Puts the ranges of a buffer, and behind them those of each track, as many as go in.
fn put_all_ranges(found: &BufferAttributes, room: &mut [TickRange])
    ensures { ArePut IsRangeTold 0 (ranges_of found.now) room.old room.new }
{
    put_ranges(&found.view.ranges, room, 0);
    let mut from = found.view.ranges.len();
    for i in 0..found.view.tracks.len() {
        let Some(track) = found.view.tracks.get(i) else {
            return;
        };
        put_ranges(&track.ranges, room, from);
        from = place_behind(from, track.ranges.len(), room.len());
    }
}

fn look_at(
    live: &Session,
    number: u32,
    found: &mut BufferLook,
    tracks: &mut [TrackLook],
    ranges: &mut [TickRange],
) -> u8
    ensures { IsBufferLookCall number result live.now
        (record { look = found.old; tracks = tracks.old; ranges = ranges.old })
        (record { look = found.new; tracks = tracks.new; ranges = ranges.new }) }
{
    match live.buffer_attributes(number) {
        Ok(Some(attributes)) => {
            *found = buffer_look_of(&attributes);
            put_tracks(&attributes, tracks);
            put_all_ranges(&attributes, ranges);
            DONE
        }
        Ok(None) => NO_STEP,
        Err(_) => MEMORY,
    }
}

/// What a page reads of the source buffer of a number; 2 where it is not in the list of source buffers. Its tracks go into
/// their room, and its ranges, then those of each track, into theirs, as many as go in.
#[unsafe(no_mangle)]
pub extern "C" fn mseplay_look_at(
    alloc: Global,
    session: &mut Handle,
    number: u32,
    found: &mut BufferLook,
    tracks: &mut [TrackLook],
    ranges: &mut [TickRange],
) -> u8
    ensures { ByHandle session.old.session session.new.session
        ((result ≡ 10) × (found.new ≡ found.old) × (tracks.new ≡ tracks.old)
        × (ranges.new ≡ ranges.old))
        (λ old new. (new ≡ old) × IsBufferLookCall number result old
        (record { look = found.old; tracks = tracks.old; ranges = ranges.old })
        (record { look = found.new; tracks = tracks.new; ranges = ranges.new })) }
{
    let Some(live) = session.take(alloc) else {
        return NO_SESSION;
    };
    let status = look_at(&live, number, found, tracks, ranges);
    *session = Handle::of(live);
    status
}

fn block(live: &mut Session) -> u8
    ensures { IsBlock result live.old live.new }
{
    status_of(live.block())
}

/// Prints the block that closes a script of the steps so far. The session goes on.
#[unsafe(no_mangle)]
pub extern "C" fn mseplay_block(
    alloc: Global,
    session: &mut Handle,
    room: &mut [u8],
    written: &mut usize,
) -> u8
    ensures { ByHandle session.old.session session.new.session
        ((result ≡ 10) × (written.new ≡ 0) × (room.new ≡ room.old))
        (λ old new. IsBlock result old new
        × IsInRoom new.sink.written written.new room.old room.new) }
{
    let Some(live) = session.take(alloc) else {
        *written = 0;
        return NO_SESSION;
    };
    let mut live = live;
    let status = block(&mut live);
    show(&live, room, written);
    *session = Handle::of(live);
    status
}

/// Gives back the memory of a session. The handle has none then.
#[unsafe(no_mangle)]
pub extern "C" fn mseplay_close(alloc: Global, session: &mut Handle)
    ensures { session.new.session ≡ None }
{
    drop(session.take(alloc));
}
