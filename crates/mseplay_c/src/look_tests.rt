//! Looks at a session, as C makes them.

use crate::handle::Handle;
use crate::look::{BufferLook, Fault, Look, TickNumber, TickRange, Time, TrackLook};
use crate::sessions::{
    mseplay_close, mseplay_forget, mseplay_give, mseplay_look, mseplay_look_at, mseplay_next,
    mseplay_open, mseplay_printed, mseplay_step,
};
use std::alloc::Global;

/// Two ADTS frames of ten bytes: 1,024 samples each, at 48,000 a second.
const FRAMES: [u8; 20] = [
    0xff, 0xf1, 0x4c, 0x80, 0x01, 0x5f, 0xfc, 0, 0, 0, //
    0xff, 0xf1, 0x4c, 0x80, 0x01, 0x5f, 0xfc, 0, 0, 0,
];

const ZERO: TickNumber = TickNumber { low: 0, high: 0 };

const NO_TIME: Time = Time {
    kind: 0,
    ticks: ZERO,
};

const NO_RANGE: TickRange = TickRange {
    start: ZERO,
    end: ZERO,
};

const NO_TRACK: TrackLook = TrackLook {
    id: 0,
    kind: 9,
    codec: [0; 4],
    frames: 0,
    ranges: 0,
};

const NO_BUFFER: BufferLook = BufferLook {
    updating: 9,
    active: 9,
    mode: 9,
    phase: 9,
    timestamp_offset: ZERO,
    append_window_start: ZERO,
    append_window_end: NO_TIME,
    held: 9,
    used: 9,
    ranges: 9,
    tracks: 9,
};

const NO_FAULT: Fault = Fault {
    number: 9,
    inner: 9,
    missing: [9; 4],
    buffer: 9,
    offset: 9,
};

const NO_LOOK: Look = Look {
    source: 9,
    level: 9,
    paused: 9,
    seeking: 9,
    ended: 9,
    error: 9,
    is_seekable: 9,
    duration: NO_TIME,
    position: ZERO,
    start_position: ZERO,
    seekable: NO_RANGE,
    ranges: 9,
    made: 9,
    fault: NO_FAULT,
};

fn step(alloc: Global, handle: &mut Handle, line: &[u8]) -> u8 {
    let (mut written, mut refused) = (0, 0);
    mseplay_step(alloc, handle, line, &mut [], &mut written, &mut refused)
}

/// Whether the line that was printed last begins with this front.
fn is_printed(alloc: Global, handle: &mut Handle, front: &[u8]) -> bool {
    let mut room = [0u8; 10];
    mseplay_printed(alloc, handle, &mut room);
    room.starts_with(front)
}

/// The number of the next step, where it is one of buffer 0.
fn next(alloc: Global, handle: &mut Handle) -> u8 {
    let mut buffer = 9;
    let number = mseplay_next(alloc, handle, &mut buffer);
    if buffer == 0 { number } else { 9 }
}

/// Whether buffer 0 has one track of two frames, and one range, which is the track's too.
fn is_stored(alloc: Global, handle: &mut Handle) -> bool {
    let mut found = NO_BUFFER;
    let mut tracks = [NO_TRACK; 2];
    let mut ranges = [NO_RANGE; 3];
    let status = mseplay_look_at(alloc, handle, 0, &mut found, &mut tracks, &mut ranges);
    let is_found = status == 0 && found.ranges == 1 && found.tracks == 1 && found.used == 20;
    let is_track = tracks[0].kind == 1 && tracks[0].frames == 2 && tracks[0].ranges == 1;
    let end = 2 * 1_024 * 2_940_000;
    is_found && is_track && ranges[0].end.low == end && ranges[1].end.low == end
}

/// Whether the source is open, and the element has one range.
fn is_opened(alloc: Global, handle: &mut Handle) -> bool {
    let mut found = NO_LOOK;
    let mut ranges = [NO_RANGE; 1];
    let status = mseplay_look(alloc, handle, &mut found, &mut ranges);
    let is_whole = found.made == 1 && found.fault.number == 0;
    status == 0 && found.source == 1 && found.ranges == 1 && is_whole
}

#[test]
fn looks_at_what_is_stored(rt: HostRuntime) {
    let alloc = rt.alloc();
    let mut handle = Handle::none(alloc);
    assert!(rt; mseplay_open(alloc, 1_000_000, 0, &mut handle) == 0);
    assert!(rt; mseplay_give(alloc, &mut handle, &FRAMES) == 0);
    assert!(rt; step(alloc, &mut handle, b"attach") == 0);
    assert!(rt; is_printed(alloc, &mut handle, b"call attac"));
    assert!(rt; next(alloc, &mut handle) == 1);
    for line in &[&b"add audio/aac"[..], b"drain", b"append 0 0", b"fire"] {
        assert!(rt; step(alloc, &mut handle, line) == 0);
    }
    assert!(rt; next(alloc, &mut handle) == 2);
    assert!(rt; step(alloc, &mut handle, b"drain") == 0);
    assert!(rt; next(alloc, &mut handle) == 0);
    assert!(rt; is_stored(alloc, &mut handle));
    assert!(rt; is_opened(alloc, &mut handle));
    assert!(rt; mseplay_forget(alloc, &mut handle, 1) == 0);
    assert!(rt; step(alloc, &mut handle, b"append 0 0") == 8);
    mseplay_close(alloc, &mut handle);
}
