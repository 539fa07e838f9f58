//! Calls as C makes them.

use crate::handle::Handle;
use crate::sessions::{mseplay_block, mseplay_close, mseplay_give, mseplay_open, mseplay_step};
use crate::{ByteSlice, File, mseplay_run};
use std::alloc::Global;

/// The words of a call, its files, and the bytes of its room; its status, how many bytes are printed, and the front of
/// these.
type Row = (
    &'static [ByteSlice<'static>],
    &'static [File<'static>],
    usize,
    u8,
    usize,
    &'static [u8],
);

const MAKE: [ByteSlice<'static>; 2] = [ByteSlice { bytes: b"make" }, ByteSlice { bytes: b"1" }];

const PLAY: [ByteSlice<'static>; 2] = [
    ByteSlice { bytes: b"play" },
    ByteSlice { bytes: b"script" },
];

/// Words of which the second is no text.
const NO_TEXT: [ByteSlice<'static>; 2] = [
    ByteSlice { bytes: b"ranges" },
    ByteSlice { bytes: &[255] },
];

const NO_SCRIPT: File<'static> = File {
    name: b"script",
    bytes: b"steps = 1",
};

const SCRIPT: File<'static> = File {
    name: b"script",
    bytes: b"steps = []\n",
};

const CALLS: [Row; 5] = [
    (&MAKE, &[], 1000, 0, 161, b"made 1 bytes 1756 frames 30\n"),
    (&MAKE, &[], 3, 0, 161, b"mad"),
    // the first file of a name counts
    (
        &PLAY,
        &[NO_SCRIPT, SCRIPT],
        1000,
        2,
        24,
        b"error: script key steps\n",
    ),
    (&PLAY, &[SCRIPT], 1000, 0, 99, b"state source closed "),
    (&NO_TEXT, &[], 20, 1, 13, b"error: words\n"),
];

/// Makes the call, and tells whether what comes of it is what the row says.
fn is_made(alloc: Global, row: &Row) -> bool {
    let (words, files, len, status, count, front) = row;
    let mut room = [0u8; 1000];
    let mut written = 0;
    let found = match room.get_mut(..*len) {
        Some(room) => mseplay_run(alloc, words, files, room, &mut written),
        None => return false,
    };
    (found, written) == (*status, *count) && room.starts_with(front)
}

#[test]
fn prints_into_the_room(rt: HostRuntime) {
    for (i, row) in CALLS.iter().enumerate() {
        assert!(rt; is_made(rt.alloc(), row), "call {i}");
    }
}

/// A line of a session, and what it prints.
const STEPS: [(&[u8], u8, &[u8]); 6] = [
    (b"attach", 0, b"call attach: done\n"),
    (b"add video/mp4", 0, b"call add video/mp4: done\n"),
    (b"append 0 0", 8, b""),
    (b"nothing", 2, b""),
    (b"fire", 0, b"event source sourceopen\n"),
    (b"fire", 0, b"event sourcebuffers addsourcebuffer\n"),
];

fn is_stepped(handle: &mut Handle, alloc: Global, row: &(&[u8], u8, &[u8])) -> bool {
    let mut room = [0u8; 200];
    let mut written = 0;
    let mut refused = 0;
    let status = mseplay_step(alloc, handle, row.0, &mut room, &mut written, &mut refused);
    status == row.1 && written == row.2.len() && room.starts_with(row.2)
}

#[test]
fn steps_one_at_a_time(rt: HostRuntime) {
    let alloc = rt.alloc();
    let mut handle = Handle::none(alloc);
    assert!(rt; mseplay_open(alloc, 1000000, 0, &mut handle) == 0);
    for (i, row) in STEPS.iter().enumerate() {
        assert!(rt; is_stepped(&mut handle, alloc, row), "step {i}");
    }
    assert!(rt; mseplay_give(alloc, &mut handle, b"abcd") == 0);
    assert!(rt;
        is_stepped(
            &mut handle,
            alloc,
            &(b"append 0 0", 0, b"call append 0 0: done\n")
        )
    );
    let mut room = [0u8; 1000];
    let mut written = 0;
    let status = mseplay_block(alloc, &mut handle, &mut room, &mut written);
    assert!(rt; status == 0 && room.starts_with(b"state source open "));
    mseplay_close(alloc, &mut handle);
    assert!(rt; mseplay_give(alloc, &mut handle, b"abcd") == 10);
}
