//! Printed lines of calls, each of which is copied first.

use super::rows::{expect_printed, text, time};
use event_text::script_line;
use mse_base::Moment;
use mse_calls::{Answer, Call, EndKind, Mode, Piece};
use std::process::Abort;

/// Copies a call of a script that is done, prints the copy, and compares the line.
fn expect_call(rt: &(impl Abort + AllocGlobal), call: &Call, wanted: &str) {
    let call = call.copy().expect(rt, "memory");
    expect_printed(rt, script_line(rt.alloc(), &call, &Answer::Done), wanted);
}

/// Calls on the source, on a buffer and on the element.
const CALLS: [(Call, &str); 21] = [
    (Call::Attach, "call attach: done\n"),
    (
        Call::RemoveSourceBuffer(4294967295),
        "call removebuffer 4294967295: done\n",
    ),
    (
        Call::EndOfStream(EndKind::Plain),
        "call endofstream: done\n",
    ),
    (
        Call::EndOfStream(EndKind::Network),
        "call endofstream network: done\n",
    ),
    (
        Call::EndOfStream(EndKind::Decode),
        "call endofstream decode: done\n",
    ),
    (Call::ClearLiveSeekableRange, "call clearlive: done\n"),
    (Call::SourceState, "call state: done\n"),
    (
        Call::SetMode(0, Mode::Segments),
        "call mode 0 segments: done\n",
    ),
    (
        Call::SetMode(1, Mode::Sequence),
        "call mode 1 sequence: done\n",
    ),
    (
        Call::SetTimestampOffset(2, Moment::Nan),
        "call offset 2 nan: done\n",
    ),
    (
        Call::SetAppendWindowEnd(4, Moment::Infinite),
        "call windowend 4 inf: done\n",
    ),
    (
        Call::AppendBuffer(
            5,
            Piece {
                blob: 2,
                part: None,
            },
        ),
        "call append 5 2: done\n",
    ),
    (
        Call::AppendBuffer(
            6,
            Piece {
                blob: 0,
                part: Some((595, 156)),
            },
        ),
        "call append 6 0 595 156: done\n",
    ),
    (Call::Abort(7), "call abort 7: done\n"),
    (Call::Buffered(11), "call buffered 11: done\n"),
    (Call::Play, "call play: done\n"),
    (Call::Pause, "call pause: done\n"),
    (Call::Advance(Moment::Nan), "call advance nan: done\n"),
    (Call::Advance(Moment::Infinite), "call advance inf: done\n"),
    (Call::ElementBuffered, "call elementbuffered: done\n"),
    (Call::Seekable, "call seekable: done\n"),
];

#[test]
fn prints_calls(rt: HostRuntime) {
    for (call, wanted) in &CALLS {
        expect_call(&rt, call, wanted);
    }
}

/// Times are printed in ticks.
#[test]
fn prints_calls_with_times(rt: HostRuntime) {
    let calls = [
        (
            Call::SetDuration(Moment::At(time(&rt, -1411200000000))),
            "call duration -1411200000000: done\n",
        ),
        (
            Call::SetLiveSeekableRange(Moment::At(time(&rt, 1)), Moment::Infinite),
            "call live 1 inf: done\n",
        ),
        (
            Call::SetAppendWindowStart(3, Moment::At(time(&rt, 0))),
            "call windowstart 3 0: done\n",
        ),
        (
            Call::Remove(8, Moment::At(time(&rt, -5)), Moment::Infinite),
            "call remove 8 -5 inf: done\n",
        ),
        (
            Call::Seek(Moment::At(time(&rt, 249390876672000000000))),
            "call seek 249390876672000000000: done\n",
        ),
    ];
    for (call, wanted) in &calls {
        expect_call(&rt, call, wanted);
    }
}

/// In a type signs stand for characters that do not print; an empty type has no word.
#[test]
fn prints_calls_with_types(rt: HostRuntime) {
    let signs = text(&rt, "vid\u{e9}o/mp4\u{1f3ac} ~\u{7f}");
    let calls = [
        (
            Call::AddSourceBuffer(signs),
            "call add vid?o/mp4? ~?: done\n",
        ),
        (Call::AddSourceBuffer(text(&rt, "")), "call add: done\n"),
        (
            Call::ChangeType(3, text(&rt, "video/mp4")),
            "call changetype 3 video/mp4: done\n",
        ),
        (
            Call::ChangeType(9, text(&rt, "audio/aac")),
            "call changetype 9 audio/aac: done\n",
        ),
        (
            Call::ChangeType(10, text(&rt, "")),
            "call changetype 10: done\n",
        ),
    ];
    for (call, wanted) in &calls {
        expect_call(&rt, call, wanted);
    }
}
