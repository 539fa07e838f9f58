//! The refusals that are asked for before a call, beside those that the call then answers.

use Refusal::{Late, Not, Told};
use bmff_write::make as make_file;
use call_script::{BlobText, Script, StepLine, read_script};
use mse_base::{Bytes, OutOfMemory, Ticks};
use mse_calls::{Answer, Blobs, Call, Name};
use mse_engine::Engine;
use std::alloc::{AllocError, Global};
use std::process::Abort;
use std::test::Fail;
use track_store::ListStore;

/// Whether a call is refused.
#[derive(Clone, Copy)]
enum Refusal {
    /// It is not.
    Not,
    /// It is, by this name, and this is told before the call.
    Told(Name),
    /// It is, by this name, and nothing is told before the call.
    Late(Name),
}

/// A step line, and whether it is refused.
type Row = (&'static str, Refusal);

const INVALID_STATE: Refusal = Told(Name::InvalidState);

const TYPE_ERROR: Refusal = Told(Name::TypeError);

const OF_THE_SOURCE: [Row; 14] = [
    ("add", TYPE_ERROR),
    ("add audio/aac", INVALID_STATE),
    ("duration inf", INVALID_STATE),
    ("endofstream", INVALID_STATE),
    ("live 0 1", INVALID_STATE),
    ("attach", Not),
    ("attach", INVALID_STATE),
    ("add video/webm", Told(Name::NotSupported)),
    ("duration nan", TYPE_ERROR),
    ("duration -1", TYPE_ERROR),
    ("live nan nan", TYPE_ERROR),
    ("live 1 0", TYPE_ERROR),
    ("removebuffer 0", Told(Name::NoSuchBuffer)),
    ("clearlive", Not),
];

/// A buffer that was never made comes before a time, and a time before the bytes.
const OF_TIMES_AND_BYTES: [Row; 9] = [
    ("attach", Not),
    ("add audio/aac", Not),
    ("offset 1 nan", Told(Name::NoSuchBuffer)),
    ("buffered 7", Told(Name::NoSuchBuffer)),
    ("changetype 9", Told(Name::NoSuchBuffer)),
    ("offset 0 nan", TYPE_ERROR),
    ("append 0 5", Told(Name::NoSuchBytes)),
    ("append 0 0 4 7", Told(Name::NoSuchBytes)),
    ("append 0 0 4 6", Not),
];

const OF_AN_APPEND: [Row; 17] = [
    ("attach", Not),
    ("add audio/aac", Not),
    ("append 0 0", Not),
    ("append 0 0", INVALID_STATE),
    ("mode 0 segments", INVALID_STATE),
    ("mode 0 sequence", INVALID_STATE),
    ("offset 0 0", INVALID_STATE),
    ("windowstart 0 0", INVALID_STATE),
    ("windowend 0 1", INVALID_STATE),
    ("remove 0 0 1", INVALID_STATE),
    ("changetype 0", TYPE_ERROR),
    ("changetype 0 video/webm", INVALID_STATE),
    ("duration 1", INVALID_STATE),
    ("endofstream", INVALID_STATE),
    ("drain", Not),
    ("mode 0 segments", TYPE_ERROR),
    ("changetype 0 video/webm", Told(Name::NotSupported)),
];

const OF_A_REMOVAL: [Row; 10] = [
    ("attach", Not),
    ("add audio/aac", Not),
    ("remove 0 0 1", TYPE_ERROR),
    ("append 0 0", Not),
    ("drain", Not),
    ("remove 0 5 5", TYPE_ERROR),
    ("remove 0 nan 1", TYPE_ERROR),
    ("remove 0 0 inf", Not),
    ("abort 0", INVALID_STATE),
    ("append 0 0", INVALID_STATE),
];

/// The second frame starts at 3010560000.
const OF_FRAMES_THAT_ARE_THERE: [Row; 6] = [
    ("attach", Not),
    ("add audio/aac", Not),
    ("append 0 2", Not),
    ("drain", Not),
    ("duration 3010559999", INVALID_STATE),
    ("duration 3010560000", Not),
];

/// Where the source is ended, it is opened again before the call is refused.
const OF_A_SEGMENT_THAT_HAS_BEGUN: [Row; 9] = [
    ("attach", Not),
    ("add audio/aac", Not),
    ("append 0 0 0 8", Not),
    ("drain", Not),
    ("mode 0 sequence", INVALID_STATE),
    ("offset 0 0", INVALID_STATE),
    ("endofstream", Not),
    ("mode 0 sequence", Late(Name::InvalidState)),
    ("mode 0 sequence", INVALID_STATE),
];

/// That a buffer is full is not told before the call.
const OF_A_FULL_BUFFER: [Row; 5] = [
    ("attach", Not),
    ("add audio/aac", Not),
    ("append 0 0", Not),
    ("drain", Not),
    ("append 0 0", Late(Name::QuotaExceeded)),
];

const OF_A_REMOVED_BUFFER: [Row; 8] = [
    ("attach", Not),
    ("add audio/aac", Not),
    ("removebuffer 0", Not),
    ("buffered 0", INVALID_STATE),
    ("append 0 0", INVALID_STATE),
    ("abort 0", INVALID_STATE),
    ("removebuffer 0", Told(Name::NotFound)),
    ("changetype 0 audio/aac", INVALID_STATE),
];

const OF_SEVENTEEN_BUFFERS: [Row; 18] = [
    ("attach", Not),
    ("add audio/aac", Not),
    ("add audio/aac", Not),
    ("add audio/aac", Not),
    ("add audio/aac", Not),
    ("add audio/aac", Not),
    ("add audio/aac", Not),
    ("add audio/aac", Not),
    ("add audio/aac", Not),
    ("add audio/aac", Not),
    ("add audio/aac", Not),
    ("add audio/aac", Not),
    ("add audio/aac", Not),
    ("add audio/aac", Not),
    ("add audio/aac", Not),
    ("add audio/aac", Not),
    ("add audio/aac", Not),
    ("add audio/aac", Told(Name::QuotaExceeded)),
];

/// The bytes that are appended are no frame: the element has an error.
const BEHIND_A_FAULT: [Row; 7] = [
    ("attach", Not),
    ("add audio/aac", Not),
    ("append 0 1", Not),
    ("drain", Not),
    ("append 0 0", INVALID_STATE),
    ("abort 0", INVALID_STATE),
    ("play", Told(Name::NotSupported)),
];

const OF_THE_ELEMENT: [Row; 9] = [
    ("attach", Not),
    ("seek inf", TYPE_ERROR),
    ("advance nan", TYPE_ERROR),
    ("advance -1", TYPE_ERROR),
    ("play", Not),
    ("pause", Not),
    ("seekable", Not),
    ("elementbuffered", Not),
    ("state", Not),
];

/// A buffer of segments, to which nothing was appended: the append window, and that a source has no duration.
const OF_MP4_BEFORE_A_SEGMENT: [Row; 21] = [
    ("attach", Not),
    ("add video/mp4", Not),
    ("mode 0 sequence", Not),
    ("mode 0 segments", Not),
    ("offset 0 inf", TYPE_ERROR),
    ("offset 0 -1/1", Not),
    ("windowend 0 5", Not),
    ("windowstart 0 5", TYPE_ERROR),
    ("windowstart 0 -1", TYPE_ERROR),
    ("windowstart 0 inf", TYPE_ERROR),
    ("windowstart 0 4", Not),
    ("windowend 0 4", TYPE_ERROR),
    ("windowend 0 nan", TYPE_ERROR),
    ("windowend 0 inf", Not),
    ("remove 0 0 1", TYPE_ERROR),
    ("changetype 0 video/webm", Told(Name::NotSupported)),
    ("changetype 0 video/mp4", Not),
    ("buffered 0", Not),
    ("abort 0", Not),
    ("duration 1", Not),
    ("endofstream", Not),
];

/// An append that runs.
const OF_MP4_WHILE_IT_UPDATES: [Row; 22] = [
    ("attach", Not),
    ("add video/mp4", Not),
    ("append 0 3 0 1163", Not),
    ("append 0 3 1163 593", INVALID_STATE),
    ("append 0 3 1163 594", Told(Name::NoSuchBytes)),
    ("mode 0 segments", INVALID_STATE),
    ("mode 0 sequence", INVALID_STATE),
    ("offset 0 0", INVALID_STATE),
    ("offset 0 nan", TYPE_ERROR),
    ("windowstart 0 -1", INVALID_STATE),
    ("windowend 0 nan", INVALID_STATE),
    ("remove 0 0 1", INVALID_STATE),
    ("remove 0 inf inf", TYPE_ERROR),
    ("changetype 0", TYPE_ERROR),
    ("changetype 0 video/mp4", INVALID_STATE),
    ("duration 1", INVALID_STATE),
    ("duration nan", TYPE_ERROR),
    ("endofstream", INVALID_STATE),
    ("endofstream network", INVALID_STATE),
    ("buffered 0", Not),
    ("abort 0", Not),
    ("mode 0 sequence", Not),
];

/// The movie fragment box of a media segment has come, and none of its data. A removal leaves the string as it is; a
/// change of type does not.
const OF_MP4_IN_A_MEDIA_SEGMENT: [Row; 28] = [
    ("attach", Not),
    ("add video/mp4", Not),
    ("append 0 3 0 1163", Not),
    ("drain", Not),
    ("mode 0 segments", INVALID_STATE),
    ("mode 0 sequence", INVALID_STATE),
    ("offset 0 0", INVALID_STATE),
    ("offset 0 nan", TYPE_ERROR),
    ("windowstart 0 0", Not),
    ("windowend 0 0", TYPE_ERROR),
    ("windowend 0 inf", Not),
    ("duration 1/1", Not),
    ("remove 0 1/1 1/1", TYPE_ERROR),
    ("remove 0 2/1 3/1", TYPE_ERROR),
    ("remove 0 0 1/1", Not),
    ("mode 0 sequence", INVALID_STATE),
    ("append 0 3 1163 593", INVALID_STATE),
    ("changetype 0 video/mp4", INVALID_STATE),
    ("abort 0", INVALID_STATE),
    ("drain", Not),
    ("mode 0 sequence", INVALID_STATE),
    ("append 0 3 1163 22", Not),
    ("drain", Not),
    ("offset 0 0", INVALID_STATE),
    ("changetype 0", TYPE_ERROR),
    ("changetype 0 video/mp4", Not),
    ("offset 0 0", Not),
    ("mode 0 sequence", Not),
];

/// The source is ended in the middle of a media segment. It is opened again before mode and offset are refused; the
/// append window leaves it ended.
const OF_MP4_IN_A_MEDIA_SEGMENT_OF_AN_ENDED_SOURCE: [Row; 21] = [
    ("attach", Not),
    ("add video/mp4", Not),
    ("append 0 3 0 1163", Not),
    ("drain", Not),
    ("endofstream", Not),
    ("endofstream", INVALID_STATE),
    ("duration 1", INVALID_STATE),
    ("live 0 1", INVALID_STATE),
    ("clearlive", INVALID_STATE),
    ("add video/mp4", INVALID_STATE),
    ("windowstart 0 0", Not),
    ("windowend 0 1", Not),
    ("abort 0", INVALID_STATE),
    ("mode 0 segments", Late(Name::InvalidState)),
    ("mode 0 segments", INVALID_STATE),
    ("endofstream", Not),
    ("offset 0 0", Late(Name::InvalidState)),
    ("offset 0 0", INVALID_STATE),
    ("endofstream", Not),
    ("append 0 3 1163 593", Not),
    ("append 0 3", INVALID_STATE),
];

/// A whole media segment: 30 frames in a second, of which the last starts at 136416000000.
const OF_MP4_BETWEEN_SEGMENTS: [Row; 14] = [
    ("attach", Not),
    ("add video/mp4", Not),
    ("append 0 3", Not),
    ("drain", Not),
    ("duration 136415999999", INVALID_STATE),
    ("duration 136416000000", Not),
    ("mode 0 sequence", Not),
    ("mode 0 segments", Not),
    ("offset 0 1/1", Not),
    ("append 0 3", Late(Name::QuotaExceeded)),
    ("remove 0 0 inf", Not),
    ("drain", Not),
    ("append 0 3", Not),
    ("abort 0", Not),
];

/// A buffer that is removed in the middle of a media segment.
const OF_A_REMOVED_MP4: [Row; 15] = [
    ("attach", Not),
    ("add video/mp4", Not),
    ("append 0 3 0 1163", Not),
    ("drain", Not),
    ("removebuffer 0", Not),
    ("mode 0 sequence", INVALID_STATE),
    ("offset 0 0", INVALID_STATE),
    ("windowstart 0 0", INVALID_STATE),
    ("windowend 0 1", INVALID_STATE),
    ("remove 0 0 1", INVALID_STATE),
    ("append 0 3", INVALID_STATE),
    ("abort 0", INVALID_STATE),
    ("changetype 0 video/mp4", INVALID_STATE),
    ("buffered 0", INVALID_STATE),
    ("removebuffer 0", Told(Name::NotFound)),
];

/// A box whose size is less than its header, in the middle of a media segment: the parser is reset, and the source has
/// ended. The mode opens it again. The element has metadata, so its error is one of decoding, and it may play.
const OF_MP4_BEHIND_A_FAULT: [Row; 13] = [
    ("attach", Not),
    ("add video/mp4", Not),
    ("append 0 3 0 1163", Not),
    ("drain", Not),
    ("append 0 4", Not),
    ("drain", Not),
    ("append 0 3", INVALID_STATE),
    ("endofstream", INVALID_STATE),
    ("abort 0", INVALID_STATE),
    ("mode 0 sequence", Not),
    ("append 0 3", INVALID_STATE),
    ("abort 0", Not),
    ("play", Not),
];

/// An engine at work.
#[derive(Drop)]
struct Scene {
    engine: Engine<ListStore>,
    blobs: Blobs,
}

/// What stands before the steps of a script. Buffers hold one byte. Blob 0 is an ADTS frame of 1024 samples, 48000 a
/// second, and blob 2 are two of them. Blob 3 has an initialization segment of 595 bytes and a media segment of 1161,
/// whose movie fragment box ends at 1163 and whose first frame ends at 1179. Blob 4 is no box.
const HEAD: &str = "\
    quota = 1\n\
    blobs = [\"hex fff14c80015ffc000000\", \"hex 00000000000000\", \"hex fff14c80015ffc000000fff14c80015ffc000000\",\n\
        \"file made.mp4\", \"hex 00000007736b6970\"]\n\
    steps = [";

/// Puts the lines behind the head of a script, and ends it.
fn put_lines(text: &mut String, rows: &[Row]) -> Result<(), AllocError> {
    text.push_str(HEAD)?;
    for (line, _) in rows {
        text.push_str("\"")?;
        text.push_str(line)?;
        text.push_str("\", ")?;
    }
    text.push_str("]\n")?;
    Ok(())
}

/// A script of the lines.
fn text_of(alloc: Global, rows: &[Row]) -> Result<String, AllocError> {
    let mut text = String::new(alloc);
    put_lines(&mut text, rows)?;
    Ok(text)
}

fn script_of(alloc: Global, rows: &[Row]) -> Result<Script, Fail> {
    let text = text_of(alloc, rows)?;
    match read_script(alloc, text.as_bytes()) {
        Ok(script) => Ok(script),
        Err(_) => Err(Fail::new("no script")),
    }
}

fn blob_of(alloc: Global, text: &BlobText) -> Result<Bytes, OutOfMemory> {
    match text {
        BlobText::Hex(bytes) => bytes.copy(),
        BlobText::File(_) => Ok(make_file(alloc, 1)?),
    }
}

fn put_blobs(alloc: Global, blobs: &mut Blobs, script: &Script) -> Result<(), OutOfMemory> {
    for text in script.blobs.as_slice() {
        blobs.push(blob_of(alloc, text)?)?;
    }
    Ok(())
}

fn scene_of(alloc: Global, script: &Script) -> Result<Scene, OutOfMemory> {
    let mut scene = Scene {
        engine: Engine::new(alloc, script.quota, Ticks::zero()),
        blobs: Blobs::new(alloc),
    };
    put_blobs(alloc, &mut scene.blobs, script)?;
    Ok(scene)
}

/// What is told before a call, and what it then answers.
fn refusals(scene: &mut Scene, call: &Call) -> Result<(Option<Name>, Option<Name>), Fail> {
    let told = scene.engine.refusal(call, &scene.blobs);
    match scene.engine.call(call, &scene.blobs)? {
        Answer::Refused(name) => Ok((told, Some(name))),
        _ => Ok((told, None)),
    }
}

/// The name that is told before a call, and the name by which the call is refused.
fn names(refusal: Refusal) -> (Option<Name>, Option<Name>) {
    match refusal {
        Not => (None, None),
        Told(name) => (Some(name), Some(name)),
        Late(name) => (None, Some(name)),
    }
}

/// Works until nothing runs.
fn drain(scene: &mut Scene) -> Result<(), Fail> {
    for _ in 0..100 {
        if let Some(k) = scene.engine.running() {
            scene.engine.work(k)?;
        }
    }
    Ok(())
}

/// Takes a step, and tells whether it is refused as its row says; a step that is no call is a drain.
fn is_as_told(scene: &mut Scene, step: &StepLine, refusal: Refusal) -> Result<bool, Fail> {
    match step {
        StepLine::Call(call) => {
            let found = refusals(scene, call)?;
            Ok(found == names(refusal))
        }
        _ => {
            drain(scene)?;
            Ok(true)
        }
    }
}

/// The number of the first row that is not so, if there is one. Each row has its step.
fn first_wrong(scene: &mut Scene, steps: &[StepLine], rows: &[Row]) -> Result<Option<usize>, Fail> {
    for (i, (_, refusal)) in rows.iter().enumerate() {
        let is_so = match steps.get(i) {
            Some(step) => is_as_told(scene, step, *refusal)?,
            None => false,
        };
        if !is_so {
            return Ok(Some(i));
        }
    }
    Ok(None)
}

/// The scene and the script are each owned by a function that does little else, so that no row has to let them go.
fn first_wrong_step(alloc: Global, script: &Script, rows: &[Row]) -> Result<Option<usize>, Fail> {
    let mut scene = scene_of(alloc, script)?;
    first_wrong(&mut scene, script.steps.as_slice(), rows)
}

/// The same for the rows of a table, with a script of their lines.
fn first_wrong_row(alloc: Global, rows: &[Row]) -> Result<Option<usize>, Fail> {
    let script = script_of(alloc, rows)?;
    first_wrong_step(alloc, &script, rows)
}

/// Makes the calls of the rows of each table one after the other.
fn check(rt: &(impl Abort + AllocGlobal), tables: &[Table]) -> Result<(), Fail> {
    for (name, rows) in tables {
        let wrong = first_wrong_row(rt.alloc(), rows)?;
        assert!(rt; wrong.is_none(), "{name}, row {wrong:?}");
    }
    Ok(())
}

/// A name and its rows.
type Table = (&'static str, &'static [Row]);

/// The tables by their names, in three groups: the proof of a test grows faster than the number of its tables.
static OF_A_SOURCE: [Table; 5] = [
    ("of the source", &OF_THE_SOURCE),
    ("of a removed buffer", &OF_A_REMOVED_BUFFER),
    ("of seventeen buffers", &OF_SEVENTEEN_BUFFERS),
    ("behind a fault", &BEHIND_A_FAULT),
    ("of the element", &OF_THE_ELEMENT),
];

static OF_A_BUFFER: [Table; 6] = [
    ("of times and bytes", &OF_TIMES_AND_BYTES),
    ("of an append", &OF_AN_APPEND),
    ("of a removal", &OF_A_REMOVAL),
    ("of frames that are there", &OF_FRAMES_THAT_ARE_THERE),
    ("of a segment that has begun", &OF_A_SEGMENT_THAT_HAS_BEGUN),
    ("of a full buffer", &OF_A_FULL_BUFFER),
];

static OF_MP4: [Table; 7] = [
    ("before a segment", &OF_MP4_BEFORE_A_SEGMENT),
    ("while it updates", &OF_MP4_WHILE_IT_UPDATES),
    ("in a media segment", &OF_MP4_IN_A_MEDIA_SEGMENT),
    (
        "in a media segment of an ended source",
        &OF_MP4_IN_A_MEDIA_SEGMENT_OF_AN_ENDED_SOURCE,
    ),
    ("between segments", &OF_MP4_BETWEEN_SEGMENTS),
    ("of a removed buffer", &OF_A_REMOVED_MP4),
    ("behind a fault", &OF_MP4_BEHIND_A_FAULT),
];

#[test]
fn of_a_source_are_told_before_a_call(rt: HostRuntime) -> Result<(), Fail> {
    check(&rt, &OF_A_SOURCE)
}

#[test]
fn of_a_buffer_are_told_before_a_call(rt: HostRuntime) -> Result<(), Fail> {
    check(&rt, &OF_A_BUFFER)
}

#[test]
fn of_mp4_are_told_before_a_call(rt: HostRuntime) -> Result<(), Fail> {
    check(&rt, &OF_MP4)
}
