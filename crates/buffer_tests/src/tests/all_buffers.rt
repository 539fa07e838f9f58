//! Worked examples: source buffers of ADTS frames over a plain store, each with another number of
//! frames.

use buffer_state::{BufferCall, BufferContext, Container, Reply, Turned};
use mse_base::{Bytes, Moment, OutOfMemory, Ranges, Span, Ticks};
use mse_calls::{Mode, Name, Ready};
use mse_types::read_type;
use source_buffers::SourceBuffers;
use source_state::AllBuffers;
use std::alloc::Global;
use std::process::Abort;
use std::test::Fail;
use track_store::{FrameStore, ListStore};

/// A frame of ten bytes, with 48000 samples in a second.
const FRAME: [u8; 10] = [0xff, 0xf1, 0x4c, 0x80, 0x01, 0x5f, 0xfc, 0, 0, 0];

/// How long a frame lasts, in ticks: 1024 samples.
const LASTS: i128 = 3_010_560_000;

/// Source buffers, with the duration that they are told.
#[derive(Drop)]
struct AllBuffersScene {
    buffers: SourceBuffers<ListStore>,
    duration: Moment,
}

fn new_scene(alloc: Global) -> AllBuffersScene {
    AllBuffersScene {
        buffers: SourceBuffers::new(alloc),
        duration: Moment::Nan,
    }
}

fn around(scene: &AllBuffersScene, number: u32) -> BufferContext {
    BufferContext {
        number,
        ready: Ready::Opened,
        error: false,
        duration: scene.duration,
        position: Ticks::zero(),
        quota: 1 << 40,
    }
}

/// One buffer more.
fn add(scene: &mut AllBuffersScene) -> Result<(), OutOfMemory> {
    if scene.buffers.len() < 100 {
        scene.buffers.reserve(1)?;
        scene.buffers.add_reserved(Ticks::zero(), Container::Adts);
    }
    Ok(())
}

/// Begins an append of so many frames.
fn begin(
    scene: &mut AllBuffersScene,
    alloc: Global,
    k: u32,
    count: usize,
) -> Result<Reply, OutOfMemory> {
    let mut bytes = Vec::new(alloc);
    for _ in 0..count {
        bytes.extend_from_slice(&FRAME)?;
    }
    let bytes = Bytes::from_vec(alloc, bytes)?;
    let told = around(scene, k);
    scene
        .buffers
        .call(k, &BufferCall::Append(Some(&bytes)), &told)
}

/// Does all work of a buffer, and tells in how many steps.
fn drain(scene: &mut AllBuffersScene, k: u32) -> Result<usize, OutOfMemory> {
    for steps in 0..100 {
        let told = around(scene, k);
        let mut reply = Reply::quiet(&scene.duration);
        match scene.buffers.turn(k, &told, &mut reply)? {
            Turned::Did => scene.duration = reply.duration,
            Turned::Quiet => {}
            Turned::Idle => return Ok(steps),
        }
    }
    Ok(100)
}

/// Where the end of so many frames is.
fn after(frames: u8) -> Ticks {
    Ticks::new(i128::from(frames) * LASTS).unwrap_or(Ticks::zero())
}

/// The span from 0 on over so many frames, or none for no frame.
fn over(frames: u8) -> Option<Span> {
    if frames == 0 {
        return None;
    }
    Some(Span {
        start: Ticks::zero(),
        end: after(frames),
    })
}

/// Whether ranges are one from 0 on over so many frames, or none for no frame.
fn is_over(ranges: &Ranges, frames: u8) -> bool {
    let count = if frames == 0 { 0 } else { 1 };
    (ranges.len(), ranges.last()) == (count, over(frames))
}

/// Whether a buffer has one range from 0 on over so many frames.
fn has_buffered(scene: &AllBuffersScene, k: u32, frames: u8) -> Result<bool, OutOfMemory> {
    match scene.buffers.buffered(k, false)? {
        Some(ranges) => Ok(is_over(&ranges, frames)),
        None => Ok(false),
    }
}

/// Begins an append, and tells whether it is not refused, and then which buffer runs.
fn begun(
    scene: &mut AllBuffersScene,
    alloc: Global,
    k: u32,
    count: usize,
) -> Result<(bool, Option<u32>), OutOfMemory> {
    let reply = begin(scene, alloc, k, count)?;
    Ok((reply.refused.is_none(), scene.buffers.running()))
}

/// What is told of all buffers: whether one is updating, and by how many frames the last one begins and ends.
fn all_buffers(updating: bool, highest: Option<(u8, u8)>) -> AllBuffers {
    let (highest_start, highest_end) = match highest {
        Some((start, end)) => (Some(after(start)), Some(after(end))),
        None => (None, None),
    };
    AllBuffers {
        updating,
        highest_start,
        highest_end,
    }
}

/// Two buffers, with no frame.
fn two_empty_buffers(alloc: Global) -> Result<AllBuffersScene, OutOfMemory> {
    let mut scene = new_scene(alloc);
    add(&mut scene)?;
    add(&mut scene)?;
    Ok(scene)
}

/// Two buffers, of three frames and of five.
fn two_buffers(alloc: Global) -> Result<AllBuffersScene, OutOfMemory> {
    let mut scene = two_empty_buffers(alloc)?;
    for &(k, count) in &[(0, 3), (1, 5)] {
        begin(&mut scene, alloc, k, count)?;
        drain(&mut scene, k)?;
    }
    Ok(scene)
}

/// Buffers whose work is done, in how many steps, and then whether all are initialized and whether each is updating.
static DRAINS: [(u32, usize, bool, (bool, bool)); 4] = [
    // an initialization segment, each frame with the end of its segment, the end of the append
    (0, 8, false, (false, true)),
    (1, 12, true, (false, false)),
    (1, 0, true, (false, false)),
    (7, 0, true, (false, false)),
];

#[test]
fn work_of_two_buffers(rt: HostRuntime) -> Result<(), Fail> {
    let mut scene = two_empty_buffers(rt.alloc())?;
    assert!(rt; (scene.buffers.len(), scene.buffers.running()) == (2, None));
    for &(k, count) in &[(1, 5), (0, 3)] {
        assert!(rt; begun(&mut scene, rt.alloc(), k, count)? == (true, Some(k)));
    }
    assert!(rt; scene.buffers.all_buffers() == all_buffers(true, None));
    for &(k, steps, initialized, updating) in &DRAINS {
        assert!(rt; drain(&mut scene, k)? == steps, "buffer {k}");
        let buffers = &scene.buffers;
        assert!(rt; buffers.are_initialized() == initialized);
        assert!(rt; (buffers.is_updating_at(0), buffers.is_updating_at(1)) == updating);
    }
    assert!(rt; scene.buffers.all_buffers() == all_buffers(false, Some((4, 5))));
    assert!(rt; scene.duration == Moment::Infinite);
    Ok(())
}

/// Active buffers, whether the source is ended, and the frames of the element's range.
static ELEMENT_RANGES: [(&[u32], bool, u8); 5] = [
    (&[0, 1], false, 3),
    (&[1, 0], true, 5),
    (&[1], false, 5),
    (&[], false, 0),
    (&[0, 2], true, 0),
];

/// Active buffers, behind how many frames, whether the source is ended, and the frames of the range there.
static ELEMENT_SPANS: [(&[u32], u8, bool, u8); 4] = [
    (&[0, 1], 3, false, 3),
    (&[0, 1], 4, false, 0),
    (&[0, 1], 4, true, 5),
    (&[], 0, true, 0),
];

#[test]
fn ranges_of_the_element(rt: HostRuntime) -> Result<(), Fail> {
    let scene = two_buffers(rt.alloc())?;
    let buffers = &scene.buffers;
    for &(active, ended, frames) in &ELEMENT_RANGES {
        assert!(rt;
            is_over(&buffers.element_ranges(active, ended)?, frames),
            "{active:?}"
        );
    }
    for &(active, at, ended, frames) in &ELEMENT_SPANS {
        let found = buffers.element_span(active, after(at), ended);
        assert!(rt; found == over(frames), "{active:?} at {at}");
    }
    assert!(rt; has_buffered(&scene, 0, 3)?);
    assert!(rt; buffers.buffered(2, false)?.is_none());
    Ok(())
}

/// A call on a buffer. Times are so many frames behind 0.
#[derive(Clone, Copy)]
enum BuffersCall {
    Mode(Mode),
    Offset(u8),
    NoOffset,
    WindowStart(u8),
    WindowEnd(u8),
    WindowWithoutEnd,
    /// Removes the frames from a time on.
    RemoveFrames(u8),
    /// Appends a frame.
    Append,
    /// Appends bytes that there are not.
    AppendNothing,
    Abort,
    Type(&'static str),
    /// Removes the buffer.
    Remove,
}

/// How many frames behind 0 the time of a call is.
fn frames_before(act: BuffersCall) -> u8 {
    match act {
        BuffersCall::Offset(frames)
        | BuffersCall::WindowStart(frames)
        | BuffersCall::WindowEnd(frames)
        | BuffersCall::RemoveFrames(frames) => frames,
        _ => 0,
    }
}

/// The call with its time and the frame that is appended; `None` of the removal of the buffer, which
/// is no call on it.
fn buffer_call(act: BuffersCall, time: Ticks, frame: &Bytes) -> Option<BufferCall<'_>> {
    let at = Moment::At(time);
    match act {
        BuffersCall::Mode(mode) => Some(BufferCall::SetMode(mode)),
        BuffersCall::Offset(_) => Some(BufferCall::SetOffset(at)),
        BuffersCall::NoOffset => Some(BufferCall::SetOffset(Moment::Nan)),
        BuffersCall::WindowStart(_) => Some(BufferCall::SetWindowStart(at)),
        BuffersCall::WindowEnd(_) => Some(BufferCall::SetWindowEnd(at)),
        BuffersCall::WindowWithoutEnd => Some(BufferCall::SetWindowEnd(Moment::Infinite)),
        BuffersCall::RemoveFrames(_) => Some(BufferCall::Remove(at, Moment::Infinite)),
        BuffersCall::Append => Some(BufferCall::Append(Some(frame))),
        BuffersCall::AppendNothing => Some(BufferCall::Append(None)),
        BuffersCall::Abort => Some(BufferCall::Abort),
        BuffersCall::Type(text) => Some(BufferCall::ChangeType(read_type(text))),
        BuffersCall::Remove => None,
    }
}

/// Makes the call, and tells what comes of it.
fn call(
    buffers: &mut SourceBuffers<ListStore>,
    alloc: Global,
    k: u32,
    act: BuffersCall,
    told: &BufferContext,
) -> Result<Reply, OutOfMemory> {
    let frame = Bytes::copy_of(alloc, &FRAME)?;
    let time = after(frames_before(act));
    match buffer_call(act, time, &frame) {
        Some(call) => buffers.call(k, &call, told),
        None => Ok(buffers.remove(k, told)),
    }
}

/// The name by which it would be refused.
fn refusal(
    buffers: &SourceBuffers<ListStore>,
    alloc: Global,
    k: u32,
    act: BuffersCall,
    told: &BufferContext,
) -> Result<Option<Name>, OutOfMemory> {
    let frame = Bytes::copy_of(alloc, &FRAME)?;
    let time = after(frames_before(act));
    match buffer_call(act, time, &frame) {
        Some(call) => Ok(buffers.refusal_of(k, &call, told)),
        None => Ok(buffers.removal_refusal(k)),
    }
}

/// A buffer, a call on it, and the name by which it is refused, if it is.
type Row = (u32, BuffersCall, Option<Name>);

/// Makes one call after the other, and compares the refusals.
fn run(
    rt: &impl Abort,
    buffers: &mut SourceBuffers<ListStore>,
    alloc: Global,
    told: &BufferContext,
    rows: &[Row],
) -> Result<(), Fail> {
    for (k, act, wanted) in rows {
        let reply = call(buffers, alloc, *k, *act, told)?;
        assert!(rt; reply.refused == *wanted, "{wanted:?}");
    }
    Ok(())
}

static CALLS_BEHIND_A_REMOVAL: [Row; 15] = [
    (1, BuffersCall::Remove, Some(Name::NotFound)),
    (2, BuffersCall::Remove, Some(Name::NoSuchBuffer)),
    (
        1,
        BuffersCall::Mode(Mode::Sequence),
        Some(Name::InvalidState),
    ),
    (1, BuffersCall::Offset(0), Some(Name::InvalidState)),
    (1, BuffersCall::WindowStart(0), Some(Name::InvalidState)),
    (1, BuffersCall::WindowWithoutEnd, Some(Name::InvalidState)),
    (1, BuffersCall::RemoveFrames(0), Some(Name::InvalidState)),
    (1, BuffersCall::NoOffset, Some(Name::TypeError)),
    (1, BuffersCall::Append, Some(Name::InvalidState)),
    (1, BuffersCall::AppendNothing, Some(Name::NoSuchBytes)),
    (2, BuffersCall::AppendNothing, Some(Name::NoSuchBuffer)),
    (1, BuffersCall::Abort, Some(Name::InvalidState)),
    (1, BuffersCall::Type("audio/aac"), Some(Name::InvalidState)),
    (1, BuffersCall::Type(""), Some(Name::TypeError)),
    (2, BuffersCall::Type(""), Some(Name::NoSuchBuffer)),
];

/// Two buffers of which the one of number 1 was removed while an append ran there.
fn one_buffer_left(rt: &impl Abort, alloc: Global) -> Result<AllBuffersScene, Fail> {
    let mut scene = two_buffers(alloc)?;
    begin(&mut scene, alloc, 1, 1)?;
    let told = around(&scene, 1);
    let reply = scene.buffers.remove(1, &told);
    assert!(rt; (reply.refused, reply.events.len()) == (None, 2));
    Ok(scene)
}

/// Whether the buffer of number 0 alone has a track, which is one, of three frames.
fn has_one_track(buffers: &SourceBuffers<ListStore>) -> bool {
    let is_there = match buffers.track(0, 0) {
        Some(track) => track.store.len() == 3,
        None => false,
    };
    is_there && buffers.track(1, 0).is_none() && buffers.track(0, 1).is_none()
}

/// How often an abort of the buffer of a number changes the duration at most.
fn changes_of_an_abort(
    buffers: &SourceBuffers<ListStore>,
    alloc: Global,
    k: u32,
) -> Result<usize, Fail> {
    let frame = Bytes::copy_of(alloc, &FRAME)?;
    match buffer_call(BuffersCall::Abort, Ticks::zero(), &frame) {
        Some(call) => Ok(buffers.most_changes(k, &call)),
        None => Err(Fail::new("an abort is a call")),
    }
}

#[test]
fn a_removed_buffer(rt: HostRuntime) -> Result<(), Fail> {
    let alloc = rt.alloc();
    let mut scene = one_buffer_left(&rt, alloc)?;
    let told = around(&scene, 1);
    run(
        &rt,
        &mut scene.buffers,
        alloc,
        &told,
        &CALLS_BEHIND_A_REMOVAL,
    )?;
    let buffers = &scene.buffers;
    assert!(rt; (buffers.is_made(1), buffers.is_made(2), buffers.len()) == (true, false, 2));
    assert!(rt; buffers.running().is_none());
    assert!(rt; changes_of_an_abort(buffers, alloc, 1)? == 0);
    assert!(rt; buffers.all_buffers().highest_end == Some(after(3)));
    assert!(rt; buffers.views(false)?.len() == 1);
    assert!(rt; has_one_track(buffers));
    Ok(())
}

static CALLS_ON_A_BUFFER: [Row; 9] = [
    (0, BuffersCall::Mode(Mode::Segments), Some(Name::TypeError)),
    (0, BuffersCall::WindowEnd(9), None),
    (0, BuffersCall::WindowStart(9), Some(Name::TypeError)),
    (0, BuffersCall::Abort, None),
    (0, BuffersCall::Offset(1), None),
    (0, BuffersCall::NoOffset, Some(Name::TypeError)),
    (0, BuffersCall::AppendNothing, Some(Name::NoSuchBytes)),
    (0, BuffersCall::Type("audio/aac"), None),
    (0, BuffersCall::RemoveFrames(1), None),
];

#[test]
fn calls_on_buffers_that_are_there(rt: HostRuntime) -> Result<(), Fail> {
    let alloc = rt.alloc();
    let mut scene = two_buffers(alloc)?;
    let told = around(&scene, 0);
    run(&rt, &mut scene.buffers, alloc, &told, &CALLS_ON_A_BUFFER)?;
    assert!(rt; drain(&mut scene, 0)? == 1);
    assert!(rt; has_buffered(&scene, 0, 1)?);
    Ok(())
}

/// Calls that a buffer that is there does not refuse.
static ALLOWED: [BuffersCall; 8] = [
    BuffersCall::Mode(Mode::Sequence),
    BuffersCall::Offset(0),
    BuffersCall::WindowStart(1),
    BuffersCall::WindowWithoutEnd,
    BuffersCall::RemoveFrames(1),
    BuffersCall::Append,
    BuffersCall::Abort,
    BuffersCall::Type("audio/aac"),
];

/// A buffer that is there, one that was removed and one that was never made, and how each refuses such calls.
static NUMBERS: [(u32, Option<Name>); 3] = [
    (0, None),
    (1, Some(Name::InvalidState)),
    (2, Some(Name::NoSuchBuffer)),
];

/// Other calls where the buffer of number 1 was removed.
static OTHERS: [Row; 7] = [
    (0, BuffersCall::NoOffset, Some(Name::TypeError)),
    (0, BuffersCall::AppendNothing, Some(Name::NoSuchBytes)),
    (1, BuffersCall::AppendNothing, Some(Name::NoSuchBytes)),
    (1, BuffersCall::Type(""), Some(Name::TypeError)),
    (0, BuffersCall::Remove, None),
    (1, BuffersCall::Remove, Some(Name::NotFound)),
    (2, BuffersCall::Remove, Some(Name::NoSuchBuffer)),
];

#[test]
fn refusals_before_a_call(rt: HostRuntime) -> Result<(), Fail> {
    let alloc = rt.alloc();
    let mut scene = two_buffers(alloc)?;
    let told = around(&scene, 1);
    scene.buffers.remove(1, &told);
    for &(k, wanted) in &NUMBERS {
        for &act in &ALLOWED {
            assert!(rt;
                refusal(&scene.buffers, alloc, k, act, &told)? == wanted,
                "buffer {k}"
            );
        }
    }
    for &(k, act, wanted) in &OTHERS {
        assert!(rt;
            refusal(&scene.buffers, alloc, k, act, &told)? == wanted,
            "buffer {k}"
        );
    }
    Ok(())
}

/// Sixteen buffers, in each of which an append runs, of one frame more than its number.
fn sixteen_appends(alloc: Global) -> Result<AllBuffersScene, OutOfMemory> {
    let mut scene = new_scene(alloc);
    for k in 0..16 {
        add(&mut scene)?;
        begin(&mut scene, alloc, k, k as usize + 1)?;
    }
    Ok(scene)
}

const ALL: [u32; 16] = [0, 1, 2, 3, 4, 5, 6, 7, 8, 9, 10, 11, 12, 13, 14, 15];

#[test]
fn sixteen_buffers(rt: HostRuntime) -> Result<(), Fail> {
    let mut scene = sixteen_appends(rt.alloc())?;
    for &k in &ALL {
        assert!(rt; scene.buffers.running() == Some(k));
        assert!(rt; drain(&mut scene, k)? == 2 * (k as usize + 1) + 2);
    }
    assert!(rt; scene.buffers.running().is_none());
    for &(ended, frames) in &[(false, 1), (true, 16)] {
        assert!(rt; is_over(&scene.buffers.element_ranges(&ALL, ended)?, frames));
    }
    let views = scene.buffers.views(true)?;
    assert!(rt; views.len() == 16);
    for (k, view) in views.iter().enumerate() {
        assert!(rt; view.number as usize == k);
    }
    Ok(())
}
