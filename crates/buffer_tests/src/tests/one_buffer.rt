//! A source buffer over a plain store. What calls and items of work bring about is in scripts of `case_runs`; here
//! is what no script can do, since the source of a script ends with a fault.

use bmff_write::make;
use buffer_state::{Buffer, BufferContext, Container, Reply, Turned};
use mse_base::{Bytes, Moment, OutOfMemory, Phase, Ticks};
use mse_calls::{FaultView, Ready};
use std::alloc::Global;
use std::test::Fail;
use track_store::ListStore;

/// A buffer, with what it is told.
#[derive(Drop)]
struct OneBufferScene {
    buffer: Buffer<ListStore>,
    around: BufferContext,
}

/// A new buffer of files, at an opened source with room enough.
fn new_scene(alloc: Global) -> OneBufferScene {
    OneBufferScene {
        buffer: Buffer::new(alloc, Ticks::zero(), Container::Mp4),
        around: BufferContext {
            number: 0,
            ready: Ready::Opened,
            error: false,
            duration: Moment::Nan,
            position: Ticks::zero(),
            quota: 1 << 62,
        },
    }
}

/// Begins an append; whether it is refused.
fn begin(scene: &mut OneBufferScene, alloc: Global, bytes: &[u8]) -> Result<bool, OutOfMemory> {
    let bytes = Bytes::copy_of(alloc, bytes)?;
    let reply = scene.buffer.append(&bytes, &scene.around)?;
    Ok(reply.refused.is_some())
}

/// What comes of work: the number of a fault and its offset, or zeros, and whether an initialization segment came.
type Outcome = (u8, u64, bool);

/// The number of a fault and its offset.
fn fault_pair(fault: &Option<FaultView>) -> (u8, u64) {
    match fault {
        Some(view) => (view.number, view.offset),
        None => (0, 0),
    }
}

/// Does an item of work; what comes of it, or none where nothing runs.
fn turn(scene: &mut OneBufferScene) -> Result<Option<Outcome>, OutOfMemory> {
    let mut reply = Reply::quiet(&scene.around.duration);
    match scene.buffer.turn(&scene.around, &mut reply)? {
        Turned::Did => {
            scene.around.duration = reply.duration;
            let (number, offset) = fault_pair(&reply.fault);
            Ok(Some((number, offset, reply.received_init)))
        }
        Turned::Quiet => Ok(Some((0, 0, false))),
        Turned::Idle => Ok(None),
    }
}

/// Appends bytes, and does all work up to a fault.
fn append(scene: &mut OneBufferScene, alloc: Global, bytes: &[u8]) -> Result<Outcome, Fail> {
    if begin(scene, alloc, bytes)? {
        return Err(Fail::new("the append is refused"));
    }
    let mut received = false;
    for _ in 0..100 {
        match turn(scene)? {
            Some((0, _, more)) => received = received || more,
            Some(fault) => return Ok(fault),
            None => return Ok((0, 0, received)),
        }
    }
    Err(Fail::new("the work does not end"))
}

/// What a buffer tells: whether work runs, whether an initialization segment came, the phase, the frames that are
/// ready, the bytes held and used, and where the last frame begins and ends.
type Told = (bool, bool, Phase, usize, usize, u64, i128, i128);

/// So many ticks, and -1 for no time.
fn number(t: Option<Ticks>) -> i128 {
    match t {
        Some(t) => t.get(),
        None => -1,
    }
}

fn told(buffer: &Buffer<ListStore>) -> Told {
    (
        buffer.updating(),
        buffer.has_init(),
        buffer.phase(),
        buffer.ready_frames(),
        buffer.held_len(),
        buffer.used(),
        number(buffer.highest_start()),
        number(buffer.highest_end()),
    )
}

/// What is told of 30 frames of 3000 units each at 90000 units a second, with 585 bytes in all.
const OF_30_FRAMES: Told = (
    false,
    true,
    Phase::Waiting,
    0,
    0,
    585,
    136_416_000_000,
    141_120_000_000,
);

/// An initialization segment, the same of another codec, a media segment, and the first again: what comes of appending
/// each.
fn appends(scene: &mut OneBufferScene, alloc: Global, file: &[u8]) -> Result<[Outcome; 4], Fail> {
    let init = file.get(..595).ok_or("no initialization segment")?;
    let segment = file.get(595..).ok_or("no media segment")?;
    let mut other = Vec::from_slice(alloc, init)?;
    for byte in other.iter_mut().skip(405).take(1) {
        *byte = b'h';
    }
    let first = append(scene, alloc, init)?;
    let second = append(scene, alloc, other.as_slice())?;
    let third = append(scene, alloc, segment)?;
    let fourth = append(scene, alloc, init)?;
    Ok([first, second, third, fourth])
}

const OUTCOMES: [Outcome; 4] = [(0, 0, true), (13, 619, false), (0, 0, false), (0, 0, true)];

/// A media segment behind a refused initialization segment, of another codec, has its frames, read with the
/// presentation from before. An initialization segment behind it leaves them.
#[test]
fn a_presentation_from_before(rt: HostRuntime) -> Result<(), Fail> {
    let file = make(rt.alloc(), 1)?;
    let mut scene = new_scene(rt.alloc());
    let outcomes = appends(&mut scene, rt.alloc(), file.as_slice())?;
    assert!(rt; file.len() == 1756 && outcomes == OUTCOMES);
    let found = told(&scene.buffer);
    assert!(rt; found == OF_30_FRAMES, "{found:?}");
    assert!(rt; scene.around.duration == Moment::Infinite);
    assert!(rt; scene.buffer.view(0, false)?.ranges.len() == 1);
    assert!(rt; scene.buffer.buffered(true)?.len() == 1);
    match scene.buffer.tracks().get(0) {
        Some(track) => assert!(rt; track.id == 1 && track.codec == *b"avc1"),
        None => return Err(Fail::new("the track is there")),
    }
    Ok(())
}
