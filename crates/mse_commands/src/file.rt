//! A file that is appended to the one source buffer of a media source.

ghost use Rattle.std.specs.Prelude.{◌≡◌, ◌≤◌, ◌∷◌, [], Some, length, IfOk, OnOk, OnErr};
ghost use Rattle.mse_calls.specs.declared.answers.Answer.{Answer};
ghost use Rattle.script_run.specs.PlayedParts.{IsOwnStep};
ghost use Rattle.mse_commands.specs.Shown.{append_entry, pieces_of, whole_piece};
ghost use Rattle.mse_commands.specs.Works.{IsAppended, IsPartAppended, IsOpened, IsFrontOpened};

use mse_base::{Bytes, OutOfMemory, Text};
use mse_calls::{Blobs, Call, Piece};
use script_run::ScriptRun;
use std::alloc::Global;
use track_store::FrameStore;

/// Opens the source, and adds a source buffer of ISO BMFF.
fn open<S: FrameStore>(
    alloc: Global,
    run: &mut ScriptRun<S>,
    blobs: &Blobs,
) -> Result<(), OutOfMemory>
    ensures ok { OnOk result (IsOpened blobs.now run.old run.new) }
    ensures err { OnErr result (IsFrontOpened blobs.now run.old run.new) }
{
    let Ok(()) = run.call(blobs, &Call::Attach) else {
        return Err(OutOfMemory);
    };
    let Ok(kind) = Text::copy_of(alloc, "video/mp4") else {
        return Err(OutOfMemory);
    };
    let Ok(()) = run.call(blobs, &Call::AddSourceBuffer(kind)) else {
        return Err(OutOfMemory);
    };
    Ok(())
}

/// The file as the one blob.
fn blobs_of(alloc: Global, file: Vec<u8>) -> Result<Blobs, OutOfMemory>
    ensures { IfOk result (λ blobs. blobs ≡ file.items ∷ []) }
{
    let mut blobs = Blobs::new(alloc);
    blobs.push(Bytes::from_vec(alloc, file)?)?;
    Ok(blobs)
}

/// Appends a piece of the file.
fn append<S: FrameStore>(
    run: &mut ScriptRun<S>,
    blobs: &Blobs,
    piece: Piece,
) -> Result<(), OutOfMemory>
    ensures ok { OnOk result ((answer : Answer)
        × IsOwnStep blobs.now (append_entry piece answer ∷ []) run.old run.new) }
    ensures err { OnErr result (run.new ≡ run.old) }
{
    match run.call(blobs, &Call::AppendBuffer(0, piece)) {
        Ok(()) => Ok(()),
        Err(_) => Err(OutOfMemory),
    }
}

/// Appends the whole file, and drains.
pub fn append_whole<S: FrameStore>(
    alloc: Global,
    run: &mut ScriptRun<S>,
    file: Vec<u8>,
) -> Result<(), OutOfMemory>
    ensures ok { OnOk result (IsAppended file.items (whole_piece ∷ []) run.old run.new) }
    ensures err { OnErr result (IsPartAppended file.items (whole_piece ∷ []) run.old run.new) }
{
    let Ok(blobs) = blobs_of(alloc, file) else {
        return Err(OutOfMemory);
    };
    let Ok(()) = open(alloc, run, &blobs) else {
        return Err(OutOfMemory);
    };
    let Ok(()) = append(
        run,
        &blobs,
        Piece {
            blob: 0,
            part: None,
        },
    ) else {
        return Err(OutOfMemory);
    };
    // the engine has the bytes now
    drop(blobs);
    let Ok(()) = run.drain_quietly() else {
        return Err(OutOfMemory);
    };
    Ok(())
}

/// The piece of the file at a place.
fn piece_at(at: usize, count: usize) -> Piece
    ensures { result ≡ record { blob = 0; part = Some (at, count) } }
{
    Piece {
        blob: 0,
        part: Some((at as u64, count as u64)),
    }
}

/// Appends the file in pieces of so many bytes, of which the last may be shorter, and drains after
/// each, until the end or the first fault.
pub fn append_pieces<S: FrameStore>(
    alloc: Global,
    run: &mut ScriptRun<S>,
    file: Vec<u8>,
    size: usize,
) -> Result<(), OutOfMemory>
    requires { 1 ≤ size }
    ensures ok { OnOk result
        (IsAppended file.items (pieces_of size (length file.items)) run.old run.new) }
    ensures err { OnErr result
        (IsPartAppended file.items (pieces_of size (length file.items)) run.old run.new) }
{
    let len = file.len();
    let Ok(mut blobs) = blobs_of(alloc, file) else {
        return Err(OutOfMemory);
    };
    let Ok(()) = open(alloc, run, &blobs) else {
        return Err(OutOfMemory);
    };
    let mut at = 0usize;
    'appending: while at < len {
        let count = size.min(len - at);
        let Ok(()) = append(run, &blobs, piece_at(at, count)) else {
            return Err(OutOfMemory);
        };
        at += count;
        if at == len {
            // the engine has all bytes now
            blobs = Blobs::new(alloc);
        }
        let Ok(()) = run.drain_quietly() else {
            return Err(OutOfMemory);
        };
        if run.engine().fault().is_some() {
            return Ok(());
        }
    }
    Ok(())
}
