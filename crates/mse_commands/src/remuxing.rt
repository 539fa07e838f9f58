//! A classic file as fragments.

ghost use Rattle.std.specs.Prelude.{◌≡◌, ℕ, List, [], ◌∷◌, None, Some, IfOk, OnOk, OnErr, IsErrOf, is_err};
ghost use Rattle.run_steps.specs.declared.note.Note.{Note};
ghost use Rattle.mse_calls.specs.declared.rules.Rule.{Rule};
ghost use Rattle.mse_outside.specs.Outside.{IsFailedLoad};
ghost use Rattle.remux.specs.Pieces.{pieces_of_file};
ghost use Rattle.script_run.specs.Keeps.{AreFailuresTold};
ghost use Rattle.script_run.specs.Writes.{IsWritten, IsFrontWritten};
ghost use Rattle.mse_commands.specs.Loads.{AreFailedLoadsTold};
ghost use Rattle.mse_commands.specs.Requests.{HasRequestOfCommand};
ghost use Rattle.mse_commands.specs.Outcomes.{outcome, outside_of};
ghost use Rattle.mse_commands.specs.Remuxing.{remux_fault_line, remux_pieces};
ghost use Rattle.mse_commands.specs.Works.{IsRequestDone};

use crate::ending::End;
use crate::load::load;
use crate::remux_fault::remux_fault_line;
use crate::words::Command;
use mse_base::Bytes;
use mse_outside::{Library, Sink};
use remux::{ClassicFile, FragmentedFile, RemuxError, RemuxFault};
use script_run::{Halt, put_bytes};
use std::alloc::Global;

/// Makes the pieces of a fragmented file one by one, and puts each with one put.
fn put_pieces<K: Sink>(sink: &mut K, file: &FragmentedFile<'_>) -> Result<(), Halt>
    ensures ok { OnOk result (IsWritten file.now (K.written sink.old) (K.written sink.new)) }
    ensures err { OnErr result (IsFrontWritten file.now (K.written sink.old) (K.written sink.new)) }
    ensures puts { AreFailuresTold Halt.Write (K.faults sink.old) (K.faults sink.new) result }
{
    for i in 0..file.piece_count() {
        let Ok(piece) = file.piece(i) else {
            return Err(Halt::Memory);
        };
        put_bytes(sink, piece.as_slice())?;
    }
    Ok(())
}

/// Puts a classic file as fragments.
#[tactic(auto, using(script_run::proofs::PutLines::front_none))]
fn put_fragmented<K: Sink>(alloc: Global, sink: &mut K, file: &ClassicFile) -> Result<(), Halt>
    ensures ok { OnOk result (IsWritten file.now (K.written sink.old) (K.written sink.new)) }
    ensures err { OnErr result (IsFrontWritten file.now (K.written sink.old) (K.written sink.new)) }
    ensures puts { AreFailuresTold Halt.Write (K.faults sink.old) (K.faults sink.new) result }
{
    match file.fragmented(alloc) {
        Ok(fragmented) => put_pieces(sink, &fragmented),
        Err(_) => Err(Halt::Memory),
    }
}

/// Puts the line of a fault.
#[tactic(auto, using(script_run::proofs::PutLines::front_none))]
fn put_fault<K: Sink>(
    alloc: Global,
    sink: &mut K,
    fault: RemuxFault,
    offset: u64,
) -> Result<(), Halt>
    ensures ok { OnOk result (IsWritten (remux_fault_line fault offset ∷ [])
        (K.written sink.old) (K.written sink.new)) }
    ensures err { OnErr result (IsFrontWritten (remux_fault_line fault offset ∷ [])
        (K.written sink.old) (K.written sink.new)) }
    ensures puts { AreFailuresTold Halt.Write (K.faults sink.old) (K.faults sink.new) result }
{
    match remux_fault_line(alloc, fault, offset) {
        Ok(line) => put_bytes(sink, line.as_bytes()),
        Err(_) => Err(Halt::Memory),
    }
}

/// Puts a file as fragments, or the line of its fault. It answers whether it has one.
#[tactic(auto, using(script_run::proofs::PutLines::front_none))]
fn put_remuxed<K: Sink>(alloc: Global, sink: &mut K, file: Vec<u8>) -> Result<bool, Halt>
    ensures ok { IfOk result (λ broken. broken ≡ is_err (pieces_of_file file.items)) }
    ensures wrote { OnOk result (IsWritten (remux_pieces file.items)
        (K.written sink.old) (K.written sink.new)) }
    ensures err { OnErr result (IsFrontWritten (remux_pieces file.items)
        (K.written sink.old) (K.written sink.new)) }
    ensures puts { AreFailuresTold Halt.Write (K.faults sink.old) (K.faults sink.new) result }
{
    let Ok(bytes) = Bytes::from_vec(alloc, file) else {
        return Err(Halt::Memory);
    };
    match ClassicFile::read(alloc, bytes) {
        Ok(classic) => match put_fragmented(alloc, sink, &classic) {
            Ok(()) => Ok(false),
            Err(halt) => Err(halt),
        },
        Err(RemuxError::Fault(placed)) => {
            match put_fault(alloc, sink, placed.fault, placed.offset) {
                Ok(()) => Ok(true),
                Err(halt) => Err(halt),
            }
        }
        Err(RemuxError::OutOfMemory) => Err(Halt::Memory),
    }
}

/// A file by `remux`: no engine is made, and no listener hears of it. It answers whether the file
/// has a fault.
pub fn run_remux<L: Library, K: Sink>(
    alloc: Global,
    name: &str,
    library: &mut L,
    sink: &mut K,
) -> Result<bool, End>
    ensures works { (count : ℕ) (told : List (List Note)) (given : List (List Rule))
        → HasRequestOfCommand (L.table library.old) name.now (Some Command.Remux) (λ request.
        IsRequestDone count request
        (outcome [] None
        (outside_of (L.faults library.old) (K.written sink.old) told given)
        (outside_of (L.faults library.new) (K.written sink.new) told given))
        result) }
    ensures words { ¬ IsErrOf result End.Words }
    ensures puts { AreFailuresTold End.Write (K.faults sink.old) (K.faults sink.new) result }
    ensures loads { AreFailedLoadsTold (L.faults library.old) (L.faults library.new) result }
    ensures failed_load { (other : List ℕ) → IsErrOf result (End.Read other)
        → HasRequestOfCommand (L.table library.old) name.now (Some Command.Remux) (λ request.
        IsFailedLoad L.load_gives request.names other library.old library.new) }
{
    let file = match load(alloc, library, name) {
        Ok(file) => file,
        Err(end) => return Err(end),
    };
    match put_remuxed(alloc, sink, file) {
        Ok(is_broken) => Ok(is_broken),
        Err(halt) => Err(End::of_halt(halt)),
    }
}
