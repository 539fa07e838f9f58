//! A run that prints into memory.

ghost use Rattle.std.specs.Prelude.{◌≡◌, ◌≢◌, IfOk, IfSome, OnErr, map, string_bytes};
ghost use Rattle.mse_outside.specs.Outside.{HasRisen};
ghost use Rattle.mse_commands.specs.Program.{by_rules, program_of};
ghost use Rattle.rule_run.specs.ByRules.{IsRunByRules};
ghost use Rattle.rule_run.specs.Texts.{IsTextBy, empty_sink, library_and_memory};

use crate::by_rules::run_by_rules;
use mse_base::OutOfMemory;
use mse_commands::Status;
use mse_outside::{Library, SureSink};
use std::alloc::Global;
use track_store::FrameStore;

/// Does what [`run_by_rules`] does, and prints into memory: the status, and the sink with what was printed.
///
/// An `Err` is want of memory for the listeners; then nothing was loaded or printed.
pub fn run_in_memory<S: FrameStore, L: Library>(
    alloc: Global,
    count: u32,
    words: &[String],
    library: &mut L,
) -> Result<(Status, SureSink), OutOfMemory>
    ensures text { IfOk result (λ made. IfSome (L.table library.old) (λ files.
        ¬ HasRisen (L.faults library.old) (L.faults library.new)
        → IsTextBy (program_of (by_rules count) files (map string_bytes words.now))
        made.1.written made.0)) }
    ensures run { IfOk result (λ made. IsRunByRules count (L.table library.old) L.load_gives
        (map string_bytes words.now)
        (library_and_memory L.faults library.old empty_sink)
        (library_and_memory L.faults library.new made.1) made.0) }
    ensures no_failed_put { IfOk result (λ made. made.0 ≢ Status.Write) }
    ensures library { OnErr result (library.new ≡ library.old) }
{
    let mut sink = SureSink::new(alloc);
    let end = run_by_rules::<S, L, SureSink>(alloc, count, words, library, &mut sink)?;
    Ok((end, sink))
}
