//! A run with listeners by rules.

ghost use Rattle.std.specs.Prelude.{◌≡◌, ◌+◌, ℕ, [], Some, IfOk, OnErr, OnOk, map, replicate, string_bytes, vec_len};
ghost use Rattle.listeners.specs.RuleCalls.{next_call};
ghost use Rattle.rule_run.specs.ByRules.{IsRunByRules, library_and_sink};

use listeners::{Listener, RuleListener};
use mse_base::OutOfMemory;
use mse_commands::{Status, run};
use mse_engine::Engine;
use mse_outside::{Library, Sink};
use run_journal::Journal;
use std::alloc::Global;
use track_store::FrameStore;

/// How many listeners the program has.
pub const LISTENERS: u32 = 16;

/// A listener by rules, which has none yet and has heard nothing.
fn rule_listener(alloc: Global) -> Result<Box<RuleListener>, OutOfMemory>
    ensures by_rules { IfOk result (λ b.
        ⟦<RuleListener as Listener>⟧.way b.value ≡ Some next_call) }
    ensures no_rules { IfOk result (λ b. ⟦<RuleListener as Listener>⟧.rules b.value ≡ []) }
    ensures no_notes { IfOk result (λ b. ⟦<RuleListener as Listener>⟧.notes b.value ≡ []) }
{
    Ok(Box::new(alloc, RuleListener::new(alloc))?)
}

/// Puts a listener by rules last.
#[tactic(auto, using(crate::proofs::RuleListeners::one_more))]
fn add_rule_listener(
    listeners: &mut Vec<Box<dyn Listener>>,
    listener: Box<dyn Listener>,
) -> Result<(), OutOfMemory>
    requires by_rules { way listener ≡ Some next_call }
    requires no_rules { rules listener ≡ [] }
    requires no_notes { notes listener ≡ [] }
    ensures by_rules { (n : ℕ) → map (λ b. way b) listeners.old.items ≡ replicate n (Some next_call)
        → OnOk result (map (λ b. way b) listeners.new.items ≡ replicate (n + 1) (Some next_call)) }
    ensures no_rules { (n : ℕ) → map (λ b. rules b) listeners.old.items ≡ replicate n []
        → OnOk result (map (λ b. rules b) listeners.new.items ≡ replicate (n + 1) []) }
    ensures no_notes { (n : ℕ) → map (λ b. notes b) listeners.old.items ≡ replicate n []
        → OnOk result (map (λ b. notes b) listeners.new.items ≡ replicate (n + 1) []) }
    ensures count { OnOk result (vec_len listeners.new ≡ vec_len listeners.old + 1) }
{
    listeners.push(listener)?;
    Ok(())
}

/// Does what the words ask for with these listeners: so many, of which each answers by its rules, and has none yet and has
/// heard nothing.
#[tactic(auto, using(crate::proofs::RuleListeners::told_by_rules, crate::proofs::RuleListeners::no_notes_at))]
fn run_with<S: FrameStore, L: Library, K: Sink>(
    alloc: Global,
    words: &[String],
    library: &mut L,
    sink: &mut K,
    count: u32,
    listeners: &mut Vec<Box<dyn Listener>>,
) -> Status
    requires count { vec_len listeners.old ≡ count }
    requires by_rules { map (λ b. way b) listeners.old.items ≡ replicate count (Some next_call) }
    requires no_rules { map (λ b. rules b) listeners.old.items ≡ replicate count [] }
    requires no_notes { map (λ b. notes b) listeners.old.items ≡ replicate count [] }
    ensures { IsRunByRules count (L.table library.old) L.load_gives (map string_bytes words.now)
        (library_and_sink L.faults K.written K.faults library.old sink.old)
        (library_and_sink L.faults K.written K.faults library.new sink.new) result }
{
    let mut engine: Option<Engine<S>> = None;
    let mut journal = Journal::new(alloc);
    run(
        alloc,
        words,
        library,
        sink,
        listeners,
        &mut engine,
        &mut journal,
    )
}

/// Does what the words ask for with so many listeners, which it makes: each answers by its rules, and has none and has
/// heard nothing before the run. Coded frames are kept in a store of type `S`.
///
/// An `Err` is want of memory for the listeners; then nothing was done.
pub fn run_by_rules<S: FrameStore, L: Library, K: Sink>(
    alloc: Global,
    count: u32,
    words: &[String],
    library: &mut L,
    sink: &mut K,
) -> Result<Status, OutOfMemory>
    ensures run { IfOk result (λ end. IsRunByRules count (L.table library.old) L.load_gives
        (map string_bytes words.now)
        (library_and_sink L.faults K.written K.faults library.old sink.old)
        (library_and_sink L.faults K.written K.faults library.new sink.new) end) }
    ensures library { OnErr result (library.new ≡ library.old) }
    ensures sink { OnErr result (sink.new ≡ sink.old) }
{
    let mut listeners: Vec<Box<dyn Listener>> = Vec::new(alloc);
    for _ in 0..count {
        add_rule_listener(&mut listeners, rule_listener(alloc)?)?;
    }
    let end = run_with::<S, L, K>(alloc, words, library, sink, count, &mut listeners);
    Ok(end)
}
