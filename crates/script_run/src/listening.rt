//! Listeners, and their rules.

ghost use Rattle.std.specs.Prelude.{◌≡◌, ◌<◌, ◌^◌, ◌==◌, not, ℕ, [], IfOk, OnOk, map, vec_len};
ghost use Rattle.std.specs.List.{filter};
ghost use Rattle.listeners.specs.Dispatch.{notes_at};
ghost use Rattle.listeners.specs.Ways.{AreByWay};
ghost use Rattle.script_run.specs.Rules.{is_for, rules_of_listener, rules_for};

use listeners::Listener;
use mse_base::OutOfMemory;
use mse_calls::Rule;
use std::alloc::Global;

/// The rules of the listener of a number, and the others, each in their order.
fn rules_by_number(
    alloc: Global,
    rules: Vec<Rule>,
    number: u32,
) -> Result<(Vec<Rule>, Vec<Rule>), OutOfMemory>
    ensures own { IfOk result (λ made. made.0.items ≡ rules_for number rules.items) }
    ensures others { IfOk result (λ made. made.1.items
        ≡ filter (λ rule. not (is_for number rule)) rules.items) }
{
    let mut own = Vec::new(alloc);
    let mut others = Vec::new(alloc);
    for rule in rules {
        if rule.listener == number {
            own.push(rule)?;
        } else {
            others.push(rule)?;
        }
    }
    Ok((own, others))
}

fn give_to(listener: &mut Box<dyn Listener>, list: Vec<Rule>)
    requires { notes listener.old ≡ [] }
    ensures kind { listener.new.vtable ≡ listener.old.vtable }
    ensures way { way listener.new ≡ way listener.old }
    ensures rules { rules listener.new ≡ list.items }
    ensures notes { notes listener.new ≡ notes listener.old }
{
    listener.set_rules(list);
}

/// Gives each listener the rules of its number, in their order. Rules of other numbers go. Each
/// listener stays at its place, and keeps its way.
///
/// An `Err` is want of memory; then listeners in front may have their rules already, and those
/// behind have the rules that they had.
pub fn give_rules(
    alloc: Global,
    listeners: &mut Vec<Box<dyn Listener>>,
    list: Vec<Rule>,
) -> Result<(), OutOfMemory>
    requires listeners { vec_len listeners.old < 2 ^ 32 }
    requires no_notes { (w : ℕ) → notes_at (map (λ b. notes b) listeners.old.items) w ≡ [] }
    ensures count { vec_len listeners.new ≡ vec_len listeners.old }
    ensures kinds { map (λ b. b.vtable) listeners.new.items
        ≡ map (λ b. b.vtable) listeners.old.items }
    ensures ways { map (λ b. way b) listeners.new.items ≡ map (λ b. way b) listeners.old.items }
    ensures notes { map (λ b. notes b) listeners.new.items
        ≡ map (λ b. notes b) listeners.old.items }
    ensures by_way { AreByWay way rules notes listeners.new.items }
    ensures given { OnOk result ((w : ℕ) → w < vec_len listeners.new
        → rules_of_listener (map (λ b. rules b) listeners.new.items) w ≡ rules_for w list.items) }
{
    let mut rules_left = list;
    for number in 0..listeners.len() {
        let Ok((own, others)) = rules_by_number(alloc, rules_left, number as u32) else {
            return Err(OutOfMemory);
        };
        rules_left = others;
        let listener = &mut listeners[number];
        give_to(listener, own);
    }
    Ok(())
}
