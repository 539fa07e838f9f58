ghost use Rattle.std.specs.Prelude.{◌≡◌, IfOk, option_map};
ghost use Rattle.std.specs.Result.{result_ok};
ghost use Rattle.toml.specs.View.{view, table_view, items_view};
ghost use Rattle.call_script.specs.Members.{members_of};
ghost use Rattle.call_script.specs.Rules.{listener_of, on_of, repeat_count_of, repeat_of, call_of, calls_of, rule_in, rule_of};

use crate::events::read_event;
use crate::key::RuleKey;
use crate::lines::read_call;
use crate::values::{Setting, has_rule_keys, number_in, value_at};
use mse_base::OutOfMemory;
use mse_calls::{Call, Calls, Event, Rule};
use std::alloc::Global;
use toml::{Table, Value};

const LISTENER: Setting = Setting {
    default: 0,
    least: 0,
    most: 15,
};

const TIMES: Setting = Setting {
    default: 1,
    least: 1,
    most: 1_000_000,
};

const MOST_CALLS: usize = 1000;

#[tactic(auto, unfolding(crate::specs::Rules::listener_of))]
fn read_listener(value: Option<&Value>) -> Option<u32>
    ensures { result ≡ listener_of (option_map (λ v. view v.now) value.entry) }
{
    if value.is_none() {
        return None;
    }
    let number = number_in(value, LISTENER)?;
    Some(number as u32)
}

#[tactic(auto, unfolding(crate::specs::Rules::on_of))]
fn read_on(value: Option<&Value>) -> Option<Event>
    ensures { result ≡ on_of (option_map (λ v. view v.now) value.entry) }
{
    read_event(value?.as_str()?)
}

#[tactic(auto, unfolding(crate::specs::Rules::repeat_count_of))]
fn read_times(value: Option<&Value>) -> Option<u32>
    ensures { result ≡ repeat_count_of (option_map (λ v. view v.now) value.entry) }
{
    let number = number_in(value, TIMES)?;
    Some(number as u32)
}

#[tactic(auto, unfolding(crate::specs::Rules::repeat_of))]
fn read_repeat(value: Option<&Value>) -> Option<bool>
    ensures { result ≡ repeat_of (option_map (λ v. view v.now) value.entry) }
{
    match value {
        None => Some(false),
        Some(value) => value.as_bool(),
    }
}

fn read_value(alloc: Global, value: &Value) -> Result<Option<Call>, OutOfMemory>
    ensures { IfOk result (λ call. call ≡ call_of (view value.now)) }
{
    match value.as_str() {
        Some(line) => read_call(alloc, line),
        None => Ok(None),
    }
}

fn read_lines(alloc: Global, lines: &[Value]) -> Result<Option<Calls>, OutOfMemory>
    ensures { IfOk result (λ calls. calls
        ≡ result_ok (members_of call_of (items_view lines.now))) }
{
    let mut calls = Vec::new(alloc);
    for line in lines {
        let Some(call) = read_value(alloc, line)? else {
            return Ok(None);
        };
        calls.push(call)?;
    }
    Ok(Some(Calls::from_vec(calls)))
}

#[tactic(auto, using(crate::proofs::Members::count_view), unfolding(crate::specs::Rules::calls_of))]
fn read_calls(alloc: Global, value: Option<&Value>) -> Result<Option<Calls>, OutOfMemory>
    ensures { IfOk result (λ calls. calls
        ≡ calls_of (option_map (λ v. view v.now) value.entry)) }
{
    let Some(value) = value else {
        return Ok(None);
    };
    let Some(lines) = value.as_array() else {
        return Ok(None);
    };
    let lines = lines.as_slice();
    if lines.is_empty() || lines.len() > MOST_CALLS {
        return Ok(None);
    }
    read_lines(alloc, lines)
}

fn read_table(alloc: Global, table: &Table) -> Result<Option<Rule>, OutOfMemory>
    ensures { IfOk result (λ rule. rule ≡ rule_in (table_view table.now)) }
{
    if !has_rule_keys(table) {
        return Ok(None);
    }
    let Some(listener) = read_listener(value_at(table, RuleKey::Listener.name())) else {
        return Ok(None);
    };
    let Some(on) = read_on(value_at(table, RuleKey::On.name())) else {
        return Ok(None);
    };
    let Some(times) = read_times(value_at(table, RuleKey::Times.name())) else {
        return Ok(None);
    };
    let Some(repeat) = read_repeat(value_at(table, RuleKey::Repeat.name())) else {
        return Ok(None);
    };
    let Some(calls) = read_calls(alloc, value_at(table, RuleKey::Calls.name()))? else {
        return Ok(None);
    };
    Ok(Some(Rule {
        listener,
        on,
        times,
        repeat,
        calls,
    }))
}

/// The rule that a value writes; `None` exactly where it writes none.
#[tactic(auto, unfolding(crate::specs::Rules::rule_of))]
pub fn read_rule(alloc: Global, value: &Value) -> Result<Option<Rule>, OutOfMemory>
    ensures { IfOk result (λ rule. rule ≡ rule_of (view value.now)) }
{
    match value.as_table() {
        Some(table) => read_table(alloc, table),
        None => Ok(None),
    }
}
