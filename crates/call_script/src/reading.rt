ghost use Rattle.std.specs.Prelude.{◌≡◌, ◌≤◌, IfOk, IsErrOf, Ok, Err, option_and_then};
ghost use Rattle.toml.specs.View.{view, table_view, items_view};
ghost use Rattle.toml.specs.Data.{as_str};
ghost use Rattle.call_script.specs.Blobs.{blob_of};
ghost use Rattle.call_script.specs.Lines.{step_of_line};
ghost use Rattle.call_script.specs.Script.{IsAnswer, IsError, answer_by, keys_check, number_at, list_at, at_most, blobs_of, steps_of, rules_of, script_of, read_of};

use crate::blobs::read_blob;
use crate::fault::{ScriptError, ScriptFault};
use crate::key::ScriptKey;
use crate::lines::read_step;
use crate::rules::read_rule;
use crate::script::{BlobText, BlobTexts, Rules, Script, StepLine, StepLines};
use crate::values::{Setting, list_in, number_in, unknown_key, value_at};
use mse_base::{OutOfMemory, Text};
use std::alloc::Global;
use toml::{Table, Value};

const QUOTA: Setting = Setting {
    default: 134_217_728,
    least: 1,
    most: 1 << 40,
};

const DRAIN: Setting = Setting {
    default: 100_000,
    least: 1,
    most: 1_000_000,
};

const GAP: Setting = Setting {
    default: 0,
    least: 0,
    most: 1 << 40,
};

const MOST_BLOBS: usize = 1000;

const MOST_STEPS: usize = 100_000;

const MOST_RULES: usize = 1000;

/// The error that names a key.
fn key_error(alloc: Global, name: &str) -> ScriptError
    ensures { IsError result (ScriptFault.Key name.now) }
{
    match Text::copy_of(alloc, name) {
        Ok(name) => ScriptError::Fault(ScriptFault::Key(name)),
        Err(_) => ScriptError::OutOfMemory,
    }
}

#[tactic(auto, unfolding(crate::specs::Script::keys_check))]
fn check_keys(alloc: Global, table: &Table) -> Result<(), ScriptError>
    ensures { IsAnswer result (keys_check (table_view table.now)) }
{
    match unknown_key(table) {
        Some(key) => Err(key_error(alloc, key.as_str())),
        None => Ok(()),
    }
}

#[tactic(auto, unfolding(crate::specs::Script::number_at))]
fn read_number(
    alloc: Global,
    table: &Table,
    key: ScriptKey,
    setting: Setting,
) -> Result<u64, ScriptError>
    requires { setting.default ≤ setting.most }
    ensures { IsAnswer result
        (number_at key setting.default setting.least setting.most (table_view table.now)) }
{
    match number_in(value_at(table, key.name()), setting) {
        Some(number) => Ok(number),
        None => Err(key_error(alloc, key.name())),
    }
}

#[tactic(auto, unfolding(crate::specs::Script::list_at))]
fn read_list<'a>(
    alloc: Global,
    table: &'a Table,
    key: ScriptKey,
) -> Result<&'a [Value], ScriptError>
    ensures { IsAnswer (answer_by (λ vs. items_view vs.now) result)
        (list_at key (table_view table.now)) }
{
    match list_in(value_at(table, key.name())) {
        Some(items) => Ok(items),
        None => Err(key_error(alloc, key.name())),
    }
}

fn check_count(items: &[Value], most: usize, key: ScriptKey) -> Result<(), ScriptError>
    ensures { IsAnswer result (at_most most key (items_view items.now)) }
{
    if items.len() <= most {
        Ok(())
    } else {
        Err(ScriptError::Fault(ScriptFault::TooMany(key)))
    }
}

fn blob_in(alloc: Global, value: &Value) -> Result<Option<BlobText>, OutOfMemory>
    ensures { IfOk result (λ blob. blob ≡ option_and_then blob_of (as_str (view value.now))) }
{
    match value.as_str() {
        Some(text) => read_blob(alloc, text),
        None => Ok(None),
    }
}

#[tactic(auto, unfolding(crate::specs::Script::blobs_of))]
fn read_blobs(alloc: Global, texts: &[Value]) -> Result<BlobTexts, ScriptError>
    ensures { IsAnswer result (blobs_of (items_view texts.now)) }
{
    let mut blobs = Vec::new(alloc);
    for (n, text) in texts.iter().enumerate() {
        let Some(blob) = blob_in(alloc, text)? else {
            return Err(ScriptError::Fault(ScriptFault::Blob(n)));
        };
        blobs.push(blob)?;
    }
    Ok(BlobTexts::from_vec(blobs))
}

fn step_in(alloc: Global, value: &Value) -> Result<Option<StepLine>, OutOfMemory>
    ensures { IfOk result (λ step. step ≡ option_and_then step_of_line (as_str (view value.now))) }
{
    match value.as_str() {
        Some(line) => read_step(alloc, line),
        None => Ok(None),
    }
}

#[tactic(auto, unfolding(crate::specs::Script::steps_of))]
fn read_steps(alloc: Global, lines: &[Value]) -> Result<StepLines, ScriptError>
    ensures { IsAnswer result (steps_of (items_view lines.now)) }
{
    let mut steps = Vec::new(alloc);
    for (n, line) in lines.iter().enumerate() {
        let Some(step) = step_in(alloc, line)? else {
            return Err(ScriptError::Fault(ScriptFault::Step(n)));
        };
        steps.push(step)?;
    }
    Ok(StepLines::from_vec(steps))
}

#[tactic(auto, unfolding(crate::specs::Script::rules_of))]
fn read_rules(alloc: Global, values: &[Value]) -> Result<Rules, ScriptError>
    ensures { IsAnswer result (rules_of (items_view values.now)) }
{
    let mut rules = Vec::new(alloc);
    for (n, value) in values.iter().enumerate() {
        let Some(rule) = read_rule(alloc, value)? else {
            return Err(ScriptError::Fault(ScriptFault::Rule(n)));
        };
        rules.push(rule)?;
    }
    Ok(Rules::from_vec(rules))
}

/// The script of a table.
#[tactic(auto, unfolding(crate::specs::Script::script_of))]
fn read_table(alloc: Global, table: &Table) -> Result<Script, ScriptError>
    ensures { IsAnswer result (script_of (table_view table.now)) }
{
    check_keys(alloc, table)?;
    let quota = read_number(alloc, table, ScriptKey::Quota, QUOTA)?;
    let drain = read_number(alloc, table, ScriptKey::Drain, DRAIN)?;
    let gap = read_number(alloc, table, ScriptKey::Gap, GAP)?;
    let blobs = read_list(alloc, table, ScriptKey::Blobs)?;
    let steps = read_list(alloc, table, ScriptKey::Steps)?;
    let rules = read_list(alloc, table, ScriptKey::Rules)?;
    check_count(blobs, MOST_BLOBS, ScriptKey::Blobs)?;
    check_count(steps, MOST_STEPS, ScriptKey::Steps)?;
    check_count(rules, MOST_RULES, ScriptKey::Rules)?;
    let blobs = read_blobs(alloc, blobs)?;
    let steps = read_steps(alloc, steps)?;
    let rules = read_rules(alloc, rules)?;
    Ok(Script {
        quota,
        drain,
        gap,
        blobs,
        steps,
        rules,
    })
}

/// Reads a script: TOML in UTF-8 with the keys `quota`, `drain`, `gap`, `blobs`, `steps` and
/// `rules`, all of which may be left out. The answer is the script, or its first fault in the order
/// of [`ScriptFault`], with the name or the number that it has; it depends on nothing but the
/// bytes, apart from want of memory.
pub fn read_script(alloc: Global, bytes: &[u8]) -> Result<Script, ScriptError>
    ensures ok { IfOk result (λ script. read_of bytes.now ≡ Ok script) }
    ensures fault { (fault : ScriptFault) → IsErrOf result (ScriptError.Fault fault)
        → read_of bytes.now ≡ Err fault }
{
    match toml::table_from_slice(alloc, bytes) {
        Ok(table) => read_table(alloc, &table),
        Err(error) => {
            if error.is_memory() {
                Err(ScriptError::OutOfMemory)
            } else {
                Err(ScriptError::Fault(ScriptFault::NotToml))
            }
        }
    }
}
