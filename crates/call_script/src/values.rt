ghost use Rattle.std.specs.Prelude.{◌≡◌, ◌≤◌, IfSome, option_map, string_bytes};
ghost use Rattle.std.specs.List.{list_all};
ghost use Rattle.toml.specs.View.{view, table_view, items_view};
ghost use Rattle.toml.specs.Data.{get_member};
ghost use Rattle.call_script.specs.Keys.{unknown_key, is_rule_key, keys_of, number_or, items_or_none};

use crate::key::{is_rule_key, is_script_key};
use toml::{Table, Value};

/// The value at a key of a table.
pub fn value_at<'a>(table: &'a Table, key: &str) -> Option<&'a Value>
    ensures { option_map (λ v. view v.now) result ≡ get_member key.now (table_view table.now) }
{
    table.get(key)
}

/// The first key of a table, in order of bytes, that a script does not have.
pub fn unknown_key(table: &Table) -> Option<&String>
    ensures { option_map (λ key. string_bytes key.now) result ≡ unknown_key (table_view table.now) }
{
    table.keys().find(|key| !is_script_key(key.as_str()))
}

/// Whether a table has no other keys than those of a rule.
pub fn has_rule_keys(table: &Table) -> bool
    ensures { result ≡ list_all is_rule_key (keys_of (table_view table.now)) }
{
    table.keys().all(|key| is_rule_key(key.as_str()))
}

/// The numbers that may stand at a key, in the unit of that key.
#[derive(Clone, Copy)]
pub struct Setting {
    /// The number that is meant where the key is not there.
    pub default: u64,
    /// The least number that may stand there.
    pub least: u64,
    /// The greatest number that may stand there.
    pub most: u64,
}

/// The number at a key: a whole number in the range of the setting, or its default where there is no
/// value.
#[tactic(auto, unfolding(crate::specs::Keys::number_or))]
pub fn number_in(value: Option<&Value>, setting: Setting) -> Option<u64>
    requires { setting.default ≤ setting.most }
    ensures value { result ≡ number_or setting.default setting.least setting.most
        (option_map (λ v. view v.now) value.entry) }
    ensures bounded { IfSome result (λ n. n ≤ setting.most) }
{
    let Some(value) = value else {
        return Some(setting.default);
    };
    let number = value.as_integer()?;
    if number < 0 {
        return None;
    }
    let number = number as u64;
    if setting.least <= number && number <= setting.most {
        Some(number)
    } else {
        None
    }
}

/// The list at a key: the empty list where there is no value; `None` where the value is no list.
#[tactic(auto, unfolding(crate::specs::Keys::items_or_none))]
pub fn list_in(value: Option<&Value>) -> Option<&[Value]>
    ensures { option_map (λ vs. items_view vs.now) result
        ≡ items_or_none (option_map (λ v. view v.now) value.entry) }
{
    match value {
        None => Some(&[]),
        Some(value) => match value.as_array() {
            Some(items) => Some(items.as_slice()),
            None => None,
        },
    }
}
