ghost use Rattle.std.specs.Prelude.{◌≡◌, ◌+◌, ◌==◌, ◌++◌, ◌∷◌, [], ℕ, IfOk, OnOk, OnErr, if◌then◌else◌, nat_lt};
ghost use Rattle.std.specs.List.{filter};
ghost use Rattle.std.specs.BTreeMap.{get};
ghost use Rattle.std.specs.Ordering.{nat_cmp};
ghost use Rattle.mse_calls.specs.declared.rules.Rule.{Rule};
ghost use Rattle.listeners.specs.Index.{is_on, places_or_none, places_at, count_at, bounded_count, IsIndexOf};
ghost use Rattle.listeners.specs.Coming.{rule_at};

use crate::numbers::event_number;
use mse_base::OutOfMemory;
use mse_calls::Rule;
use std::alloc::Global;
use std::collections::BTreeMap;

/// The rules of a listener by the number of their event.
#[derive(Drop)]
pub struct RuleIndex {
    /// The places of the rules that have calls, in their order.
    pub places: BTreeMap<u64, Vec<usize>>,
    /// How often the event was heard, where a rule is on it, up to `2^32 - 1`.
    pub heard: BTreeMap<u64, u32>,
}

/// Puts a place last among those at a number.
fn add_place(
    alloc: Global,
    places: &mut BTreeMap<u64, Vec<usize>>,
    number: u64,
    place: usize,
) -> Result<(), OutOfMemory>
    ensures { OnOk result ((m : ℕ) → places_or_none (get nat_cmp places.new m)
        ≡ (if m == number then places_or_none (get nat_cmp places.old m) ++ place ∷ []
        else places_or_none (get nat_cmp places.old m))) }
{
    let mut list = places.remove(&number).unwrap_or(Vec::new(alloc));
    list.push(place)?;
    places.insert(number, list)?;
    Ok(())
}

/// Puts the place of a rule last at the number of its event, where it has calls.
fn add_rule(
    alloc: Global,
    places: &mut BTreeMap<u64, Vec<usize>>,
    rule: &Rule,
    place: usize,
) -> Result<(), OutOfMemory>
    ensures { OnOk result ((m : ℕ) → places_or_none (get nat_cmp places.new m)
        ≡ (if is_on m rule.now then places_or_none (get nat_cmp places.old m) ++ place ∷ []
        else places_or_none (get nat_cmp places.old m))) }
{
    if rule.calls.is_empty() {
        return Ok(());
    }
    add_place(alloc, places, event_number(&rule.on), place)
}

impl RuleIndex {
    /// The index of rules of which no event was heard.
    pub fn of(alloc: Global, rules: &[Rule]) -> Result<RuleIndex, OutOfMemory>
        ensures { IfOk result (λ index. IsIndexOf rules.now [] index) }
    {
        let mut places = BTreeMap::new(alloc);
        for (place, rule) in rules.iter().enumerate() {
            add_rule(alloc, &mut places, rule, place)?;
        }
        Ok(RuleIndex {
            places,
            heard: BTreeMap::new(alloc),
        })
    }

    /// The places of the rules on the event of this number.
    pub fn places(&self, number: u64) -> &[usize]
        ensures { result.now ≡ places_at self.now number }
    {
        match self.places.get(&number) {
            Some(list) => list.as_slice(),
            None => &[],
        }
    }

    /// How often that event was heard.
    pub fn count(&self, number: u64) -> u32
        ensures { result ≡ count_at self.now number }
    {
        match self.heard.get(&number) {
            Some(count) => *count,
            None => 0,
        }
    }

    /// Counts that event once more.
    pub fn count_one(&mut self, number: u64) -> Result<(), OutOfMemory>
        ensures places { self.new.places ≡ self.old.places }
        ensures ok { OnOk result ((m : ℕ) → count_at self.new m
            ≡ (if m == number then bounded_count (count_at self.old m + 1)
            else count_at self.old m)) }
        ensures err { OnErr result ((m : ℕ) → count_at self.new m ≡ count_at self.old m) }
    {
        let count = self.count(number).saturating_add(1);
        self.heard.insert(number, count)?;
        Ok(())
    }
}

/// The places that are left, and then those of these whose rules answer an event that was heard so
/// often before; the count stands at `2^32 - 1`, which no `times` is above.
pub fn due_places(
    alloc: Global,
    rules: &[Rule],
    places_left: &[usize],
    places: &[usize],
    count: u32,
) -> Result<Vec<usize>, OutOfMemory>
    ensures { (times : ℕ) → count ≡ bounded_count times → IfOk result (λ due. due.items
        ≡ places_left.now
        ++ filter (λ place. nat_lt times (rule_at rules.now place).times) places.now) }
{
    let mut due = Vec::new(alloc);
    due.extend_from_slice(places_left)?;
    for place in places {
        if has_times_left(rules, *place, count) {
            due.push(*place)?;
        }
    }
    Ok(due)
}

/// Whether a number of times is above such a count.
fn is_above(times: u32, count: u32) -> bool
    ensures { (heard : ℕ) → count ≡ bounded_count heard → result ≡ nat_lt heard times }
{
    count < times
}

/// Whether the rule at a place answers an event once more, after it was heard so often.
fn has_times_left(rules: &[Rule], place: usize, count: u32) -> bool
    ensures { (times : ℕ) → count ≡ bounded_count times
        → result ≡ nat_lt times (rule_at rules.now place).times }
{
    match rules.get(place) {
        Some(rule) => is_above(rule.times, count),
        None => false,
    }
}
