ghost use Rattle.std.specs.Prelude.{◌≡◌, ◌+◌, ◌-◌, ◌^◌, ◌<◌, ◌++◌, ◌∷◌, [], List, Some, length, nat_lt, IsSomeAnd, OnOk, OnErr, IfOk, if◌then◌else◌};
ghost use Rattle.std.specs.Bool.{OnTrue};
ghost use Rattle.std.specs.List.{filter};
ghost use Rattle.std.specs.Option.{option_copied};
ghost use Rattle.mse_calls.specs.declared.events.Event.{Event};
ghost use Rattle.mse_calls.specs.declared.rules.Rule.{Rule};
ghost use Rattle.listeners.specs.Notes.{told_note, asked_note, heard_of, calls_made};
ghost use Rattle.listeners.specs.RuleCalls.{is_answering, rule_calls, next_call};
ghost use Rattle.listeners.specs.Events.{event_number};
ghost use Rattle.listeners.specs.Index.{places_at, IsIndexOf, HasIndex};
ghost use Rattle.listeners.specs.Coming.{rules_at, due_after};

use crate::Listener;
use crate::history::{History, Remark, with_answer_and_remark, with_remark};
use crate::index::{RuleIndex, due_places};
use crate::numbers::event_number;
use mse_base::OutOfMemory;
use mse_calls::{Answer, Call, Event, Rule};
use std::alloc::Global;
use std::marker::Model;

/// A listener that makes the calls of its rules. On an event it makes those of each rule on it whose
/// `times` is not used up, in the order of its rules. A rule that repeats makes its calls again and
/// again; a rule without calls makes none. It finds its rules by the event, and keeps no notes.
#[derive(Drop)]
pub struct RuleListener {
    alloc: Global,
    rules: Vec<Rule>,
    index: Option<RuleIndex>,
    due: Vec<usize>,
    at: usize,
    call: usize,
    history: History,
}

impl Model for RuleListener {
    ghost use Rattle.std.specs.Prelude.{◌≤◌, length, drop};
    ghost use Rattle.listeners.specs.ListenerView.{ListenerView};
    ghost use Rattle.listeners.specs.Coming.{notes_of, HasListenerInvariants};

    ghost Value = { ListenerView };

    ghost view = { λ a. record {
      rules = a.rules.items;
      notes = notes_of a.rules.items a.history.items;
    } };

    ghost invariant = { λ a. (a.at ≤ length a.due.items)
        × HasListenerInvariants a.rules.items (notes_of a.rules.items a.history.items) a.index
        (drop a.at a.due.items) a.call };
}

/// Takes the index of rules, which is made where there is none.
fn take_index(
    alloc: Global,
    index: &mut Option<RuleIndex>,
    rules: &[Rule],
) -> Result<RuleIndex, OutOfMemory>
    ensures ok { (heard : List Event) → HasIndex rules.now heard index.old
        → IfOk result (λ rule_index. IsIndexOf rules.now heard rule_index) }
    ensures err { (heard : List Event) → HasIndex rules.now heard index.old
        → OnErr result (HasIndex rules.now heard index.new) }
{
    match index.take() {
        Some(rule_index) => Ok(rule_index),
        None => RuleIndex::of(alloc, rules),
    }
}

/// Whether the index is there, and has no rule on an event.
fn has_no_rule_on(index: &Option<RuleIndex>, event: &Event) -> bool
    ensures { OnTrue result (IsSomeAnd index.now (λ rule_index.
        places_at rule_index (event_number event.now) ≡ [])) }
{
    match index {
        Some(rule_index) => rule_index.places(event_number(event)).is_empty(),
        None => false,
    }
}

/// Hears an event: the places that are due after it, or none where no rule is on it.
fn hear_by_index(
    alloc: Global,
    index: &mut RuleIndex,
    rules: &[Rule],
    places_left: &[usize],
    event: &Event,
) -> Result<Option<Vec<usize>>, OutOfMemory>
    ensures index { (heard : List Event) → IsIndexOf rules.now heard index.old
        → OnOk result (IsIndexOf rules.now (heard ++ event.now ∷ []) index.new) }
    ensures due { (heard : List Event) → IsIndexOf rules.now heard index.old
        → IfOk result (λ due. rules_at rules.now (due_after places_left.now due)
        ≡ rules_at rules.now places_left.now ++ filter (is_answering heard event.now) rules.now) }
    ensures err { (heard : List Event) → IsIndexOf rules.now heard index.old
        → OnErr result (IsIndexOf rules.now heard index.new) }
{
    let number = event_number(event);
    let places = index.places(number);
    if places.is_empty() {
        return Ok(None);
    }
    let due = due_places(alloc, rules, places_left, places, index.count(number))?;
    index.count_one(number)?;
    Ok(Some(due))
}

/// The same, with an index that may not be there yet.
fn hear_event(
    alloc: Global,
    index: &mut Option<RuleIndex>,
    rules: &[Rule],
    places_left: &[usize],
    event: &Event,
) -> Result<Option<Vec<usize>>, OutOfMemory>
    ensures index { (heard : List Event) → HasIndex rules.now heard index.old
        → OnOk result (HasIndex rules.now (heard ++ event.now ∷ []) index.new) }
    ensures due { (heard : List Event) → HasIndex rules.now heard index.old
        → IfOk result (λ due. rules_at rules.now (due_after places_left.now due)
        ≡ rules_at rules.now places_left.now ++ filter (is_answering heard event.now) rules.now) }
    ensures err { (heard : List Event) → HasIndex rules.now heard index.old
        → OnErr result (HasIndex rules.now heard index.new) }
{
    let mut rule_index = take_index(alloc, index, rules)?;
    let due = hear_by_index(alloc, &mut rule_index, rules, places_left, event);
    *index = Some(rule_index);
    due
}

/// Where the listener stands after a call of a rule: the place in what is due, and the next call.
fn turn_after(rule: &Rule, at: usize, call: usize) -> (usize, usize)
    requires call { call < length rule.now.calls }
    requires at { at < 2 ^ 64 - 1 }
    ensures { result ≡ (if nat_lt (call + 1) (length rule.now.calls) then (at, call + 1)
        else (if rule.now.repeat then (at, 0) else (at + 1, 0))) }
{
    let count = rule.calls.len();
    if call + 1 < count {
        (at, call + 1)
    } else if rule.repeat {
        (at, 0)
    } else {
        (at + 1, 0)
    }
}

impl RuleListener {
    /// A listener without rules, which has heard nothing. It takes no memory.
    pub fn new(alloc: Global) -> RuleListener
        ensures rules { result.rules ≡ [] }
        ensures notes { result.notes ≡ [] }
        ensures listener { ⟦<RuleListener as Listener>⟧.notes result ≡ [] }
        ensures way { ⟦<RuleListener as Listener>⟧.way result ≡ Some next_call }
    {
        RuleListener {
            alloc,
            rules: Vec::new(alloc),
            index: None,
            due: Vec::new(alloc),
            at: 0,
            call: 0,
            history: History::new(),
        }
    }

    /// The calls that it made are the first that its rules give for the events that it heard. It does
    /// nothing.
    pub fn calls_are_by_rules(&self)
        ensures { calls_made self.now.notes ≡ rule_calls self.now.rules (heard_of self.now.notes)
            (length (calls_made self.now.notes)) }
    {
        // The proof reads off this what always holds of the fields.
        let _ = &self.alloc;
    }
}

impl Listener for RuleListener {
    ghost way = { λ _. Some next_call };

    ghost rules = { λ s. s.rules };

    ghost notes = { λ s. s.notes };

    fn set_rules(&mut self, list: Vec<Rule>) {
        self.rules = list;
        self.index = None;
        self.due = Vec::new(self.alloc);
        self.at = 0;
        self.call = 0;
        self.history = History::new();
    }

    fn hear(&mut self, event: &Event) -> Result<(), OutOfMemory> {
        let places_left = &self.due[self.at..];
        let rules = self.rules.as_slice();
        let Some(due) = hear_event(self.alloc, &mut self.index, rules, places_left, event)? else {
            self.history = with_remark(&self.history, Remark::Heard(*event));
            return Ok(());
        };
        self.due = due;
        self.at = 0;
        self.history = with_remark(&self.history, Remark::Heard(*event));
        Ok(())
    }

    fn hear_if_idle(&mut self, event: &Event) -> bool {
        if self.at < self.due.len() {
            return false;
        }
        if !has_no_rule_on(&self.index, event) {
            return false;
        }
        let heard = with_remark(&self.history, Remark::Heard(*event));
        self.history = with_remark(&heard, Remark::Rested);
        true
    }

    /// It answers the next call that its rules give for the events that it heard, and `None` exactly
    /// where they give no further one.
    fn next(&mut self, last: Option<&Answer>) -> Result<Option<Call>, OutOfMemory>
        ensures rules { self.new.rules ≡ self.old.rules }
        ensures ok { IfOk result (λ call. self.new.notes
            ≡ self.old.notes ++ (told_note (option_copied last.entry) ++ asked_note call)) }
        ensures err { OnErr result (self.new.notes ≡ self.old.notes) }
        ensures by_rules { IfOk result (λ call. call ≡ next_call self.old.rules self.old.notes) }
        ensures by_way { IfOk result (λ call. call ≡ next_call self.old.rules
            (self.old.notes ++ told_note (option_copied last.entry))) }
    {
        let Some(place) = self.due.get(self.at).copied() else {
            self.history = with_answer_and_remark(&self.history, last, Remark::Rested);
            return Ok(None);
        };
        let rule = &self.rules[place];
        let call = rule.calls.as_slice()[self.call].copy()?;
        let turn = turn_after(rule, self.at, self.call);
        self.history = with_answer_and_remark(&self.history, last, Remark::Made(place, self.call));
        self.at = turn.0;
        self.call = turn.1;
        Ok(Some(call))
    }
}
