//! Calls with their answers. A call that is the same as one of the last that were kept is not kept again.

ghost use Rattle.std.specs.Prelude.{◌≡◌, ◌<◌, ◌≤◌, ◌+◌, ◌++◌, ◌∷◌, [], Some, IfSome, OnOk, OnErr, max, length, slice_get, vec_len, vec_capacity};
ghost use Rattle.run_journal.specs.AnsweredCalls.{answered};
ghost use Rattle.run_journal.specs.EntryPlaces.{IsExtension};

use crate::same_call::is_same;
use mse_base::OutOfMemory;
use mse_calls::{Answer, Call};
use std::alloc::Global;
use std::marker::Model;

/// Among so many of the last calls a call is looked for, before it is kept.
const NEAR: usize = 8;

/// The place of a call in a list, and what it answered.
#[derive(Debug, Drop)]
pub(crate) struct PlacedCall {
    pub(crate) place: usize,
    pub(crate) answer: Answer,
}

/// Calls with their answers, in order, and room for more.
#[derive(Debug, Drop)]
pub(crate) struct AnsweredCalls {
    calls: Vec<Call>,
    list: Vec<PlacedCall>,
    spare: usize,
}

impl Model for AnsweredCalls {
    ghost use Rattle.std.specs.Prelude.{◌+◌, ◌≤◌, All, vec_len, vec_capacity};
    ghost use Rattle.run_journal.specs.AnsweredCalls.{AnsweredCallsView, answered_calls, IsCallInside};

    ghost Value = { AnsweredCallsView };

    ghost view = { λ a. record {
      list = answered_calls a.calls.items a.list.items;
      spare = a.spare;
    } };

    ghost invariant = { λ a. record {
      calls_inside : All (IsCallInside a.calls.items) a.list.items;
      calls_room : vec_len a.calls + a.spare ≤ vec_capacity a.calls;
      list_room : vec_len a.list + a.spare ≤ vec_capacity a.list;
    } };
}

/// The place of one of the last calls which is the same as a call.
fn near_place(calls: &[Call], call: &Call) -> Option<usize>
    ensures { IfSome result (λ place. slice_get calls.now place ≡ Some call.now) }
{
    for place in calls.len().saturating_sub(NEAR)..calls.len() {
        if is_same(&calls[place], call) {
            return Some(place);
        }
    }
    None
}

/// Keeps a call, in room that is there, and says where.
fn keep_call(calls: &mut Vec<Call>, call: Call) -> usize
    requires { vec_len calls.old < vec_capacity calls.old }
    ensures call { slice_get calls.new.items result ≡ Some call }
    ensures extended { IsExtension calls.old.items calls.new.items }
    ensures len { vec_len calls.new ≤ vec_len calls.old + 1 }
    ensures capacity { vec_capacity calls.new ≡ vec_capacity calls.old }
{
    if let Some(place) = near_place(calls, &call) {
        return place;
    }
    let place = calls.len();
    calls.push_reserved(call);
    place
}

impl AnsweredCalls {
    /// No call. It takes no memory.
    pub(crate) fn new(alloc: Global) -> AnsweredCalls
        ensures list { result.list ≡ [] }
        ensures spare { result.spare ≡ 0 }
    {
        AnsweredCalls {
            calls: Vec::new(alloc),
            list: Vec::new(alloc),
            spare: 0,
        }
    }

    /// How many calls there are.
    pub(crate) fn len(&self) -> usize
        ensures { result ≡ length self.now.list }
    {
        self.list.len()
    }

    /// The call of an index, and what it answered.
    pub(crate) fn get(&self, i: usize) -> (&Call, &Answer)
        requires { i < length self.now.list }
        ensures { slice_get self.now.list i ≡ Some (answered result.0.now result.1.now) }
    {
        let placed = &self.list[i];
        (&self.calls[placed.place], &placed.answer)
    }

    /// Makes room for at least `n` more calls. An `Err` leaves the calls and the room.
    pub(crate) fn reserve(&mut self, n: usize) -> Result<(), OutOfMemory>
        ensures spare { OnOk result (self.new.spare ≡ max self.old.spare n) }
        ensures same_room { OnErr result (self.new.spare ≡ self.old.spare) }
        ensures list { self.new.list ≡ self.old.list }
    {
        self.calls.try_reserve(n)?;
        self.list.try_reserve(n)?;
        self.spare = self.spare.max(n);
        Ok(())
    }

    /// Puts a call with its answer last, in reserved room, which falls by one. It takes no memory.
    pub(crate) fn push_reserved(&mut self, call: Call, answer: Answer)
        requires { 1 ≤ self.old.spare }
        ensures list { self.new.list ≡ self.old.list ++ answered call answer ∷ [] }
        ensures spare { self.new.spare + 1 ≡ self.old.spare }
    {
        let place = keep_call(&mut self.calls, call);
        self.list.push_reserved(PlacedCall { place, answer });
        self.spare -= 1;
    }
}
