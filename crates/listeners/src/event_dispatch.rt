ghost use Rattle.std.specs.Prelude.{◌≡◌, ◌≤◌, ◌<◌, ◌^◌, ◌++◌, ◌∷◌, [], None, OnOk, OnErr, IfOk, map, vec_len};
ghost use Rattle.std.specs.Bool.{OnTrue, OnFalse};
ghost use Rattle.std.specs.Option.{option_copied};
ghost use Rattle.run_steps.specs.declared.note.Note.{Note};
ghost use Rattle.listeners.specs.Notes.{told_note, asked_note};
ghost use Rattle.listeners.specs.Dispatch.{IsCallTurn, IsDispatch, IsServed};
ghost use Rattle.listeners.specs.Ways.{IsAnswerOf, IsByWay, AreByWay};
ghost use Rattle.listeners.specs.Views.{view_of_run, turn_view, dispatch_view};
ghost use Rattle.listeners.specs.TurnSteps.{AreGrown, IsDispatchInSteps, IsGrown, IsServedInSteps};

use crate::Listener;
use mse_base::OutOfMemory;
use mse_calls::{Answer, Blobs, Call, Entry, Event};
use mse_engine::Engine;
use run_journal::Journal;
use thiserror::Error;
use track_store::FrameStore;

/// How many calls a listener may make for one event.
const MOST_CALLS: u32 = 1000;

/// Why the dispatch of an event ended before all listeners were served.
#[derive(Clone, Copy, Debug, PartialEq, Eq, Error)]
pub enum DispatchFault {
    /// There was no memory, for a call that a listener may make or for anything else.
    #[error("out of memory")]
    OutOfMemory,
    /// The listener of this number made 1,000 calls for the event, and answered one more.
    #[error("listener {0} answered more than 1000 calls for one event")]
    CallBudget(u32),
    /// A listener answered a call, and no call was left to the listeners.
    #[error("more listener calls than are left")]
    TaskBudget,
}

/// Whether the listener has heard the event and rests, since it has no call to make.
fn pass_over(listener: &mut Box<dyn Listener>, event: &Event) -> bool
    ensures kind { listener.new.vtable ≡ listener.old.vtable }
    ensures way { way listener.new ≡ way listener.old }
    ensures rules { rules listener.new ≡ rules listener.old }
    ensures idle { OnTrue result (notes listener.new
        ≡ notes listener.old ++ Note.Heard event.now ∷ Note.Rested ∷ []) }
    ensures by_way { OnTrue result (IsAnswerOf (way listener.old) (rules listener.old)
        (notes listener.old ++ Note.Heard event.now ∷ []) None) }
    ensures busy { OnFalse result (notes listener.new ≡ notes listener.old) }
{
    listener.hear_if_idle(event)
}

fn hear_one(listener: &mut Box<dyn Listener>, event: &Event) -> Result<(), OutOfMemory>
    ensures kind { listener.new.vtable ≡ listener.old.vtable }
    ensures way { way listener.new ≡ way listener.old }
    ensures rules { rules listener.new ≡ rules listener.old }
    ensures ok { OnOk result (notes listener.new
        ≡ notes listener.old ++ Note.Heard event.now ∷ []) }
    ensures err { OnErr result (notes listener.new ≡ notes listener.old) }
{
    listener.hear(event)
}

fn ask_one(
    listener: &mut Box<dyn Listener>,
    last: Option<&Answer>,
) -> Result<Option<Call>, OutOfMemory>
    ensures kind { listener.new.vtable ≡ listener.old.vtable }
    ensures way { way listener.new ≡ way listener.old }
    ensures answers { IfOk result (λ call. IsAnswerOf (way listener.old) (rules listener.old)
        (notes listener.old ++ told_note (option_copied last.entry)) call) }
    ensures rules { rules listener.new ≡ rules listener.old }
    ensures ok { IfOk result (λ call. notes listener.new
        ≡ notes listener.old ++ (told_note (option_copied last.entry) ++ asked_note call)) }
    ensures err { OnErr result (notes listener.new ≡ notes listener.old) }
{
    listener.next(last)
}

/// Makes a call of a listener, puts it into the journal, tells the answer, and asks for the next.
fn make_one<S: FrameStore>(
    engine: &mut Engine<S>,
    blobs: &Blobs,
    listener: &mut Box<dyn Listener>,
    number: u32,
    call: Call,
    left: &mut u64,
    journal: &mut Journal,
) -> Result<Option<Call>, OutOfMemory>
    requires { 1 ≤ left.old }
    ensures kind { listener.new.vtable ≡ listener.old.vtable }
    ensures way { way listener.new ≡ way listener.old }
    ensures by_way { IsByWay (way listener.old) (rules listener.old) (notes listener.old)
        → IsByWay (way listener.new) (rules listener.new) (notes listener.new) }
    ensures rules { rules listener.new ≡ rules listener.old }
    ensures turn { IsCallTurn blobs.now call
        (turn_view number (view_of_run engine.old journal.old.entries left.old)
        (notes listener.old))
        (turn_view number (view_of_run engine.new journal.new.entries left.new)
        (notes listener.new))
        result }
{
    let Ok(()) = journal.reserve(1) else {
        return Err(OutOfMemory);
    };
    let Ok(answer) = engine.call(&call, blobs) else {
        return Err(OutOfMemory);
    };
    let next_call = ask_one(listener, Some(&answer));
    journal.push_reserved(Entry::Listener(number, call, answer));
    *left -= 1;
    next_call
}

/// One listener hears the event, and makes its calls. It stands apart, so that passing over an idle listener stays short.
#[inline(never)]
fn hear_and_call<S: FrameStore>(
    engine: &mut Engine<S>,
    blobs: &Blobs,
    listener: &mut Box<dyn Listener>,
    number: u32,
    event: &Event,
    left: &mut u64,
    journal: &mut Journal,
) -> Result<(), DispatchFault>
    ensures kind { listener.new.vtable ≡ listener.old.vtable }
    ensures way { way listener.new ≡ way listener.old }
    ensures by_way { IsByWay (way listener.old) (rules listener.old) (notes listener.old)
        → IsByWay (way listener.new) (rules listener.new) (notes listener.new) }
    ensures rules { rules listener.new ≡ rules listener.old }
    ensures turn { IsServed blobs.now event.now
        (turn_view number (view_of_run engine.old journal.old.entries left.old)
        (notes listener.old))
        (turn_view number (view_of_run engine.new journal.new.entries left.new)
        (notes listener.new))
        result }
{
    let Ok(()) = hear_one(listener, event) else {
        return Err(DispatchFault::OutOfMemory);
    };
    let Ok(mut next_call) = ask_one(listener, None) else {
        return Err(DispatchFault::OutOfMemory);
    };
    let mut call_count = 0u32;
    while let Some(call) = next_call {
        if call_count == MOST_CALLS {
            return Err(DispatchFault::CallBudget(number));
        }
        if *left == 0 {
            return Err(DispatchFault::TaskBudget);
        }
        let Ok(next) = make_one(engine, blobs, listener, number, call, left, journal) else {
            return Err(DispatchFault::OutOfMemory);
        };
        next_call = next;
        call_count += 1;
    }
    Ok(())
}

/// The turn of one listener, which is passed over where it is idle.
fn serve<S: FrameStore>(
    engine: &mut Engine<S>,
    blobs: &Blobs,
    listener: &mut Box<dyn Listener>,
    number: u32,
    event: &Event,
    left: &mut u64,
    journal: &mut Journal,
) -> Result<(), DispatchFault>
    ensures kind { listener.new.vtable ≡ listener.old.vtable }
    ensures way { way listener.new ≡ way listener.old }
    ensures by_way { IsByWay (way listener.old) (rules listener.old) (notes listener.old)
        → IsByWay (way listener.new) (rules listener.new) (notes listener.new) }
    ensures rules { rules listener.new ≡ rules listener.old }
    ensures turn { IsServed blobs.now event.now
        (turn_view number (view_of_run engine.old journal.old.entries left.old)
        (notes listener.old))
        (turn_view number (view_of_run engine.new journal.new.entries left.new)
        (notes listener.new))
        result }
    ensures grew { IsGrown (notes listener.old) (notes listener.new) }
    ensures steps { IsServedInSteps blobs.now event.now
        (turn_view number (view_of_run engine.old journal.old.entries left.old)
        (notes listener.old))
        (turn_view number (view_of_run engine.new journal.new.entries left.new)
        (notes listener.new))
        result }
{
    if pass_over(listener, event) {
        return Ok(());
    }
    hear_and_call(engine, blobs, listener, number, event, left, journal)
}

/// Tells an event to each listener in turn. A listener that heard it is asked for calls until it has
/// no further one, first with no answer and then each time with that of the call just made; each call
/// is made on the engine at once, and stands in the journal. Only then does the next listener hear
/// the event. The listeners may make `left` calls more together. Each stays at its place and keeps
/// its way, and answers by its way where it tells one. The dispatch is some steps of each run in which
/// listeners answer as these did (`steps`).
///
/// `CallBudget` where a listener answers with a call after 1,000 calls for this event, `TaskBudget`
/// where one answers with a call and no call is left, and `OutOfMemory`. The dispatch ends there:
/// what was heard and made by then stays, also in the engine and in the journal, and the listeners
/// behind do not hear the event.
pub fn dispatch<S: FrameStore>(
    engine: &mut Engine<S>,
    blobs: &Blobs,
    listeners: &mut Vec<Box<dyn Listener>>,
    event: &Event,
    left: &mut u64,
    journal: &mut Journal,
) -> Result<(), DispatchFault>
    requires { vec_len listeners.old < 2 ^ 32 }
    ensures count { vec_len listeners.new ≡ vec_len listeners.old }
    ensures kinds { map (λ b. b.vtable) listeners.new.items
        ≡ map (λ b. b.vtable) listeners.old.items }
    ensures ways { map (λ b. way b) listeners.new.items ≡ map (λ b. way b) listeners.old.items }
    ensures by_way { AreByWay way rules notes listeners.old.items
        → AreByWay way rules notes listeners.new.items }
    ensures rules { map (λ b. rules b) listeners.new.items
        ≡ map (λ b. rules b) listeners.old.items }
    ensures dispatch { IsDispatch blobs.now event.now
        (dispatch_view (view_of_run engine.old journal.old.entries left.old)
        (map (λ b. notes b) listeners.old.items))
        (dispatch_view (view_of_run engine.new journal.new.entries left.new)
        (map (λ b. notes b) listeners.new.items)) result }
    ensures grew { AreGrown (map (λ b. notes b) listeners.old.items)
        (map (λ b. notes b) listeners.new.items) }
    ensures steps { IsDispatchInSteps blobs.now event.now
        (dispatch_view (view_of_run engine.old journal.old.entries left.old)
        (map (λ b. notes b) listeners.old.items))
        (dispatch_view (view_of_run engine.new journal.new.entries left.new)
        (map (λ b. notes b) listeners.new.items)) result }
{
    for number in 0..listeners.len() {
        let listener = &mut listeners[number];
        match serve(engine, blobs, listener, number as u32, event, left, journal) {
            Ok(()) => {}
            Err(fault) => return Err(fault),
        }
    }
    Ok(())
}
