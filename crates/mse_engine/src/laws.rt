//! What follows from the definitions of this crate: functions that do nothing, with the laws as
//! their contracts.

ghost use Rattle.std.specs.Prelude.{◌≡◌, ◌++◌, ◌&&◌, ℕ, List, [], length, Option, Some, None};
ghost use Rattle.mse_calls.specs.AnswerAndState.{AnswerAndState};
ghost use Rattle.mse_calls.specs.declared.answers.Answer.TheVariants.{Refused};
ghost use Rattle.mse_calls.specs.declared.answers.Name.{Name};
ghost use Rattle.mse_calls.specs.declared.calls.Call.{Call};
ghost use Rattle.mse_calls.specs.declared.entry.Entry.{Entry};
ghost use Rattle.mse_calls.specs.declared.events.Event.{Event};
ghost use Rattle.track_buffers.specs.Media.{Media};
ghost use Rattle.source_state.specs.State.{SourceState, are_in};
ghost use Rattle.media_element.specs.Queueing.{after_fire};
ghost use Rattle.mse_engine.specs.State.{Core, State, core_of};
ghost use Rattle.mse_engine.specs.Signals.{step};
ghost use Rattle.mse_engine.specs.Calls.{after_call, core_effect};
ghost use Rattle.mse_engine.specs.Settled.{IsNeitherOpenedNorEvicted, IsSettledState};
ghost use Rattle.source_buffers.specs.State.{media_of_all};
ghost use Rattle.source_buffers.specs.All.{are_initialized};
ghost use Rattle.source_buffers.specs.Slots.{BuffersResult, buffers_turn};
ghost use Rattle.mse_engine.specs.Replies.{is_loading, surroundings_in};
ghost use Rattle.mse_engine.specs.Examples.{told_end, listed_without_buffer};
ghost use Rattle.mse_engine.specs.Lists.{AreListsSame};
ghost use Rattle.mse_engine.specs.Positions.{IsInsideState};
ghost use Rattle.mse_engine.specs.Sound.{IsSoundState};
ghost use Rattle.mse_engine.specs.Work.{after_element_turn, after_work, fire_result};
ghost use Rattle.mse_engine.specs.Run.{after_entries, fired_events};
ghost use Rattle.mse_engine.specs.Progress.{IsFewerTurns, IsLessWork, IsOneEventLess};
ghost use Rattle.mse_engine.specs.DrainCounts.{AreStepsByThemselves, HasStepCounts, events_queued_in};
ghost use Rattle.mse_engine.specs.Refusals.{IsLateRefusal, IsRefusedAsNamed, call_refusal};

/// A call whose refusal is a name is refused by it, and nothing comes of it: the source and its
/// buffers stay as they are, and the element hears nothing but the end of the step. A call that is
/// refused without such a name is an append, for the quota, or sets the mode or the timestamp offset
/// in the middle of a media segment, where the source was ended.
pub fn refusals()
    ensures told { (blobs : List (List ℕ)) (call : Call) (st : State)
        → IsRefusedAsNamed blobs call st }
    ensures late { (blobs : List (List ℕ)) (call : Call) (st : State) (name : Name)
        → call_refusal blobs call st ≡ None → (after_call blobs call st).answer ≡ Refused name
        → IsLateRefusal call name st }
{}

/// The state is settled behind each step. A step in which nothing happens leaves a settled state; so
/// does a refused call behind which an ended source is ended still, and each track stores as many
/// coded frames as before; and firing an event ends like every step.
pub fn settled()
    ensures call { (blobs : List (List ℕ)) (call : Call) (st : State)
        → IsSettledState (after_call blobs call st).state }
    ensures work { (k : ℕ) (st : State) (new : State) → after_work k st ≡ Some new
        → IsSettledState new }
    ensures turn { (st : State) (new : State) → after_element_turn st ≡ Some new
        → IsSettledState new }
    ensures still { (st : State) → IsSettledState st → step (core_of st) [] st.element ≡ st }
    ensures refused { (blobs : List (List ℕ)) (call : Call) (st : State) (name : Name)
        → IsSettledState st → (after_call blobs call st).answer ≡ Refused name
        → IsNeitherOpenedNorEvicted st (after_call blobs call st).state
        → (after_call blobs call st).state ≡ st }
    ensures fired { (st : State) (fired : AnswerAndState Event State) → IsSettledState st
        → fire_result st ≡ Some fired
        → fired.state ≡ step (core_of st) [] (after_fire st.element) }
{}

/// The core that a call leaves goes by the core before it, the call and the position alone: the source
/// and its buffers, and of the element its error and whether it has metadata.
pub fn cores()
    ensures call { (blobs : List (List ℕ)) (call : Call) (st : State)
        → core_of (after_call blobs call st).state
        ≡ (core_effect blobs st.element.player.position call (core_of st)).core }
{}

/// Where the lists of the source tell the same as the slots, every buffer in the list is active
/// exactly where every buffer that is there has had its first initialization segment. So a step of
/// work brings the metadata exactly where an initialization segment was received, the element has
/// none, and behind the step every source buffer in the list has had its first one.
pub fn active_buffers()
    ensures listed { (s : SourceState) (media : List (Option Media)) → AreListsSame s media
        → are_in s.listed s.active ≡ are_initialized media }
    ensures loading { (k : ℕ) (c : Core) (result : BuffersResult)
        → AreListsSame c.source.state (media_of_all c.buffers)
        → buffers_turn k (surroundings_in k c.source) c.buffers ≡ Some result
        → is_loading k result.reply c.source.blank c.source.state
        ≡ ((result.reply.received_init && c.source.blank)
        && are_initialized (media_of_all result.buffers)) }
{}

/// A state can be sound, with its position inside the media, and not be settled; and it can be settled
/// too, with as many slots as buffers were made, and its lists tell of a buffer that is not there.
pub fn needed_invariants()
    ensures settled { IsSoundState told_end
        × (IsInsideState told_end × (IsSettledState told_end → ⊥)) }
    ensures lists { IsSoundState listed_without_buffer × (IsInsideState listed_without_buffer
        × (IsSettledState listed_without_buffer
        × (length listed_without_buffer.buffers ≡ listed_without_buffer.source.state.made
        × (AreListsSame
        listed_without_buffer.source.state (media_of_all listed_without_buffer.buffers) → ⊥)))) }
{}

/// A drain in which no call is made ends. At every state a step of running work leaves less work, a
/// turn of the element leaves the work and fewer turns, and an event that is fired leaves both, and
/// one event less. So steps that come by themselves are no more than there were items, ends of
/// running work and turns; and the events that waited and those that these steps queued are fired
/// once each, in order, or wait still.
pub fn drain_ends()
    ensures work { (k : ℕ) (st : State) (new : State) → after_work k st ≡ Some new
        → IsLessWork st new }
    ensures turn { (st : State) (new : State) → after_element_turn st ≡ Some new
        → IsFewerTurns st new }
    ensures fire { (st : State) (fired : AnswerAndState Event State) → fire_result st ≡ Some fired
        → IsOneEventLess st fired.state }
    ensures counts { (blobs : List (List ℕ)) (st : State) (entries : List Entry)
        → AreStepsByThemselves blobs st entries → HasStepCounts blobs st entries }
    ensures events { (blobs : List (List ℕ)) (st : State) (entries : List Entry)
        → AreStepsByThemselves blobs st entries
        → st.element.queue ++ events_queued_in blobs st entries
        ≡ fired_events entries ++ (after_entries blobs st entries).element.queue }
{}
