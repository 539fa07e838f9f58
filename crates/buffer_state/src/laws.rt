//! What follows from the definitions of this crate: functions that do nothing, with the laws as
//! their contracts.

ghost use Rattle.std.specs.Prelude.{◌≡◌, ◌+◌, ℕ, ℤ, Some, None, IsSome, false, length};
ghost use Rattle.mse_base.specs.declared.frame.CodedFrame.{CodedFrame};
ghost use Rattle.mse_types.specs.declared.answer.Container.{Container};
ghost use Rattle.mse_calls.specs.declared.answers.Name.{Name};
ghost use Rattle.parser_loop.specs.Items.{FrameItem};
ghost use Rattle.byte_stream.specs.Readings.{items_in};
ghost use Rattle.byte_stream.specs.Streams.{ForEachReading, StreamView};
ghost use Rattle.track_buffers.specs.Frames.{place_of};
ghost use Rattle.track_buffers.specs.Settings.{new_media};
ghost use Rattle.buffer_state.specs.State.{Feed, Content, KeptBuffer, Stands, Surroundings, AppendInput, new_feed, next_item};
ghost use Rattle.buffer_state.specs.Replies.{CallResult, refused_result};
ghost use Rattle.buffer_state.specs.Turns.{turn_result};
ghost use Rattle.buffer_state.specs.Finding.{HasBuffersForFrames, HasBuffersBehind};
ghost use Rattle.buffer_state.specs.Calls.{append_refusal, append_result, append_result_after_eviction, end_work_result, has_generated_timestamps};
ghost use Rattle.buffer_state.specs.AllCalls.{CallView, IsForQuota, early_name, refusal_of_call, result_of_call};
ghost use Rattle.buffer_state.specs.StepsLeft.{items_left};

/// The items that are left to an append are those of the string but for the ones that were taken.
pub fn left_law()
    ensures { (s : StreamView) → ForEachReading s (λ r.
        items_left s.parser + r.string.taken ≡ length (items_in r)) }
{}

/// A call whose refusal is a name is refused by it, which leaves all as it was, and the source is
/// not opened again before. A call that is refused so without such a name was an append of bytes
/// that there are, for the quota. The name by which a call is refused whatever the state is its
/// refusal in every state.
pub fn refusals()
    ensures refused { (call : CallView) (a : Surroundings) (f : Feed) (c : Content) (name : Name)
        → refusal_of_call call a f c ≡ Some name
        → result_of_call call a f c ≡ refused_result name false a f c }
    ensures told { (call : CallView) (a : Surroundings) (f : Feed) (c : Content) (name : Name)
        → refusal_of_call call a f c ≡ None
        → result_of_call call a f c ≡ refused_result name false a f c
        → IsForQuota call name }
    ensures early { (call : CallView) (a : Surroundings) (f : Feed) (c : Content) (name : Name)
        → early_name call ≡ Some name → refusal_of_call call a f c ≡ Some name }
{}

/// An append that is refused before coded frames are evicted leaves all as it was, and any other
/// evicts.
pub fn append_refusals()
    ensures refused { (input : AppendInput) (a : Surroundings) (f : Feed) (c : Content)
        (name : Name) → append_refusal a f ≡ Some name
        → append_result input a f c ≡ refused_result name false a f c }
    ensures evicts { (input : AppendInput) (a : Surroundings) (f : Feed) (c : Content)
        → append_refusal a f ≡ None
        → append_result input a f c ≡ append_result_after_eviction input a f c }
{}

/// The coded frame that comes next in a byte stream always finds its track buffer. A new buffer has a track buffer for
/// each video or audio track of the latest presentation, of which there is none; each call and each step of running work
/// keep that; and then the coded frame that comes next is of a track that has one.
pub fn frames_find_their_buffers()
    ensures made { (gap : ℤ) (container : Container) → HasBuffersForFrames (new_feed container None)
        (record { media = new_media gap (has_generated_timestamps container); latest = None }) }
    ensures call { (call : CallView) (a : Surroundings) (f : Feed) (c : Content)
        → HasBuffersForFrames f c → HasBuffersBehind (result_of_call call a f c) }
    ensures end_work { (a : Surroundings) (f : Feed) (c : Content)
        → HasBuffersForFrames f c → HasBuffersBehind (end_work_result a f c) }
    ensures turn { (a : Surroundings) (f : Feed) (c : Content) (r : CallResult)
        → HasBuffersForFrames f c → turn_result a f c ≡ Some r → HasBuffersBehind r }
    ensures found { (k : KeptBuffer) (f : Feed) (c : Content) (frame : CodedFrame) (offset : ℕ)
        → Stands k f c → HasBuffersForFrames f c → next_item f ≡ Some (FrameItem frame offset)
        → IsSome (place_of frame.track_id c.media.tracks) }
{}
