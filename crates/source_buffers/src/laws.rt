//! What follows from the definitions of this crate: functions that do nothing, with the laws as
//! their contracts.

ghost use Rattle.std.specs.Prelude.{◌≡◌, ◌↔◌, ℕ, ℤ, length, List, Option, Bool, None, Some};
ghost use Rattle.mse_base.specs.declared.ticks.Moment.{Moment};
ghost use Rattle.mse_base.specs.Moments.{IsNotAfter};
ghost use Rattle.track_buffers.specs.Media.{Media};
ghost use Rattle.mse_calls.specs.declared.answers.Name.{Name};
ghost use Rattle.buffer_state.specs.State.{Surroundings};
ghost use Rattle.buffer_state.specs.AllCalls.{CallView, IsForQuota};
ghost use Rattle.source_buffers.specs.Slots.{refusal_on_buffer, result_on_buffer, refused_buffers};
ghost use Rattle.source_buffers.specs.State.{BufferStates, KeptBuffers, AreSlotsStanding, media_of_all, all_kept_media, running_of_all, all_kept_running};
ghost use Rattle.source_buffers.specs.All.{AreSlotsWithin, AreSound, highest_end_of_all};
ghost use Rattle.source_buffers.specs.Buffered.{IsElementBuffered};

/// What is kept has as many slots as what it stands for, and the same media and work in each. So
/// all that is told of the media and of the work alone is the same of both.
pub fn same_parts()
    ensures count { (ks : KeptBuffers) (bs : BufferStates) → AreSlotsStanding ks bs
        → length ks ≡ length bs }
    ensures media { (ks : KeptBuffers) (bs : BufferStates) → AreSlotsStanding ks bs
        → all_kept_media ks ≡ media_of_all bs }
    ensures running { (ks : KeptBuffers) (bs : BufferStates) → AreSlotsStanding ks bs
        → all_kept_running ks ≡ running_of_all bs }
{}

/// Where each frame ends within a duration, it does within one that is not before it. The highest
/// end of all buffers bounds the ends of all frames; there is none exactly where none is stored.
pub fn within_duration()
    ensures later { (d e : Moment) (ms : List (Option Media)) → IsNotAfter d e
        → AreSlotsWithin d ms → AreSlotsWithin e ms }
    ensures bound { (ms : List (Option Media)) (e : ℤ) → highest_end_of_all ms ≡ Some e
        → AreSlotsWithin (Moment.At e) ms }
    ensures none { (ms : List (Option Media))
        → (highest_end_of_all ms ≡ None) ↔ AreSlotsWithin Moment.Nan ms }
{}

/// The ranges of the element cover the ticks that the ranges of all active buffers cover.
pub fn element_law()
    ensures { (ended : Bool) (active : List ℕ) (ms : List (Option Media)) → AreSound ms
        → IsElementBuffered ended active ms }
{}

/// A call on the buffer of a number whose refusal is a name is refused by it, which leaves all as it
/// was. A call that is refused so without such a name was an append of bytes that there are, for the
/// quota.
pub fn refusals()
    ensures refused { (call : CallView) (k : ℕ) (name : Name) (a : Surroundings) (bs : BufferStates)
        → refusal_on_buffer k call a bs ≡ Some name
        → result_on_buffer k call a bs ≡ refused_buffers name a.duration bs }
    ensures told { (call : CallView) (k : ℕ) (name : Name) (a : Surroundings) (bs : BufferStates)
        → refusal_on_buffer k call a bs ≡ None
        → result_on_buffer k call a bs ≡ refused_buffers name a.duration bs
        → IsForQuota call name }
{}
