//! Calls of a store one after another.

ghost use Rattle.std.specs.Prelude.{◌≡◌, ◌≤◌, OnOk};
ghost use Rattle.track_store.specs.Calls.{AreAllowed, IsAllowed, frames_after_call, room_after_call, run_of};

use crate::FrameStore;
use crate::calls::{StoreCall, change, look_up};
use mse_base::OutOfMemory;

/// Makes a call of a store, and lets go of what a look-up answers.
fn make_call<S: FrameStore>(store: &mut S, call: StoreCall) -> Result<(), OutOfMemory>
    requires { IsAllowed (S.spare store.old) call (S.frames store.old) }
    ensures frames { S.frames store.new ≡ frames_after_call call (S.frames store.old) }
    ensures room { OnOk result (room_after_call call (S.spare store.old) ≤ S.spare store.new) }
    ensures gap { S.gap store.new ≡ S.gap store.old }
{
    match call {
        StoreCall::Change(by) => change(store, by),
        StoreCall::Look(look) => {
            let _answer = look_up(store, &look);
            Ok(())
        }
    }
}

/// Makes calls of a store one after another, and lets go of what the look-ups answer. It ends at
/// the first `Reserve` for which there is no memory.
pub fn run_calls<S: FrameStore>(store: &mut S, calls: Vec<StoreCall>) -> Result<(), OutOfMemory>
    requires { AreAllowed 0 calls.items (S.frames store.old) }
    ensures frames { OnOk result (S.frames store.new
        ≡ (run_of (S.gap store.old) (S.frames store.old) calls.items).frames) }
    ensures gap { S.gap store.new ≡ S.gap store.old }
{
    for call in calls {
        make_call(store, call)?;
    }
    Ok(())
}
