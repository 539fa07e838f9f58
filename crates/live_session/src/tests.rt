//! A session as a page makes it.

use crate::{LiveSession, StepResult};
use mse_base::Ticks;
use std::test::Fail;
use track_store::ListStore;

#[test]
fn does_a_step(rt: HostRuntime) -> Result<(), Fail> {
    let mut live: LiveSession<ListStore> = LiveSession::new(rt.alloc(), 1000, Ticks::zero());
    assert!(rt; live.step(b"attach") == StepResult::Done(None));
    assert!(rt; live.printed() == b"call attach: done\n".as_slice());
    Ok(())
}
