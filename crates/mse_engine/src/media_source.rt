//! The source, and what is kept beside it.

ghost use Rattle.std.specs.Prelude.{◌≡◌, ◌≤ℤ◌, pos};
ghost use Rattle.buffer_state.specs.State.{surroundings};
ghost use Rattle.mse_engine.specs.State.{core_source, new_media_source};
ghost use Rattle.mse_engine.specs.Replies.{is_activating, active_after, is_loading, ready_again, ready_after_fault, media_source_after, surroundings_in};

use buffer_state::{BufferContext, Reply};
use media_element::Element;
use mse_base::Ticks;
use mse_calls::{EndKind, FaultView};
use source_state::Source;
use std::alloc::Global;
use std::marker::Model;

/// The source, the first fault, the quota of a source buffer in bytes, and the gap in ticks across
/// which ranges join.
#[derive(Drop)]
pub(crate) struct MediaSource {
    pub(crate) state: Source,
    pub(crate) fault: Option<FaultView>,
    pub(crate) quota: u64,
    pub(crate) gap: Ticks,
}

impl Model for MediaSource {
    ghost use Rattle.std.specs.Prelude.{◌≤ℤ◌, pos};
    ghost use Rattle.mse_engine.specs.State.{MediaSource};

    ghost Value = { MediaSource };

    ghost view = { λ s. record {
      state = s.state;
      fault = s.fault;
      quota = s.quota;
      gap = s.gap;
    } };

    ghost invariant = { λ s. pos 0 ≤ℤ s.gap };
}

/// What a reply does to the lists of the source, and what the element has to hear of it.
#[derive(Clone, Copy, Debug)]
pub(crate) struct Effects {
    /// The buffer joins the active buffers.
    pub(crate) activates: bool,
    /// The metadata of all buffers is there.
    pub(crate) loads: bool,
}

/// What the buffer of a number is told.
pub(crate) fn around(source: &MediaSource, element: &Element, k: u32) -> BufferContext
    ensures surroundings { surroundings result
        ≡ surroundings_in k (core_source source.now element.now.state) }
    ensures duration { result.duration ≡ source.now.state.duration }
    ensures position { result.position ≡ element.now.state.player.position }
    ensures quota { result.quota ≡ source.now.quota }
{
    BufferContext {
        number: k,
        ready: source.state.ready(),
        error: element.error() != 0,
        duration: source.state.duration(),
        position: element.position(),
        quota: source.quota,
    }
}

/// Opens an ended source again, where a reply says so.
fn open_again(source: &mut Source, is_reopened: bool)
    ensures { source.new
        ≡ record source.old { ready = ready_again is_reopened source.old.ready } }
{
    if is_reopened {
        source.reopen();
    }
}

/// The buffer of a number joins the active buffers, where a reply says so. Whether it did.
fn join_active(source: &mut Source, k: u32, reply: &Reply) -> bool
    ensures joins { result ≡ is_activating k reply.now source.old }
    ensures source { source.new
        ≡ record source.old { active = active_after k reply.now source.old } }
{
    let joins = reply.activated && source.listed(k) && !source.active(k);
    if joins {
        source.activate(k);
    }
    joins
}

/// Ends the source, where a reply has a fault.
fn end_by_fault(source: &mut Source, fault: Option<FaultView>)
    ensures { source.new ≡ record source.old { ready = ready_after_fault fault source.old.ready } }
{
    if fault.is_some() {
        source.end(EndKind::Decode, None);
    }
}

impl MediaSource {
    /// A source that is closed.
    pub(crate) fn new(alloc: Global, quota: u64, gap: Ticks) -> MediaSource
        requires { pos 0 ≤ℤ gap }
        ensures { result ≡ new_media_source quota gap }
    {
        MediaSource {
            state: Source::new(alloc),
            fault: None,
            quota,
            gap,
        }
    }

    /// Does what a reply of the buffer of a number brings about at the source, where the element is
    /// blank or not.
    pub(crate) fn apply_reply(&mut self, k: u32, reply: &Reply, blank: bool) -> Effects
        ensures activates { result.activates ≡ is_activating k reply.now self.old.state }
        ensures loads { result.loads ≡ is_loading k reply.now blank self.old.state }
        ensures source { self.new ≡ media_source_after k reply.now self.old }
    {
        open_again(&mut self.state, reply.reopened);
        self.state.change_duration(reply.duration);
        let activates = join_active(&mut self.state, k, reply);
        let loads = reply.received_init && blank && self.state.are_all_active();
        end_by_fault(&mut self.state, reply.fault);
        self.fault = self.fault.or(reply.fault);
        Effects { activates, loads }
    }
}
