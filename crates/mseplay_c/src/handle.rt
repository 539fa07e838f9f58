//! A session that C keeps, by its address.

ghost use Rattle.std.specs.Prelude.{◌≡◌, Option, None, Some, MatchOption};
ghost use Rattle.live_session.specs.Lives.{LiveView};

use live_session::LiveSession;
use loose_box::LooseBox;
use std::alloc::{Allocator, Global};
use std::marker::Model;
use std::ptr::null_mut;
use track_index::IndexStore;

/// The sessions that C is given.
pub(crate) type Session = LiveSession<IndexStore>;

/// A session that C keeps: for C it is the session's address, or null where there is none.
#[repr(C)]
pub struct Handle {
    at: *mut u8,
    alloc: Global,
    /// The session at the address; none where that is null.
    ghost session: { Option LiveView },
}

impl Model for Handle {
    ghost use Rattle.std.specs.Prelude.{Option};
    ghost use Rattle.live_session.specs.Lives.{LiveView};
    ghost use Rattle.mseplay_c.specs.Owned.{owned};

    ghost also_owns = { λ h. owned (⟦<Global as Allocator>⟧.dealloc_token h.alloc) h.at h.session };
}

impl Handle {
    /// A handle without a session.
    pub(crate) fn none(alloc: Global) -> Handle
        ensures { result.session ≡ None }
    {
        Handle {
            at: null_mut(),
            alloc,
        }
    }

    fn from_loose(session: LooseBox<Session, Global>) -> Handle
        ensures { result.session ≡ Some session.value }
    {
        let LooseBox { at, alloc } = session;
        Handle {
            at: at as *mut u8,
            alloc,
        }
    }

    fn into_loose(self) -> Option<LooseBox<Session, Global>>
        ensures { MatchOption result (self.session ≡ None) (λ box. self.session ≡ Some box.value) }
    {
        let Handle { at, alloc } = self;
        if at.is_null() {
            None
        } else {
            Some(LooseBox {
                at: at as *mut Session,
                alloc,
            })
        }
    }

    /// The handle of a session.
    pub(crate) fn of(session: Box<Session, Global>) -> Handle
        ensures { result.session ≡ Some session.value }
    {
        Handle::from_loose(LooseBox::of(session))
    }

    /// Its session, if it has one.
    fn into_box(self) -> Option<Box<Session, Global>>
        ensures { MatchOption result (self.session ≡ None) (λ box. self.session ≡ Some box.value) }
    {
        let loose = self.into_loose()?;
        Some(loose.into_box())
    }

    /// Takes the session out, if there is one, and leaves none.
    pub(crate) fn take(&mut self, alloc: Global) -> Option<Box<Session, Global>>
        ensures none_left { self.new.session ≡ None }
        ensures value { MatchOption result
            (self.old.session ≡ None)
            (λ box. self.old.session ≡ Some box.value) }
    {
        std::mem::replace(self, Handle::none(alloc)).into_box()
    }
}

impl Drop for Handle {
    fn drop(self) {
        drop(self.into_box());
    }
}
