// A session behind a pointer that C can keep.
ghost use Rattle.std.specs.Prelude.{◌≡◌, IsSome, Option, Some, None};
ghost use Rattle.std.specs.Coded.{coded_option};
ghost use Rattle.canvas_c.specs.Owned.{kept_owns};
ghost use Rattle.canvas_c.specs.declared.session.Session.{Session as TheSession};
ghost use Rattle.canvas_c.specs.contracts.session.Session.{the_row};

use crate::parked::Parked;
use crate::session::Session;
use std::alloc::Global;
use std::marker::Model;

/// A session, or none.
#[repr(C)]
pub struct Kept {
    at: *mut u8,
    pub ghost session: { Option TheSession } by { coded_option the_row.coded },
}

impl Model for Kept {
    ghost also_owns = { λ kept. kept_owns kept.at kept.session };
}

impl Kept {
    /// No session.
    pub fn nothing() -> Kept
        ensures { result.session ≡ None }
    {
        Kept {
            at: std::ptr::null_mut(),
        }
    }

    /// This session.
    pub fn keep(session: Box<Session>) -> Kept
        ensures { result.session ≡ Some session.value }
    {
        Kept::hide(Parked::park(session))
    }

    /// The session that is kept.
    pub fn release(self, alloc: Global) -> Box<Session>
        requires { IsSome self.session }
        ensures { Some result.value ≡ self.session }
    {
        self.show().unpark(alloc)
    }

    /// Keeps none, and goes.
    pub fn end(self)
        requires { self.session ≡ None }
    {
        let Kept { at: _ } = self;
    }

    // The place without its type.
    fn hide(parked: Parked<Session>) -> Kept
        ensures { result.session ≡ Some parked.value }
    {
        let Parked { at } = parked;
        Kept { at: at as *mut u8 }
    }

    // The place with its type again.
    fn show(self) -> Parked<Session>
        requires { IsSome self.session }
        ensures { Some result.value ≡ self.session }
    {
        let Kept { at } = self;
        Parked {
            at: at as *mut Session,
        }
    }
}
