// What C holds of a session.
ghost use Rattle.std.specs.Prelude.{◌≡◌, ◌==◌, is_some, None, Some, IfSome, IfNone, IsSome, IsTrue, IsFalse};
ghost use Rattle.canvas_c.specs.Mark.{mark_of_a_session};

use crate::kept::Kept;
use crate::session::Session;
use std::alloc::Global;
use std::mem;

// The mark of a handle that holds a session: `mark_of_a_session` of specs/Mark.antt.
const MARK: u64 = 7815266405241221729;

/// A session, or none: whatever else its mark says, it holds none.
#[repr(C)]
pub struct Handle {
    pub kept: Kept,
    mark: u64,
    ghost marked: { (mark == mark_of_a_session) ≡ is_some kept.session },
}

impl Handle {
    /// Checks whether it holds none.
    pub fn is_empty(&self) -> bool
        ensures yes { IsTrue result → self.now.kept.session ≡ None }
        ensures no { IsFalse result → IsSome self.now.kept.session }
    {
        self.mark != MARK
    }

    /// Takes the session out, if there is one.
    pub fn take(&mut self, alloc: Global) -> Option<Box<Session>>
        ensures some { IfSome result (λ session. self.old.kept.session ≡ Some session.value) }
        ensures none { IfNone result (self.old.kept.session ≡ None) }
        ensures left { self.new.kept.session ≡ None }
    {
        let Handle { kept, mark } = mem::replace(self, Handle::empty());
        if mark != MARK {
            kept.end();
            return None;
        }
        Some(kept.release(alloc))
    }

    /// Puts a session in, where there is none.
    pub fn put(&mut self, session: Box<Session>)
        requires { self.old.kept.session ≡ None }
        ensures { self.new.kept.session ≡ Some session.value }
    {
        let full = Handle {
            kept: Kept::keep(session),
            mark: MARK,
        };
        let Handle { kept, mark: _ } = mem::replace(self, full);
        kept.end();
    }

    // It holds none.
    fn empty() -> Handle
        ensures { result.kept.session ≡ None }
    {
        Handle {
            kept: Kept::nothing(),
            mark: 0,
        }
    }
}
