// A client's edits of its own at the ends of a parent's children, a small step behind the last one or before the first.
ghost use Rattle.std.specs.Prelude.{◌≡◌, ◌+◌, IfErr, IfOk, OnErr, OnOk, Some, codes};
ghost use Rattle.std.specs.Option.{option_copied};
ghost use Rattle.canvas_model.specs.Children.{AreChildren};
ghost use Rattle.canvas_model.specs.Client.{last_number};
ghost use Rattle.canvas_model.specs.Ids.{root};
ghost use Rattle.canvas_client.specs.Asked.{StandsStill};
ghost use Rattle.canvas_client.specs.Ends.{HasCreatedThere, HasMovedThere, IsEndError, IsLast, LiesAt, LiesFirst, LiesLast};
ghost use Rattle.canvas_client.specs.Placed.{Create, Move};

use crate::drafting::sibling_position;
use crate::{Client, EndError};
use canvas_doc::{Doc, Kind, ObjId, Place};
use canvas_pos::{Pos, step_after, step_before};
use std::alloc::{AllocError, Allocator};

impl<A: Allocator + Copy> Client<A> {
    /// Creates an object under `parent`, behind all its children in what the client shows: a small step behind the last position, so
    /// that 41 million fit one behind the other, or at `O` where there is none. Answers the edit's number, from 1, and the object's
    /// id. After an error nothing has changed. The time is linear in the children of `parent`.
    pub fn create_last(&mut self, kind: Kind, parent: ObjId) -> Result<(u64, ObjId), EndError>
        ensures ok { IfOk result (λ made. HasCreatedThere LiesLast self.old kind parent made.1 self.new) }
        ensures number { IfOk result (λ made. made.0 ≡ last_number self.old + 1) }
        ensures stands { OnOk result (StandsStill self.old self.new) }
        ensures refused { IfErr result (IsEndError LiesLast self.old parent root (Create kind)) }
        ensures err { OnErr result (self.new ≡ self.old) }
    {
        let pos = last_place(self.allocator(), self.view(), parent, ObjId::ROOT)?;
        self.create_there(kind, parent, pos)
    }

    /// Creates an object under `parent`, before all its children in what the client shows: a small step before the first position, or
    /// at `O` where there is none. Answers the edit's number, from 1, and the object's id. After an error nothing has changed.
    pub fn create_first(&mut self, kind: Kind, parent: ObjId) -> Result<(u64, ObjId), EndError>
        ensures ok { IfOk result (λ made. HasCreatedThere LiesFirst self.old kind parent made.1 self.new) }
        ensures number { IfOk result (λ made. made.0 ≡ last_number self.old + 1) }
        ensures stands { OnOk result (StandsStill self.old self.new) }
        ensures refused { IfErr result (IsEndError LiesFirst self.old parent root (Create kind)) }
        ensures err { OnErr result (self.new ≡ self.old) }
    {
        let pos = first_place(self.allocator(), self.view(), parent, ObjId::ROOT)?;
        self.create_there(kind, parent, pos)
    }

    /// Moves an object under `parent`, behind all its other children in what the client shows, as `create_last` does. Answers the
    /// edit's number. After an error nothing has changed. The time is linear in the children of `parent`.
    pub fn move_last(&mut self, id: ObjId, parent: ObjId) -> Result<u64, EndError>
        ensures ok { OnOk result (HasMovedThere LiesLast self.old id parent self.new) }
        ensures number { IfOk result (λ n. n ≡ last_number self.old + 1) }
        ensures stands { OnOk result (StandsStill self.old self.new) }
        ensures refused { IfErr result (IsEndError LiesLast self.old parent id (Move id)) }
        ensures err { OnErr result (self.new ≡ self.old) }
    {
        let pos = last_place(self.allocator(), self.view(), parent, id)?;
        self.move_there(id, parent, pos)
    }

    /// Moves an object under `parent`, before all its other children in what the client shows, as `create_first` does. Answers the
    /// edit's number. After an error nothing has changed.
    pub fn move_first(&mut self, id: ObjId, parent: ObjId) -> Result<u64, EndError>
        ensures ok { OnOk result (HasMovedThere LiesFirst self.old id parent self.new) }
        ensures number { IfOk result (λ n. n ≡ last_number self.old + 1) }
        ensures stands { OnOk result (StandsStill self.old self.new) }
        ensures refused { IfErr result (IsEndError LiesFirst self.old parent id (Move id)) }
        ensures err { OnErr result (self.new ≡ self.old) }
    {
        let pos = first_place(self.allocator(), self.view(), parent, id)?;
        self.move_there(id, parent, pos)
    }

    // Creates an object under `parent` at this position; none is no room.
    fn create_there(
        &mut self,
        kind: Kind,
        parent: ObjId,
        pos: Option<Pos<A>>,
    ) -> Result<(u64, ObjId), EndError>
        ensures ok { IfOk result (λ made. HasCreatedThere (LiesAt pos) self.old kind parent made.1 self.new) }
        ensures number { IfOk result (λ made. made.0 ≡ last_number self.old + 1) }
        ensures stands { OnOk result (StandsStill self.old self.new) }
        ensures refused { IfErr result (IsEndError (LiesAt pos) self.old parent root (Create kind)) }
        ensures err { OnErr result (self.new ≡ self.old) }
    {
        let Some(pos) = pos else {
            return Err(EndError::Crowded);
        };
        match self.create_at(kind, Place { parent, pos }) {
            Ok(made) => Ok(made),
            Err(error) => Err(EndError::Edit(error)),
        }
    }

    // Moves an object under `parent` to this position; none is no room.
    fn move_there(&mut self, id: ObjId, parent: ObjId, pos: Option<Pos<A>>) -> Result<u64, EndError>
        ensures ok { OnOk result (HasMovedThere (LiesAt pos) self.old id parent self.new) }
        ensures number { IfOk result (λ n. n ≡ last_number self.old + 1) }
        ensures stands { OnOk result (StandsStill self.old self.new) }
        ensures refused { IfErr result (IsEndError (LiesAt pos) self.old parent id (Move id)) }
        ensures err { OnErr result (self.new ≡ self.old) }
    {
        let Some(pos) = pos else {
            return Err(EndError::Crowded);
        };
        match self.move_at(id, Place { parent, pos }) {
            Ok(number) => Ok(number),
            Err(error) => Err(EndError::Edit(error)),
        }
    }
}

// The position of a new last child, a step behind the last one, or `O`; none where no position lies there.
fn last_place<A: Allocator + Copy>(
    alloc: A,
    view: &Doc<A>,
    parent: ObjId,
    except: ObjId,
) -> Result<Option<Pos<A>>, AllocError>
    ensures { IfOk result (LiesLast view.now parent except) }
{
    match last_position(alloc, view, parent, except)? {
        Some(last) => step_after(alloc, last),
        None => middle(alloc),
    }
}

// The position of a new first child, a step before the first one, or `O`; none where no position lies there.
fn first_place<'a, A: Allocator + Copy>(
    alloc: A,
    view: &'a Doc<A>,
    parent: ObjId,
    except: ObjId,
) -> Result<Option<Pos<A>>, AllocError>
    ensures { IfOk result (LiesFirst view.now parent except) }
{
    let none: Option<&'a Pos<A>> = None;
    match view.next_position(parent, none, except) {
        Some(first) => step_before(alloc, first),
        None => middle(alloc),
    }
}

// The middle of all, `O`.
fn middle<A: Allocator>(alloc: A) -> Result<Option<Pos<A>>, AllocError>
    ensures { IfOk result (λ pos. pos ≡ Some (codes "O")) }
{
    match Pos::read(alloc, b"O") {
        Ok(pos) => Ok(Some(pos)),
        Err(_) => Err(AllocError),
    }
}

// The greatest position of a child of the parent other than `except`, if there is one.
fn last_position<'a, A: Allocator + Copy>(
    alloc: A,
    view: &'a Doc<A>,
    parent: ObjId,
    except: ObjId,
) -> Result<Option<&'a Pos<A>>, AllocError>
    ensures { IfOk result (λ last. IsLast view.now parent except (option_copied last)) }
{
    let ids = view.children(alloc, parent)?;
    Ok(last_of(view, parent, except, &ids))
}

// The position of the last of these, which are the children of the parent, other than `except`, if there is one.
fn last_of<'a, A: Allocator>(
    view: &'a Doc<A>,
    parent: ObjId,
    except: ObjId,
    ids: &[ObjId],
) -> Option<&'a Pos<A>>
    requires { AreChildren view.now parent ids.now }
    ensures { IsLast view.now parent except (option_copied result) }
{
    for i in 0..ids.len() {
        let id = ids[ids.len() - 1 - i];
        if let Some(pos) = sibling_position(view, parent, except, id) {
            return Some(pos);
        }
    }
    None
}
