// The objects of a document, one after another.
ghost use Rattle.std.specs.Prelude.{◌≡◌};
ghost use Rattle.std.specs.Iterator.{YieldsFirstRef, item_count};

use crate::{ObjId, Object};
use canvas_blocks::Iter;
use std::alloc::{Allocator, Global};
use std::iter::FusedIterator;
use std::marker::Model;

/// The objects of a document that are still to come, with their ids, in id order. A contract sees it as their list.
#[derive(Drop)]
pub struct Objects<'a, A: Allocator = Global> {
    left: Iter<'a, (ObjId, Object<A>), A>,
}

impl<'a, A: Allocator> Model for Objects<'a, A> {
    ghost use Rattle.std.specs.Prelude.{List};
    ghost use Rattle.std.specs.Coded.{coded_list, coded×};
    ghost use Rattle.canvas_model.specs.declared.ObjId.{ObjId as Id};
    ghost use Rattle.canvas_model.specs.Document as document;
    ghost use Rattle.canvas_model.specs.Codes.{id_code, object_code};

    ghost Value = { List (Id × document.Object) };

    ghost coded = { coded_list (coded× id_code object_code) };

    ghost view = { λ o. o.left };
}

impl<'a, A: Allocator> Objects<'a, A> {
    pub(crate) fn new(left: Iter<'a, (ObjId, Object<A>), A>) -> Self
        ensures { result ≡ left.entry }
    {
        Objects { left }
    }
}

impl<'a, A: Allocator> Iterator for Objects<'a, A> {
    type Item = &'a (ObjId, Object<A>);

    ghost next_gives = { YieldsFirstRef (λ left. left) };

    ghost remaining = { item_count (λ left. left) };

    fn next(&mut self) -> Option<&'a (ObjId, Object<A>)> {
        self.left.next()
    }

    fn size_hint(&self) -> (usize, Option<usize>) {
        self.left.size_hint()
    }
}

impl<'a, A: Allocator> FusedIterator for Objects<'a, A> {}
