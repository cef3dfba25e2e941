// A value that was taken out of its box and stays where it is.
ghost use Rattle.std.specs.Prelude.{◌≡◌};
ghost use Rattle.std.specs.Box.Ownership.{box_owns};
ghost use Rattle.libc.specs.Heap.{chunk};

use std::alloc::Global;
use std::marker::Model;

// The value at this place, and the right to free it.
pub(crate) struct Parked<T> {
    pub(crate) at: *mut T,
    pub(crate) ghost value: { T },
}

impl<T> Model for Parked<T> {
    ghost also_owns = { λ parked. box_owns chunk T.row parked.at parked.value };
}

impl<T: Drop> Parked<T> {
    pub(crate) fn park(value: Box<T>) -> Parked<T>
        ensures { result.value ≡ value.value }
    {
        let at = Box::into_raw(value);
        Parked { at }
    }

    pub(crate) fn unpark(self, alloc: Global) -> Box<T>
        ensures { result.value ≡ self.value }
    {
        let Parked { at } = self;
        unsafe { Box::from_raw(alloc, at) }
    }
}
