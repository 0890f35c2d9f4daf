//! A box as its pointer, and the box again: for what keeps a box where no box may stand.
ghost use Rattle.std.specs.Prelude.{◌≡◌};
ghost use Rattle.std_alloc.specs.Box.Ownership.{box_owns};

use std::alloc::Allocator;
use std::marker::Model;

/// The address of a box beside its allocator. It owns the box's memory and the content there, and
/// can't be let go: [`from_pointer`] gives the box that frees both.
pub struct BoxPointer<T, A: Allocator> {
    pub address: *mut T,
    pub allocator: A,
    pub ghost content: { T },
}

/// Takes a box apart. Its value stays where it lies, and is the pointer's content.
pub fn into_pointer<T: Drop, A: Allocator>(boxed: Box<T, A>) -> BoxPointer<T, A>
    ensures { result.content ≡ boxed.value }
{
    let parts = Box::into_raw_with_allocator(boxed);
    BoxPointer {
        address: parts.0,
        allocator: parts.1,
    }
}

/// Puts the box of a pointer together again, which holds the pointer's content.
pub fn from_pointer<T: Drop, A: Allocator>(pointer: BoxPointer<T, A>) -> Box<T, A>
    ensures { result.value ≡ pointer.content }
{
    let BoxPointer { allocator, address } = pointer;
    unsafe { Box::from_raw(allocator, address) }
}

impl<T, A: Allocator> Model for BoxPointer<T, A> {
    ghost also_owns = { λ pointer. box_owns (A.dealloc_token pointer.allocator) T.row
        pointer.address pointer.content };
}
