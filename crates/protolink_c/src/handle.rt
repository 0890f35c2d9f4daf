//! The handle that C holds: the one struct that owns, and what is proved of it by hand.
ghost use Rattle.std.specs.Prelude.{◌≡◌, MatchOption, Option, Some, None};
ghost use Rattle.std.specs.Coded.{coded_option};
ghost use Rattle.numbered_pool.specs.declared.answers.Answers.{Answers};
ghost use Rattle.numbered_pool.specs.contracts.answers.Answers.{the_row};
ghost use Rattle.protolink_c.specs.Held.{held};
ghost use Rattle.protolink_c.specs.Parted.{whole};

use crate::box_pointer::{BoxPointer, from_pointer, into_pointer};
use crate::part::{Deed, freeze, thaw};
use crate::view::View;
use numbered_pool::Answers;
use std::alloc::Global;
use std::marker::{Model, Send};
use std::mem;

/// A pool behind a pointer, or an empty pool where the pointer is null. A handle can't be let go,
/// since that would free nothing: `into_box` gives what it owns, and `put` frees it.
#[repr(C)]
pub struct Handle {
    at: *mut (),
    pub ghost shown: { Option Answers } by { coded_option the_row.coded },
}

impl Model for Handle {
    ghost also_owns = { λ h. held the_row h.at h.shown };
}

/// It may go to another thread, as its pool may.
unsafe impl Send for Handle {}

impl Handle {
    /// A handle that owns nothing.
    pub fn empty() -> Handle
        ensures { result.shown ≡ None }
    {
        Handle {
            at: std::ptr::null_mut(),
        }
    }

    /// The handle of the pool behind a pointer.
    pub fn of_pointer(pointer: BoxPointer<Answers, Global>) -> Handle
        ensures { result.shown ≡ Some pointer.content }
    {
        let BoxPointer {
            address,
            allocator: _,
        } = pointer;
        Handle {
            at: address as *mut (),
        }
    }

    /// The pointer to its pool, if it owns one.
    pub fn into_pointer(self, allocator: Global) -> Option<BoxPointer<Answers, Global>>
        ensures { MatchOption result (self.shown ≡ None) (λ p. self.shown ≡ Some p.content) }
    {
        let Handle { at } = self;
        if at.is_null() {
            return None;
        }
        Some(BoxPointer {
            address: at as *mut Answers,
            allocator,
        })
    }

    /// The box of its pool, if it owns one.
    pub fn into_box(self, alloc: Global) -> Option<Box<Answers>>
        ensures { MatchOption result (self.shown ≡ None) (λ b. self.shown ≡ Some b.value) }
    {
        match self.into_pointer(alloc) {
            Some(pointer) => Some(from_pointer(pointer)),
            None => None,
        }
    }

    /// The handle of a pool.
    pub fn of_box(answers: Box<Answers>) -> Handle
        ensures { result.shown ≡ Some answers.value }
    {
        Handle::of_pointer(into_pointer(answers))
    }

    /// Takes a handle from its place, where one stays that owns nothing.
    pub fn take(&mut self) -> Handle
        ensures taken { result.shown ≡ self.old.shown }
        ensures left { self.new.shown ≡ None }
    {
        mem::replace(self, Handle::empty())
    }

    /// Puts a handle in the place of another, and frees what that owned.
    pub fn put(&mut self, alloc: Global, handle: Handle)
        ensures { self.new.shown ≡ handle.shown }
    {
        let _freed = mem::replace(self, handle).into_box(alloc);
    }

    /// A view with all parts of the right to read its pool, and the pool's deed; nothing where it
    /// owns none.
    pub fn share(self, alloc: Global) -> Option<(Deed<Answers>, View)>
        ensures { MatchOption result (self.shown ≡ None) (λ r. (self.shown ≡ Some r.0.content)
            × (r.1.shown ≡ Some (r.0.content, (r.0.round, whole)))) }
    {
        match self.into_pointer(alloc) {
            Some(pointer) => {
                let (deed, part) = freeze(pointer);
                Some((deed, View::of_part(part)))
            }
            None => None,
        }
    }

    /// The handle again, once all parts have come back into one view.
    pub fn of_shared(alloc: Global, deed: Deed<Answers>, all: View) -> Handle
        requires { all.shown ≡ Some (deed.content, (deed.round, whole)) }
        ensures { result.shown ≡ Some deed.content }
    {
        match all.into_part() {
            Some(part) => Handle::of_pointer(thaw(alloc, deed, part)),
            None => unreachable!(),
        }
    }
}
