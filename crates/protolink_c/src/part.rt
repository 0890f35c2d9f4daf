//! A value behind a pointer that several may read at once: each has a part of the right to.
ghost use Rattle.std.specs.Prelude.{◌≡◌, ℕ, ◌+◌, ◌-◌, ◌<◌};
ghost use denote.Struct.Lending.{lent_at};
ghost use Rattle.protolink_c.specs.Parted.{kept_back, part_owns, whole};

use crate::box_pointer::BoxPointer;
use std::alloc::Global;
use std::marker::Model;

/// Some of the parts of the right to read what lies behind a pointer.
#[derive(Drop)]
pub struct Part<T> {
    pub address: *mut T,
    pub ghost content: { T },
    pub ghost round: { ℕ },
    pub ghost count: { ℕ },
}

impl<T> Model for Part<T> {
    ghost also_owns = { λ p. part_owns T.row p.address p.content p.round p.count };

    ghost also_shares = { λ p _ κ. lent_at T.row p.address p.content κ };
}

impl<T> Part<T> {
    /// The value.
    pub fn get(&self) -> &T
        ensures { result.now ≡ self.now.content }
    {
        unsafe { &*self.address }
    }

    /// All parts but one, and that one.
    pub fn split_one(self) -> (Part<T>, Part<T>)
        requires { 1 < self.count }
        ensures rest { result.0 ≡ record self { count = self.count - 1 } }
        ensures one { result.1 ≡ record self { count = 1 } }
    {
        let Part { address } = self;
        (Part { address }, Part { address })
    }

    /// Parts of one round, put together.
    pub fn join(self, other: Part<T>) -> Part<T>
        requires { self.round ≡ other.round }
        ensures { result ≡ record self { count = self.count + other.count } }
    {
        let Part { address } = self;
        Part { address }
    }
}

/// What a box keeps while parts of the right to read it are about: the right to free it, and to
/// have its content again after the round.
pub struct Deed<T> {
    pub address: *mut T,
    pub ghost content: { T },
    pub ghost round: { ℕ },
}

impl<T> Model for Deed<T> {
    ghost also_owns = { λ d. kept_back T.row d.address d.content d.round };
}

/// Parts the right to read a box: all of the parts are had, and the deed.
pub fn freeze<T>(pointer: BoxPointer<T, Global>) -> (Deed<T>, Part<T>)
    ensures deed { result.0.content ≡ pointer.content }
    ensures content { result.1.content ≡ pointer.content }
    ensures round { result.1.round ≡ result.0.round }
    ensures count { result.1.count ≡ whole }
{
    let BoxPointer {
        address,
        allocator: _,
    } = pointer;
    (Deed { address }, Part { address })
}

/// Makes a box of its deed, once all parts of the round have come back.
pub fn thaw<T>(allocator: Global, deed: Deed<T>, all: Part<T>) -> BoxPointer<T, Global>
    requires round { all.round ≡ deed.round }
    requires count { all.count ≡ whole }
    ensures { result.content ≡ deed.content }
{
    let Deed { address } = deed;
    BoxPointer { address, allocator }
}
