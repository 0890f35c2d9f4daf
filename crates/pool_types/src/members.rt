ghost use Rattle.std.specs.Prelude.{◌≡◌, ◌<◌, ◌^◌, ◌+◌, [], ◌∷◌, length, MatchOption, IfSome};
ghost use Rattle.std.specs.Iterator.{YieldsFirstBy, item_count};
ghost use Rattle.pool_types.specs.Members.{left_from, members};

use crate::{Declared, Parent};
use std::marker::Model;

/// The items of a pool that stand in a file or in a message, as their descriptors, in rising order.
/// Contracts see it as the list of the indexes that are left.
///
/// It takes no memory.
#[derive(Drop)]
pub struct Members<'a, T: Declared> {
    items: &'a [T],
    parent: Parent,
    /// The index of the first item that has not been looked at.
    next: u32,
}

impl<'a, T: Declared> Model for Members<'a, T> {
    ghost use Rattle.std.specs.Prelude.{◌<◌, ◌^◌, ℕ, List, length};
    ghost use Rattle.pool_types.specs.Members.{left_from};

    ghost Value = { List ℕ };

    ghost view = { λ m. left_from (T.is_in m.parent) m.items.now m.next };

    ghost invariant = { λ m. length m.items.now < 2 ^ 32 };
}

impl<'a, T: Declared> Members<'a, T> {
    /// Those of all items of their kind that stand in a file or in a message.
    pub fn new(items: &'a [T], parent: Parent) -> Members<'a, T>
        requires { length items.now < 2 ^ 32 }
        ensures { result ≡ members (T.is_in parent) items.now }
    {
        Members {
            items,
            parent,
            next: 0,
        }
    }
}

impl<'a, T: Declared> Iterator for Members<'a, T> {
    type Item = T::Descriptor;

    ghost next_gives = { YieldsFirstBy T.index_of (λ left. left) };

    ghost remaining = { item_count (λ left. left) };

    fn next(&mut self) -> Option<T::Descriptor> {
        let index = first_in(self.items, self.parent, self.next)?;
        self.next = index + 1;
        Some(T::descriptor(index))
    }
}

/// The index of the first item from an index on that stands in a file or in a message.
fn first_in<T: Declared>(items: &[T], parent: Parent, from: u32) -> Option<u32>
    requires { length items.now < 2 ^ 32 }
    ensures left { MatchOption result (left_from (T.is_in parent) items.now from ≡ [])
        (λ index. left_from (T.is_in parent) items.now from
        ≡ index ∷ left_from (T.is_in parent) items.now (index + 1)) }
    ensures within { IfSome result (λ index. index < length items.now) }
{
    for at in from as usize..items.len() {
        if items[at].is_in(parent) {
            return Some(at as u32);
        }
    }
    None
}
