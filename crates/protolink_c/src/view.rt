//! What C holds for the time of a look-up: a part of the right to read a pool.
ghost use Rattle.std.specs.Prelude.{◌≡◌, Option, Some, None};
ghost use Rattle.std.specs.Coded.{coded_option};
ghost use Rattle.numbered_pool.specs.declared.answers.Answers.{Answers};
ghost use Rattle.numbered_pool.specs.contracts.answers.Answers.{the_row};
ghost use Rattle.protolink_c.specs.Seen.{Seen, coded_seen, seen, shown_by};

use crate::part::Part;
use numbered_pool::Answers;
use std::marker::{Model, Send};
use std::mem;

/// A copy of a handle's pointer, which owns a part of the right to read the pool there and no more;
/// or nothing, where the pointer is null.
#[repr(C)]
#[derive(Drop)]
pub struct View {
    at: *mut (),
    pub ghost shown: { Option (Seen Answers) } by { coded_option (coded_seen the_row) },
}

impl Model for View {
    ghost also_owns = { λ v. seen the_row v.at v.shown };
}

/// It may go to another thread, since a pool may be read from many.
unsafe impl Send for View {}

impl View {
    /// A view of nothing.
    pub fn empty() -> View
        ensures { result.shown ≡ None }
    {
        View {
            at: std::ptr::null_mut(),
        }
    }

    /// The view of some parts.
    pub fn of_part(part: Part<Answers>) -> View
        ensures { result.shown ≡ shown_by (Some part) }
    {
        let Part { address } = part;
        View {
            at: address as *mut (),
        }
    }

    /// The parts again, if it is of anything.
    pub fn into_part(self) -> Option<Part<Answers>>
        ensures { shown_by result ≡ self.shown }
    {
        let View { at } = self;
        if at.is_null() {
            return None;
        }
        Some(Part {
            address: at as *mut Answers,
        })
    }

    /// Takes a view from its place, where one stays that is of nothing.
    pub fn take(&mut self) -> View
        ensures taken { result.shown ≡ self.old.shown }
        ensures left { self.new.shown ≡ None }
    {
        mem::replace(self, View::empty())
    }
}
