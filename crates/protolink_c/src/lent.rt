//! A pool for the time of a call that looks it up, while others may do so too.
ghost use Rattle.std.specs.Prelude.{◌≡◌};
ghost use Rattle.protolink_c.specs.Seen.{read_in};
ghost use Rattle.protolink_c.specs.Shown.{answers_of, lent_answers, lent_shown};

use crate::part::Part;
use crate::view::View;
use numbered_pool::Answers;
use std::alloc::Global;

/// A part of the right to read a pool, which is to be put back; or an empty pool, where the view is
/// of nothing.
#[derive(Drop)]
pub enum Lent {
    Parted(Part<Answers>),
    Empty(Answers),
}

/// Takes the part out of its view.
pub fn lend(alloc: Global, pool: &mut View) -> Lent
    ensures answers { lent_answers result ≡ answers_of (read_in pool.old.shown) }
    ensures shown { lent_shown result ≡ pool.old.shown }
{
    match pool.take().into_part() {
        Some(part) => Lent::Parted(part),
        None => Lent::Empty(Answers::new(alloc)),
    }
}

impl Lent {
    /// The pool.
    pub fn answers(&self) -> &Answers
        ensures { result.now ≡ lent_answers self.now }
    {
        match self {
            Lent::Parted(part) => part.get(),
            Lent::Empty(answers) => answers,
        }
    }

    /// The view again.
    pub fn back(self) -> View
        ensures { result.shown ≡ lent_shown self }
    {
        match self {
            Lent::Parted(part) => View::of_part(part),
            Lent::Empty(empty) => {
                drop(empty);
                View::empty()
            }
        }
    }
}
