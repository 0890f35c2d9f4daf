//! The boxes of pools.
ghost use Rattle.std.specs.Prelude.{◌≡◌, IfSome, MatchOption, None, Some};
ghost use Rattle.numbered_pool.specs.Added.{unreported};
ghost use Rattle.numbered_pool.specs.Statuses.{status_number};
ghost use Rattle.protolink_c.specs.Shown.{answers_of};

use crate::handle::Handle;
use numbered_pool::{Answers, Status};
use std::alloc::Global;

/// The pool of a handle, or a new one where it owns none; nothing where memory was refused for it.
pub fn opened(alloc: Global, pool: Handle) -> Option<Box<Answers>>
    ensures { MatchOption result (pool.shown ≡ None) (λ b. b.value ≡ answers_of pool.shown) }
{
    match pool.into_box(alloc) {
        Some(answers) => Some(answers),
        None => Box::new(alloc, Answers::new(alloc)).ok(),
    }
}

/// Puts a pool into its handle, and answers the number of how a call ended.
pub fn closed(alloc: Global, pool: &mut Handle, answers: Box<Answers>, status: Status) -> u8
    ensures shown { pool.new.shown ≡ Some answers.value }
    ensures number { result ≡ status_number status }
{
    pool.put(alloc, Handle::of_box(answers));
    status.number()
}

/// A pool with equal contents and an empty report, or nothing where memory was refused.
pub fn boxed_copy(alloc: Global, answers: &Answers) -> Option<Box<Answers>>
    ensures { IfSome result (λ b. b.value ≡ unreported answers.now) }
{
    let copy = answers.clone(alloc).ok()?;
    Box::new(alloc, copy).ok()
}
