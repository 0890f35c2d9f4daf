//! What the answers of the check mean of pools. A law is a call that does nothing: its contract is
//! the law.

ghost use Rattle.std.specs.Prelude.{◌≡◌, ◌<◌, ◌^◌, IfSome, length};
ghost use Rattle.descriptor_check.specs.Against.{answer_against};
ghost use Rattle.descriptor_check.specs.declared.answer.Status.TheVariants.{Accepted};
ghost use Rattle.check_laws.specs.Against.{AcceptedIsRead, HasPools};
ghost use Rattle.check_laws.specs.Checked.{CheckedIsLoaded};

use descriptor_check::{Answer, Input, LinkedSet, Wanted};
use descriptor_encoding::read_is_whole;
use descriptor_pool::DescriptorPool;
use pool_changes::{untold_is_kept, untold_is_read};
use stored_pools::linked_is_loaded;

/// The set of the linked files that a check answers makes the pool with which the check accepts:
/// its bytes are read as files that, linked at once from nothing, break no rule, are not too many,
/// and make an equal pool. An answer that accepts has a set where one is wanted. The call does
/// nothing: its contract is the law.
pub fn checked_is_loaded(wanted: &Wanted, inputs: &[Input], answer: &Answer)
    ensures { CheckedIsLoaded wanted.now inputs.now answer.now }
{
    read_is_whole();
    linked_is_loaded();
    bytes_are_fewer(&answer.linked);
}

/// Where the check against older versions ends with the status of an accepted batch, the inputs are
/// accepted, with a pool, and so is each older version; and what one version writes of a message is
/// read by the other, in each direction that is asked for, if both have a message of that name, as
/// backward they have. The call does nothing: its contract is the law.
pub fn accepted_is_read(
    wanted: &Wanted,
    older: &[Input],
    inputs: &[Input],
    answer: &Answer,
    old: &DescriptorPool,
    new: &DescriptorPool,
)
    ensures read { AcceptedIsRead wanted.now older.now inputs.now answer.now old.now new.now }
    ensures pools { answer.now ≡ answer_against wanted.now older.now inputs.now
        → answer.now.status ≡ Accepted → HasPools wanted.now older.now inputs.now }
{
    untold_is_read(old, new);
    untold_is_kept(old, new);
}

/// The bytes of a set are fewer than 2^64, as those of every slice are.
fn bytes_are_fewer(linked: &Option<LinkedSet>)
    ensures { IfSome linked.now (λ set. length set.bytes < 2 ^ 64) }
{
    if let Some(set) = linked {
        set.bytes.as_slice();
    }
}
