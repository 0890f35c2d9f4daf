//! The verdict on a batch.

ghost use Rattle.std.specs.Prelude.{◌≡◌, IfOk, Some};
ghost use Rattle.descriptor_check.specs.Verdicts as spec;

use descriptor_pool::{BuildError, DescriptorPool};
use joined_files::{JoinedFiles, UnequalFile};
use plain_data::Items;
use pool_faults::{DescriptorError, DescriptorErrorKind};
use proto_types::FileDescriptorProto;
use record_walk::CountKind;
use std::alloc::{AllocError, Global};

/// The verdict on a batch.
#[derive(Drop)]
pub enum Verdict {
    /// It breaks no rule: the pool of its files.
    Accepted(DescriptorPool),
    /// It breaks rules.
    Refused(Refusal),
    /// Its sets have unequal files of one name: the further ones.
    Unequal(Items<UnequalFile>),
    /// No pool has room for it: the first kind of which there is too much.
    TooMany(CountKind),
}

/// A batch that breaks rules.
#[derive(Drop)]
pub struct Refusal {
    /// Its files, as they were.
    pub files: Items<FileDescriptorProto>,
    /// The first faults of the first failing pass, in order.
    pub faults: Items<DescriptorErrorKind>,
    /// How many more this pass finds.
    pub rest: usize,
}

/// The verdict on a batch, linked into a pool without files. Of the faults of a batch that breaks
/// rules the first `most` are wanted; at least one is kept.
///
/// # Errors
/// `AllocError` where memory was refused.
pub fn verdict_on(
    alloc: Global,
    batch: Items<FileDescriptorProto>,
    most: usize,
) -> Result<Verdict, AllocError>
    ensures { IfOk result (λ verdict. verdict ≡ spec.verdict_of most batch) }
{
    let mut pool = DescriptorPool::new(alloc);
    let mut files = batch.into_vec();
    match pool.link_within(&mut files, Some(most)) {
        Ok(()) => Ok(Verdict::Accepted(pool)),
        Err(error) => by_error(Items::from_vec(files), error),
    }
}

/// The verdict on the files of sets. Unequal files of one name are told before all other faults;
/// where the first of them counts, they are passed over.
///
/// # Errors
/// `AllocError` where memory was refused.
#[tactic(auto, unfolding(crate::specs::Verdicts::verdict_of_joined))]
pub fn verdict_on_joined(
    alloc: Global,
    joined: JoinedFiles,
    first_counts: bool,
    most: usize,
) -> Result<Verdict, AllocError>
    ensures { IfOk result (λ verdict. verdict ≡ spec.verdict_of_joined first_counts most joined) }
{
    let JoinedFiles { files, unequal } = joined;
    if first_counts {
        return verdict_on(alloc, files, most);
    }
    unless_unequal(alloc, files, unequal, most)
}

/// The verdict on a batch, unless there are files that differ from some of it.
fn unless_unequal(
    alloc: Global,
    batch: Items<FileDescriptorProto>,
    unequal: Items<UnequalFile>,
    most: usize,
) -> Result<Verdict, AllocError>
    ensures { IfOk result (λ verdict. verdict
        ≡ spec.unless_unequal unequal (spec.verdict_of most batch)) }
{
    if unequal.as_slice().is_empty() {
        return verdict_on(alloc, batch, most);
    }
    Ok(Verdict::Unequal(unequal))
}

/// The verdict that an error of linking tells, by the files that came back.
fn by_error(files: Items<FileDescriptorProto>, error: BuildError) -> Result<Verdict, AllocError>
    ensures { IfOk result (λ verdict. spec.verdict_told files error ≡ Some verdict) }
{
    match error {
        BuildError::TooMany(kind) => Ok(Verdict::TooMany(kind)),
        BuildError::Descriptor(error) => {
            let DescriptorError { errors, rest, .. } = error;
            Ok(Verdict::Refused(Refusal {
                files,
                faults: errors,
                rest,
            }))
        }
        BuildError::OutOfMemory => Err(AllocError),
    }
}
