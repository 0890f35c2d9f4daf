//! Pools that took and refused batches, and their clones.

use super::files_of;
use descriptor_pool::{BuildError, DescriptorPool};
use pool_types::MessageDescriptor;
use std::alloc::{AllocError, Global};
use std::process::Abort;
use std::test::Fail;

/// Gives a pool a batch, and says whether it takes that.
fn take(alloc: Global, pool: &mut DescriptorPool, script: &str) -> Result<bool, AllocError> {
    match pool.build_files(files_of(alloc, script)?) {
        Ok(()) => Ok(true),
        Err(BuildError::OutOfMemory) => Err(AllocError),
        Err(_) => Ok(false),
    }
}

/// A pool that was given a batch.
pub(super) fn pool_of(alloc: Global, script: &str) -> Result<DescriptorPool, AllocError> {
    let mut pool = DescriptorPool::new(alloc);
    take(alloc, &mut pool, script)?;
    Ok(pool)
}

/// Three messages, of which the first may be extended.
const BARE: &str = "file a.proto\nmessage M\nextensions 100 200\nend\nmessage A\nend\n\
    message B\nend\nend\n";

/// Two extensions of that, of which the last is of a type that is not there.
const EXTENDED: &str = "file b.proto\nimport a.proto\nextend e 100 optional int32 ~ M\n\
    extend g 101 optional message Nope M\nend\n";

/// Whether a pool lists extensions of its first message.
fn is_extended(pool: &DescriptorPool) -> bool {
    pool.message(MessageDescriptor::new(0))
        .is_some_and(|message| !message.extensions.as_slice().is_empty())
}

/// Gives a pool a batch that it refuses, and is then what its clone is; and one that it takes, of
/// which its clone has nothing.
fn check_clone(
    rt: &impl Abort,
    alloc: Global,
    pool: &mut DescriptorPool,
    copy: &DescriptorPool,
) -> Result<(), AllocError> {
    assert!(rt; !take(alloc, pool, EXTENDED)?);
    assert!(rt; *pool == *copy && !is_extended(pool));
    assert!(rt; take(alloc, pool, "file c.proto\nend\n")?);
    assert!(rt; pool.counts().files == 2 && copy.counts().files == 1);
    assert!(rt; *pool != *copy);
    Ok(())
}

fn check_with_clone(
    rt: &impl Abort,
    alloc: Global,
    pool: &mut DescriptorPool,
) -> Result<(), AllocError> {
    let copy = pool.clone()?;
    check_clone(rt, alloc, pool, &copy)
}

#[test]
fn a_clone_stays_where_its_pool_refuses_or_grows(rt: HostRuntime) -> Result<(), Fail> {
    check_with_clone(&rt, rt.alloc(), &mut pool_of(rt.alloc(), BARE)?)?;
    Ok(())
}
