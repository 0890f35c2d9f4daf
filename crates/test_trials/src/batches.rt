//! Trials of the linking of a second batch.
use crate::scripts;
use crate::told::{Told, mark};
use descriptor_pool::{BuildError, DescriptorPool};
use proto_types::FileDescriptorProto;
use std::alloc::{AllocError, Global};

/// How linking ended.
#[derive(Clone, Copy, PartialEq)]
enum Ended {
    Linked,
    Refused,
    TooMany,
    OutOfMemory,
}

impl Ended {
    /// A word for it.
    fn word(self) -> &'static str {
        match self {
            Ended::Linked => "linked",
            Ended::Refused => "refused",
            Ended::TooMany => "too many",
            Ended::OutOfMemory => "out of memory",
        }
    }
}

/// Three pools that have the first batch: one for the trial, and two to compare it with.
#[derive(Drop)]
struct Pools {
    pool: DescriptorPool,
    /// Stays as it is.
    before: DescriptorPool,
    /// Takes the second batch with memory enough.
    ample: DescriptorPool,
}

/// Links a batch into a pool.
fn build(pool: &mut DescriptorPool, batch: Vec<FileDescriptorProto>) -> Ended {
    match pool.build_files(batch) {
        Ok(()) => Ended::Linked,
        Err(BuildError::OutOfMemory) => Ended::OutOfMemory,
        Err(BuildError::TooMany(_)) => Ended::TooMany,
        Err(BuildError::Descriptor(_)) => Ended::Refused,
    }
}

/// A pool that has the batch of a script.
fn pool_of(alloc: Global, script: &str) -> Result<DescriptorPool, AllocError> {
    let batch = scripts::files(alloc, script)?;
    let mut pool = DescriptorPool::new(alloc);
    match build(&mut pool, batch) {
        Ended::Linked => Ok(pool),
        _ => Err(AllocError),
    }
}

/// The pools of a trial, which have the batch of a script.
fn pools_of(alloc: Global, script: &str) -> Result<Pools, AllocError> {
    let before = pool_of(alloc, script)?;
    let ample = pool_of(alloc, script)?;
    let pool = pool_of(alloc, script)?;
    Ok(Pools {
        pool,
        before,
        ample,
    })
}

/// How the linking of a batch ended, and the rooms that were asked for before and behind it.
#[derive(Drop)]
struct Linking {
    opened: Result<String, AllocError>,
    closed: Result<String, AllocError>,
    ended: Ended,
}

impl Linking {
    /// What is told of it.
    fn told(self, is_right: bool) -> Result<Told, AllocError> {
        Told::new(self.opened, self.closed, self.ended.word(), is_right)
    }
}

/// Links the batch of a script between two marks.
fn link_marked(
    alloc: Global,
    pool: &mut DescriptorPool,
    script: &str,
) -> Result<Linking, AllocError> {
    let batch = scripts::files(alloc, script)?;
    let opened = mark(alloc);
    let ended = build(pool, batch);
    let closed = mark(alloc);
    Ok(Linking {
        opened,
        closed,
        ended,
    })
}

/// Links a second batch. The pool should then be the one that took the batch with memory enough,
/// and after a refusal what it was.
pub(crate) fn link(alloc: Global, script: &str) -> Result<Told, AllocError> {
    link_once(alloc, &mut pools_of(alloc, scripts::FIRST)?, script)
}

/// Links the batch of a script once into one of three pools.
fn link_once(alloc: Global, pools: &mut Pools, script: &str) -> Result<Told, AllocError> {
    let wanted = build(&mut pools.ample, scripts::files(alloc, script)?);
    let linking = link_marked(alloc, &mut pools.pool, script)?;
    let is_right = match linking.ended {
        Ended::OutOfMemory => pools.pool == pools.before,
        ended => ended == wanted && pools.pool == pools.ample,
    };
    linking.told(is_right)
}

/// Links a batch whose files the pool has. The pool should then be what it was, whatever memory is
/// refused.
pub(crate) fn link_known(alloc: Global) -> Result<Told, AllocError> {
    link_once_more(alloc, &mut pools_of(alloc, scripts::FIRST)?)
}

/// Links the first batch once more into one of three pools.
fn link_once_more(alloc: Global, pools: &mut Pools) -> Result<Told, AllocError> {
    let linking = link_marked(alloc, &mut pools.pool, scripts::FIRST)?;
    let is_right = linking.ended == Ended::Linked && pools.pool == pools.before;
    linking.told(is_right)
}

/// The most copies of a batch that are linked into one pool.
const MOST: usize = 10_000;

/// Links copies of a second batch into one pool, until one of them is refused no memory. After each
/// refusal before it the pool should be what it was, and in the end the one that took the batch
/// with memory enough, or what it was if that refused the batch.
pub(crate) fn link_again_and_again(alloc: Global, script: &str) -> Result<Told, AllocError> {
    link_copies(alloc, &mut pools_of(alloc, scripts::EXTENDED)?, script)
}

/// Links copies of the batch of a script into one of three pools.
fn link_copies(alloc: Global, pools: &mut Pools, script: &str) -> Result<Told, AllocError> {
    let wanted = build(&mut pools.ample, scripts::files(alloc, script)?);
    let mut is_right = (wanted == Ended::Linked) == (pools.ample != pools.before);
    for _ in 0..MOST {
        let linking = link_marked(alloc, &mut pools.pool, script)?;
        if linking.ended != Ended::OutOfMemory {
            is_right = is_right && linking.ended == wanted && pools.pool == pools.ample;
            return linking.told(is_right);
        }
        is_right = is_right && pools.pool == pools.before;
    }
    Told::new(mark(alloc), mark(alloc), "out of memory each time", false)
}
