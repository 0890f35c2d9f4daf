//! A descriptor set, from its bytes to a pool and back.

use crate::shop;
use descriptor_linker::{AllFaults, BuildError, DescriptorPool, write_counts, write_walk};
use proto_records::{DecodeError, FileDescriptorSet, Items, decode, encode};
use std::alloc::{AllocError, Global};
use std::io;
use stored_pools::{LoadError, load, store};

/// Tells whether a set is written as it was read, whether its pool is loaded again as an equal one,
/// and what the pool declares.
pub(crate) fn tell_set(alloc: Global, report: &mut String, bytes: &[u8]) -> io::Result<()> {
    tell_same(report, "written", is_written_again(alloc, bytes)?)?;
    tell_pool(alloc, report, &pool_of(alloc, bytes)?)
}

/// Tells whether a pool that is stored as a set is loaded as an equal pool, and what it declares.
fn tell_pool(alloc: Global, report: &mut String, pool: &DescriptorPool) -> io::Result<()> {
    tell_same(report, "loaded", is_loaded_again(alloc, pool)?)?;
    write_counts(report, pool.counts())?;
    write_walk(alloc, report, pool.files())?;
    Ok(())
}

/// Whether a set is written as it was read, byte for byte.
fn is_written_again(alloc: Global, bytes: &[u8]) -> io::Result<bool> {
    match decode(alloc, bytes) {
        Ok(set) => Ok(encode(alloc, &set)?.as_slice() == bytes),
        Err(_fault) => Err(io::Error::other("the bytes are no descriptor set")),
    }
}

/// Whether a pool that is stored as a set is loaded as an equal pool.
fn is_loaded_again(alloc: Global, pool: &DescriptorPool) -> io::Result<bool> {
    let stored = store(alloc, pool)?;
    Ok(pool_of(alloc, stored.as_slice())? == *pool)
}

/// The pool of the files of a set.
fn pool_of(alloc: Global, bytes: &[u8]) -> io::Result<DescriptorPool> {
    match load(alloc, bytes) {
        Ok(pool) => Ok(pool),
        Err(_error) => Err(io::Error::other("the bytes are no set that breaks no rule")),
    }
}

/// Tells why a set of a file that breaks a rule, and bytes that are no set, are not loaded.
pub(crate) fn tell_refused(alloc: Global, report: &mut String) -> Result<(), AllocError> {
    let mut file = Items::new(alloc);
    file.push(shop::file(alloc, "Statuss")?)?;
    let set = encode(alloc, &FileDescriptorSet { file })?;
    tell_load(alloc, report, set.as_slice())?;
    tell_load(alloc, report, b"\x0a")
}

/// Tells whether bytes are loaded as a pool.
fn tell_load(alloc: Global, report: &mut String, bytes: &[u8]) -> Result<(), AllocError> {
    match load(alloc, bytes) {
        Ok(_pool) => writeln!(report, "loaded"),
        Err(LoadError::Decode(error)) => tell_fault(report, &error),
        Err(LoadError::Build(error)) => tell_broken(report, &error),
    }
}

/// Tells why bytes are no set.
fn tell_fault(report: &mut String, error: &DecodeError) -> Result<(), AllocError> {
    match error {
        DecodeError::Fault(fault) => {
            let (kind, at) = (fault.kind, fault.at);
            writeln!(report, "no set: {kind:?} at {at}")
        }
        DecodeError::OutOfMemory => Err(AllocError),
    }
}

/// Tells why files are not linked.
fn tell_broken(report: &mut String, error: &BuildError) -> Result<(), AllocError> {
    match error {
        BuildError::TooMany(kind) => writeln!(report, "too many: {kind:?}"),
        BuildError::Descriptor(error) => {
            let faults = AllFaults(error);
            writeln!(report, "no pool: {faults}")
        }
        BuildError::OutOfMemory => Err(AllocError),
    }
}

/// Tells in a word whether two are the same.
fn tell_same(report: &mut String, what: &str, is_same: bool) -> Result<(), AllocError> {
    let word = if is_same { "same" } else { "different" };
    writeln!(report, "{what}: {word}")
}
