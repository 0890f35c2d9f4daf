//! Trials of the calls on descriptor sets, and the records and pools that sets give.
use crate::told::{Told, answer, mark};
use descriptor_decoding::{DecodeError, decode};
use descriptor_encoding::encode;
use descriptor_pool::DescriptorPool;
use proto_types::FileDescriptorSet;
use std::alloc::{AllocError, Global};

/// The set that bytes encode. Bytes that are none count as memory that was refused.
pub(crate) fn read(alloc: Global, bytes: &[u8]) -> Result<FileDescriptorSet, AllocError> {
    match decode(alloc, bytes) {
        Ok(set) => Ok(set),
        Err(_) => Err(AllocError),
    }
}

/// The pool of the files of a set.
pub(crate) fn link(alloc: Global, bytes: &[u8]) -> Result<DescriptorPool, AllocError> {
    let mut pool = DescriptorPool::new(alloc);
    match pool.build_files(read(alloc, bytes)?.file.into_vec()) {
        Ok(()) => Ok(pool),
        Err(_) => Err(AllocError),
    }
}

/// Reads a set.
pub(crate) fn decoded(alloc: Global, bytes: &[u8]) -> Result<Told, AllocError> {
    let wanted = read(alloc, bytes)?;
    let opened = mark(alloc);
    let ending = decode(alloc, bytes);
    let closed = mark(alloc);
    let is_right = match &ending {
        Ok(set) => *set == wanted,
        Err(fault) => matches!(fault, DecodeError::OutOfMemory),
    };
    Told::new(opened, closed, answer(ending.is_ok()), is_right)
}

/// Writes a set, whose bytes are those that `protoc` wrote.
pub(crate) fn encoded(alloc: Global, bytes: &[u8]) -> Result<Told, AllocError> {
    let set = read(alloc, bytes)?;
    let opened = mark(alloc);
    let ending = encode(alloc, &set);
    let closed = mark(alloc);
    let is_right = ending
        .as_ref()
        .ok()
        .is_none_or(|written| written.as_slice() == bytes);
    Told::new(opened, closed, answer(ending.is_ok()), is_right)
}
