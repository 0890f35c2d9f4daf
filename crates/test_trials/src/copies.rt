//! Trials of copies: of a pool, of a file's record, and of an item of each kind.
use crate::sets::{link, read};
use crate::told::{Told, answer, mark};
use descriptor_pool::DescriptorPool;
use plain_data::Duplicate;
use pool_types::{
    EnumDescriptor, ExtensionDescriptor, FileDescriptor, MessageDescriptor, ServiceDescriptor,
};
use std::alloc::{AllocError, Global};

/// A copy of the record of a set's first file.
pub(crate) fn record(alloc: Global, set: &[u8]) -> Result<Told, AllocError> {
    let (files, others) = (read(alloc, set)?, read(alloc, set)?);
    let (files, others) = (files.file.as_slice(), others.file.as_slice());
    copied(alloc, files.first(), others.first())
}

/// A copy of what a trial names, in the pool of a set, or none where there is no such trial.
pub(crate) fn in_a_pool(alloc: Global, name: &str, set: &[u8]) -> Result<Option<Told>, AllocError> {
    let (pool, before) = (link(alloc, set)?, link(alloc, set)?);
    in_pools(alloc, name, &pool, &before)
}

/// A copy of what a trial names in a pool, which is equal to another: the pool itself, or its first
/// item of a kind.
fn in_pools(
    alloc: Global,
    name: &str,
    pool: &DescriptorPool,
    before: &DescriptorPool,
) -> Result<Option<Told>, AllocError> {
    let told = match name {
        "pool" => copied_pool(alloc, pool, before)?,
        "file_item" => {
            let first = FileDescriptor::new(0);
            copied(alloc, pool.file(first), before.file(first))?
        }
        "message_item" => {
            let first = MessageDescriptor::new(0);
            copied(alloc, pool.message(first), before.message(first))?
        }
        "enum_item" => {
            let first = EnumDescriptor::new(0);
            copied(alloc, pool.enum_(first), before.enum_(first))?
        }
        "service_item" => {
            let first = ServiceDescriptor::new(0);
            copied(alloc, pool.service(first), before.service(first))?
        }
        "extension_item" => {
            let first = ExtensionDescriptor::new(0);
            copied(alloc, pool.extension(first), before.extension(first))?
        }
        _ => return Ok(None),
    };
    Ok(Some(told))
}

/// Copies a pool, which is equal to another.
fn copied_pool(
    alloc: Global,
    pool: &DescriptorPool,
    before: &DescriptorPool,
) -> Result<Told, AllocError> {
    let opened = mark(alloc);
    let copy = pool.clone();
    let closed = mark(alloc);
    let is_same = copy.as_ref().ok().is_none_or(|copy| *copy == *pool);
    let is_right = is_same && *pool == *before;
    Told::new(opened, closed, answer(copy.is_ok()), is_right)
}

/// Copies a value, which is equal to another. One that is absent is wrong.
fn copied<T: Duplicate + PartialEq>(
    alloc: Global,
    value: Option<&T>,
    before: Option<&T>,
) -> Result<Told, AllocError> {
    let (Some(value), Some(before)) = (value, before) else {
        return Err(AllocError);
    };
    let opened = mark(alloc);
    let copy = value.duplicate(alloc);
    let closed = mark(alloc);
    let is_same = copy.as_ref().ok().is_none_or(|copy| *copy == *value);
    let is_right = is_same && *value == *before;
    Told::new(opened, closed, answer(copy.is_ok()), is_right)
}
