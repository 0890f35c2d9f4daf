//! A set that is checked, and the pool that the set of its linked files makes.

use descriptor_check::{Input, Wanted, check};
use descriptor_pool::DescriptorPool;
use plain_data::{Items, Text};
use std::alloc::{AllocError, Global};
use std::io;
use std::test::Fail;
use stored_pools::load;
use verdict_texts::Format;

/// The file `a.proto` of the package `a`, with a message `M`, whose field `m` has the type name
/// `M`.
const SET: &[u8] = b"\x0a\x1d\x0a\x07a.proto\x12\x01a\
    \x22\x0f\x0a\x01M\x12\x0a\x0a\x01m\x18\x01\x20\x01\x32\x01M";

/// The pool of the files of a set.
fn pool_of(alloc: Global, bytes: &[u8]) -> io::Result<DescriptorPool> {
    match load(alloc, bytes) {
        Ok(pool) => Ok(pool),
        Err(_error) => Err(io::Error::other("the bytes are no set that breaks no rule")),
    }
}

/// The pool that is loaded from the set of the linked files, with which a check accepts.
fn checked_pool(alloc: Global, wanted: &Wanted, inputs: &[Input]) -> io::Result<DescriptorPool> {
    let answer = check(alloc, wanted, inputs)?;
    match &answer.linked {
        Some(set) => pool_of(alloc, set.bytes.as_slice()),
        None => Err(io::Error::other("the check answers no set")),
    }
}

fn inputs(alloc: Global) -> Result<Items<Input>, AllocError> {
    let bytes = Items::from_slice(alloc, SET)?;
    let name = Text::from_str(alloc, "a.pb")?;
    let mut inputs = Items::new(alloc);
    inputs.push(Input { name, bytes })?;
    Ok(inputs)
}

/// The verdict as lines, and the set of the linked files.
fn linked_wanted(alloc: Global) -> Result<Wanted, AllocError> {
    let linked = Text::from_str(alloc, "linked.pb")?;
    Ok(Wanted {
        format: Format::Text,
        most: 100,
        strict: false,
        first_counts: false,
        lists: false,
        names: Items::new(alloc),
        linked: Some(linked),
        compatibility: None,
        level: None,
    })
}

#[test]
fn the_linked_set_of_a_check_is_loaded_as_its_pool(rt: HostRuntime) -> Result<(), Fail> {
    let alloc = rt.alloc();
    let (wanted, inputs) = (linked_wanted(alloc)?, inputs(alloc)?);
    let pool = checked_pool(alloc, &wanted, inputs.as_slice())?;
    assert!(rt; pool == pool_of(alloc, SET)?);
    Ok(())
}
