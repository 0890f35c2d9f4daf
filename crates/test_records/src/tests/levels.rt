//! How deep messages and groups may nest.

use descriptor_decoding::{DecodeError, decode};
use std::alloc::{AllocError, Global};
use std::test::*;
use wire_format::WireFaultKind;

/// Bytes as the value of a field whose tag has one byte.
fn field(alloc: Global, tag: u8, bytes: &[u8]) -> Result<Vec<u8>, AllocError> {
    let mut field = Vec::new(alloc);
    field.push(tag)?;
    if bytes.len() >= 128 {
        field.push((bytes.len() % 128) as u8 + 128)?;
        field.push((bytes.len() / 128 % 128) as u8)?;
    } else {
        field.push(bytes.len() as u8)?;
    }
    field.extend_from_slice(bytes)?;
    Ok(field)
}

/// A set with a file with a message, in which so many messages are nested.
fn nested(alloc: Global, messages: u32) -> Result<Vec<u8>, AllocError> {
    let mut bytes = Vec::new(alloc);
    for _ in 0..messages {
        bytes = field(alloc, 26, bytes.as_slice())?;
    }
    let file = field(alloc, 34, bytes.as_slice())?;
    field(alloc, 10, file.as_slice())
}

/// So many groups, one in the other.
fn groups(alloc: Global, count: usize) -> Result<Vec<u8>, AllocError> {
    let mut bytes = Vec::new(alloc);
    bytes.resize(count, 19)?;
    bytes.resize(count.saturating_mul(2), 20)?;
    Ok(bytes)
}

/// Where bytes are too deep, or none where they are a set or have another fault.
fn too_deep_at(alloc: Global, bytes: &[u8]) -> Option<usize> {
    match decode(alloc, bytes) {
        Err(DecodeError::Fault(fault)) if fault.kind == WireFaultKind::TooDeep => Some(fault.at),
        _ => None,
    }
}

fn is_set(alloc: Global, bytes: &[u8]) -> bool {
    decode(alloc, bytes).is_ok()
}

#[test]
fn messages_nest(rt: HostRuntime) -> Result<(), Fail> {
    assert!(rt; is_set(rt.alloc(), nested(rt.alloc(), 98)?.as_slice()));
    assert!(rt; too_deep_at(rt.alloc(), nested(rt.alloc(), 99)?.as_slice()).is_some());
    Ok(())
}

#[test]
fn groups_nest(rt: HostRuntime) -> Result<(), Fail> {
    assert!(rt; is_set(rt.alloc(), groups(rt.alloc(), 100)?.as_slice()));
    assert!(rt; too_deep_at(rt.alloc(), groups(rt.alloc(), 101)?.as_slice()) == Some(100));
    Ok(())
}
