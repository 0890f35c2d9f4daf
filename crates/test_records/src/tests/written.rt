//! What protoc wrote, read and written again.

use super::protoc::SET;
use descriptor_decoding::{decode, decode_file};
use descriptor_encoding::{canonical, encode_file};
use proto_types::{FileDescriptorProto, FileDescriptorSet};
use std::alloc::{AllocError, Global};
use std::process::Abort;
use std::test::*;

#[test]
fn bytes_of_protoc_stay(rt: HostRuntime) -> Result<(), Fail> {
    let again = canonical(rt.alloc(), &SET)
        .ok()
        .ok_or("the bytes are a set")?;
    assert_eq!(rt; again.as_slice(), &SET[..]);
    Ok(())
}

/// Whether a file is written as bytes that are read as the file.
fn is_read_again(alloc: Global, file: &FileDescriptorProto) -> Result<bool, AllocError> {
    let bytes = encode_file(alloc, file)?;
    Ok(decode_file(alloc, bytes.as_slice()).is_ok_and(|again| again == *file))
}

fn check_files(rt: &impl Abort, alloc: Global, set: &FileDescriptorSet) -> Result<(), AllocError> {
    for file in set.file.as_slice() {
        assert!(rt; file.name() == "t.proto" && is_read_again(alloc, file)?);
    }
    Ok(())
}

#[test]
fn files_are_read_alone(rt: HostRuntime) -> Result<(), Fail> {
    let set = decode(rt.alloc(), &SET).ok().ok_or("the bytes are a set")?;
    check_files(&rt, rt.alloc(), &set)?;
    Ok(())
}
