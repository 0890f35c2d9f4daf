//! What options say that no record holds.

use super::protoc::SET;
use descriptor_decoding::{Deprecated, decode, is_map_entry, is_message_set};
use proto_types::{DescriptorProto, FileDescriptorProto, FileDescriptorSet};
use std::process::Abort;
use std::test::*;

fn check_fields(rt: &impl Abort, message: &DescriptorProto) {
    assert!(rt; message.field.as_slice().len() > 3);
    for field in message.field.as_slice() {
        // `x` alone is.
        assert!(rt; field.is_deprecated().ok() == Some(field.name() == "x"));
    }
}

fn check_files(rt: &impl Abort, set: &FileDescriptorSet) {
    assert!(rt; set.file.as_slice().len() == 1);
    for file in set.file.as_slice() {
        assert!(rt; file.is_deprecated().ok() == Some(false));
        assert!(rt; file.message_type.as_slice().len() == 1);
        for message in file.message_type.as_slice() {
            check_fields(rt, message);
        }
    }
}

#[test]
fn fields_are_deprecated(rt: HostRuntime) -> Result<(), Fail> {
    let set = decode(rt.alloc(), &SET).ok().ok_or("the bytes are a set")?;
    check_files(&rt, &set);
    Ok(())
}

fn check_entries(rt: &impl Abort, file: &FileDescriptorProto) {
    assert!(rt; file.message_type.as_slice().len() == 1);
    for message in file.message_type.as_slice() {
        assert!(rt; is_map_entry(message).ok() == Some(true));
        assert!(rt; is_message_set(message).ok() == Some(false));
        assert!(rt; message.is_deprecated().ok() == Some(false));
    }
}

#[test]
fn messages_are_map_entries(rt: HostRuntime) -> Result<(), Fail> {
    // `file { message_type { options { map_entry: true } } }`
    let bytes = [10, 6, 34, 4, 58, 2, 56, 1];
    let set = decode(rt.alloc(), &bytes)
        .ok()
        .ok_or("the bytes are a set")?;
    let [file] = set.file.as_slice() else {
        return Err("the set has one file".into());
    };
    check_entries(&rt, file);
    Ok(())
}

/// Checks each enum, value, service and method of a file, and answers how many there are.
fn check_deprecated(rt: &impl Abort, file: &FileDescriptorProto) -> usize {
    let mut count = 0_usize;
    for enumeration in file.enum_type.as_slice() {
        assert!(rt; enumeration.is_deprecated().ok() == Some(true));
        count = count
            .saturating_add(1)
            .saturating_add(enumeration.value.as_slice().len());
        for value in enumeration.value.as_slice() {
            assert!(rt; value.is_deprecated().ok() == Some(true));
        }
    }
    count.saturating_add(check_services(rt, file))
}

fn check_services(rt: &impl Abort, file: &FileDescriptorProto) -> usize {
    let mut count = 0_usize;
    for service in file.service.as_slice() {
        assert!(rt; service.is_deprecated().ok() == Some(true));
        count = count
            .saturating_add(1)
            .saturating_add(service.method.as_slice().len());
        for method in service.method.as_slice() {
            assert!(rt; method.is_deprecated().ok() == Some(true));
        }
    }
    count
}

#[test]
fn enums_and_services_are_deprecated(rt: HostRuntime) -> Result<(), Fail> {
    // `file { enum_type { value { .. } options { deprecated: true } } service { method { .. } ..
    // }}`
    let bytes = [
        10, 26, 42, 10, 18, 4, 26, 2, 8, 1, 26, 2, 24, 1, 50, 12, 18, 5, 34, 3, 136, 2, 1, 26, 3,
        136, 2, 1,
    ];
    let set = decode(rt.alloc(), &bytes)
        .ok()
        .ok_or("the bytes are a set")?;
    let [file] = set.file.as_slice() else {
        return Err("the set has one file".into());
    };
    assert!(rt; check_deprecated(&rt, file) == 4);
    Ok(())
}
