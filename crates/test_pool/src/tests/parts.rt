//! What items hold that follows from their records, and that no line of a pool's text tells:
//! numbers of values, and encodings by what no statement says.

use super::batches::pool_of;
use super::files_of;
use descriptor_pool::{BuildError, DescriptorPool};
use pool_types::{EnumDescriptor, MessageDescriptor};
use proto_types::{DescriptorProto, FileDescriptorProto};
use std::alloc::{AllocError, Global};
use std::test::Fail;

/// A file with an enum, and the number of each value with its position.
const ENUMS: &[(&str, &str)] = &[
    (
        "file a.proto\nenum E\nalias\nvalue A 1\nvalue B 0\nvalue C 1\nend\nend\n",
        "[(0, 1), (1, 0), (1, 2)]",
    ),
    (
        "file a.proto\nenum E\nvalue A 1\nvalue B -1\nvalue C ~\nend\nend\n",
        "[(-1, 1), (0, 2), (1, 0)]",
    ),
];

/// The numbers of the first enum of a pool.
fn numbers_report(alloc: Global, pool: &DescriptorPool) -> Result<String, AllocError> {
    let Some(enumeration) = pool.enum_(EnumDescriptor::new(0)) else {
        return String::from_str(alloc, "none");
    };
    let numbers = enumeration.value_numbers.as_slice();
    format!(in alloc; "{numbers:?}")
}

#[test]
fn values_stand_by_their_numbers(rt: HostRuntime) -> Result<(), Fail> {
    for (script, wanted) in ENUMS {
        let report = numbers_report(rt.alloc(), &pool_of(rt.alloc(), script)?)?;
        assert!(rt; report.as_str() == *wanted, "{script}{report}");
    }
    Ok(())
}

/// The syntax of a file and its first message with one field, whether that is optional in proto3
/// where that is said, whether it is packed, and whether a message tells that it is set.
const ENCODED: &[(&str, Option<bool>, bool, bool)] = &[
    (
        "syntax proto3\nmessage M\nfield f 1 optional int32 ~ ~\n",
        Some(true),
        false,
        true,
    ),
    (
        "syntax proto3\nmessage M\nfield f 1 optional int32 ~ ~\npacked true\n",
        Some(false),
        false,
        false,
    ),
    (
        "message M\nfield f 1 repeated int32 ~ ~\n",
        Some(true),
        false,
        true,
    ),
];

/// Says of the last field of a file's last message whether it is optional in proto3, which no
/// statement does.
fn say_optional(
    file: &mut FileDescriptorProto,
    is_optional: Option<bool>,
) -> Result<(), AllocError> {
    let Some(mut message) = file.message_type.pop() else {
        return Ok(());
    };
    say_field_optional(&mut message, is_optional)?;
    file.message_type.push(message)
}

fn say_field_optional(
    message: &mut DescriptorProto,
    is_optional: Option<bool>,
) -> Result<(), AllocError> {
    let Some(mut field) = message.field.pop() else {
        return Ok(());
    };
    field.proto3_optional = is_optional;
    message.field.push(field)
}

/// A file of these parts.
fn files_with(alloc: Global, parts: &str) -> Result<Vec<FileDescriptorProto>, AllocError> {
    let script = format!(in alloc; "file a.proto\n{parts}end\nend\n")?;
    files_of(alloc, script.as_str())
}

/// A pool with a file of these parts, of whose field it is said.
fn pool_with(
    alloc: Global,
    parts: &str,
    is_optional: Option<bool>,
) -> Result<DescriptorPool, BuildError> {
    let mut files = files_with(alloc, parts)?;
    if let Some(file) = files.last_mut() {
        say_optional(file, is_optional)?;
    }
    let mut pool = DescriptorPool::new(alloc);
    pool.build_files(files)?;
    Ok(pool)
}

/// Whether the first field of a pool is packed, and whether a message tells that it is set.
fn encoding(pool: &DescriptorPool) -> Option<(bool, bool)> {
    let message = pool.message(MessageDescriptor::new(0))?;
    let field = message.fields.as_slice().first()?;
    Some((field.is_packed, field.supports_presence))
}

fn encoding_of(
    alloc: Global,
    parts: &str,
    is_optional: Option<bool>,
) -> Result<Option<(bool, bool)>, BuildError> {
    let pool = pool_with(alloc, parts, is_optional)?;
    Ok(encoding(&pool))
}

#[test]
fn fields_are_packed_and_set_by_syntax_and_kind(rt: HostRuntime) -> Result<(), Fail> {
    for (parts, is_optional, is_packed, supports_presence) in ENCODED {
        let report = encoding_of(rt.alloc(), parts, *is_optional)?;
        assert!(rt;
            report == Some((*is_packed, *supports_presence)),
            "{parts}{report:?}"
        );
    }
    Ok(())
}
