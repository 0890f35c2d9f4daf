//! The records that paths lead to.

use super::counting::EVERY_KIND;
use super::files_of;
use proto_types::{
    DescriptorProto, EnumDescriptorProto, EnumValueDescriptorProto, FieldDescriptorProto,
    FileDescriptorProto, MethodDescriptorProto, OneofDescriptorProto, ServiceDescriptorProto,
};
use record_lists::{
    find_enum_proto, find_enum_value_proto, find_field_proto, find_message_proto,
    find_method_proto, find_oneof_proto, find_service_proto,
};
use record_walk::DeclarationKind;
use std::process::Abort;
use std::test::Fail;

/// A kind that is looked for, a path, and the name of what is found, or `none`.
const PATHS: &[(DeclarationKind, &[i32], &str)] = &[
    (DeclarationKind::Message, &[4, 0, 3, 0], "N"),
    (DeclarationKind::Message, &[], "none"),
    (DeclarationKind::Message, &[4], "none"),
    (DeclarationKind::Message, &[4, 1], "none"),
    (DeclarationKind::Message, &[4, -1], "none"),
    (DeclarationKind::Message, &[5, 0], "none"),
    (DeclarationKind::Message, &[4, 0, 2], "none"),
    (DeclarationKind::Message, &[4, 2147483647], "none"),
    (DeclarationKind::Message, &[9, 0], "none"),
    (DeclarationKind::Message, &[4, 0, 3, -1], "none"),
    (DeclarationKind::Message, &[4, 0, 4, 0], "none"),
    (DeclarationKind::Field, &[4, 0, 2, 0], "f"),
    (DeclarationKind::Extension, &[4, 0, 6, 0], "e"),
    (DeclarationKind::Extension, &[7, 0], "x"),
    (DeclarationKind::Field, &[4, 0, 2, 0, 1], "none"),
    (DeclarationKind::Oneof, &[4, 0, 8, 0], "o"),
    (DeclarationKind::Enum, &[4, 0, 4, 0], "E"),
    (DeclarationKind::EnumValue, &[4, 0, 4, 0, 2, 0], "V"),
    (DeclarationKind::Service, &[6, 0], "S"),
    (DeclarationKind::Method, &[6, 0, 2, 0], "m"),
    (DeclarationKind::Method, &[6, 0], "none"),
];

/// The name of the record of a kind at a path.
fn found<'a>(
    file: &'a FileDescriptorProto,
    kind: DeclarationKind,
    path: &[i32],
) -> Option<&'a str> {
    match kind {
        DeclarationKind::File => Some(file.name()),
        DeclarationKind::Message => find_message_proto(file, path).map(DescriptorProto::name),
        DeclarationKind::Field => find_field_proto(file, path).map(FieldDescriptorProto::name),
        DeclarationKind::Oneof => find_oneof_proto(file, path).map(OneofDescriptorProto::name),
        DeclarationKind::Service => {
            find_service_proto(file, path).map(ServiceDescriptorProto::name)
        }
        DeclarationKind::Method => find_method_proto(file, path).map(MethodDescriptorProto::name),
        DeclarationKind::Enum => find_enum_proto(file, path).map(EnumDescriptorProto::name),
        DeclarationKind::EnumValue => {
            find_enum_value_proto(file, path).map(EnumValueDescriptorProto::name)
        }
        DeclarationKind::Extension => find_field_proto(file, path).map(FieldDescriptorProto::name),
    }
}

fn check(rt: &impl Abort, file: &FileDescriptorProto) {
    for (kind, path, wanted) in PATHS {
        let name = found(file, *kind, path).unwrap_or("none");
        assert!(rt; name == *wanted, "{kind:?} {path:?} {name}");
    }
}

/// Paths at which no record stands.
const NOWHERE: &[&[i32]] = &[
    &[4, 0, 2],
    &[4, 2_147_483_647],
    &[9, 0],
    &[4, 0, 3, -1],
    &[],
    &[4],
    &[4, -1],
];

fn is_found(file: &FileDescriptorProto, path: &[i32]) -> bool {
    find_message_proto(file, path).is_some()
        || find_field_proto(file, path).is_some()
        || find_oneof_proto(file, path).is_some()
        || find_enum_proto(file, path).is_some()
        || find_enum_value_proto(file, path).is_some()
        || find_service_proto(file, path).is_some()
        || find_method_proto(file, path).is_some()
}

fn check_nowhere(rt: &impl Abort, file: &FileDescriptorProto) {
    for path in NOWHERE {
        assert!(rt; !is_found(file, path), "{path:?}");
    }
}

#[test]
fn paths_lead_to_records(rt: HostRuntime) -> Result<(), Fail> {
    let files = files_of(rt.alloc(), EVERY_KIND)?;
    assert!(rt; !files.is_empty());
    for file in &files {
        check(&rt, file);
        check_nowhere(&rt, file);
    }
    Ok(())
}
