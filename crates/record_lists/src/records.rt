//! The linked records of items, by the files of a pool and the identities of the items, and what
//! they say.

ghost use Rattle.std.specs.Prelude.{◌≡◌, false};
ghost use Rattle.std.specs.Option.{option_copied};
ghost use Rattle.std.specs.Result.{result_unwrap_or};
ghost use Rattle.record_lists.specs.Records as spec;

use crate::{
    find_enum_proto, find_enum_value_proto, find_field_proto, find_message_proto,
    find_method_proto, find_oneof_proto, find_service_proto,
};
use descriptor_decoding::{Deprecated, says_map_entry, says_message_set};
use pool_types::{FileDescriptorInner, Identity};
use proto_types::{
    DescriptorProto, EnumDescriptorProto, EnumValueDescriptorProto, FieldDescriptorProto,
    MethodDescriptorProto, OneofDescriptorProto, ServiceDescriptorProto,
};

/// The record of a message.
pub fn message_record<'a>(
    files: &'a [FileDescriptorInner],
    id: &Identity,
) -> Option<&'a DescriptorProto>
    ensures { option_copied result ≡ spec.message_record files.now id.now }
{
    find_message_proto(&files.get(id.file as usize)?.raw, id.path())
}

/// The record of a field or of an extension.
pub fn field_record<'a>(
    files: &'a [FileDescriptorInner],
    id: &Identity,
) -> Option<&'a FieldDescriptorProto>
    ensures { option_copied result ≡ spec.field_record files.now id.now }
{
    find_field_proto(&files.get(id.file as usize)?.raw, id.path())
}

/// The record of a oneof.
pub fn oneof_record<'a>(
    files: &'a [FileDescriptorInner],
    id: &Identity,
) -> Option<&'a OneofDescriptorProto>
    ensures { option_copied result ≡ spec.oneof_record files.now id.now }
{
    find_oneof_proto(&files.get(id.file as usize)?.raw, id.path())
}

/// The record of an enum.
pub fn enum_record<'a>(
    files: &'a [FileDescriptorInner],
    id: &Identity,
) -> Option<&'a EnumDescriptorProto>
    ensures { option_copied result ≡ spec.enum_record files.now id.now }
{
    find_enum_proto(&files.get(id.file as usize)?.raw, id.path())
}

/// The record of a value of an enum.
pub fn value_record<'a>(
    files: &'a [FileDescriptorInner],
    id: &Identity,
) -> Option<&'a EnumValueDescriptorProto>
    ensures { option_copied result ≡ spec.value_record files.now id.now }
{
    find_enum_value_proto(&files.get(id.file as usize)?.raw, id.path())
}

/// The record of a service.
pub fn service_record<'a>(
    files: &'a [FileDescriptorInner],
    id: &Identity,
) -> Option<&'a ServiceDescriptorProto>
    ensures { option_copied result ≡ spec.service_record files.now id.now }
{
    find_service_proto(&files.get(id.file as usize)?.raw, id.path())
}

/// The record of a method.
pub fn method_record<'a>(
    files: &'a [FileDescriptorInner],
    id: &Identity,
) -> Option<&'a MethodDescriptorProto>
    ensures { option_copied result ≡ spec.method_record files.now id.now }
{
    find_method_proto(&files.get(id.file as usize)?.raw, id.path())
}

/// Whether the options of a record say that it is deprecated; wrong bytes say nothing.
pub fn is_deprecated<T: Deprecated>(proto: &T) -> bool
    ensures { result ≡ result_unwrap_or (T.deprecated proto.now) false }
{
    proto.is_deprecated().unwrap_or(false)
}

/// How much the record of a message has of each kind, and what its options say.
#[derive(Clone, Copy)]
pub struct MessageParts {
    pub nested_messages: u64,
    pub nested_enums: u64,
    pub nested_extensions: u64,
    pub extension_ranges: u64,
    pub reserved_ranges: u64,
    pub reserved_names: u64,
    pub is_map_entry: bool,
    pub is_message_set: bool,
    pub is_deprecated: bool,
}

/// A record of a message that has nothing.
const NO_MESSAGE_PARTS: MessageParts = MessageParts {
    nested_messages: 0,
    nested_enums: 0,
    nested_extensions: 0,
    extension_ranges: 0,
    reserved_ranges: 0,
    reserved_names: 0,
    is_map_entry: false,
    is_message_set: false,
    is_deprecated: false,
};

/// How much the record of an enum has of each kind, and what its options say.
#[derive(Clone, Copy)]
pub struct EnumParts {
    pub reserved_ranges: u64,
    pub reserved_names: u64,
    pub is_deprecated: bool,
}

/// A record of an enum that has nothing.
const NO_ENUM_PARTS: EnumParts = EnumParts {
    reserved_ranges: 0,
    reserved_names: 0,
    is_deprecated: false,
};

/// What the record of a field says.
#[derive(Clone, Copy)]
pub struct FieldParts {
    pub is_proto3_optional: bool,
    pub is_deprecated: bool,
}

/// A record of a field that says nothing.
const NO_FIELD_PARTS: FieldParts = FieldParts {
    is_proto3_optional: false,
    is_deprecated: false,
};

/// What the record of a method says.
#[derive(Clone, Copy)]
pub struct MethodParts {
    pub client_streaming: bool,
    pub server_streaming: bool,
    pub is_deprecated: bool,
}

/// A record of a method that says nothing.
const NO_METHOD_PARTS: MethodParts = MethodParts {
    client_streaming: false,
    server_streaming: false,
    is_deprecated: false,
};

/// What the record of a message has.
fn parts_of_message(proto: &DescriptorProto) -> MessageParts
    ensures { result ≡ spec.parts_of_message proto.now }
{
    MessageParts {
        nested_messages: proto.nested_type.as_slice().len() as u64,
        nested_enums: proto.enum_type.as_slice().len() as u64,
        nested_extensions: proto.extension.as_slice().len() as u64,
        extension_ranges: proto.extension_range.as_slice().len() as u64,
        reserved_ranges: proto.reserved_range.as_slice().len() as u64,
        reserved_names: proto.reserved_name.as_slice().len() as u64,
        is_map_entry: says_map_entry(proto),
        is_message_set: says_message_set(proto),
        is_deprecated: is_deprecated(proto),
    }
}

/// What the record of a message of a pool has, by the message's identity.
pub fn message_parts(files: &[FileDescriptorInner], id: &Identity) -> MessageParts
    ensures { result ≡ spec.message_parts files.now id.now }
{
    match message_record(files, id) {
        Some(proto) => parts_of_message(proto),
        None => NO_MESSAGE_PARTS,
    }
}

/// What the record of an enum of a pool has, by the enum's identity.
pub fn enum_parts(files: &[FileDescriptorInner], id: &Identity) -> EnumParts
    ensures { result ≡ spec.enum_parts files.now id.now }
{
    match enum_record(files, id) {
        Some(proto) => EnumParts {
            reserved_ranges: proto.reserved_range.as_slice().len() as u64,
            reserved_names: proto.reserved_name.as_slice().len() as u64,
            is_deprecated: is_deprecated(proto),
        },
        None => NO_ENUM_PARTS,
    }
}

/// What the record of a field or of an extension of a pool says, by the identity of either.
pub fn field_parts(files: &[FileDescriptorInner], id: &Identity) -> FieldParts
    ensures { result ≡ spec.field_parts files.now id.now }
{
    match field_record(files, id) {
        Some(proto) => FieldParts {
            is_proto3_optional: proto.proto3_optional(),
            is_deprecated: is_deprecated(proto),
        },
        None => NO_FIELD_PARTS,
    }
}

/// What the record of a method of a pool says, by the method's identity.
pub fn method_parts(files: &[FileDescriptorInner], id: &Identity) -> MethodParts
    ensures { result ≡ spec.method_parts files.now id.now }
{
    match method_record(files, id) {
        Some(proto) => MethodParts {
            client_streaming: proto.client_streaming.unwrap_or(false),
            server_streaming: proto.server_streaming.unwrap_or(false),
            is_deprecated: is_deprecated(proto),
        },
        None => NO_METHOD_PARTS,
    }
}

/// Whether the record of a value of an enum of a pool says that it is deprecated, by the identity
/// of the value.
pub fn is_value_deprecated(files: &[FileDescriptorInner], id: &Identity) -> bool
    ensures { result ≡ spec.is_value_deprecated files.now id.now }
{
    match value_record(files, id) {
        Some(proto) => is_deprecated(proto),
        None => false,
    }
}

/// Whether the record of a service of a pool says that it is deprecated, by the identity of the
/// service.
pub fn is_service_deprecated(files: &[FileDescriptorInner], id: &Identity) -> bool
    ensures { result ≡ spec.is_service_deprecated files.now id.now }
{
    match service_record(files, id) {
        Some(proto) => is_deprecated(proto),
        None => false,
    }
}
