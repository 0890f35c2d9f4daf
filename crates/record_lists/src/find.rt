//! The records that paths lead to. A path has a field number of descriptor.proto and a position,
//! from 0, for each step from the file on.

ghost use Rattle.std.specs.Prelude.{◌≡◌};
ghost use Rattle.std.specs.Option.{option_copied, option_and_then, option_or};
ghost use Rattle.record_walk.specs.Leads.{leads};
ghost use Rattle.record_walk.specs.Protos.{as_message, as_enum, as_field, as_extension, as_oneof};
ghost use Rattle.record_walk.specs.Protos.{as_value, as_service, as_method};

mod record;

use proto_types::{
    DescriptorProto, EnumDescriptorProto, EnumValueDescriptorProto, FieldDescriptorProto,
    FileDescriptorProto, MethodDescriptorProto, OneofDescriptorProto, ServiceDescriptorProto,
};
use record::Record;

/// The message at a path, or none where no message stands there.
pub fn find_message_proto<'a>(
    file: &'a FileDescriptorProto,
    path: &[i32],
) -> Option<&'a DescriptorProto>
    ensures { option_copied result ≡ option_and_then as_message (leads file.now path.now) }
{
    match Record::at(file, path)? {
        Record::Message(message) => Some(message),
        _ => None,
    }
}

/// The enum at a path, or none where no enum stands there.
pub fn find_enum_proto<'a>(
    file: &'a FileDescriptorProto,
    path: &[i32],
) -> Option<&'a EnumDescriptorProto>
    ensures { option_copied result ≡ option_and_then as_enum (leads file.now path.now) }
{
    match Record::at(file, path)? {
        Record::Enum(found) => Some(found),
        _ => None,
    }
}

/// The field or the extension at a path, or none where neither stands there.
pub fn find_field_proto<'a>(
    file: &'a FileDescriptorProto,
    path: &[i32],
) -> Option<&'a FieldDescriptorProto>
    ensures { option_copied result
        ≡ option_or (option_and_then as_field (leads file.now path.now))
        (option_and_then as_extension (leads file.now path.now)) }
{
    match Record::at(file, path)? {
        Record::Field(field) | Record::Extension(field) => Some(field),
        _ => None,
    }
}

/// The oneof at a path, or none where no oneof stands there.
pub fn find_oneof_proto<'a>(
    file: &'a FileDescriptorProto,
    path: &[i32],
) -> Option<&'a OneofDescriptorProto>
    ensures { option_copied result ≡ option_and_then as_oneof (leads file.now path.now) }
{
    match Record::at(file, path)? {
        Record::Oneof(oneof) => Some(oneof),
        _ => None,
    }
}

/// The enum value at a path, or none where no value stands there.
pub fn find_enum_value_proto<'a>(
    file: &'a FileDescriptorProto,
    path: &[i32],
) -> Option<&'a EnumValueDescriptorProto>
    ensures { option_copied result ≡ option_and_then as_value (leads file.now path.now) }
{
    match Record::at(file, path)? {
        Record::EnumValue(value) => Some(value),
        _ => None,
    }
}

/// The service at a path, or none where no service stands there.
pub fn find_service_proto<'a>(
    file: &'a FileDescriptorProto,
    path: &[i32],
) -> Option<&'a ServiceDescriptorProto>
    ensures { option_copied result ≡ option_and_then as_service (leads file.now path.now) }
{
    match Record::at(file, path)? {
        Record::Service(service) => Some(service),
        _ => None,
    }
}

/// The method at a path, or none where no method stands there.
pub fn find_method_proto<'a>(
    file: &'a FileDescriptorProto,
    path: &[i32],
) -> Option<&'a MethodDescriptorProto>
    ensures { option_copied result ≡ option_and_then as_method (leads file.now path.now) }
{
    match Record::at(file, path)? {
        Record::Method(method) => Some(method),
        _ => None,
    }
}
