ghost use Rattle.std.specs.Prelude.{◌≡◌};
ghost use Rattle.field_rules.specs.Encoding.{is_packed, packed_of, supports_presence};

use pool_types::KindIndex;
use proto_types::{FieldDescriptorProto, FieldLabel};

/// Whether the values of a field of a kind are encoded as one run of bytes: of a repeated number,
/// as the option says, and in a file of proto3 where it says nothing (the protobuf guide on
/// encoding).
pub fn is_packed(is_proto3: bool, kind: KindIndex, field: &FieldDescriptorProto) -> bool
    ensures { result ≡ is_packed is_proto3 kind field.now }
{
    field.label() == FieldLabel::Repeated
        && kind.is_packable()
        && packed_option(field).unwrap_or(is_proto3)
}

/// What the options of a field say of how it is packed.
fn packed_option(field: &FieldDescriptorProto) -> Option<bool>
    ensures { result ≡ packed_of field.now.options }
{
    field.options.as_ref()?.value.packed
}

/// Whether a message tells that a field of a kind is set: one that is optional in proto3, one of a
/// oneof, and, unless it is repeated, one that holds a message or stands in a file of proto2 (the
/// protobuf note on field presence).
pub fn supports_presence(is_proto3: bool, kind: KindIndex, field: &FieldDescriptorProto) -> bool
    ensures { result ≡ supports_presence is_proto3 kind field.now }
{
    if field.proto3_optional() || field.oneof_index.is_some() {
        return true;
    }
    field.label() != FieldLabel::Repeated && (kind.is_message() || !is_proto3)
}
