//! What holds of fields, oneofs and enums, by the files and the messages of a pool.

ghost use Rattle.std.specs.Prelude.{◌≡◌};
ghost use Rattle.record_lists.specs.Flags as spec;

use crate::records::{field_parts, message_parts};
use pool_types::{
    Cardinality, EnumDescriptorInner, FieldDescriptorInner, FileDescriptorInner, KindIndex,
    MessageDescriptorInner, Syntax,
};

/// Whether a field may stand in a message any number of times.
pub fn is_repeated(cardinality: Cardinality) -> bool
    ensures { result ≡ spec.is_repeated cardinality }
{
    matches!(cardinality, Cardinality::Repeated)
}

/// Whether a field must stand in a message.
pub fn is_required(cardinality: Cardinality) -> bool
    ensures { result ≡ spec.is_required cardinality }
{
    matches!(cardinality, Cardinality::Required)
}

/// Whether a type is a group.
pub fn is_group(kind: KindIndex) -> bool
    ensures { result ≡ spec.is_group kind }
{
    matches!(kind, KindIndex::Group(_))
}

/// Whether a type is a message whose options say that it is the entry of a map.
fn is_entry_type(
    files: &[FileDescriptorInner],
    messages: &[MessageDescriptorInner],
    kind: KindIndex,
) -> bool
    ensures { result ≡ spec.is_entry_type files.now messages.now kind }
{
    let KindIndex::Message(index) = kind else {
        return false;
    };
    match messages.get(index as usize) {
        Some(message) => message_parts(files, &message.id).is_map_entry,
        None => false,
    }
}

/// Whether a field is a map: it is repeated, and its type the entry of a map.
pub fn is_map(
    files: &[FileDescriptorInner],
    messages: &[MessageDescriptorInner],
    cardinality: Cardinality,
    kind: KindIndex,
) -> bool
    ensures { result ≡ spec.is_map files.now messages.now cardinality kind }
{
    is_repeated(cardinality) && is_entry_type(files, messages, kind)
}

/// Whether a field is repeated and no map.
pub fn is_list(
    files: &[FileDescriptorInner],
    messages: &[MessageDescriptorInner],
    cardinality: Cardinality,
    kind: KindIndex,
) -> bool
    ensures { result ≡ spec.is_list files.now messages.now cardinality kind }
{
    is_repeated(cardinality) && !is_entry_type(files, messages, kind)
}

/// Whether a oneof of a message was made for one field that is optional by word in proto3, by the
/// positions of its fields among those of the message.
pub fn is_synthetic(
    files: &[FileDescriptorInner],
    fields: &[FieldDescriptorInner],
    positions: &[u32],
) -> bool
    ensures { result ≡ spec.is_synthetic files.now fields.now positions.now }
{
    let [only] = positions else {
        return false;
    };
    match fields.get(*only as usize) {
        Some(field) => field_parts(files, &field.id).is_proto3_optional,
        None => false,
    }
}

/// Whether an enum has its values alone: it stands in a file that is not of proto3.
pub fn is_closed(files: &[FileDescriptorInner], enumeration: &EnumDescriptorInner) -> bool
    ensures { result ≡ spec.is_closed files.now enumeration.now }
{
    match files.get(enumeration.id.file as usize) {
        Some(file) => !matches!(file.syntax, Syntax::Proto3),
        None => false,
    }
}
