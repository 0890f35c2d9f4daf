//! The options of items, as they were encoded.

ghost use Rattle.std.specs.Prelude.{◌≡◌};
ghost use Rattle.std.specs.Option.{option_copied};
ghost use Rattle.record_lists.specs.Options as spec;

use crate::records::{
    enum_record, field_record, message_record, method_record, oneof_record, service_record,
    value_record,
};
use pool_types::{DefinitionKind, FileDescriptorInner, Identity};
use proto_types::Options;

/// The bytes of options; where there are none, no bytes.
pub fn encoded<T>(options: &Option<Options<T>>) -> &[u8]
    ensures { result.now ≡ spec.encoded options.now }
{
    match options {
        Some(options) => options.encoded.as_slice(),
        None => &[],
    }
}

/// The bytes of the options of what is declared somewhere, by its kind, or none where no record of
/// the kind stands there. A record without options has no bytes. Packages have no record.
pub fn options_of<'a>(
    files: &'a [FileDescriptorInner],
    id: &Identity,
    kind: DefinitionKind,
) -> Option<&'a [u8]>
    ensures { option_copied result ≡ spec.options_of files.now id.now kind }
{
    match kind {
        DefinitionKind::Package => None,
        DefinitionKind::Message(_) => Some(encoded(&message_record(files, id)?.options)),
        DefinitionKind::Field(_) | DefinitionKind::Extension(_) => {
            Some(encoded(&field_record(files, id)?.options))
        }
        DefinitionKind::Oneof(_) => Some(encoded(&oneof_record(files, id)?.options)),
        DefinitionKind::Service(_) => Some(encoded(&service_record(files, id)?.options)),
        DefinitionKind::Method(_) => Some(encoded(&method_record(files, id)?.options)),
        DefinitionKind::Enum(_) => Some(encoded(&enum_record(files, id)?.options)),
        DefinitionKind::EnumValue(_) => Some(encoded(&value_record(files, id)?.options)),
    }
}
