ghost use Rattle.std.specs.Prelude.{◌≡◌};
ghost use Rattle.std.specs.Option.{option_copied};
ghost use Rattle.reference_pass.specs.Definitions.{declaration_path, enum_record, message_record};
ghost use Rattle.reference_pass.specs.Reading.{setting_of};

use crate::Reading;
use pool_types::Definition;
use proto_types::{DescriptorProto, EnumDescriptorProto};
use record_lists::{find_enum_proto, find_message_proto};

/// The record of the message with a definition.
pub(crate) fn message_record<'a>(
    reading: &Reading<'a>,
    definition: &Definition,
) -> Option<&'a DescriptorProto>
    ensures { option_copied result ≡ message_record (setting_of reading.now) definition.now }
{
    let file = reading.faults.files().get(definition.file as usize)?;
    find_message_proto(&file.raw, declaration_path(definition.path.as_slice()))
}

/// The record of the enum with a definition.
pub(crate) fn enum_record<'a>(
    reading: &Reading<'a>,
    definition: &Definition,
) -> Option<&'a EnumDescriptorProto>
    ensures { option_copied result ≡ enum_record (setting_of reading.now) definition.now }
{
    let file = reading.faults.files().get(definition.file as usize)?;
    find_enum_proto(&file.raw, declaration_path(definition.path.as_slice()))
}

/// The path of a declaration, by that of its name.
pub(crate) fn declaration_path(path: &[i32]) -> &[i32]
    ensures { result.now ≡ declaration_path path.now }
{
    &path[..path.len().saturating_sub(1)]
}
