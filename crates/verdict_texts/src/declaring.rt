//! The names of the messages and enums that a file declares.

ghost use Rattle.std.specs.Prelude.{◌≡◌, [], ◌∷◌, ◌++◌, IfOk, OnOk};
ghost use Rattle.proto_types.specs.Names.{join};
ghost use Rattle.proto_types.specs.Readers.{text_of};
ghost use Rattle.proto_types.specs.declared.message.DescriptorProto.{out-DescriptorProto};
ghost use Rattle.record_walk.specs.Counts.{no_counts};
ghost use Rattle.record_walk.specs.Declarations.{declarations};
ghost use Rattle.verdict_texts.specs.Known.{type_names};
ghost use Rattle.verdict_texts.specs.Named as spec;

use crate::elements::full_name;
use plain_data::{Items, Text};
use proto_types::{DescriptorProto, EnumDescriptorProto, FileDescriptorProto};
use std::alloc::{AllocError, Global};

/// Adds the full names of the enums of a list.
fn add_enums(
    alloc: Global,
    names: &mut Items<Text>,
    scope: &str,
    enums: &Items<EnumDescriptorProto>,
) -> Result<(), AllocError>
    ensures { OnOk result (names.new ≡ names.old ++ spec.enum_names scope.now enums.now) }
{
    for enumeration in enums.as_slice() {
        let full = full_name(alloc, scope, enumeration.name())?;
        names.push(full)?;
    }
    Ok(())
}

/// Adds the full name of a message, and those of all messages and enums in it.
#[cycle(types)]
fn add_message(
    alloc: Global,
    names: &mut Items<Text>,
    scope: &str,
    message: &DescriptorProto,
) -> Result<(), AllocError>
    ensures { OnOk result (names.new ≡ names.old ++ spec.message_types
        (join scope.now (text_of (out-DescriptorProto message.now).name)) message.now) }
{
    let full = full_name(alloc, scope, message.name())?;
    names.push(full.clone(alloc)?)?;
    add_messages(alloc, names, full.as_str(), &message.nested_type)?;
    add_enums(alloc, names, full.as_str(), &message.enum_type)
}

/// Adds the full names of the messages of a list, and of the messages and enums in them.
#[cycle(types)]
fn add_messages(
    alloc: Global,
    names: &mut Items<Text>,
    scope: &str,
    messages: &Items<DescriptorProto>,
) -> Result<(), AllocError>
    ensures { OnOk result (names.new ≡ names.old ++ spec.types_in scope.now messages.now) }
{
    for message in messages.as_slice() {
        add_message(alloc, names, scope, message)?;
    }
    Ok(())
}

/// The full names of the messages and enums of a file.
pub(crate) fn types_in_file(
    alloc: Global,
    file: &FileDescriptorProto,
) -> Result<Items<Text>, AllocError>
    ensures { IfOk result (λ names. names ≡ type_names (declarations no_counts (file.now ∷ []))) }
{
    let mut names = Items::new(alloc);
    add_messages(alloc, &mut names, file.package(), &file.message_type)?;
    add_enums(alloc, &mut names, file.package(), &file.enum_type)?;
    Ok(names)
}

/// Puts names behind others.
pub(crate) fn push_all(names: &mut Items<Text>, more: Items<Text>) -> Result<(), AllocError>
    ensures { OnOk result (names.new ≡ names.old ++ more) }
{
    for name in more.into_vec() {
        names.push(name)?;
    }
    Ok(())
}
