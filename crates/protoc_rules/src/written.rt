//! The types of fields as they are written, before linking puts there what their names mean.

ghost use Rattle.std.specs.Prelude.{◌≡◌, ◌++◌, IfOk, OnOk, map};
ghost use Rattle.std.specs.List.{flat_map};
ghost use Rattle.protoc_rules.specs.Written as spec;

use plain_data::Items;
use proto_types::{DescriptorProto, FieldDescriptorProto, FieldType, FileDescriptorProto};
use std::alloc::{AllocError, Global};

/// The types of fields and extensions as they are written, where a known one is. Linking writes
/// over them what the type names mean.
#[derive(Drop)]
pub struct WrittenTypes {
    /// Those of the fields of each message, in the order of the walk.
    pub fields: Items<Items<Option<FieldType>>>,
    /// Those of the extensions, in the order of the walk.
    pub extensions: Items<Option<FieldType>>,
}

/// The types of the fields and extensions of files.
///
/// # Errors
/// `AllocError` where memory was refused.
pub fn written_types(
    alloc: Global,
    files: &[FileDescriptorProto],
) -> Result<WrittenTypes, AllocError>
    ensures { IfOk result (λ types. types ≡ spec.written_types files.now) }
{
    let mut fields = Items::new(alloc);
    let mut extensions = Items::new(alloc);
    for file in files {
        add_file_fields(alloc, &mut fields, file)?;
        add_file_extensions(&mut extensions, file)?;
    }
    Ok(WrittenTypes { fields, extensions })
}

/// The type of a field, where a known one is written.
fn written_type(field: &FieldDescriptorProto) -> Option<FieldType>
    ensures { result ≡ spec.written_type field.now }
{
    match field.type_ {
        Some(number) if 1 <= number && number <= 18 => Some(field.field_type()),
        _ => None,
    }
}

/// Appends the types of fields.
fn add_types(
    types: &mut Items<Option<FieldType>>,
    fields: &[FieldDescriptorProto],
) -> Result<(), AllocError>
    ensures { OnOk result (types.new ≡ types.old ++ map spec.written_type fields.now) }
{
    for field in fields {
        types.push(written_type(field))?;
    }
    Ok(())
}

/// The types of fields.
fn types_of(
    alloc: Global,
    fields: &[FieldDescriptorProto],
) -> Result<Items<Option<FieldType>>, AllocError>
    ensures { IfOk result (λ types. types ≡ map spec.written_type fields.now) }
{
    let mut types = Items::new(alloc);
    add_types(&mut types, fields)?;
    Ok(types)
}

/// Appends the types of the fields of a message, and then those of the messages in it.
#[tactic(auto, using(crate::proofs::Nested::fields_open))]
fn add_fields(
    alloc: Global,
    rows: &mut Items<Items<Option<FieldType>>>,
    message: &DescriptorProto,
) -> Result<(), AllocError>
    ensures { OnOk result (rows.new ≡ rows.old ++ spec.field_types message.now) }
{
    rows.push(types_of(alloc, message.field.as_slice())?)?;
    let messages = message.nested_type.as_slice();
    for nested in messages {
        add_fields(alloc, rows, nested)?;
    }
    Ok(())
}

/// Appends the types of the extensions of the messages in a message, and then those of its own.
#[tactic(auto, using(crate::proofs::Nested::extensions_open))]
fn add_extensions(
    types: &mut Items<Option<FieldType>>,
    message: &DescriptorProto,
) -> Result<(), AllocError>
    ensures { OnOk result (types.new ≡ types.old ++ spec.extension_types message.now) }
{
    let messages = message.nested_type.as_slice();
    for nested in messages {
        add_extensions(types, nested)?;
    }
    add_types(types, message.extension.as_slice())
}

/// Appends the types of the fields of each message of a file.
fn add_file_fields(
    alloc: Global,
    rows: &mut Items<Items<Option<FieldType>>>,
    file: &FileDescriptorProto,
) -> Result<(), AllocError>
    ensures { OnOk result (rows.new ≡ rows.old ++ flat_map spec.field_types file.now.message_type) }
{
    let messages = file.message_type.as_slice();
    for message in messages {
        add_fields(alloc, rows, message)?;
    }
    Ok(())
}

/// Appends the types of the extensions that stand in the messages of a file.
fn add_nested_extensions(
    types: &mut Items<Option<FieldType>>,
    file: &FileDescriptorProto,
) -> Result<(), AllocError>
    ensures { OnOk result (types.new
        ≡ types.old ++ flat_map spec.extension_types file.now.message_type) }
{
    let messages = file.message_type.as_slice();
    for message in messages {
        add_extensions(types, message)?;
    }
    Ok(())
}

/// Appends the types of the extensions of a file.
fn add_file_extensions(
    types: &mut Items<Option<FieldType>>,
    file: &FileDescriptorProto,
) -> Result<(), AllocError>
    ensures { OnOk result (types.new ≡ types.old ++ spec.file_extension_types file.now) }
{
    add_nested_extensions(types, file)?;
    add_types(types, file.extension.as_slice())
}
