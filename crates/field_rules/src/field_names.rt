ghost use Rattle.std.specs.Prelude.{◌≡◌, ◌++◌, Some, true, IfOk, OnOk};
ghost use Rattle.std.specs.Option.{option_map};
ghost use Rattle.plain_data.specs.Lists.{listed};
ghost use Rattle.record_walk.specs.Counts.{fits_list};
ghost use Rattle.proto_types.specs.Readers.{text_of};
ghost use Rattle.field_rules.specs.Maps.{keyed};

use crate::named::{FEW, list_bytes};
use plain_data::NameList;
use proto_types::FieldDescriptorProto;
use std::alloc::{AllocError, Global};

/// The name of each field, with its position.
pub(crate) fn name_list(
    alloc: Global,
    fields: &[FieldDescriptorProto],
) -> Result<NameList, AllocError>
    requires { fits_list fields.now ≡ true }
    ensures { IfOk result (λ names. names ≡ keyed (λ f. Some (text_of f.name)) fields.now) }
{
    let mut names = NameList::with_capacity(alloc, fields.len(), list_bytes(fields))?;
    for (position, field) in fields.iter().enumerate() {
        names.push(field.name(), position as u32)?;
    }
    Ok(names)
}

/// The JSON name of each field that has one, with its position.
pub(crate) fn json_name_list(
    alloc: Global,
    fields: &[FieldDescriptorProto],
) -> Result<NameList, AllocError>
    requires { fits_list fields.now ≡ true }
    ensures { IfOk result (λ names. names ≡ keyed (λ f. f.json_name) fields.now) }
{
    let given = json_names_given(fields);
    let bytes = if given <= FEW {
        0
    } else {
        json_name_bytes(fields)
    };
    let mut names = NameList::with_capacity(alloc, given, bytes)?;
    for (position, field) in fields.iter().enumerate() {
        push_json_name(&mut names, field, position as u32)?;
    }
    Ok(names)
}

/// Puts the JSON name of a field behind the others, if it has one.
fn push_json_name(
    names: &mut NameList,
    field: &FieldDescriptorProto,
    position: u32,
) -> Result<(), AllocError>
    ensures { OnOk result (names.new
        ≡ names.old ++ listed (option_map (λ name. (name, position)) field.now.json_name)) }
{
    match &field.json_name {
        Some(name) => names.push(name.as_str(), position),
        None => Ok(()),
    }
}

/// How many fields have a JSON name.
fn json_names_given(fields: &[FieldDescriptorProto]) -> usize {
    let mut given = 0usize;
    for field in fields {
        if field.json_name.is_some() {
            given = given.saturating_add(1);
        }
    }
    given
}

/// How many bytes the JSON names of fields have in all.
fn json_name_bytes(fields: &[FieldDescriptorProto]) -> usize {
    let mut bytes = 0usize;
    for field in fields {
        if let Some(name) = &field.json_name {
            bytes = bytes.saturating_add(name.as_str().len());
        }
    }
    bytes
}
