ghost use Rattle.std.specs.Prelude.{◌≡◌, ◌<◌, ◌^◌, ℕ, List, Some, true, unwrap_or, if◌then◌else◌};
ghost use Rattle.std.specs.Prelude.{IfOk, OnOk, string_bytes};
ghost use Rattle.std.specs.HashMap.{get_by_text};
ghost use Rattle.std.specs.Str.{bytes_eq};
ghost use Rattle.record_walk.specs.Counts.{fits_list, lists_fit};
ghost use Rattle.record_walk.specs.Protos.{of_message};
ghost use Rattle.pool_faults.specs.Labels.{label_in};
ghost use Rattle.record_walk.specs.Faults.{Tells, named_files};
ghost use Rattle.name_pass.specs.CamelCase.{camel_case_key, name_path, camel_case_fault};
ghost use Rattle.name_pass.specs.CamelCase.{camel_case_faults, message_own_faults};

use crate::key_digests::have_distinct_digests;
use plain_data::Text;
use pool_faults::{DescriptorErrorKind, Label};
use pool_types::{Syntax, syntax_at};
use proto_types::{DescriptorProto, FieldDescriptorProto, entry_path, tag};
use record_walk::Faults;
use std::alloc::{AllocError, Global};
use std::collections::HashMap;

/// Appends to `faults`, in a file of proto3, one for each field whose name is that of an earlier
/// field but for underscores and the case of ASCII's letters; it cites the earliest such field (the
/// protobuf language rules on proto3's JSON mapping). The message stands at the path in the file
/// with the index, from 0 in the order of linking, and its lists are short enough for positions in
/// paths.
///
/// # Errors
/// `AllocError` where memory was refused.
pub fn check_camel_case_names(
    faults: &mut Faults,
    file: u32,
    path: &[i32],
    message: &DescriptorProto,
) -> Result<(), AllocError>
    requires { lists_fit (of_message message.now) ≡ true }
    ensures told { OnOk result (Tells faults.old faults.new
        (message_own_faults (named_files faults.old) file path.now message.now)) }
    ensures labels { faults.new.labels ≡ faults.old.labels }
{
    match syntax_at(faults.files(), file) {
        Syntax::Proto2 => Ok(()),
        Syntax::Proto3 => check_fields(faults, file, path, message.field.as_slice()),
    }
}

/// Appends to `faults` one for each field whose key an earlier field has. Keys are made only where
/// two digests of keys are the same.
fn check_fields(
    faults: &mut Faults,
    file: u32,
    path: &[i32],
    fields: &[FieldDescriptorProto],
) -> Result<(), AllocError>
    requires { fits_list fields.now ≡ true }
    ensures told { OnOk result (Tells faults.old faults.new
        (camel_case_faults (named_files faults.old) file path.now fields.now)) }
    ensures labels { faults.new.labels ≡ faults.old.labels }
{
    if fields.len() < 2 || have_distinct_digests(faults.alloc, fields)? {
        return Ok(());
    }
    check_keys(faults, file, path, fields)
}

/// Appends to `faults` one for each field whose key an earlier field has.
fn check_keys(
    faults: &mut Faults,
    file: u32,
    path: &[i32],
    fields: &[FieldDescriptorProto],
) -> Result<(), AllocError>
    requires { fits_list fields.now ≡ true }
    ensures told { OnOk result (Tells faults.old faults.new
        (camel_case_faults (named_files faults.old) file path.now fields.now)) }
    ensures labels { faults.new.labels ≡ faults.old.labels }
{
    let mut holders = HashMap::new(faults.alloc);
    for (position, field) in fields.iter().enumerate() {
        let key = camel_case_key(faults.alloc, field.name())?;
        let first = first_holder(&mut holders, key, position)?;
        if first != position {
            let holder = (first, &fields[first]);
            let fault = camel_case_fault(faults, file, path, holder, (position, field))?;
            faults.push(fault)?;
        }
    }
    Ok(())
}

/// What the name of a field is told apart by: the name without underscores, in ASCII's lower case.
fn camel_case_key(alloc: Global, name: &str) -> Result<String, AllocError>
    ensures { IfOk result (λ key. string_bytes key ≡ camel_case_key name.now) }
{
    let mut key = String::from_str(alloc, name)?;
    key.retain(|c| c != '_');
    key.make_ascii_lowercase();
    Ok(key)
}

/// The position that holds a key: the one that the map has, or else the given one, which is put in.
fn first_holder(
    holders: &mut HashMap<String, usize>,
    key: String,
    position: usize,
) -> Result<usize, AllocError>
    ensures first { IfOk result (λ first.
        first ≡ unwrap_or (get_by_text holders.old (string_bytes key)) position) }
    ensures holders { IfOk result (λ first. (text : List ℕ) → get_by_text holders.new text
        ≡ (if bytes_eq text (string_bytes key) then Some first else get_by_text holders.old text)) }
{
    Ok(*holders.entry(key)?.or_insert(position))
}

/// The fault of two fields, given with their positions, whose names have one key.
fn camel_case_fault(
    faults: &mut Faults,
    file: u32,
    path: &[i32],
    first: (usize, &FieldDescriptorProto),
    second: (usize, &FieldDescriptorProto),
) -> Result<DescriptorErrorKind, AllocError>
    requires first_short { first.0 < 2 ^ 31 }
    requires second_short { second.0 < 2 ^ 31 }
    ensures fault { IfOk result (λ fault. fault
        ≡ camel_case_fault (named_files faults.old) file path.now
        (first.entry.0, first.entry.1.now) (second.entry.0, second.entry.1.now)) }
    ensures stays { faults.new ≡ faults.old }
{
    Ok(DescriptorErrorKind::DuplicateFieldCamelCaseName {
        first_name: Text::from_str(faults.alloc, first.1.name())?,
        second_name: Text::from_str(faults.alloc, second.1.name())?,
        first: name_label(faults, file, path, first.0)?,
        second: name_label(faults, file, path, second.0)?,
    })
}

/// The label of a field's name.
fn name_label(
    faults: &mut Faults,
    file: u32,
    path: &[i32],
    position: usize,
) -> Result<Label, AllocError>
    requires { position < 2 ^ 31 }
    ensures label { IfOk result (λ l. l
        ≡ label_in (named_files faults.old) file (name_path path.now position)) }
    ensures stays { faults.new ≡ faults.old }
{
    let mut name_path = entry_path(faults.alloc, path, tag::message::FIELD, position)?;
    name_path.push(tag::field::NAME)?;
    faults.label(file, &name_path)
}
