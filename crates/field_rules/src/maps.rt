ghost use Rattle.std.specs.Prelude.{◌≡◌, ◌+◌, ◌<◌, ◌≤◌, ◌^◌, ◌∷◌, ℕ, List, true, [], IfOk};
ghost use Rattle.std.specs.Prelude.{IfSome};
ghost use Rattle.std.specs.Prelude.{MatchOption, OnOk};
ghost use Rattle.std.specs.Prelude.{length, take, get_or};
ghost use Rattle.std.specs.FinMap as finite;
ghost use Rattle.std.specs.Option.{option_map, option_map_or};
ghost use Rattle.plain_data.specs.Lists.{listed};
ghost use Rattle.proto_types.specs.Field.{no_field};
ghost use Rattle.proto_types.specs.declared.message.DescriptorProto.{out-DescriptorProto};
ghost use Rattle.record_walk.specs.Counts.{fits_list};
ghost use Rattle.record_walk.specs.Faults.{Tells, named_files};
ghost use Rattle.field_rules.specs.Duplicates.{duplicate_faults, same_number, same_json_name};
ghost use Rattle.field_rules.specs.MapsOf.{AreMapsOf};
ghost use Rattle.field_rules.specs.Maps.{item_number};

use crate::Owner;
use crate::field_names::{json_name_list, name_list};
use plain_data::{NumberMap, Text, TextMap};
use pool_faults::DescriptorErrorKind;
use proto_types::{FieldDescriptorProto, tag};
use record_walk::{Faults, Place};
use std::alloc::{AllocError, Global};

/// The maps of a message: from number, name and given JSON name to the position of the latest field
/// that has it, from 0. The map of numbers is one of the fields that were read so far.
#[derive(Drop)]
pub struct FieldMaps {
    pub numbers: NumberMap,
    pub names: TextMap,
    pub json_names: TextMap,
    /// The JSON names of the fields that were read so far, where two fields of the message have
    /// one.
    pub earlier: Option<TextMap>,
}

impl FieldMaps {
    /// The maps of the fields of a message, of which none was read.
    ///
    /// # Errors
    /// `AllocError` where memory was refused.
    // Inlined, so that the maps are made where they stay.
    #[inline(always)]
    pub fn new(alloc: Global, fields: &[FieldDescriptorProto]) -> Result<FieldMaps, AllocError>
        requires { fits_list fields.now ≡ true }
        ensures { IfOk result (λ maps. AreMapsOf maps fields.now 0) }
    {
        let names = name_list(alloc, fields)?.into_map()?;
        let json_list = json_name_list(alloc, fields)?;
        let given = json_list.len();
        let json_names = json_list.into_map()?;
        Ok(FieldMaps {
            numbers: NumberMap::with_capacity(alloc, fields.len())?,
            names,
            earlier: earlier_names(alloc, &json_names, given),
            json_names,
        })
    }

    /// Enters the field of a message with a position, from 0, after those before it. That one of
    /// these has its number, or its given JSON name, is appended to `faults`; the latest such field
    /// is cited (the protobuf language rules on field numbers, and on JSON names).
    ///
    /// # Errors
    /// `AllocError` where memory was refused.
    pub fn insert(
        &mut self,
        faults: &mut Faults,
        owner: &Owner,
        position: usize,
    ) -> Result<(), AllocError>
        requires short { fits_list (out-DescriptorProto owner.now.message.now).field ≡ true }
        requires there { position < length (out-DescriptorProto owner.now.message.now).field }
        requires maps { AreMapsOf self.old
            (out-DescriptorProto owner.now.message.now).field position }
        ensures maps { OnOk result (AreMapsOf self.new
            (out-DescriptorProto owner.now.message.now).field (position + 1)) }
        ensures faults { OnOk result (Tells faults.old faults.new
            (duplicate_faults (named_files faults.old)
            owner.now.place.file owner.now.place.path.now
            (take position (out-DescriptorProto owner.now.message.now).field) position
            (get_or (out-DescriptorProto owner.now.message.now).field position no_field))) }
    {
        let field = &owner.message.field.as_slice()[position];
        let number = field.number();
        let first = self.numbers.replace(item_number(number), position as u32)?;
        check_number(faults, &owner.place, first, position, number)?;
        match &mut self.earlier {
            Some(earlier) => enter_json_name(faults, &owner.place, earlier, position, field),
            None => Ok(()),
        }
    }
}

/// A map without names, where a map of so many JSON names lacks some: two fields have one then.
fn earlier_names(alloc: Global, json_names: &TextMap, given: usize) -> Option<TextMap>
    ensures { MatchOption result (given ≤ finite.len json_names.now) (λ names. names
        ≡ finite.empty) }
{
    if json_names.len() < given {
        Some(TextMap::new(alloc))
    } else {
        None
    }
}

/// Enters the JSON name of a field, if it has one. That an earlier field has it is appended to
/// `faults`.
#[inline(never)]
fn enter_json_name(
    faults: &mut Faults,
    owner: &Place,
    json_names: &mut TextMap,
    position: usize,
    field: &FieldDescriptorProto,
) -> Result<(), AllocError>
    requires short { position < 2 ^ 31 }
    requires holders_short { (name : List ℕ) → IfSome (finite.get json_names.old name) (λ first.
        first < 2 ^ 31) }
    ensures map { OnOk result (json_names.new
        ≡ option_map_or (λ name. finite.insert json_names.old name position)
        field.now.json_name json_names.old) }
    ensures faults { OnOk result (Tells faults.old faults.new
        (option_map_or (λ name. listed (option_map (λ first. same_json_name
        (named_files faults.old) owner.now.file owner.now.path.now name first position)
        (finite.get json_names.old name))) field.now.json_name [])) }
{
    let Some(name) = &field.json_name else {
        return Ok(());
    };
    check_json_name(faults, *owner, json_names, position, name)?;
    json_names.insert(name.as_str(), position as u32)
}

/// Appends to `faults` that the number of a field is that of an earlier one, if there is one, which
/// stands first.
fn check_number(
    faults: &mut Faults,
    owner: &Place,
    first: Option<u32>,
    position: usize,
    number: i32,
) -> Result<(), AllocError>
    requires short { position < 2 ^ 31 }
    requires first_short { IfSome first (λ first. first < 2 ^ 31) }
    ensures { OnOk result (Tells faults.old faults.new
        (listed (option_map (λ first. same_number (named_files faults.old) owner.now.file
        owner.now.path.now number first position) first))) }
{
    match first {
        Some(first) => tell_same_number(faults, owner, first as usize, position, number),
        None => Ok(()),
    }
}

/// Appends to `faults` that two fields have one number, the earlier first.
// Not inlined, since few fields come to it.
#[inline(never)]
fn tell_same_number(
    faults: &mut Faults,
    owner: &Place,
    first: usize,
    second: usize,
    number: i32,
) -> Result<(), AllocError>
    requires first_short { first < 2 ^ 31 }
    requires second_short { second < 2 ^ 31 }
    ensures { OnOk result (Tells faults.old faults.new
        (same_number (named_files faults.old) owner.now.file owner.now.path.now
        number first second ∷ [])) }
{
    let fault = same_number(faults, *owner, number, first, second)?;
    faults.push(fault)
}

/// Appends to `faults` that of a JSON name that an earlier field has, by the map of these.
fn check_json_name(
    faults: &mut Faults,
    owner: Place,
    json_names: &TextMap,
    position: usize,
    name: &Text,
) -> Result<(), AllocError>
    requires short { position < 2 ^ 31 }
    requires holders_short { IfSome (finite.get json_names.now name.now) (λ first.
        first < 2 ^ 31) }
    ensures { OnOk result (Tells faults.old faults.new
        (listed (option_map (λ first. same_json_name (named_files faults.old)
        owner.entry.file owner.entry.path.now name.now first position)
        (finite.get json_names.now name.now)))) }
{
    let Some(first) = json_names.get(name.as_str()) else {
        return Ok(());
    };
    let fault = same_json_name(faults, owner, name, first as usize, position)?;
    faults.push(fault)
}

/// The fault of two fields with one number, the earlier first.
fn same_number(
    faults: &mut Faults,
    owner: Place,
    number: i32,
    first: usize,
    second: usize,
) -> Result<DescriptorErrorKind, AllocError>
    requires first_short { first < 2 ^ 31 }
    requires second_short { second < 2 ^ 31 }
    ensures fault { IfOk result (λ fault. fault ≡ same_number (named_files faults.old)
        owner.entry.file owner.entry.path.now number first second) }
    ensures stays { faults.new ≡ faults.old }
{
    let (message, part) = (tag::message::FIELD, tag::field::NUMBER);
    Ok(DescriptorErrorKind::DuplicateFieldNumber {
        number,
        first: faults.entry_part_label(owner, message, first, part)?,
        second: faults.entry_part_label(owner, message, second, part)?,
    })
}

/// The fault of two fields with one JSON name, the earlier first.
fn same_json_name(
    faults: &mut Faults,
    owner: Place,
    name: &Text,
    first: usize,
    second: usize,
) -> Result<DescriptorErrorKind, AllocError>
    requires first_short { first < 2 ^ 31 }
    requires second_short { second < 2 ^ 31 }
    ensures fault { IfOk result (λ fault. fault ≡ same_json_name (named_files faults.old)
        owner.entry.file owner.entry.path.now name.now first second) }
    ensures stays { faults.new ≡ faults.old }
{
    let (message, part) = (tag::message::FIELD, tag::field::NAME);
    Ok(DescriptorErrorKind::DuplicateFieldJsonName {
        name: name.clone(faults.alloc)?,
        first: faults.entry_part_label(owner, message, first, part)?,
        second: faults.entry_part_label(owner, message, second, part)?,
    })
}

/// A field's number as an item has it; a negative one as itself plus 2 to the 32nd.
pub fn item_number(number: i32) -> u32
    ensures { result ≡ item_number number }
{
    number.cast_unsigned()
}
