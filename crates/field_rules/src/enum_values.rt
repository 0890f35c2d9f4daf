ghost use Rattle.std.specs.Prelude.{◌≡◌, ◌⊎◌, ◌<◌, ◌^◌, ℤ, Some, true, IsTrue, IfOk, IfSome, OnOk};
ghost use Rattle.std.specs.Prelude.{unwrap_or, if◌then◌else◌};
ghost use Rattle.std.specs.BTreeMap.{get};
ghost use Rattle.std.specs.Option.{option_map};
ghost use Rattle.std.specs.Ordering.{int_cmp, int_eq};
ghost use Rattle.pool_faults.specs.declared.fault.DescriptorErrorKind.TheVariants.{DuplicateEnumNumber};
ghost use Rattle.proto_types.specs.declared.tag.enum_.TheConstants.{VALUE};
ghost use Rattle.proto_types.specs.declared.tag.enum_value.TheConstants.{NUMBER};
ghost use Rattle.plain_data.specs.Lists.{listed};
ghost use Rattle.record_walk.specs.Counts.{lists_fit};
ghost use Rattle.record_walk.specs.Protos.{of_enum};
ghost use Rattle.pool_faults.specs.Labels.{entry_part_label};
ghost use Rattle.record_walk.specs.Place.{enum_at};
ghost use Rattle.record_walk.specs.Faults.{Tells, named_files};
ghost use Rattle.field_rules.specs.EnumItems.{allows_alias};
ghost use Rattle.field_rules.specs.EnumValues.{NumbersRise, values_faults};

use crate::enum_ranges::{check_reserved, enum_ranges};
use pool_faults::{DescriptorErrorKind, Label};
use proto_types::{EnumDescriptorProto, EnumValueDescriptorProto, tag};
use record_walk::{Faults, Place};
use std::alloc::AllocError;
use std::collections::BTreeMap;
use std::collections::btree_map::Entry;

/// Appends to `faults` what the numbers of an enum's values break, one value after another
/// (descriptor.proto on `reserved_range` and `allow_alias`): each reserved range that holds the
/// number, and then, unless aliases are allowed, that an earlier value has it, of which the
/// earliest is cited. The lists of the enum are short enough for a pool.
///
/// # Errors
/// `AllocError` where memory was refused.
pub fn check_values(
    faults: &mut Faults,
    place: Place,
    enumeration: &EnumDescriptorProto,
) -> Result<(), AllocError>
    requires { lists_fit (of_enum enumeration.now) ≡ true }
    ensures { OnOk result (Tells faults.old faults.new
        (values_faults (named_files faults.old)
        (enum_at place.entry enumeration.now) enumeration.now)) }
{
    if allows_alias(enumeration) || numbers_rise(enumeration.value.as_slice()) {
        return check_all_reserved(faults, place, enumeration);
    }
    let ranges = enum_ranges(faults.alloc, enumeration.reserved_range.as_slice())?;
    let mut positions = BTreeMap::new(faults.alloc);
    for (position, value) in enumeration.value.as_slice().iter().enumerate() {
        let number = value.number();
        let earlier = earlier_position(&mut positions, number, position)?;
        check_reserved(faults, place, enumeration, &ranges, (position, number))?;
        check_duplicate(faults, place, number, earlier, position)?;
    }
    Ok(())
}

/// Whether the number of each value is less than that of the next, so that no two have one number.
fn numbers_rise(values: &[EnumValueDescriptorProto]) -> bool
    ensures { IsTrue result → NumbersRise values.now }
{
    for next in 1..values.len() {
        if values[next - 1].number() >= values[next].number() {
            return false;
        }
    }
    true
}

/// Appends to `faults` what the numbers of an enum's values break whose numbers are not compared:
/// they may be one, or none of them is that of an earlier value.
fn check_all_reserved(
    faults: &mut Faults,
    place: Place,
    enumeration: &EnumDescriptorProto,
) -> Result<(), AllocError>
    requires short { lists_fit (of_enum enumeration.now) ≡ true }
    requires apart { (allows_alias enumeration.now.options ≡ true)
        ⊎ NumbersRise enumeration.now.value }
    ensures { OnOk result (Tells faults.old faults.new
        (values_faults (named_files faults.old)
        (enum_at place.entry enumeration.now) enumeration.now)) }
{
    let ranges = enum_ranges(faults.alloc, enumeration.reserved_range.as_slice())?;
    for (position, value) in enumeration.value.as_slice().iter().enumerate() {
        check_reserved(
            faults,
            place,
            enumeration,
            &ranges,
            (position, value.number()),
        )?;
    }
    Ok(())
}

/// Whether two values of an enum may have one number; where its options don't say so, they may not.
pub fn allows_alias(enumeration: &EnumDescriptorProto) -> bool
    ensures { result ≡ allows_alias enumeration.now.options }
{
    match &enumeration.options {
        Some(options) => options.value.allow_alias(),
        None => false,
    }
}

/// The position that a number has, if it has one; else it is given this one.
fn earlier_position(
    positions: &mut BTreeMap<i32, usize>,
    number: i32,
    position: usize,
) -> Result<Option<usize>, AllocError>
    ensures earlier { IfOk result (λ earlier. earlier ≡ get int_cmp positions.old number) }
    ensures positions { IfOk result (λ earlier. (n : ℤ) → get int_cmp positions.new n
        ≡ (if int_eq n number then Some (unwrap_or earlier position)
        else get int_cmp positions.old n)) }
{
    match positions.entry(number)? {
        Entry::Occupied(entry) => Ok(Some(*entry.get())),
        Entry::Vacant(entry) => {
            entry.insert(position);
            Ok(None)
        }
    }
}

/// Appends to `faults` that of a value whose number an earlier value has, if one does.
fn check_duplicate(
    faults: &mut Faults,
    place: Place,
    number: i32,
    earlier: Option<usize>,
    position: usize,
) -> Result<(), AllocError>
    requires earlier { IfSome earlier (λ first. first < 2 ^ 31) }
    requires position { position < 2 ^ 31 }
    ensures { OnOk result (Tells faults.old faults.new
        (listed (option_map (λ first. DuplicateEnumNumber number
        (entry_part_label (named_files faults.old) place.entry.file place.entry.path.now
        VALUE first NUMBER)
        (entry_part_label (named_files faults.old) place.entry.file place.entry.path.now
        VALUE position NUMBER)) earlier))) }
{
    if let Some(first) = earlier {
        let fault = DescriptorErrorKind::DuplicateEnumNumber {
            number,
            first: number_label(faults, place, first)?,
            second: number_label(faults, place, position)?,
        };
        faults.push(fault)?;
    }
    Ok(())
}

/// The label of the number of the value with a position.
fn number_label(faults: &mut Faults, place: Place, position: usize) -> Result<Label, AllocError>
    requires { position < 2 ^ 31 }
    ensures label { IfOk result (λ l. l ≡ entry_part_label (named_files faults.old)
        place.entry.file place.entry.path.now VALUE position NUMBER) }
    ensures stays { faults.new ≡ faults.old }
{
    let (values, part) = (tag::enum_::VALUE, tag::enum_value::NUMBER);
    faults.entry_part_label(place, values, position, part)
}
