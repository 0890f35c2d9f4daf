ghost use Rattle.std.specs.Prelude.{◌≡◌, ◌<◌, ◌<ℤ◌, ◌^◌, ◌∷◌, [], pos, true, IfOk, OnOk};
ghost use Rattle.plain_data.specs.Lists.{only_if};
ghost use Rattle.pool_faults.specs.declared.fault.DescriptorErrorKind.TheVariants.{EnumNumberInReservedRange};
ghost use Rattle.proto_types.specs.declared.tag.enum_.TheConstants.{VALUE, RESERVED_RANGE};
ghost use Rattle.proto_types.specs.declared.tag.enum_value.TheConstants.{NUMBER};
ghost use Rattle.proto_types.specs.Readers.{number_of};
ghost use Rattle.record_walk.specs.Counts.{fits_list};
ghost use Rattle.pool_faults.specs.Labels.{entry_label, entry_part_label};
ghost use Rattle.record_walk.specs.Place.{enum_at};
ghost use Rattle.record_walk.specs.Faults.{Tells, named_files};
ghost use Rattle.field_rules.specs.EnumRanges.{enum_bounds, number_behind, reserves};
ghost use Rattle.field_rules.specs.EnumValues.{reserved_faults};

use crate::number_ranges::NumberRanges;
use pool_faults::DescriptorErrorKind;
use proto_types::{EnumDescriptorProto, EnumReservedRange, tag};
use record_walk::{Faults, Place};
use std::alloc::{AllocError, Global};

/// The reserved ranges of an enum, each as its start and the number behind its end.
///
/// # Errors
/// `AllocError` where memory was refused.
pub(crate) fn enum_ranges(
    alloc: Global,
    ranges: &[EnumReservedRange],
) -> Result<NumberRanges, AllocError>
    ensures { IfOk result (λ made. made ≡ enum_bounds ranges.now) }
{
    let bounds = enum_bounds(alloc, ranges)?;
    NumberRanges::new(alloc, bounds)
}

/// The start of each reserved range of an enum, and the number behind its end.
fn enum_bounds(alloc: Global, ranges: &[EnumReservedRange]) -> Result<Vec<(i32, i32)>, AllocError>
    ensures { IfOk result (λ bounds. bounds.items ≡ enum_bounds ranges.now) }
{
    let bounds = ranges
        .iter()
        .map(|range| (range.start(), number_behind(range.end())));
    bounds.collect(alloc)
}

/// The number behind another; behind the greatest there is none, and it is answered itself.
fn number_behind(number: i32) -> i32
    ensures { result ≡ number_behind number }
{
    if number < i32::MAX {
        number + 1
    } else {
        number
    }
}

/// Appends to `faults` one for each reserved range of an enum that holds the number of its value,
/// which is given with its position. Those ranges alone are looked at that hold the number, but for
/// the greatest of all numbers, behind which no range ends.
pub(crate) fn check_reserved(
    faults: &mut Faults,
    place: Place,
    enumeration: &EnumDescriptorProto,
    ranges: &NumberRanges,
    value: (usize, i32),
) -> Result<(), AllocError>
    requires short { fits_list enumeration.now.reserved_range ≡ true }
    requires position { value.0 < 2 ^ 31 }
    requires ranges { ranges.now ≡ enum_bounds enumeration.now.reserved_range }
    ensures { OnOk result (Tells faults.old faults.new
        (reserved_faults (named_files faults.old) (enum_at place.entry enumeration.now)
        value.0 value.1 enumeration.now.reserved_range)) }
{
    if value.1 == i32::MAX {
        check_each_range(faults, place, enumeration, value)
    } else {
        check_ranges_by(faults, place, enumeration, ranges, value)
    }
}

/// Does what `check_reserved` does, as one range after another is looked at.
fn check_each_range(
    faults: &mut Faults,
    place: Place,
    enumeration: &EnumDescriptorProto,
    value: (usize, i32),
) -> Result<(), AllocError>
    requires short { fits_list enumeration.now.reserved_range ≡ true }
    requires position { value.0 < 2 ^ 31 }
    ensures { OnOk result (Tells faults.old faults.new
        (reserved_faults (named_files faults.old) (enum_at place.entry enumeration.now)
        value.0 value.1 enumeration.now.reserved_range)) }
{
    for (index, range) in enumeration.reserved_range.as_slice().iter().enumerate() {
        check_range(faults, place, value, (index, range))?;
    }
    Ok(())
}

/// Does what `check_reserved` does, as those ranges alone are looked at that hold the number.
fn check_ranges_by(
    faults: &mut Faults,
    place: Place,
    enumeration: &EnumDescriptorProto,
    ranges: &NumberRanges,
    value: (usize, i32),
) -> Result<(), AllocError>
    requires short { fits_list enumeration.now.reserved_range ≡ true }
    requires position { value.0 < 2 ^ 31 }
    requires ranges { ranges.now ≡ enum_bounds enumeration.now.reserved_range }
    requires below { value.1 <ℤ pos 2147483647 }
    ensures { OnOk result (Tells faults.old faults.new
        (reserved_faults (named_files faults.old) (enum_at place.entry enumeration.now)
        value.0 value.1 enumeration.now.reserved_range)) }
{
    let list = enumeration.reserved_range.as_slice();
    let mut from = 0;
    while let Some(index) = ranges.first_from(from, value.1) {
        check_range(faults, place, value, (index, &list[index]))?;
        from = index + 1;
    }
    Ok(())
}

/// Appends to `faults` that of a reserved range, given with its position, that holds the number of
/// a value, which is given with its position.
#[inline(always)]
fn check_range(
    faults: &mut Faults,
    place: Place,
    value: (usize, i32),
    entry: (usize, &EnumReservedRange),
) -> Result<(), AllocError>
    requires position { value.0 < 2 ^ 31 }
    requires index { entry.0 < 2 ^ 31 }
    ensures { OnOk result (Tells faults.old faults.new
        (only_if (reserves value.1 entry.entry.1.now) (EnumNumberInReservedRange value.1
        (number_of entry.entry.1.now.start) (number_of entry.entry.1.now.«end»)
        (entry_label (named_files faults.old) place.entry.file place.entry.path.now
        RESERVED_RANGE entry.entry.0)
        (entry_part_label (named_files faults.old) place.entry.file place.entry.path.now
        VALUE value.0 NUMBER)))) }
{
    if reserves(entry.1, value.1) {
        tell_reserved(faults, place, value, entry)?;
    }
    Ok(())
}

/// Whether a reserved range holds a number, as it does its start and its end.
fn reserves(range: &EnumReservedRange, number: i32) -> bool
    ensures { result ≡ reserves number range.now }
{
    range.start() <= number && number <= range.end()
}

/// Appends to `faults` that a reserved range, given with its position, holds the number of a value,
/// which is given with its position. Where no further fault is kept, none is made.
#[inline(never)]
fn tell_reserved(
    faults: &mut Faults,
    place: Place,
    value: (usize, i32),
    entry: (usize, &EnumReservedRange),
) -> Result<(), AllocError>
    requires position { value.0 < 2 ^ 31 }
    requires index { entry.0 < 2 ^ 31 }
    ensures { OnOk result (Tells faults.old faults.new (EnumNumberInReservedRange value.1
        (number_of entry.entry.1.now.start) (number_of entry.entry.1.now.«end»)
        (entry_label (named_files faults.old) place.entry.file place.entry.path.now
        RESERVED_RANGE entry.entry.0)
        (entry_part_label (named_files faults.old) place.entry.file place.entry.path.now
        VALUE value.0 NUMBER) ∷ [])) }
{
    if faults.is_full() {
        return faults.leave_out();
    }
    let ((position, number), (index, range)) = (value, entry);
    let (values, part) = (tag::enum_::VALUE, tag::enum_value::NUMBER);
    let fault = DescriptorErrorKind::EnumNumberInReservedRange {
        number,
        start: range.start(),
        end: range.end(),
        defined: faults.entry_label(place, tag::enum_::RESERVED_RANGE, index)?,
        found: faults.entry_part_label(place, values, position, part)?,
    };
    faults.push(fault)
}
