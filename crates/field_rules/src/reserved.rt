ghost use Rattle.std.specs.Prelude.{◌≡◌, ◌<◌, ◌^◌, ◌∷◌, [], true, OnOk};
ghost use Rattle.pool_faults.specs.Labels.{entry_label, part_label};
ghost use Rattle.pool_faults.specs.declared.fault.DescriptorErrorKind.TheVariants.{FieldNumberInReservedRange};
ghost use Rattle.pool_faults.specs.declared.fault.DescriptorErrorKind.TheVariants.{InvalidFieldNumber};
ghost use Rattle.proto_types.specs.declared.tag.field.TheConstants.{NUMBER};
ghost use Rattle.proto_types.specs.declared.tag.message.TheConstants.{RESERVED_RANGE};
ghost use Rattle.proto_types.specs.Readers.{number_of};
ghost use Rattle.proto_types.specs.declared.message.DescriptorProto.{out-DescriptorProto};
ghost use Rattle.record_walk.specs.Counts.{fits_list};
ghost use Rattle.record_walk.specs.Faults.{Tells, named_files};
ghost use Rattle.record_walk.specs.Place.{inside_of};
ghost use Rattle.field_rules.specs.Bounds.{reserved_bounds};
ghost use Rattle.field_rules.specs.Numbers.{invalid_faults, reserved_fault, reserved_faults};

use crate::Owner;
use crate::field_number::is_valid_number;
use crate::number_ranges::{NumberRanges, holds};
use pool_faults::DescriptorErrorKind;
use proto_types::{ReservedRange, tag};
use record_walk::{Faults, Place};
use std::alloc::AllocError;

/// Appends to `faults` that of a number that no field may have.
pub(crate) fn check_valid(faults: &mut Faults, place: Place, number: i32) -> Result<(), AllocError>
    ensures { OnOk result (Tells faults.old faults.new
        (invalid_faults (named_files faults.old) place.entry.file place.entry.path.now number)) }
{
    if is_valid_number(number) {
        Ok(())
    } else {
        tell_invalid(faults, place, number)
    }
}

/// Appends to `faults` that no field may have a number.
#[inline(never)]
fn tell_invalid(faults: &mut Faults, place: Place, number: i32) -> Result<(), AllocError>
    ensures { OnOk result (Tells faults.old faults.new
        (InvalidFieldNumber number (part_label (named_files faults.old) place.entry.file
        place.entry.path.now NUMBER) ∷ [])) }
{
    let found = faults.part_label(place, tag::field::NUMBER)?;
    faults.push(DescriptorErrorKind::InvalidFieldNumber { number, found })
}

/// Appends to `faults` one for each reserved range of a message that holds the number.
pub(crate) fn check_reserved_ranges(
    faults: &mut Faults,
    owner: Owner,
    place: Place,
    number: i32,
) -> Result<(), AllocError>
    requires { fits_list (out-DescriptorProto owner.message.now).reserved_range ≡ true }
    ensures { OnOk result (Tells faults.old faults.new
        (reserved_faults (named_files faults.old) place.entry.file place.entry.path.now number
        (inside_of owner.entry.place)
        (out-DescriptorProto owner.entry.message.now).reserved_range)) }
{
    for (position, range) in owner.message.reserved_range.as_slice().iter().enumerate() {
        let entry = (position, range);
        check_reserved_range(faults, owner.place, entry, place, number)?;
    }
    Ok(())
}

/// Does what `check_reserved_ranges` does, by the ranges in order: only those are looked at that
/// hold the number.
pub(crate) fn check_reserved_by(
    faults: &mut Faults,
    owner: Owner,
    ranges: &NumberRanges,
    place: Place,
    number: i32,
) -> Result<(), AllocError>
    requires fits { fits_list (out-DescriptorProto owner.message.now).reserved_range ≡ true }
    requires ranges { ranges.now
        ≡ reserved_bounds (out-DescriptorProto owner.message.now).reserved_range }
    ensures { OnOk result (Tells faults.old faults.new
        (reserved_faults (named_files faults.old) place.entry.file place.entry.path.now number
        (inside_of owner.entry.place)
        (out-DescriptorProto owner.entry.message.now).reserved_range)) }
{
    let list = owner.message.reserved_range.as_slice();
    let mut from = 0;
    while let Some(position) = ranges.first_from(from, number) {
        let entry = (position, &list[position]);
        check_reserved_range(faults, owner.place, entry, place, number)?;
        from = position + 1;
    }
    Ok(())
}

/// Appends to `faults` that of a reserved range of a message, given with its position, that holds
/// the number.
#[inline(always)]
fn check_reserved_range(
    faults: &mut Faults,
    owner: Place,
    entry: (usize, &ReservedRange),
    place: Place,
    number: i32,
) -> Result<(), AllocError>
    requires { entry.0 < 2 ^ 31 }
    ensures { OnOk result (Tells faults.old faults.new
        (reserved_fault (named_files faults.old) place.entry.file place.entry.path.now number
        (inside_of owner.entry) entry.entry.0 entry.entry.1.now)) }
{
    let (_, range) = entry;
    if holds((range.start(), range.end()), number) {
        tell_reserved(faults, owner, entry, place, number)?;
    }
    Ok(())
}

/// Appends to `faults` that a reserved range of a message, given with its position, holds a number.
/// Where no further fault is kept, none is made.
#[inline(never)]
fn tell_reserved(
    faults: &mut Faults,
    owner: Place,
    entry: (usize, &ReservedRange),
    place: Place,
    number: i32,
) -> Result<(), AllocError>
    requires { entry.0 < 2 ^ 31 }
    ensures { OnOk result (Tells faults.old faults.new (FieldNumberInReservedRange number
        (number_of entry.entry.1.now.start) (number_of entry.entry.1.now.«end»)
        (entry_label (named_files faults.old) owner.entry.file owner.entry.path.now
        RESERVED_RANGE entry.entry.0)
        (part_label (named_files faults.old) place.entry.file place.entry.path.now NUMBER) ∷ [])) }
{
    if faults.is_full() {
        return faults.leave_out();
    }
    let (position, range) = entry;
    let fault = DescriptorErrorKind::FieldNumberInReservedRange {
        number,
        start: range.start(),
        end: range.end(),
        defined: faults.entry_label(owner, tag::message::RESERVED_RANGE, position)?,
        found: faults.part_label(place, tag::field::NUMBER)?,
    };
    faults.push(fault)
}
