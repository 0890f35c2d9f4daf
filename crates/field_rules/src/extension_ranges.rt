ghost use Rattle.std.specs.Prelude.{◌≡◌, ◌<◌, ◌^◌, true, length, is_some};
ghost use Rattle.std.specs.Prelude.{if◌then◌else◌, IfOk, IfSome, IsTrue, OnOk};
ghost use Rattle.std.specs.List.{list_any, position_from};
ghost use Rattle.proto_types.specs.declared.message.DescriptorProto.{out-DescriptorProto};
ghost use Rattle.record_walk.specs.Counts.{fits_list};
ghost use Rattle.proto_types.specs.Readers.{number_of};
ghost use Rattle.record_walk.specs.Faults.{Tells, named_files};
ghost use Rattle.record_walk.specs.Place.{inside_of};
ghost use Rattle.field_rules.specs.Bounds.{extension_bounds};
ghost use Rattle.field_rules.specs.Numbers.{extension_range_fault, extension_range_faults};
ghost use Rattle.field_rules.specs.Numbers.{out_of_range_faults};
ghost use Rattle.field_rules.specs.Ranges.{extends};

use crate::Owner;
use crate::number_ranges::{NumberRanges, holds};
use plain_data::Text;
use pool_faults::DescriptorErrorKind;
use proto_types::{ExtensionRange, FieldDescriptorProto, tag};
use record_walk::{Faults, Place};
use std::alloc::AllocError;

/// Appends to `faults` what the number of a field breaks by the extension ranges of its message:
/// that the first of them holds it; or, of a field that has an extendee, that none does.
pub(crate) fn check_extension_ranges(
    faults: &mut Faults,
    owner: Owner,
    ranges: &NumberRanges,
    place: Place,
    field: &FieldDescriptorProto,
) -> Result<(), AllocError>
    requires fits { fits_list (out-DescriptorProto owner.message.now).extension_range ≡ true }
    requires ranges { ranges.now
        ≡ extension_bounds (out-DescriptorProto owner.message.now).extension_range }
    ensures { OnOk result (Tells faults.old faults.new (if is_some field.now.extendee
        then out_of_range_faults (named_files faults.old) place.entry.file place.entry.path.now
        (number_of field.now.number) (inside_of owner.entry.place)
        (out-DescriptorProto owner.entry.message.now).extension_range
        else extension_range_faults (named_files faults.old) place.entry.file place.entry.path.now
        (number_of field.now.number) (inside_of owner.entry.place)
        (out-DescriptorProto owner.entry.message.now).extension_range)) }
{
    let number = field.number();
    let holder = ranges.first_from(0, number);
    if field.extendee.is_some() {
        check_in_some_range(faults, owner, place, number, holder.is_some())
    } else {
        check_not_in_ranges(faults, owner, holder, place, number)
    }
}

/// Appends to `faults` that of a number that no extension range of a message holds, by whether one
/// does.
pub(crate) fn check_in_some_range(
    faults: &mut Faults,
    owner: Owner,
    place: Place,
    number: i32,
    is_inside: bool,
) -> Result<(), AllocError>
    requires { is_inside ≡ list_any (extends number)
        (out-DescriptorProto owner.message.now).extension_range }
    ensures { OnOk result (Tells faults.old faults.new
        (out_of_range_faults (named_files faults.old) place.entry.file place.entry.path.now number
        (inside_of owner.entry.place)
        (out-DescriptorProto owner.entry.message.now).extension_range)) }
{
    if !is_inside {
        let message = Text::from_str(faults.alloc, owner.place.full_name)?;
        let found = faults.part_label(place, tag::field::NUMBER)?;
        faults.push(DescriptorErrorKind::ExtensionNumberOutOfRange {
            number,
            message,
            found,
        })?;
    }
    Ok(())
}

/// Appends to `faults` that of the first extension range of a message that holds the number, if one
/// does.
fn check_not_in_ranges(
    faults: &mut Faults,
    owner: Owner,
    holder: Option<usize>,
    place: Place,
    number: i32,
) -> Result<(), AllocError>
    requires fits { fits_list (out-DescriptorProto owner.message.now).extension_range ≡ true }
    requires holder { holder ≡ position_from (extends number) 0
        (out-DescriptorProto owner.message.now).extension_range }
    requires there { IfSome holder (λ found. found
        < length (out-DescriptorProto owner.message.now).extension_range) }
    ensures { OnOk result (Tells faults.old faults.new
        (extension_range_faults (named_files faults.old) place.entry.file place.entry.path.now
        number
        (inside_of owner.entry.place)
        (out-DescriptorProto owner.entry.message.now).extension_range)) }
{
    if let Some(position) = holder {
        let entry = (
            position,
            &owner.message.extension_range.as_slice()[position],
        );
        let fault = extension_range_fault(faults, owner.place, entry, place, number)?;
        faults.push(fault)?;
    }
    Ok(())
}

/// The fault of an extension range, given with its position, that holds the number of a field.
fn extension_range_fault(
    faults: &mut Faults,
    owner: Place,
    entry: (usize, &ExtensionRange),
    place: Place,
    number: i32,
) -> Result<DescriptorErrorKind, AllocError>
    requires { entry.0 < 2 ^ 31 }
    ensures fault { IfOk result (λ fault. fault
        ≡ extension_range_fault (named_files faults.old) place.entry.file place.entry.path.now
        number
        (inside_of owner.entry) (entry.entry.0, entry.entry.1.now)) }
    ensures stays { faults.new ≡ faults.old }
{
    let (position, range) = entry;
    Ok(DescriptorErrorKind::FieldNumberInExtensionRange {
        number,
        start: range.start(),
        end: range.end(),
        defined: faults.entry_label(owner, tag::message::EXTENSION_RANGE, position)?,
        found: faults.part_label(place, tag::field::NUMBER)?,
    })
}

/// Whether one of the extension ranges holds a number. They mostly stand in order, so the one that
/// holds it there is looked at first, and then all.
pub(crate) fn any_extends(ranges: &[ExtensionRange], number: i32) -> bool
    ensures { result ≡ list_any (extends number) ranges.now }
{
    last_begun_extends(ranges, number) || ranges.iter().any(|range| extends(range, number))
}

/// Whether the last range that starts by a number holds it, as far as the ranges stand in order.
fn last_begun_extends(ranges: &[ExtensionRange], number: i32) -> bool
    ensures { IsTrue result → list_any (extends number) ranges.now ≡ true }
{
    let begun = ranges.partition_point(|range| range.start() <= number);
    begun > 0 && extends(&ranges[begun - 1], number)
}

/// Whether an extension range holds a number.
fn extends(range: &ExtensionRange, number: i32) -> bool
    ensures { result ≡ extends number range.now }
{
    holds((range.start(), range.end()), number)
}
