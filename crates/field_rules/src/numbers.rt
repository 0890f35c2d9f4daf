ghost use Rattle.std.specs.Prelude.{◌≡◌, List, [], true, IsTrue, OnOk};
ghost use Rattle.proto_types.specs.declared.file.FileDescriptorProto.{FileDescriptorProto};
ghost use Rattle.proto_types.specs.declared.message.DescriptorProto.{DescriptorProto};
ghost use Rattle.record_walk.specs.Shown.{Shown};
ghost use Rattle.record_walk.specs.Counts.{lists_fit};
ghost use Rattle.record_walk.specs.Protos.{of_message, of_field, of_extension};
ghost use Rattle.record_walk.specs.Place.{message_at, shown_at};
ghost use Rattle.record_walk.specs.Faults.{Tells, named_files};
ghost use Rattle.field_rules.specs.Bounds.{AreRangesOf};
ghost use Rattle.field_rules.specs.Numbers.{field_number_faults, extension_number_faults};

use crate::Owner;
use crate::extension_ranges::{any_extends, check_extension_ranges, check_in_some_range};
use crate::field_number::is_valid_number;
use crate::message_ranges::MessageRanges;
use crate::reserved::{check_reserved_by, check_reserved_ranges, check_valid};
use proto_types::FieldDescriptorProto;
use record_walk::{Faults, Place};
use std::alloc::AllocError;

/// Appends to `faults` what the number of a field breaks that stands in a message
/// (descriptor.proto on `number`, `reserved_range` and `extension_range`, and the protobuf language
/// rules on field numbers): that no field may have it, each reserved range of the message that
/// holds it, and then the first extension range that does; or, of a field that has an extendee,
/// even an empty one, that none does. The ranges are those of the message, whose lists are short
/// enough for a pool.
///
/// # Errors
/// `AllocError` where memory was refused.
pub fn check_field_number(
    faults: &mut Faults,
    owner: Owner,
    ranges: &MessageRanges,
    place: Place,
    field: &FieldDescriptorProto,
) -> Result<(), AllocError>
    requires short { lists_fit (of_message owner.message.now) ≡ true }
    requires ranges { AreRangesOf ranges.now owner.message.now }
    ensures { OnOk result (Tells faults.old faults.new
        (field_number_faults (named_files faults.old)
        (message_at owner.entry.place owner.entry.message.now) owner.entry.message.now
        (shown_at place.entry (of_field field.now)) field.now)) }
{
    let number = field.number();
    check_valid(faults, place, number)?;
    check_reserved_by(faults, owner, &ranges.reserved, place, number)?;
    check_extension_ranges(faults, owner, &ranges.extension, place, field)
}

/// Whether the number of a field without an extendee breaks nothing, by the ranges of its message.
#[inline(always)]
pub fn is_free_number(ranges: &MessageRanges, field: &FieldDescriptorProto) -> bool
    ensures { IsTrue result → (files : List FileDescriptorProto) (owner d : Shown)
        (message : DescriptorProto) → AreRangesOf ranges.now message
        → field_number_faults files owner message d field.now ≡ [] }
{
    let number = field.number();
    if field.extendee.is_some() || !is_valid_number(number) {
        return false;
    }
    if ranges.reserved.first_from(0, number).is_some() {
        return false;
    }
    ranges.extension.first_from(0, number).is_none()
}

/// Appends to `faults` what the number of an extension breaks, by the record of the message that it
/// extends: that no field may have it, each reserved range of the message that holds it, and that
/// none of its extension ranges does. The lists of the message are short enough for a pool.
///
/// # Errors
/// `AllocError` where memory was refused.
pub fn check_extension_number(
    faults: &mut Faults,
    owner: Owner,
    place: Place,
    extension: &FieldDescriptorProto,
) -> Result<(), AllocError>
    requires { lists_fit (of_message owner.message.now) ≡ true }
    ensures { OnOk result (Tells faults.old faults.new
        (extension_number_faults (named_files faults.old)
        (message_at owner.entry.place owner.entry.message.now) owner.entry.message.now
        (shown_at place.entry (of_extension extension.now)) extension.now)) }
{
    let number = extension.number();
    check_valid(faults, place, number)?;
    check_reserved_ranges(faults, owner, place, number)?;
    let is_inside = any_extends(owner.message.extension_range.as_slice(), number);
    check_in_some_range(faults, owner, place, number, is_inside)
}
