ghost use Rattle.std.specs.Prelude.{◌≡◌, true, IfOk, OnOk};
ghost use Rattle.std.specs.List.{All};
ghost use Rattle.record_walk.specs.Counts.{lists_fit};
ghost use Rattle.record_walk.specs.FullNames.{EndsWithName};
ghost use Rattle.record_walk.specs.Protos.{of_enum};
ghost use Rattle.field_rules.specs.NamesBegin.{BeginsAtBoundary, EnumNamesBegin};
ghost use Rattle.record_walk.specs.Place.{enum_at};
ghost use Rattle.record_walk.specs.Faults.{Tells, named_files};
ghost use Rattle.field_rules.specs.EnumItems.{enum_item, value_items};
ghost use Rattle.field_rules.specs.EnumValues.{values_faults};

use crate::enum_tables::{value_names, value_numbers};
use crate::enum_values::{allows_alias, check_values};
use crate::identities::{Beside, front, identity, identity_of_value};
use crate::inner_names::InnerNames;
use plain_data::Items;
use pool_types::{EnumDescriptorInner, EnumValueDescriptorInner};
use proto_types::EnumDescriptorProto;
use record_walk::{Faults, Place};
use std::alloc::{AllocError, Global};

/// The item of an enum, with its values, which are named beside it, and their tables. What the
/// numbers of its values break is appended to `faults`, one value after another. The name of the
/// enum ends its full name, and its lists are short enough for a pool.
///
/// # Errors
/// `AllocError` where memory was refused.
// Inlined, as the one below is, so that the item is made where it stays.
#[inline(always)]
pub fn read_enum(
    faults: &mut Faults,
    place: Place,
    enumeration: &EnumDescriptorProto,
) -> Result<EnumDescriptorInner, AllocError>
    requires short { lists_fit (of_enum enumeration.now) ≡ true }
    requires ends { EndsWithName (enum_at place enumeration.now) }
    ensures item { IfOk result (λ item. item
        ≡ enum_item (enum_at place.entry enumeration.now) enumeration.now) }
    ensures begins { IfOk result (λ item. EnumNamesBegin item) }
    ensures faults { OnOk result (Tells faults.old faults.new
        (values_faults (named_files faults.old)
        (enum_at place.entry enumeration.now) enumeration.now)) }
{
    check_values(faults, place, enumeration)?;
    enum_item(faults.alloc, place, enumeration)
}

#[inline(always)]
fn enum_item(
    alloc: Global,
    place: Place,
    enumeration: &EnumDescriptorProto,
) -> Result<EnumDescriptorInner, AllocError>
    requires short { lists_fit (of_enum enumeration.now) ≡ true }
    requires ends { EndsWithName (enum_at place enumeration.now) }
    ensures item { IfOk result (λ item. item
        ≡ enum_item (enum_at place.entry enumeration.now) enumeration.now) }
    ensures begins { IfOk result (λ item. EnumNamesBegin item) }
{
    let values = enumeration.value.as_slice();
    Ok(EnumDescriptorInner {
        id: identity(alloc, place, enumeration.name())?,
        parent: place.parent,
        values: Items::from_vec(read_values(alloc, place, enumeration)?),
        value_numbers: Items::from_vec(value_numbers(alloc, values)?),
        value_names: value_names(alloc, values)?,
        allow_alias: allows_alias(enumeration),
    })
}

fn read_values(
    alloc: Global,
    place: Place,
    enumeration: &EnumDescriptorProto,
) -> Result<Vec<EnumValueDescriptorInner>, AllocError>
    requires short { lists_fit (of_enum enumeration.now) ≡ true }
    requires ends { EndsWithName (enum_at place enumeration.now) }
    ensures items { IfOk result (λ items. items.items
        ≡ value_items (enum_at place.entry enumeration.now) enumeration.now.value) }
    ensures begin { IfOk result (λ items. All (λ v. BeginsAtBoundary v.id) items.items) }
{
    let values = enumeration.value.as_slice();
    let beside = Beside {
        place,
        around: front(place.full_name, enumeration.name()),
    };
    let mut names = InnerNames::beside(alloc, beside.around, values)?;
    let mut items = Vec::with_capacity(alloc, values.len())?;
    for (position, value) in values.iter().enumerate() {
        let id = identity_of_value(&mut names, beside, position, value)?;
        // Room first, so that an item is made where it stays.
        items.reserve(1)?;
        items.push_reserved(EnumValueDescriptorInner {
            id,
            number: value.number(),
        });
    }
    Ok(items)
}
