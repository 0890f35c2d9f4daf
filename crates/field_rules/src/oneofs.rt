ghost use Rattle.std.specs.Prelude.{◌≡◌, ◌∷◌, true, [], OnOk, IfOk, map};
ghost use Rattle.pool_faults.specs.declared.fault.DescriptorErrorKind.TheVariants.{InvalidOneofIndex};
ghost use Rattle.record_walk.specs.Counts.{fits_list};
ghost use Rattle.plain_data.specs.Each.{map_enumerated};
ghost use Rattle.record_walk.specs.Faults.{Tells};
ghost use Rattle.field_rules.specs.Oneofs.{oneof_faults, oneof_of, members};

use plain_data::Items;
use pool_faults::DescriptorErrorKind;
use proto_types::{FieldDescriptorProto, OneofDescriptorProto};
use record_walk::Faults;
use std::alloc::{AllocError, Global};

/// Appends to `faults` that of a field whose oneof index is no position of its message's oneofs,
/// which count from 0 (descriptor.proto on `oneof_index`).
///
/// # Errors
/// `AllocError` where memory was refused.
pub fn check_oneof_index(
    faults: &mut Faults,
    oneofs: &[OneofDescriptorProto],
    field: &FieldDescriptorProto,
) -> Result<(), AllocError>
    ensures { OnOk result (Tells faults.old faults.new
        (oneof_faults oneofs.now field.now)) }
{
    if field.oneof_index.is_some() && oneof_of(oneofs, field).is_none() {
        tell_invalid_oneof(faults)?;
    }
    Ok(())
}

/// Appends to `faults` that a field names no oneof of its message.
#[inline(never)]
fn tell_invalid_oneof(faults: &mut Faults) -> Result<(), AllocError>
    ensures { OnOk result (Tells faults.old faults.new (InvalidOneofIndex ∷ [])) }
{
    faults.push(DescriptorErrorKind::InvalidOneofIndex)
}

/// The position of a field's oneof among those of its message, from 0, where it names one.
pub fn oneof_of(oneofs: &[OneofDescriptorProto], field: &FieldDescriptorProto) -> Option<u32>
    ensures { result ≡ oneof_of oneofs.now field.now }
{
    let index = u32::try_from(field.oneof_index?).ok()?;
    ((index as usize) < oneofs.len()).then_some(index)
}

/// For each oneof of a message the positions of the fields that name it, in rising order. Positions
/// count from 0.
///
/// # Errors
/// `AllocError` where memory was refused.
pub fn members(
    alloc: Global,
    oneofs: &[OneofDescriptorProto],
    fields: &[FieldDescriptorProto],
) -> Result<Vec<Items<u32>>, AllocError>
    requires { fits_list fields.now ≡ true }
    ensures { IfOk result (λ lists. lists.items
        ≡ map_enumerated (λ oneof _. members fields.now oneof) 0 oneofs.now) }
{
    let mut lists = empty_lists(alloc, oneofs)?;
    for (position, field) in fields.iter().enumerate() {
        if let Some(oneof) = oneof_of(oneofs, field) {
            lists[oneof as usize].push(position as u32)?;
        }
    }
    Ok(lists)
}

/// A list without positions for each oneof.
fn empty_lists(
    alloc: Global,
    oneofs: &[OneofDescriptorProto],
) -> Result<Vec<Items<u32>>, AllocError>
    ensures { IfOk result (λ lists. lists.items ≡ map (λ _. []) oneofs.now) }
{
    oneofs.iter().map(|_| Items::new(alloc)).collect(alloc)
}
