//! What oneofs and the fields in them may not be.

ghost use Rattle.std.specs.Prelude.{◌≡◌, ◌++◌, OnOk, position as position_of};
ghost use Rattle.protoc_rules.specs.Oneofs as spec;

use crate::faults::{Found, StrictKind};
use crate::names::tell_name;
use pool_types::{FieldDescriptorInner, OneofDescriptorInner};
use proto_types::FieldDescriptorProto;
use proto_types::tag::oneof;
use std::alloc::AllocError;

/// Whether positions, which rise, do not stand together.
fn are_scattered(positions: &[u32]) -> bool
    ensures { result ≡ spec.are_scattered positions.now }
{
    let len = positions.len() as u64;
    match (positions.first(), positions.last()) {
        (Some(first), Some(last)) => u64::from(*first) + len != u64::from(*last) + 1,
        _ => false,
    }
}

/// Whether the record of the field with a position says that it is optional.
fn is_said_optional(fields: &[FieldDescriptorProto], position: u32) -> bool
    ensures { result ≡ spec.is_said_optional fields.now position }
{
    match fields.get(position as usize) {
        Some(field) => field.proto3_optional(),
        None => false,
    }
}

/// Whether a oneof is made for an optional field of proto3, and so has it alone.
fn is_synthetic(fields: &[FieldDescriptorProto], declared: &OneofDescriptorInner) -> bool
    ensures { result ≡ spec.is_synthetic fields.now declared.now }
{
    match declared.fields.as_slice() {
        [position] => is_said_optional(fields, *position),
        _ => false,
    }
}

/// The position of the first synthetic oneof.
fn first_synthetic(
    fields: &[FieldDescriptorProto],
    oneofs: &[OneofDescriptorInner],
) -> Option<usize>
    ensures { result ≡ position_of (spec.is_synthetic fields.now) oneofs.now }
{
    oneofs
        .iter()
        .position(|declared| is_synthetic(fields, declared))
}

/// Whether the oneof with a position is not synthetic, and stands behind the first that is.
fn is_late(
    fields: &[FieldDescriptorProto],
    first: Option<usize>,
    position: usize,
    declared: &OneofDescriptorInner,
) -> bool
    ensures { result ≡ spec.is_late fields.now first position declared.now }
{
    match first {
        Some(first) => first < position && !is_synthetic(fields, declared),
        None => false,
    }
}

/// Appends what a oneof may not be: without a field, with fields that do not stand together, or
/// late.
fn tell_oneof(
    found: &mut Found,
    declared: &OneofDescriptorInner,
    late: bool,
) -> Result<(), AllocError>
    ensures { OnOk result (found.new ≡ found.old ++ spec.oneof_faults late declared.now) }
{
    let fields = declared.fields.as_slice();
    let (empty, scattered) = (fields.is_empty(), are_scattered(fields));
    tell_name(found, &declared.id)?;
    found.tell_if(empty, StrictKind::EmptyOneof.of(&declared.id), oneof::NAME)?;
    found.tell_if(
        scattered,
        StrictKind::ScatteredOneof.of(&declared.id),
        oneof::NAME,
    )?;
    found.tell_if(late, StrictKind::LateOneof.of(&declared.id), oneof::NAME)
}

/// Appends what the oneofs of a message may not be, by the records of its fields.
#[tactic(auto, using(crate::proofs::Told::told_next))]
pub(crate) fn tell_oneofs(
    found: &mut Found,
    fields: &[FieldDescriptorProto],
    oneofs: &[OneofDescriptorInner],
) -> Result<(), AllocError>
    ensures { OnOk result (found.new ≡ found.old ++ spec.oneofs_faults fields.now oneofs.now) }
{
    let first = first_synthetic(fields, oneofs);
    for (position, declared) in oneofs.iter().enumerate() {
        let late = is_late(fields, first, position, declared);
        tell_oneof(found, declared, late)?;
    }
    Ok(())
}

/// Whether a field has a oneof for itself.
pub(crate) fn is_alone(oneofs: &[OneofDescriptorInner], field: &FieldDescriptorInner) -> bool
    ensures { result ≡ spec.is_alone oneofs.now field.now }
{
    let Some(index) = field.oneof else {
        return false;
    };
    match oneofs.get(index as usize) {
        Some(oneof) => oneof.fields.as_slice().len() == 1,
        None => false,
    }
}
