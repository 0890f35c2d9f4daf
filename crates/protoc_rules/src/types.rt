//! The written type of a field against what its type name means.

ghost use Rattle.std.specs.Prelude.{◌≡◌, ◌++◌, OnOk};
ghost use Rattle.protoc_rules.specs.Faults.{each_told};
ghost use Rattle.protoc_rules.specs.Types as spec;

use crate::faults::{Found, StrictKind};
use plain_data::Items;
use pool_types::{FieldDescriptorInner, Identity, KindIndex};
use proto_types::FieldType;
use proto_types::tag::field;
use std::alloc::AllocError;

/// What a written type breaks where the type name means a message.
fn message_fault(written: Option<FieldType>) -> Option<StrictKind>
    ensures { result ≡ spec.message_fault written }
{
    match written? {
        FieldType::Message | FieldType::Group => None,
        FieldType::Enum => Some(StrictKind::NotAnEnumType),
        _ => Some(StrictKind::TypeNameOfScalar),
    }
}

/// What a written type breaks where the type name means an enum.
fn enum_fault(written: Option<FieldType>) -> Option<StrictKind>
    ensures { result ≡ spec.enum_fault written }
{
    match written? {
        FieldType::Enum => None,
        FieldType::Message | FieldType::Group => Some(StrictKind::NotAMessageType),
        _ => Some(StrictKind::TypeNameOfScalar),
    }
}

/// What a written type breaks by the kind that linking finds.
fn type_fault(written: Option<FieldType>, kind: KindIndex) -> Option<StrictKind>
    ensures { result ≡ spec.type_fault written kind }
{
    match kind {
        KindIndex::Message(_) | KindIndex::Group(_) => message_fault(written),
        KindIndex::Enum(_) => enum_fault(written),
        _ => None,
    }
}

/// Appends what the written type of a field breaks.
pub(crate) fn tell_type(
    found: &mut Found,
    written: Option<FieldType>,
    id: &Identity,
    kind: KindIndex,
) -> Result<(), AllocError>
    ensures { OnOk result (found.new ≡ found.old ++ spec.type_faults written id.now kind) }
{
    match type_fault(written, kind) {
        Some(fault) => found.tell(fault.of(id), field::TYPE_NAME),
        None => Ok(()),
    }
}

/// The type with a position, where it is known.
pub(crate) fn written_at(types: &[Option<FieldType>], position: usize) -> Option<FieldType>
    ensures { result ≡ spec.written_at types.now position }
{
    match types.get(position) {
        Some(written) => *written,
        None => None,
    }
}

/// The types of the fields of the message with an index, where they are known.
pub(crate) fn types_at(types: &[Items<Option<FieldType>>], index: usize) -> &[Option<FieldType>]
    ensures { result.now ≡ spec.types_at types.now index }
{
    match types.get(index) {
        Some(fields) => fields.as_slice(),
        None => &[],
    }
}

/// Appends what the written types of the fields of a message break.
#[tactic(auto, using(crate::proofs::Told::told_next))]
pub(crate) fn tell_field_types(
    found: &mut Found,
    types: &[Option<FieldType>],
    fields: &[FieldDescriptorInner],
) -> Result<(), AllocError>
    ensures { OnOk result (found.new
        ≡ found.old ++ each_told (spec.field_type_faults types.now) fields.now) }
{
    for (position, field) in fields.iter().enumerate() {
        let written = written_at(types, position);
        tell_type(found, written, &field.id, field.kind)?;
    }
    Ok(())
}
