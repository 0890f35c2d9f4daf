ghost use Rattle.std.specs.Prelude.{◌≡◌, ◌++◌, [], ◌∷◌, not, is_some, IfOk, IfSome, OnOk};
ghost use Rattle.record_walk.specs.Shown.{Shown};
ghost use Rattle.std.specs.Option.{option_and_then, option_map_or};
ghost use Rattle.proto_types.specs.declared.tag.field.TheConstants.{TYPE_NAME};
ghost use Rattle.plain_data.specs.Lists.{listed, only_if};
ghost use Rattle.proto_types.specs.Readers.{text_of, type_of};
ghost use Rattle.pool_faults.specs.declared.fault.DescriptorErrorKind.TheVariants.{MissingRequiredField};
ghost use Rattle.pool_faults.specs.Labels.{part_label};
ghost use Rattle.record_walk.specs.Faults.{Tells, named_files};
ghost use Rattle.record_walk.specs.Protos.{of_field};
ghost use Rattle.pool_types.specs.Kinds.{named_kind, simple_kind};
ghost use Rattle.name_resolution.specs.References.{reference_fault};
ghost use Rattle.name_resolution.specs.Resolution.{kind_found, resolution_in};
ghost use Rattle.field_rules.specs.DefaultEnum.{default_enum_in};
ghost use Rattle.field_rules.specs.Defaults.{default_faults};
ghost use Rattle.reference_pass.specs.Defaults.{default_by, enum_found, field_default};
ghost use Rattle.reference_pass.specs.Defaults.{field_default_faults, no_default_enum};
ghost use Rattle.reference_pass.specs.Plain.{IsPlain};
ghost use Rattle.reference_pass.specs.Types.{field_kind, type_faults, resolve_type};
ghost use Rattle.reference_pass.specs.Reading.{ReadingTells, setting_of};
ghost use Rattle.record_walk.specs.Place.{shown_at};

use crate::declared::enum_record;
use crate::reading::Reading;
use field_rules::{DefaultEnum, read_default};
use name_resolution::{ResolveNameFilter, ResolveNameResult};
use plain_data::Text;
use pool_faults::DescriptorErrorKind;
use pool_types::{DefaultValue, KindIndex, named_kind, simple_kind};
use proto_types::{FieldDescriptorProto, FieldType, tag};
use record_walk::{Faults, Place};
use std::alloc::AllocError;

/// The kind of the type of an extension, where it has one, and the default value, where one is
/// given. What these break is appended to `reading`, the type before the default.
// Inlined, so that neither is written to memory.
#[inline(always)]
pub(crate) fn extension_type(
    reading: &mut Reading,
    place: Place,
    field: &FieldDescriptorProto,
) -> Result<(Option<KindIndex>, Option<DefaultValue>), AllocError>
    ensures kind { IfOk result (λ t. t.0
        ≡ field_kind (setting_of reading.old)
        (shown_at place.entry (of_field field.now)) field.now) }
    ensures default { IfOk result (λ t. t.1
        ≡ field_default (setting_of reading.old)
        (shown_at place.entry (of_field field.now)) field.now) }
    ensures faults { OnOk result (ReadingTells reading.old reading.new
        (type_faults (setting_of reading.old)
        (shown_at place.entry (of_field field.now)) field.now
        ++ field_default_faults (setting_of reading.old)
        (shown_at place.entry (of_field field.now)) field.now)) }
{
    match plain_kind(reading, place.file, field) {
        Some(kind) => Ok((Some(kind), None)),
        None => type_and_default(reading, place, field),
    }
}

/// Does what `extension_type` does, of any field or extension, whether its type is plain or not.
pub(crate) fn type_and_default(
    reading: &mut Reading,
    place: Place,
    field: &FieldDescriptorProto,
) -> Result<(Option<KindIndex>, Option<DefaultValue>), AllocError>
    ensures kind { IfOk result (λ t. t.0
        ≡ field_kind (setting_of reading.old)
        (shown_at place.entry (of_field field.now)) field.now) }
    ensures default { IfOk result (λ t. t.1
        ≡ field_default (setting_of reading.old)
        (shown_at place.entry (of_field field.now)) field.now) }
    ensures faults { OnOk result (ReadingTells reading.old reading.new
        (type_faults (setting_of reading.old)
        (shown_at place.entry (of_field field.now)) field.now
        ++ field_default_faults (setting_of reading.old)
        (shown_at place.entry (of_field field.now)) field.now)) }
{
    if field.type_name().is_empty() {
        return written_type(&mut reading.faults, place, field);
    }
    named_type(reading, place, field)
}

/// The kind of a field of a file with an index, where it is given no default value, and its type is
/// written by a number or found by its full name: nothing of its type breaks a rule then. Any other
/// field has none here.
#[inline(always)]
pub(crate) fn plain_kind(
    reading: &Reading,
    file: u32,
    field: &FieldDescriptorProto,
) -> Option<KindIndex>
    ensures { IfSome result (λ kind. (d : Shown) → d.file ≡ file
        → IsPlain (setting_of reading.now) d field.now kind) }
{
    if field.default_value.is_some() {
        return None;
    }
    let written = field.type_name();
    if written.is_empty() {
        return simple_kind(field.field_type());
    }
    let def = reading.find_in(file, ResolveNameFilter::FieldType, written)?;
    named_kind(field.field_type(), def.kind)
}

/// The kind of a type that a field names by its number, and the default value.
#[inline(always)]
fn written_type(
    faults: &mut Faults,
    place: Place,
    field: &FieldDescriptorProto,
) -> Result<(Option<KindIndex>, Option<DefaultValue>), AllocError>
    ensures kind { IfOk result (λ t. t.0 ≡ simple_kind (type_of field.now.type_)) }
    ensures default { IfOk result (λ t. t.1
        ≡ default_by (simple_kind (type_of field.now.type_)) no_default_enum
        field.now.default_value) }
    ensures faults { OnOk result (Tells faults.old faults.new
        (only_if (not (is_some (simple_kind (type_of field.now.type_))))
        (MissingRequiredField (part_label (named_files faults.old) place.entry.file
        place.entry.path.now TYPE_NAME))
        ++ option_map_or (λ k. default_faults (named_files faults.old) place.entry.file
        place.entry.path.now k no_default_enum field.now.default_value)
        (simple_kind (type_of field.now.type_)) [])) }
{
    let kind = simple_kind(field.field_type());
    if kind.is_none() {
        tell_missing_type(faults, place)?;
    }
    if field.default_value.is_none() {
        return Ok((kind, None));
    }
    let default = kind_default(faults, place, kind, no_enum(), &field.default_value)?;
    Ok((kind, default))
}

/// Appends to `faults` that a field names no type.
#[inline(never)]
fn tell_missing_type(faults: &mut Faults, place: Place) -> Result<(), AllocError>
    ensures { OnOk result (Tells faults.old faults.new
        (MissingRequiredField (part_label (named_files faults.old) place.entry.file
        place.entry.path.now TYPE_NAME) ∷ [])) }
{
    let label = faults.part_label(place, tag::field::TYPE_NAME)?;
    faults.push(DescriptorErrorKind::MissingRequiredField { label })
}

/// The kind of the definition that the type name of a field means, and the default value.
// Not inlined, since most types are found at once.
#[inline(never)]
fn named_type(
    reading: &mut Reading,
    place: Place,
    field: &FieldDescriptorProto,
) -> Result<(Option<KindIndex>, Option<DefaultValue>), AllocError>
    ensures kind { IfOk result (λ t. t.0
        ≡ option_and_then (named_kind (type_of field.now.type_))
        (kind_found (resolve_type (setting_of reading.old)
        (shown_at place.entry (of_field field.now)) field.now))) }
    ensures default { IfOk result (λ t. t.1
        ≡ default_by (option_and_then (named_kind (type_of field.now.type_))
        (kind_found (resolve_type (setting_of reading.old)
        (shown_at place.entry (of_field field.now)) field.now)))
        (enum_found (setting_of reading.old) (resolve_type (setting_of reading.old)
        (shown_at place.entry (of_field field.now)) field.now)) field.now.default_value) }
    ensures faults { OnOk result (ReadingTells reading.old reading.new
        (listed (reference_fault (setting_of reading.old).files (text_of field.now.type_name)
        place.entry.file (place.entry.path.now ++ TYPE_NAME ∷ [])
        (resolve_type (setting_of reading.old)
        (shown_at place.entry (of_field field.now)) field.now))
        ++ option_map_or (λ k. default_faults (setting_of reading.old).files place.entry.file
        place.entry.path.now k (enum_found (setting_of reading.old)
        (resolve_type (setting_of reading.old)
        (shown_at place.entry (of_field field.now)) field.now)) field.now.default_value)
        (option_and_then (named_kind (type_of field.now.type_))
        (kind_found (resolve_type (setting_of reading.old)
        (shown_at place.entry (of_field field.now)) field.now))) [])) }
{
    let (tag, filter) = (tag::field::TYPE_NAME, ResolveNameFilter::FieldType);
    let meaning = reading.resolve_checked(place, tag, filter, field.type_name())?;
    let kind = kind_by_meaning(field.field_type(), &meaning);
    let default = named_default(reading, place, kind, &meaning, &field.default_value)?;
    Ok((kind, default))
}

/// The kind of a field of a written type whose type name has a meaning.
fn kind_by_meaning(written: FieldType, meaning: &ResolveNameResult) -> Option<KindIndex>
    ensures { result ≡ option_and_then (named_kind written)
        (kind_found (resolution_in meaning.now)) }
{
    match meaning {
        ResolveNameResult::Found { def, .. } => named_kind(written, def.kind),
        _ => None,
    }
}

/// The default value of a field or an extension whose type name has a meaning, if one is given.
fn named_default(
    reading: &mut Reading,
    place: Place,
    kind: Option<KindIndex>,
    meaning: &ResolveNameResult,
    given: &Option<Text>,
) -> Result<Option<DefaultValue>, AllocError>
    ensures value { IfOk result (λ value. value
        ≡ default_by kind (enum_found (setting_of reading.old) (resolution_in meaning.now))
        given.now) }
    ensures faults { OnOk result (ReadingTells reading.old reading.new
        (option_map_or (λ k. default_faults (setting_of reading.old).files place.entry.file
        place.entry.path.now k
        (enum_found (setting_of reading.old) (resolution_in meaning.now)) given.now) kind [])) }
{
    if given.is_none() {
        return Ok(None);
    }
    let meant = enum_found(reading, meaning);
    kind_default(&mut reading.faults, place, kind, meant, given)
}

/// The default value of a field or an extension, if one is given. Where it is none of the kind of
/// the type, that is appended to `faults`; where the type has no kind, it isn't read.
fn kind_default(
    faults: &mut Faults,
    place: Place,
    kind: Option<KindIndex>,
    meant: DefaultEnum,
    given: &Option<Text>,
) -> Result<Option<DefaultValue>, AllocError>
    ensures value { IfOk result (λ value. value
        ≡ default_by kind (default_enum_in meant.entry) given.now) }
    ensures faults { OnOk result (Tells faults.old faults.new
        (option_map_or (λ k. default_faults (named_files faults.old) place.entry.file
        place.entry.path.now k (default_enum_in meant.entry) given.now) kind [])) }
{
    match kind {
        Some(kind) => read_default(faults, place, kind, meant, given),
        None => Ok(None),
    }
}

/// The enum that was found, or none.
fn enum_found<'n, 'v>(reading: &Reading<'v>, meaning: &'n ResolveNameResult) -> DefaultEnum<'n, 'v>
    ensures { default_enum_in result
        ≡ enum_found (setting_of reading.now) (resolution_in meaning.now) }
{
    let ResolveNameResult::Found { name, def } = meaning else {
        return no_enum();
    };
    let values = match enum_record(reading, def) {
        Some(found) => found.value.as_slice(),
        None => &[],
    };
    DefaultEnum {
        full_name: name.as_str(),
        values,
    }
}

/// No enum.
fn no_enum<'n, 'v>() -> DefaultEnum<'n, 'v>
    ensures { default_enum_in result ≡ no_default_enum }
{
    DefaultEnum {
        full_name: "",
        values: &[],
    }
}
