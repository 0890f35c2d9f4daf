//! A field or an extension as the rules look at it, and what both may not be.

ghost use Rattle.std.specs.Prelude.{◌≡◌, ◌++◌, OnOk};
ghost use Rattle.protoc_rules.specs.Fields as spec;

use crate::faults::{Found, StrictKind};
use crate::labels::is_repeated;
use crate::names::tell_name;
use crate::proto3::tell_proto3;
use pool_types::{Identity, KindIndex};
use proto_types::FieldDescriptorProto;
use proto_types::tag::field;
use std::alloc::AllocError;

/// A field or an extension as the rules look at it.
#[derive(Clone, Copy)]
pub(crate) struct Site<'a> {
    pub id: &'a Identity,
    /// Its linked record.
    pub record: &'a FieldDescriptorProto,
    pub kind: KindIndex,
    /// Whether its file is one of proto3.
    pub in_proto3: bool,
    /// Whether its type is an enum of proto2.
    pub is_closed: bool,
    /// Whether the message whose field it is is a message set.
    pub in_message_set: bool,
}

/// Whether it is repeated, and has a default.
fn has_repeated_default(site: Site<'_>) -> bool
    ensures { result ≡ spec.has_repeated_default (spec.site_of site.entry) }
{
    is_repeated(site.record.label()) && site.record.default_value.is_some()
}

/// Whether its options say that it is packed.
fn is_packed(field: &FieldDescriptorProto) -> bool
    ensures { result ≡ spec.is_packed field.now.options }
{
    match &field.options {
        Some(options) => options.value.packed.unwrap_or(false),
        None => false,
    }
}

/// Whether it is packed, and no list of numbers.
fn is_wrongly_packed(site: Site<'_>) -> bool
    ensures { result ≡ spec.is_wrongly_packed (spec.site_of site.entry) }
{
    is_packed(site.record) && !(is_repeated(site.record.label()) && site.kind.is_packable())
}

/// Whether it is optional by the word of proto3, and stands in proto2.
fn is_wrongly_optional(site: Site<'_>) -> bool
    ensures { result ≡ spec.is_wrongly_optional (spec.site_of site.entry) }
{
    site.record.proto3_optional() && !site.in_proto3
}

/// Whether a kind is that of a number or a text.
fn is_scalar(kind: KindIndex) -> bool
    ensures { result ≡ spec.is_scalar kind }
{
    !matches!(
        kind,
        KindIndex::Message(_) | KindIndex::Group(_) | KindIndex::Enum(_)
    )
}

/// Whether its type is a number or a text by linking, which passes over the empty type name that is
/// written with it.
fn has_empty_name(site: Site<'_>) -> bool
    ensures { result ≡ spec.has_empty_name (spec.site_of site.entry) }
{
    site.record.type_name.is_some() && is_scalar(site.kind)
}

/// Appends what neither a field nor an extension may be.
pub(crate) fn tell_site(found: &mut Found, site: Site<'_>) -> Result<(), AllocError>
    ensures { OnOk result (found.new ≡ found.old ++ spec.site_faults (spec.site_of site.entry)) }
{
    let default = has_repeated_default(site);
    let packed = is_wrongly_packed(site);
    let optional = is_wrongly_optional(site);
    let named = has_empty_name(site);
    tell_name(found, site.id)?;
    tell_proto3(found, site)?;
    found.tell_if(
        default,
        StrictKind::RepeatedDefault.of(site.id),
        field::DEFAULT_VALUE,
    )?;
    found.tell_if(packed, StrictKind::PackedField.of(site.id), field::OPTIONS)?;
    found.tell_if(
        optional,
        StrictKind::Proto3OptionalInProto2.of(site.id),
        field::PROTO3_OPTIONAL,
    )?;
    found.tell_if(
        named,
        StrictKind::TypeNameOfScalar.of(site.id),
        field::TYPE_NAME,
    )
}
