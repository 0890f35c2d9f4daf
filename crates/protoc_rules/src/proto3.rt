//! What a field or an extension may not be in proto3.

ghost use Rattle.std.specs.Prelude.{◌≡◌, ◌++◌, OnOk};
ghost use Rattle.protoc_rules.specs.Fields.{site_of};
ghost use Rattle.protoc_rules.specs.Proto3 as spec;

use crate::faults::{Found, StrictKind};
use crate::fields::Site;
use crate::labels;
use pool_types::KindIndex;
use proto_types::tag::field;
use std::alloc::AllocError;

/// Whether it is required in proto3.
fn is_required(site: Site<'_>) -> bool
    ensures { result ≡ spec.is_required_there (site_of site.entry) }
{
    site.in_proto3 && labels::is_required(site.record.label())
}

/// Whether it has a default in proto3.
fn has_default(site: Site<'_>) -> bool
    ensures { result ≡ spec.has_default_there (site_of site.entry) }
{
    site.in_proto3 && site.record.default_value.is_some()
}

/// Whether it is a group in proto3.
fn is_group(site: Site<'_>) -> bool
    ensures { result ≡ spec.is_group_there (site_of site.entry) }
{
    site.in_proto3 && matches!(site.kind, KindIndex::Group(_))
}

/// Appends what it may not be in proto3.
pub(crate) fn tell_proto3(found: &mut Found, site: Site<'_>) -> Result<(), AllocError>
    ensures { OnOk result (found.new ≡ found.old ++ spec.proto3_faults (site_of site.entry)) }
{
    let (required, default, group) = (is_required(site), has_default(site), is_group(site));
    let closed = site.in_proto3 && site.is_closed;
    found.tell_if(
        required,
        StrictKind::RequiredInProto3.of(site.id),
        field::LABEL,
    )?;
    found.tell_if(
        default,
        StrictKind::DefaultInProto3.of(site.id),
        field::DEFAULT_VALUE,
    )?;
    found.tell_if(group, StrictKind::GroupInProto3.of(site.id), field::TYPE)?;
    found.tell_if(
        closed,
        StrictKind::ClosedEnumInProto3.of(site.id),
        field::TYPE_NAME,
    )
}
