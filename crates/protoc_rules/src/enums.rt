//! What enums may not be.

ghost use Rattle.std.specs.Prelude.{◌≡◌, ◌++◌, OnOk};
ghost use Rattle.std.specs.List.{flat_map};
ghost use Rattle.protoc_rules.specs.Enums as spec;
ghost use Rattle.protoc_rules.specs.Faults.{each_told, told_at};
ghost use Rattle.protoc_rules.specs.Linked.{linked};
ghost use Rattle.protoc_rules.specs.Reserved.{reserved_names};

use crate::Linked;
use crate::faults::{Entry, Found, StrictKind};
use crate::names::tell_enum_names;
use crate::reserved::{ReservedNames, tell_reserved_names};
use crate::spans::{enum_spans, span_at, tell_overlaps};
use crate::values::tell_values;
use pool_types::{EnumDescriptorInner, Identity};
use proto_types::EnumDescriptorProto;
use proto_types::tag::enum_ as tag;
use std::alloc::AllocError;

/// Appends that the reserved range with a position ends before it begins.
fn tell_empty_range(
    found: &mut Found,
    id: &Identity,
    spans: &[(i64, i64)],
    position: usize,
) -> Result<(), AllocError>
    ensures { OnOk result (found.new ≡ found.old
        ++ told_at (spec.empty_range_faults id.now) spans.now position) }
{
    let Some(span) = span_at(spans, position) else {
        return Ok(());
    };
    let at = Entry {
        tag: tag::RESERVED_RANGE,
        position,
    };
    found.tell_entry_if(span.1 <= span.0, StrictKind::EmptyRange.of(id), at)
}

/// Appends which reserved ranges of an enum end before they begin.
fn tell_empty_ranges(
    found: &mut Found,
    id: &Identity,
    spans: &[(i64, i64)],
) -> Result<(), AllocError>
    ensures { OnOk result (found.new
        ≡ found.old ++ each_told (spec.empty_range_faults id.now) spans.now) }
{
    for position in 0..spans.len() {
        tell_empty_range(found, id, spans, position)?;
    }
    Ok(())
}

/// Appends what the reserved ranges of an enum may not be.
fn tell_enum_ranges(
    found: &mut Found,
    id: &Identity,
    proto: &EnumDescriptorProto,
) -> Result<(), AllocError>
    ensures { OnOk result (found.new ≡ found.old ++ spec.enum_range_faults id.now proto.now) }
{
    let spans = enum_spans(found.alloc(), proto.reserved_range.as_slice())?;
    let spans = spans.as_slice();
    tell_empty_ranges(found, id, spans)?;
    tell_overlaps(found, id, tag::RESERVED_RANGE, spans)
}

/// The reserved names of an enum, and the names of its values.
fn reserved_of<'a>(
    enumeration: &'a EnumDescriptorInner,
    proto: &'a EnumDescriptorProto,
) -> ReservedNames<'a>
    ensures { reserved_names result ≡ spec.reserved_of enumeration.now proto.now }
{
    ReservedNames {
        names: proto.reserved_name.as_slice(),
        tag: tag::RESERVED_NAME,
        members: &enumeration.value_names,
        member_tag: tag::VALUE,
    }
}

impl Linked<'_> {
    /// Appends what an enum may not be.
    fn tell_enum(
        self,
        found: &mut Found,
        enumeration: &EnumDescriptorInner,
    ) -> Result<(), AllocError>
        ensures { OnOk result (found.new
            ≡ found.old ++ spec.enum_faults (linked self.entry) enumeration.now) }
    {
        let Some(record) = self.enum_record(&enumeration.id) else {
            return Ok(());
        };
        tell_enum_names(found, enumeration)?;
        tell_enum_ranges(found, &enumeration.id, record)?;
        tell_reserved_names(found, &enumeration.id, reserved_of(enumeration, record))?;
        if self.in_proto3(enumeration.id.file) {
            tell_values(found, enumeration)?;
        }
        Ok(())
    }

    /// Appends what the enums may not be.
    pub(crate) fn tell_enums(self, found: &mut Found) -> Result<(), AllocError>
        ensures { OnOk result (found.new ≡ found.old
            ++ flat_map (spec.enum_faults (linked self.entry)) self.entry.enums.now) }
    {
        let enums = self.enums;
        for enumeration in enums {
            self.tell_enum(found, enumeration)?;
        }
        Ok(())
    }
}
