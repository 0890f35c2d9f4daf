//! What the ranges of a message may not be.

ghost use Rattle.std.specs.Prelude.{◌≡◌, ◌++◌, OnOk};
ghost use Rattle.protoc_rules.specs.Faults.{each_told, told_at};
ghost use Rattle.protoc_rules.specs.Ranges as spec;

use crate::faults::{Entry, Found, StrictKind};
use crate::spans::{Ranges, extension_spans, reserved_spans, span_at, tell_across, tell_overlaps};
use pool_types::Identity;
use proto_types::DescriptorProto;
use proto_types::tag::message::{EXTENSION_RANGE, RESERVED_RANGE};
use std::alloc::AllocError;

/// The greatest number that a field may have.
const MAXIMUM: i64 = 536_870_911;

/// The extension ranges of a message.
#[derive(Clone, Copy)]
struct Extensions<'a> {
    spans: &'a [(i64, i64)],
    /// Whether the message is a message set.
    is_set: bool,
}

/// Appends what an extension range by itself may not be.
fn tell_extension_range(
    found: &mut Found,
    id: &Identity,
    extensions: Extensions<'_>,
    position: usize,
) -> Result<(), AllocError>
    ensures { OnOk result (found.new ≡ found.old
        ++ told_at (spec.extension_range_faults extensions.entry.is_set id.now)
        extensions.entry.spans.now position) }
{
    let Some(span) = span_at(extensions.spans, position) else {
        return Ok(());
    };
    let at = Entry {
        tag: EXTENSION_RANGE,
        position,
    };
    found.tell_entry_if(span.0 <= 0, StrictKind::RangeNotPositive.of(id), at)?;
    found.tell_entry_if(span.1 <= span.0, StrictKind::EmptyRange.of(id), at)?;
    let past = !extensions.is_set && span.1 > MAXIMUM + 1;
    found.tell_entry_if(past, StrictKind::RangePastMaximum.of(id), at)
}

/// Appends what each extension range by itself may not be.
fn tell_extension_ranges(
    found: &mut Found,
    id: &Identity,
    extensions: Extensions<'_>,
) -> Result<(), AllocError>
    ensures { OnOk result (found.new ≡ found.old
        ++ each_told (spec.extension_range_faults extensions.entry.is_set id.now)
        extensions.entry.spans.now) }
{
    let spans = extensions.spans;
    for position in 0..spans.len() {
        tell_extension_range(found, id, extensions, position)?;
    }
    Ok(())
}

/// Appends that the reserved range with a position begins at 0 or below.
fn tell_reserved_range(
    found: &mut Found,
    id: &Identity,
    spans: &[(i64, i64)],
    position: usize,
) -> Result<(), AllocError>
    ensures { OnOk result (found.new ≡ found.old
        ++ told_at (spec.reserved_range_faults id.now) spans.now position) }
{
    let Some(span) = span_at(spans, position) else {
        return Ok(());
    };
    let at = Entry {
        tag: RESERVED_RANGE,
        position,
    };
    found.tell_entry_if(span.0 <= 0, StrictKind::RangeNotPositive.of(id), at)
}

/// Appends which reserved ranges begin at 0 or below.
fn tell_reserved_ranges(
    found: &mut Found,
    id: &Identity,
    spans: &[(i64, i64)],
) -> Result<(), AllocError>
    ensures { OnOk result (found.new
        ≡ found.old ++ each_told (spec.reserved_range_faults id.now) spans.now) }
{
    for position in 0..spans.len() {
        tell_reserved_range(found, id, spans, position)?;
    }
    Ok(())
}

/// Appends what the ranges of a message may not be.
pub(crate) fn tell_ranges(
    found: &mut Found,
    id: &Identity,
    message: &DescriptorProto,
    is_set: bool,
) -> Result<(), AllocError>
    ensures { OnOk result (found.new
        ≡ found.old ++ spec.range_faults is_set id.now message.now) }
{
    let extensions = extension_spans(found.alloc(), message.extension_range.as_slice())?;
    let reserved = reserved_spans(found.alloc(), message.reserved_range.as_slice())?;
    let (extensions, reserved) = (extensions.as_slice(), reserved.as_slice());
    let own = Extensions {
        spans: extensions,
        is_set,
    };
    tell_extension_ranges(found, id, own)?;
    tell_reserved_ranges(found, id, reserved)?;
    tell_overlaps(found, id, RESERVED_RANGE, reserved)?;
    tell_overlaps(found, id, EXTENSION_RANGE, extensions)?;
    let ranges = Ranges {
        extensions,
        reserved,
    };
    tell_across(found, id, ranges)
}
