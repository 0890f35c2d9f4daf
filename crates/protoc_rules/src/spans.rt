//! Ranges of numbers, each as its start and the number behind its last one.

ghost use Rattle.std.specs.Prelude.{◌≡◌, ◌<◌, ◌++◌, OnOk, IfOk, IsTrue, length, map, slice_get};
ghost use Rattle.std.specs.Prelude.{position as position_of};
ghost use Rattle.std.specs.List.{IsDistinct};
ghost use Rattle.protoc_rules.specs.Faults.{each_told, told_at};
ghost use Rattle.protoc_rules.specs.Spans as spec;

use crate::faults::{Entry, Found, StrictKind, entry_at};
use plain_data::Items;
use pool_types::Identity;
use proto_types::tag::message::{EXTENSION_RANGE, RESERVED_RANGE};
use proto_types::{EnumReservedRange, ExtensionRange, ReservedRange};
use std::alloc::{AllocError, Global};

/// The extension ranges of a message.
pub(crate) fn extension_spans(
    alloc: Global,
    ranges: &[ExtensionRange],
) -> Result<Items<(i64, i64)>, AllocError>
    ensures { IfOk result (λ spans. spans ≡ map spec.extension_span ranges.now) }
{
    let mut spans = Items::new(alloc);
    for range in ranges {
        spans.push((i64::from(range.start()), i64::from(range.end())))?;
    }
    Ok(spans)
}

/// The reserved ranges of a message.
pub(crate) fn reserved_spans(
    alloc: Global,
    ranges: &[ReservedRange],
) -> Result<Items<(i64, i64)>, AllocError>
    ensures { IfOk result (λ spans. spans ≡ map spec.reserved_span ranges.now) }
{
    let mut spans = Items::new(alloc);
    for range in ranges {
        spans.push((i64::from(range.start()), i64::from(range.end())))?;
    }
    Ok(spans)
}

/// The numbers of a reserved range of an enum, which holds its end.
fn enum_span(range: &EnumReservedRange) -> (i64, i64)
    ensures { result ≡ spec.enum_span range.now }
{
    (i64::from(range.start()), i64::from(range.end()) + 1)
}

/// The reserved ranges of an enum, which hold their ends.
pub(crate) fn enum_spans(
    alloc: Global,
    ranges: &[EnumReservedRange],
) -> Result<Items<(i64, i64)>, AllocError>
    ensures { IfOk result (λ spans. spans ≡ map spec.enum_span ranges.now) }
{
    let mut spans = Items::new(alloc);
    for range in ranges {
        spans.push(enum_span(range))?;
    }
    Ok(spans)
}

/// The range with a position, if there is one.
pub(crate) fn span_at(spans: &[(i64, i64)], position: usize) -> Option<(i64, i64)>
    ensures { result ≡ slice_get spans.now position }
{
    spans.get(position).copied()
}

/// Whether two ranges overlap, as protobuf compares them.
fn overlap(first: (i64, i64), second: (i64, i64)) -> bool
    ensures { result ≡ spec.overlap first second }
{
    second.0 < first.1 && first.0 < second.1
}

/// Whether a range is not empty, and ends where a second one begins or before that.
fn precedes(first: (i64, i64), second: (i64, i64)) -> bool
    ensures { result ≡ spec.precedes first second }
{
    first.0 < first.1 && first.1 <= second.0
}

/// Whether each range precedes the next, and so no two overlap.
fn ascend(spans: &[(i64, i64)]) -> bool
    ensures { IsTrue result → IsDistinct spec.overlap spans.now }
{
    for position in 1..spans.len() {
        if !precedes(spans[position - 1], spans[position]) {
            return false;
        }
    }
    true
}

/// Whether no two ranges overlap, as they show in order.
fn are_apart(mut spans: Vec<(i64, i64)>) -> bool
    ensures { IsTrue result → IsDistinct spec.overlap spans.items }
{
    spans.sort_unstable();
    ascend(spans.as_slice())
}

/// Whether no two of a list of ranges overlap. Fewer than two are not copied.
#[tactic(auto, using(crate::proofs::Distinct::few_apart))]
fn show_apart(alloc: Global, spans: &[(i64, i64)]) -> Result<bool, AllocError>
    ensures { IfOk result (λ apart. IsTrue apart → IsDistinct spec.overlap spans.now) }
{
    if spans.len() < 2 {
        return Ok(true);
    }
    Ok(are_apart(Vec::from_slice(alloc, spans)?))
}

/// Whether no two of a list of ranges, with those of a second list behind them, overlap.
fn are_all_apart(
    alloc: Global,
    spans: &[(i64, i64)],
    others: &[(i64, i64)],
) -> Result<bool, AllocError>
    ensures { IfOk result (λ apart. IsTrue apart
        → IsDistinct spec.overlap (spans.now ++ others.now)) }
{
    let mut all = Vec::from_slice(alloc, spans)?;
    all.extend_from_slice(others)?;
    Ok(are_apart(all))
}

/// The position of the first of some ranges that overlaps with one.
fn first_overlap(spans: &[(i64, i64)], span: (i64, i64)) -> Option<usize>
    ensures { result ≡ position_of (spec.overlap span) spans.now }
{
    spans.iter().position(|other| overlap(span, *other))
}

/// Appends that the range at an entry of a list overlaps with an earlier one, of which the first is
/// told.
fn tell_overlap(
    found: &mut Found,
    id: &Identity,
    spans: &[(i64, i64)],
    entry: Entry,
) -> Result<(), AllocError>
    requires { entry.position < length spans.now }
    ensures { OnOk result (found.new ≡ found.old
        ++ told_at (spec.earlier_overlap id.now entry.tag spans.now) spans.now entry.position) }
{
    let Entry { tag, position } = entry;
    let Some(span) = spans.get(position) else {
        return Ok(());
    };
    let second = entry_at(tag, first_overlap(&spans[..position], *span));
    found.tell_pair(StrictKind::RangesOverlap.of(id), entry, second)
}

/// Appends which ranges of a list overlap with an earlier one, each with the first such. Where none
/// does, they are not compared pair by pair.
pub(crate) fn tell_overlaps(
    found: &mut Found,
    id: &Identity,
    tag: i32,
    spans: &[(i64, i64)],
) -> Result<(), AllocError>
    ensures { OnOk result (found.new
        ≡ found.old ++ each_told (spec.earlier_overlap id.now tag spans.now) spans.now) }
{
    if show_apart(found.alloc(), spans)? {
        return Ok(());
    }
    tell_pairs(found, id, tag, spans)
}

/// Appends which ranges of a list overlap with an earlier one, as each is compared with those.
fn tell_pairs(
    found: &mut Found,
    id: &Identity,
    tag: i32,
    spans: &[(i64, i64)],
) -> Result<(), AllocError>
    ensures { OnOk result (found.new
        ≡ found.old ++ each_told (spec.earlier_overlap id.now tag spans.now) spans.now) }
{
    for position in 0..spans.len() {
        tell_overlap(found, id, spans, Entry { tag, position })?;
    }
    Ok(())
}

/// The ranges of a message.
#[derive(Clone, Copy)]
pub(crate) struct Ranges<'a> {
    pub extensions: &'a [(i64, i64)],
    pub reserved: &'a [(i64, i64)],
}

/// Appends that the extension range with a position overlaps with a reserved one, of which the
/// first is told.
fn tell_reserved(
    found: &mut Found,
    id: &Identity,
    ranges: Ranges<'_>,
    position: usize,
) -> Result<(), AllocError>
    ensures { OnOk result (found.new ≡ found.old
        ++ told_at (spec.reserved_overlap id.now ranges.entry.reserved.now)
        ranges.entry.extensions.now position) }
{
    let Some(span) = span_at(ranges.extensions, position) else {
        return Ok(());
    };
    let at = Entry {
        tag: EXTENSION_RANGE,
        position,
    };
    let second = entry_at(RESERVED_RANGE, first_overlap(ranges.reserved, span));
    found.tell_pair(StrictKind::RangesOverlap.of(id), at, second)
}

/// Appends which extension ranges of a message overlap with a reserved one, each with the first
/// such. Where none does, they are not compared pair by pair.
pub(crate) fn tell_across(
    found: &mut Found,
    id: &Identity,
    ranges: Ranges<'_>,
) -> Result<(), AllocError>
    ensures { OnOk result (found.new ≡ found.old
        ++ each_told (spec.reserved_overlap id.now ranges.entry.reserved.now)
        ranges.entry.extensions.now) }
{
    if are_all_apart(found.alloc(), ranges.reserved, ranges.extensions)? {
        return Ok(());
    }
    tell_pairs_across(found, id, ranges)
}

/// Appends which extension ranges overlap with a reserved one, as each is compared with those.
fn tell_pairs_across(found: &mut Found, id: &Identity, ranges: Ranges<'_>) -> Result<(), AllocError>
    ensures { OnOk result (found.new ≡ found.old
        ++ each_told (spec.reserved_overlap id.now ranges.entry.reserved.now)
        ranges.entry.extensions.now) }
{
    let extensions = ranges.extensions;
    for position in 0..extensions.len() {
        tell_reserved(found, id, ranges, position)?;
    }
    Ok(())
}
