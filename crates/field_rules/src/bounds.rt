ghost use Rattle.std.specs.Prelude.{◌≡◌, IfOk};
ghost use Rattle.field_rules.specs.Bounds.{extension_bounds, reserved_bounds};

use proto_types::{ExtensionRange, ReservedRange};
use std::alloc::{AllocError, Global};

/// The start and the end of each reserved range.
pub(crate) fn reserved_bounds(
    alloc: Global,
    ranges: &[ReservedRange],
) -> Result<Vec<(i32, i32)>, AllocError>
    ensures { IfOk result (λ bounds. bounds.items ≡ reserved_bounds ranges.now) }
{
    if ranges.is_empty() {
        return Ok(Vec::new(alloc));
    }
    let bounds = ranges.iter().map(|range| (range.start(), range.end()));
    bounds.collect(alloc)
}

/// The start and the end of each extension range.
pub(crate) fn extension_bounds(
    alloc: Global,
    ranges: &[ExtensionRange],
) -> Result<Vec<(i32, i32)>, AllocError>
    ensures { IfOk result (λ bounds. bounds.items ≡ extension_bounds ranges.now) }
{
    if ranges.is_empty() {
        return Ok(Vec::new(alloc));
    }
    let bounds = ranges.iter().map(|range| (range.start(), range.end()));
    bounds.collect(alloc)
}
