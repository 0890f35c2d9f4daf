//! The ranges of numbers of a message.

ghost use Rattle.std.specs.Prelude.{◌≡◌, ◌++◌, OnOk, string_bytes};
ghost use Rattle.std.specs.List.{flat_map};
ghost use Rattle.pool_descriptions.specs.Named as spec;

use descriptor_pool::DescriptorPool;
use pool_types::Identity;
use proto_types::{ExtensionRange, ReservedRange};
use record_lists::message_record;
use std::alloc::AllocError;
use std::fmt::Write;

/// Tells the ranges of a message, those of extensions first.
pub(super) fn write_ranges(
    text: &mut String,
    pool: &DescriptorPool,
    id: &Identity,
) -> Result<(), AllocError>
    ensures { OnOk result (string_bytes text.new ≡ string_bytes text.old
        ++ spec.range_lines pool.now id.now) }
{
    match message_record(pool.files(), id) {
        Some(message) => {
            write_extension_ranges(text, message.extension_range.as_slice())?;
            write_reserved_ranges(text, message.reserved_range.as_slice())
        }
        None => Ok(()),
    }
}

/// Tells ranges of numbers that are left to extensions.
fn write_extension_ranges(text: &mut String, ranges: &[ExtensionRange]) -> Result<(), AllocError>
    ensures { OnOk result (string_bytes text.new ≡ string_bytes text.old
        ++ flat_map spec.extension_range_line ranges.now) }
{
    for range in ranges {
        write_extension_range(text, range)?;
    }
    Ok(())
}

/// Tells a range of numbers that are left to extensions.
fn write_extension_range(text: &mut String, range: &ExtensionRange) -> Result<(), AllocError>
    ensures { OnOk result (string_bytes text.new ≡ string_bytes text.old
        ++ spec.extension_range_line range.now) }
{
    write_range(text, "extensions", range.start(), range.end())
}

/// Tells ranges of numbers that no field may have.
fn write_reserved_ranges(text: &mut String, ranges: &[ReservedRange]) -> Result<(), AllocError>
    ensures { OnOk result (string_bytes text.new ≡ string_bytes text.old
        ++ flat_map spec.reserved_range_line ranges.now) }
{
    for range in ranges {
        write_reserved_range(text, range)?;
    }
    Ok(())
}

/// Tells a range of numbers that no field may have.
fn write_reserved_range(text: &mut String, range: &ReservedRange) -> Result<(), AllocError>
    ensures { OnOk result (string_bytes text.new ≡ string_bytes text.old
        ++ spec.reserved_range_line range.now) }
{
    write_range(text, "reserved", range.start(), range.end())
}

/// Tells a range behind a word for it: its first number and its last one.
#[tactic(auto, unfolding(crate::specs::Named::range_line))]
fn write_range(text: &mut String, word: &str, start: i32, end: i32) -> Result<(), AllocError>
    ensures { OnOk result (string_bytes text.new ≡ string_bytes text.old
        ++ spec.range_line word.now start end) }
{
    let last = i64::from(end) - 1;
    writeln!(text, "  {word} {start} to {last}")
}
