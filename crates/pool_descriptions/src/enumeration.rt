//! The enums of a pool.

ghost use Rattle.std.specs.Prelude.{◌≡◌, ◌++◌, [], OnOk, slice_get, string_bytes};
ghost use Rattle.std.specs.List.{flat_map};
ghost use Rattle.std.specs.Option.{option_map_or};
ghost use Rattle.pool_descriptions.specs.Items as spec;

use crate::head::{head_line, write_parent};
use crate::reserved::write_enum_names;
use crate::words::{deprecated_line, deprecated_word, name_word, place_words};
use descriptor_pool::DescriptorPool;
use pool_types::{EnumDescriptor, EnumDescriptorInner, EnumValueDescriptorInner};
use record_lists::{enum_parts, is_value_deprecated};
use std::alloc::{AllocError, Global};
use std::fmt::Write;

/// Tells all enums of a pool.
pub(super) fn write_enums(
    text: &mut String,
    alloc: Global,
    pool: &DescriptorPool,
) -> Result<(), AllocError>
    ensures { OnOk result (string_bytes text.new ≡ string_bytes text.old
        ++ spec.enums_text pool.now) }
{
    for enumeration in pool.enums() {
        write_enum(text, alloc, pool, enumeration)?;
    }
    Ok(())
}

/// Tells the enum with an index, where there is one.
pub(super) fn write_enum_at(
    text: &mut String,
    alloc: Global,
    pool: &DescriptorPool,
    index: u32,
) -> Result<(), AllocError>
    ensures { OnOk result (string_bytes text.new ≡ string_bytes text.old
        ++ option_map_or (spec.enum_text pool.now) (slice_get pool.now.enums index) []) }
{
    match pool.enum_(EnumDescriptor::new(index)) {
        Some(enumeration) => write_enum(text, alloc, pool, enumeration),
        None => Ok(()),
    }
}

/// Tells an enum, its values, and the names that it reserves.
fn write_enum(
    text: &mut String,
    alloc: Global,
    pool: &DescriptorPool,
    enumeration: &EnumDescriptorInner,
) -> Result<(), AllocError>
    ensures { OnOk result (string_bytes text.new ≡ string_bytes text.old
        ++ spec.enum_text pool.now enumeration.now) }
{
    write_head(text, alloc, pool, enumeration)?;
    text.push_str(alias_line(enumeration.allow_alias))?;
    write_values(text, alloc, pool, enumeration.values.as_slice())?;
    write_enum_names(text, pool, &enumeration.id)
}

/// Tells the name of an enum, where it is declared, the message around it, and whether it is
/// deprecated.
fn write_head(
    text: &mut String,
    alloc: Global,
    pool: &DescriptorPool,
    enumeration: &EnumDescriptorInner,
) -> Result<(), AllocError>
    ensures { OnOk result (string_bytes text.new ≡ string_bytes text.old
        ++ spec.enum_head pool.now enumeration.now) }
{
    let head = head_line(alloc, "enum", pool, &enumeration.id)?;
    text.push_str(head.as_str())?;
    write_parent(text, pool, enumeration.parent)?;
    let parts = enum_parts(pool.files(), &enumeration.id);
    text.push_str(deprecated_line(parts.is_deprecated))
}

/// Whether two values may have one number.
fn alias_line(allow_alias: bool) -> &'static str
    ensures { result.now ≡ spec.alias_line allow_alias }
{
    if allow_alias { "  allow_alias\n" } else { "" }
}

/// Tells values.
fn write_values(
    text: &mut String,
    alloc: Global,
    pool: &DescriptorPool,
    values: &[EnumValueDescriptorInner],
) -> Result<(), AllocError>
    ensures { OnOk result (string_bytes text.new ≡ string_bytes text.old
        ++ flat_map (spec.value_line pool.now) values.now) }
{
    for value in values {
        write_value(text, alloc, pool, value)?;
    }
    Ok(())
}

/// Tells a value.
#[tactic(auto, unfolding(crate::specs::Items::value_line))]
fn write_value(
    text: &mut String,
    alloc: Global,
    pool: &DescriptorPool,
    value: &EnumValueDescriptorInner,
) -> Result<(), AllocError>
    ensures { OnOk result (string_bytes text.new ≡ string_bytes text.old
        ++ spec.value_line pool.now value.now) }
{
    let (name, number) = (name_word(value.id.full_name()), value.number);
    let place = place_words(alloc, &value.id)?;
    let deprecated = deprecated_word(is_value_deprecated(pool.files(), &value.id));
    writeln!(text, "  value {name} = {number} {place}{deprecated}")
}
