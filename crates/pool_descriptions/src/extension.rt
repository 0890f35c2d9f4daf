//! The extensions of a pool.

ghost use Rattle.std.specs.Prelude.{◌≡◌, ◌++◌, [], IfOk, OnOk, slice_get, string_bytes};
ghost use Rattle.std.specs.Option.{option_map_or};
ghost use Rattle.pool_descriptions.specs.Items as spec;

use crate::head::{head_line, write_parent};
use crate::values::default_words;
use crate::words::{flag_words, message_name, name_word, record_words, type_words};
use descriptor_pool::DescriptorPool;
use pool_types::{ExtensionDescriptor, ExtensionDescriptorInner};
use std::alloc::{AllocError, Global};

/// Tells all extensions of a pool.
pub(super) fn write_extensions(
    text: &mut String,
    alloc: Global,
    pool: &DescriptorPool,
) -> Result<(), AllocError>
    ensures { OnOk result (string_bytes text.new ≡ string_bytes text.old
        ++ spec.extensions_text pool.now) }
{
    for extension in pool.extensions() {
        write_extension(text, alloc, pool, extension)?;
    }
    Ok(())
}

/// Tells the extension with an index, where there is one.
pub(super) fn write_extension_at(
    text: &mut String,
    alloc: Global,
    pool: &DescriptorPool,
    index: u32,
) -> Result<(), AllocError>
    ensures { OnOk result (string_bytes text.new ≡ string_bytes text.old
        ++ option_map_or (spec.extension_text pool.now) (slice_get pool.now.extensions index) []) }
{
    match pool.extension(ExtensionDescriptor::new(index)) {
        Some(extension) => write_extension(text, alloc, pool, extension),
        None => Ok(()),
    }
}

/// Tells an extension: where it is declared, what it extends, and what it is as a field.
fn write_extension(
    text: &mut String,
    alloc: Global,
    pool: &DescriptorPool,
    extension: &ExtensionDescriptorInner,
) -> Result<(), AllocError>
    ensures { OnOk result (string_bytes text.new ≡ string_bytes text.old
        ++ spec.extension_text pool.now extension.now) }
{
    let head = head_line(alloc, "extension", pool, &extension.id)?;
    text.push_str(head.as_str())?;
    write_parent(text, pool, extension.parent)?;
    let extends = extends_line(alloc, pool, extension)?;
    text.push_str(extends.as_str())
}

/// What an extension extends, and what it is as a field.
fn extends_line(
    alloc: Global,
    pool: &DescriptorPool,
    extension: &ExtensionDescriptorInner,
) -> Result<String, AllocError>
    ensures { IfOk result (λ s. string_bytes s ≡ spec.extends_line pool.now extension.now) }
{
    let (extendee, number) = (message_name(pool, extension.extendee), extension.number);
    let kind = type_words(alloc, pool, extension.cardinality, extension.kind)?;
    let marks = extension_marks(alloc, pool, extension)?;
    format!(in alloc; "  extends {extendee} = {number} {kind}{marks}\n")
}

/// What is told of an extension behind its kind.
fn extension_marks(
    alloc: Global,
    pool: &DescriptorPool,
    extension: &ExtensionDescriptorInner,
) -> Result<String, AllocError>
    ensures { IfOk result (λ s. string_bytes s ≡ spec.extension_marks pool.now extension.now) }
{
    let flags = flag_words(extension.is_packed, false);
    let json_name = name_word(extension.json_name.as_str());
    let default = default_words(alloc, &extension.default)?;
    let record = record_words(alloc, pool, &extension.id, extension.kind)?;
    format!(in alloc; "{flags} json_name {json_name}{default}{record}")
}
