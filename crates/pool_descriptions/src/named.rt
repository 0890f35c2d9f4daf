//! What a name means.

ghost use Rattle.std.specs.Prelude.{◌≡◌, ◌++◌, [], IfOk, OnOk, slice_get, string_bytes};
ghost use Rattle.std.specs.Option.{option_copied, option_map_or};
ghost use Rattle.pool_descriptions.specs.Named as spec;

use crate::enumeration::write_enum_at;
use crate::extension::write_extension_at;
use crate::file::write_file;
use crate::message::write_message;
use crate::ranges::write_ranges;
use crate::service::write_service_at;
use crate::words::{file_name, name_word, path_words};
use descriptor_pool::DescriptorPool;
use pool_types::{Definition, DefinitionKind, FileDescriptorInner, MessageDescriptor};
use std::alloc::{AllocError, Global};

/// What a name means in a pool, as a text; nothing where it means nothing. The name is a full name,
/// with one leading dot or without, or else that of a file. A message is told by the lines that
/// `describe` has of it and by its ranges, each with its first and its last number; an enum, a
/// service, an extension and a file by those of `describe`, and a field, a oneof, a value and a
/// method by those of the item in which it stands. Of a package the first file that has it is told.
/// Names are escaped as `describe` escapes them.
///
/// # Errors
/// `AllocError` where memory was refused.
#[tactic(auto, unfolding(crate::specs::Named::name_text))]
pub fn describe_name(alloc: Global, pool: &DescriptorPool, name: &str) -> Result<String, AllocError>
    ensures { IfOk result (λ text. string_bytes text ≡ spec.name_text pool.now name.now) }
{
    match pool.get_by_name(name) {
        Some(definition) => definition_text(alloc, pool, name, definition),
        None => named_file_text(alloc, pool, name),
    }
}

/// What a name means that is a full name.
fn definition_text(
    alloc: Global,
    pool: &DescriptorPool,
    name: &str,
    definition: &Definition,
) -> Result<String, AllocError>
    ensures { IfOk result (λ text. string_bytes text
        ≡ spec.definition_text pool.now name.now definition.now) }
{
    if definition.kind.is_package() {
        return package_text(alloc, pool, name, definition);
    }
    let mut text = String::new(alloc);
    write_item(&mut text, alloc, pool, definition.kind)?;
    Ok(text)
}

/// A package, and the first file that has it.
fn package_text(
    alloc: Global,
    pool: &DescriptorPool,
    name: &str,
    definition: &Definition,
) -> Result<String, AllocError>
    ensures { IfOk result (λ text. string_bytes text
        ≡ spec.package_text pool.now name.now definition.now) }
{
    let (name, file) = (name_word(name), file_name(pool, definition.file));
    let path = path_words(alloc, definition.path.as_slice())?;
    format!(in alloc; "package {name} {file} {path}\n")
}

/// Tells the item that a kind of definition names, or in which it stands.
fn write_item(
    text: &mut String,
    alloc: Global,
    pool: &DescriptorPool,
    kind: DefinitionKind,
) -> Result<(), AllocError>
    ensures { OnOk result (string_bytes text.new ≡ string_bytes text.old
        ++ spec.item_text pool.now kind) }
{
    match kind {
        DefinitionKind::Package => Ok(()),
        DefinitionKind::Message(index) => write_whole_message(text, alloc, pool, index),
        DefinitionKind::Field(index) => write_whole_message(text, alloc, pool, index),
        DefinitionKind::Oneof(index) => write_whole_message(text, alloc, pool, index),
        DefinitionKind::Service(index) => write_service_at(text, alloc, pool, index),
        DefinitionKind::Method(index) => write_service_at(text, alloc, pool, index),
        DefinitionKind::Enum(index) => write_enum_at(text, alloc, pool, index),
        DefinitionKind::EnumValue(index) => write_enum_at(text, alloc, pool, index),
        DefinitionKind::Extension(index) => write_extension_at(text, alloc, pool, index),
    }
}

/// Tells the message with an index and its ranges, where there is one.
fn write_whole_message(
    text: &mut String,
    alloc: Global,
    pool: &DescriptorPool,
    index: u32,
) -> Result<(), AllocError>
    ensures { OnOk result (string_bytes text.new ≡ string_bytes text.old
        ++ option_map_or (spec.whole_message pool.now) (slice_get pool.now.messages index) []) }
{
    match pool.message(MessageDescriptor::new(index)) {
        Some(message) => {
            write_message(text, alloc, pool, message)?;
            write_ranges(text, pool, &message.id)
        }
        None => Ok(()),
    }
}

/// The file with a name.
fn file_named<'p>(pool: &'p DescriptorPool, name: &str) -> Option<&'p FileDescriptorInner>
    ensures { option_copied result ≡ spec.file_named pool.now name.now }
{
    pool.file(pool.get_file_by_name(name)?)
}

/// The file with a name, where there is one.
fn named_file_text(alloc: Global, pool: &DescriptorPool, name: &str) -> Result<String, AllocError>
    ensures { IfOk result (λ text. string_bytes text ≡ spec.named_file_text pool.now name.now) }
{
    let mut text = String::new(alloc);
    if let Some(file) = file_named(pool, name) {
        write_file(&mut text, pool, file)?;
    }
    Ok(text)
}
