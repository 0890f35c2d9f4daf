//! What the commands of a script answer of a pool.

ghost use Rattle.std.specs.Prelude.{◌≡◌, ◌++◌, OnOk, string_bytes};
ghost use Rattle.std.specs.Option.{option_map};
ghost use Rattle.pool_types.specs.Contents.{files_of};
ghost use Rattle.proto_types.specs.File.{file_at};
ghost use Rattle.proto_types.specs.Readers.{text_of};
ghost use Rattle.descriptor_linker.specs.Report.Lines.{walk_answer, refs_answer};
ghost use Rattle.descriptor_linker.specs.Report.Answers as spec;

use super::lines::{self, write_definition, write_extension, write_none};
use descriptor_pool::DescriptorPool;
use pool_types::{DefinitionKind, ExtensionDescriptor, FileDescriptor, MessageDescriptor};
use std::alloc::{AllocError, Global};

/// The name of the file with an index, or the empty text where there is none.
fn file_name(pool: &DescriptorPool, file: u32) -> &str
    ensures { result.now ≡ text_of (file_at (files_of pool.now) file).name }
{
    match pool.file(FileDescriptor::new(file)) {
        Some(file) => file.raw.name(),
        None => "",
    }
}

/// Tells what a name means in a pool: its kind, its file and its path.
pub(super) fn write_found(
    report: &mut String,
    pool: &DescriptorPool,
    name: &str,
) -> Result<(), AllocError>
    ensures { OnOk result (string_bytes report.new ≡ string_bytes report.old
        ++ spec.find_answer pool.now name.now) }
{
    let Some(definition) = pool.get_by_name(name) else {
        return write_none(report);
    };
    write_definition(report, definition, file_name(pool, definition.file))
}

/// Tells what the files of a pool declare.
pub(super) fn write_walk(
    alloc: Global,
    report: &mut String,
    pool: &DescriptorPool,
) -> Result<(), AllocError>
    ensures { OnOk result (string_bytes report.new ≡ string_bytes report.old
        ++ walk_answer (files_of pool.now)) }
{
    lines::write_walk(alloc, report, pool.files())
}

/// Tells to what a pool's file with a name refers.
pub(super) fn write_refs(
    alloc: Global,
    report: &mut String,
    pool: &DescriptorPool,
    name: &str,
) -> Result<(), AllocError>
    ensures { OnOk result (string_bytes report.new ≡ string_bytes report.old
        ++ refs_answer (files_of pool.now) name.now) }
{
    lines::write_refs(alloc, report, pool.files(), name)
}

/// The message that a name means in a pool.
fn message_named(pool: &DescriptorPool, name: &str) -> Option<MessageDescriptor>
    ensures { option_map (λ message. message.index) result ≡ spec.message_named pool.now name.now }
{
    match pool.get_by_name(name)?.kind {
        DefinitionKind::Message(index) => Some(MessageDescriptor::new(index)),
        _ => None,
    }
}

/// The extension with a number of the message that a name means.
fn extension_found(pool: &DescriptorPool, name: &str, number: i32) -> Option<ExtensionDescriptor>
    ensures { option_map (λ extension. extension.index) result
        ≡ spec.extension_found pool.now name.now number }
{
    if number < 0 {
        return None;
    }
    pool.get_extension(message_named(pool, name)?, number as u32)
}

/// The full name of the extension with an index, or the empty text where there is none.
fn extension_name(pool: &DescriptorPool, extension: ExtensionDescriptor) -> &str
    ensures { result.now ≡ spec.extension_name pool.now extension.index }
{
    match pool.extension(extension) {
        Some(extension) => extension.id.full_name(),
        None => "",
    }
}

/// Tells the extension with a number of the message that a name means: its index and its full name.
pub(super) fn write_ext(
    report: &mut String,
    pool: &DescriptorPool,
    name: &str,
    number: i32,
) -> Result<(), AllocError>
    ensures { OnOk result (string_bytes report.new ≡ string_bytes report.old
        ++ spec.ext_answer pool.now name.now number) }
{
    let Some(extension) = extension_found(pool, name, number) else {
        return write_none(report);
    };
    write_extension(report, extension.index(), extension_name(pool, extension))
}
