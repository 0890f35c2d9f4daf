//! The messages of a pool.

ghost use Rattle.std.specs.Prelude.{◌≡◌, ◌++◌, IfOk, OnOk, string_bytes};
ghost use Rattle.std.specs.List.{flat_map};
ghost use Rattle.pool_descriptions.specs.Items as spec;

use crate::field::field_line;
use crate::head::{head_line, write_parent};
use crate::reserved::write_message_names;
use crate::words::{deprecated_line, name_word, place_words};
use descriptor_pool::DescriptorPool;
use pool_types::{
    ExtensionDescriptor, ExtensionDescriptorInner, FieldDescriptorInner, MessageDescriptorInner,
    OneofDescriptorInner,
};
use record_lists::message_parts;
use std::alloc::{AllocError, Global};
use std::fmt::Write;

/// Tells all messages of a pool.
pub(super) fn write_messages(
    text: &mut String,
    alloc: Global,
    pool: &DescriptorPool,
) -> Result<(), AllocError>
    ensures { OnOk result (string_bytes text.new ≡ string_bytes text.old
        ++ spec.messages_text pool.now) }
{
    for message in pool.messages() {
        write_message(text, alloc, pool, message)?;
    }
    Ok(())
}

/// Tells a message, its oneofs, its fields, what extends it, and the names that it reserves.
pub(super) fn write_message(
    text: &mut String,
    alloc: Global,
    pool: &DescriptorPool,
    message: &MessageDescriptorInner,
) -> Result<(), AllocError>
    ensures { OnOk result (string_bytes text.new ≡ string_bytes text.old
        ++ spec.message_text pool.now message.now) }
{
    write_head(text, alloc, pool, message)?;
    write_oneofs(text, alloc, message)?;
    write_fields(text, alloc, pool, message)?;
    write_extended(text, pool, message.extensions.as_slice())?;
    write_message_names(text, pool, &message.id)
}

/// Tells the name of a message, where it is declared, the message around it, and whether it is
/// deprecated.
fn write_head(
    text: &mut String,
    alloc: Global,
    pool: &DescriptorPool,
    message: &MessageDescriptorInner,
) -> Result<(), AllocError>
    ensures { OnOk result (string_bytes text.new ≡ string_bytes text.old
        ++ spec.message_head pool.now message.now) }
{
    let head = head_line(alloc, "message", pool, &message.id)?;
    text.push_str(head.as_str())?;
    write_parent(text, pool, message.parent)?;
    let parts = message_parts(pool.files(), &message.id);
    text.push_str(deprecated_line(parts.is_deprecated))
}

/// Tells the oneofs of a message.
fn write_oneofs(
    text: &mut String,
    alloc: Global,
    message: &MessageDescriptorInner,
) -> Result<(), AllocError>
    ensures { OnOk result (string_bytes text.new ≡ string_bytes text.old
        ++ spec.oneof_lines message.now) }
{
    for oneof in message.oneofs.as_slice() {
        write_oneof(text, alloc, message.fields.as_slice(), oneof)?;
    }
    Ok(())
}

/// Tells a oneof and its fields.
#[tactic(auto, unfolding(crate::specs::Items::oneof_line))]
fn write_oneof(
    text: &mut String,
    alloc: Global,
    fields: &[FieldDescriptorInner],
    oneof: &OneofDescriptorInner,
) -> Result<(), AllocError>
    ensures { OnOk result (string_bytes text.new ≡ string_bytes text.old
        ++ spec.oneof_line fields.now oneof.now) }
{
    let name = name_word(oneof.id.full_name());
    let place = place_words(alloc, &oneof.id)?;
    let members = member_words(alloc, fields, oneof.fields.as_slice())?;
    writeln!(text, "  oneof {name} {place}{members}")
}

/// The fields with some positions.
fn member_words(
    alloc: Global,
    fields: &[FieldDescriptorInner],
    positions: &[u32],
) -> Result<String, AllocError>
    ensures { IfOk result (λ s. string_bytes s ≡ spec.members_words fields.now positions.now) }
{
    let mut text = String::new(alloc);
    for position in positions {
        write_member(&mut text, fields, *position)?;
    }
    Ok(text)
}

/// Tells the field with a position.
fn write_member(
    text: &mut String,
    fields: &[FieldDescriptorInner],
    position: u32,
) -> Result<(), AllocError>
    ensures { OnOk result (string_bytes text.new ≡ string_bytes text.old
        ++ spec.member_words fields.now position) }
{
    let name = match fields.get(position as usize) {
        Some(field) => name_word(field.id.full_name()),
        None => name_word(""),
    };
    write!(text, " {name}")
}

/// Tells the fields of a message.
fn write_fields(
    text: &mut String,
    alloc: Global,
    pool: &DescriptorPool,
    message: &MessageDescriptorInner,
) -> Result<(), AllocError>
    ensures { OnOk result (string_bytes text.new ≡ string_bytes text.old
        ++ spec.field_lines pool.now message.now) }
{
    for field in message.fields.as_slice() {
        let line = field_line(alloc, pool, message.oneofs.as_slice(), field)?;
        text.push_str(line.as_str())?;
    }
    Ok(())
}

/// Tells extensions of a message.
fn write_extended(
    text: &mut String,
    pool: &DescriptorPool,
    extensions: &[u32],
) -> Result<(), AllocError>
    ensures { OnOk result (string_bytes text.new ≡ string_bytes text.old
        ++ flat_map (spec.extended_at pool.now) extensions.now) }
{
    for index in extensions {
        write_extended_at(text, pool, *index)?;
    }
    Ok(())
}

/// Tells the extension with an index, and its number.
fn write_extended_at(text: &mut String, pool: &DescriptorPool, index: u32) -> Result<(), AllocError>
    ensures { OnOk result (string_bytes text.new ≡ string_bytes text.old
        ++ spec.extended_at pool.now index) }
{
    match pool.extension(ExtensionDescriptor::new(index)) {
        Some(extension) => write_extended_line(text, extension),
        None => Ok(()),
    }
}

/// Tells an extension of a message, and its number.
fn write_extended_line(
    text: &mut String,
    extension: &ExtensionDescriptorInner,
) -> Result<(), AllocError>
    ensures { OnOk result (string_bytes text.new ≡ string_bytes text.old
        ++ spec.extended_line extension.now) }
{
    let (name, number) = (name_word(extension.id.full_name()), extension.number);
    writeln!(text, "  extended {name} = {number}")
}
