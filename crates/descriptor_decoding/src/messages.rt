ghost use Rattle.std.specs.Prelude.{◌≡◌};
ghost use Rattle.wire_format.specs.Tokens.{value_seen, Len};
ghost use Rattle.descriptor_decoding.specs.Merging.{merged_from, within, Leaves};
ghost use Rattle.descriptor_decoding.specs.Parts.{inner_merged, messages_merged};
ghost use Rattle.proto_types.specs.Message.{no_oneof, no_extension_range, no_reserved_range};
ghost use Rattle.proto_types.specs.Message.{no_message};
ghost use Rattle.descriptor_decoding.specs.Messages.{oneof_merged, extension_range_merged};
ghost use Rattle.descriptor_decoding.specs.Messages.{reserved_range_merged, message_merged_at};
ghost use Rattle.descriptor_decoding.specs.Messages.{message_at};

use crate::context::Context;
use crate::error::DecodeError;
use crate::merging::Message;
use crate::options::merge_options;
use crate::parts::{merge_int32, merge_messages, merge_text, merge_texts};
use crate::room::make_room;
use plain_data::Items;
use proto_types::{DescriptorProto, ExtensionRange, OneofDescriptorProto, ReservedRange};
use std::alloc::Global;
use wire_format::{Field, Value, next_field};

impl Message for OneofDescriptorProto {
    ghost nothing = { no_oneof };

    ghost merged = { oneof_merged };

    fn empty(alloc: Global) -> OneofDescriptorProto {
        OneofDescriptorProto::empty(alloc)
    }

    #[tactic(auto, unfolding(crate::specs::Messages::oneof_merged))]
    fn merge_field(
        &mut self,
        context: Context,
        field: &Field<'_>,
        _after: &[u8],
    ) -> Result<(), DecodeError> {
        let value = &field.value;
        match field.number {
            1 => merge_text(&mut self.name, context, value),
            2 => merge_options(&mut self.options, context, value),
            _ => Ok(()),
        }
    }
}

impl Message for ExtensionRange {
    ghost nothing = { no_extension_range };

    ghost merged = { extension_range_merged };

    fn empty(alloc: Global) -> ExtensionRange {
        ExtensionRange::empty(alloc)
    }

    #[tactic(auto, unfolding(crate::specs::Messages::extension_range_merged))]
    fn merge_field(
        &mut self,
        context: Context,
        field: &Field<'_>,
        _after: &[u8],
    ) -> Result<(), DecodeError> {
        let value = &field.value;
        match field.number {
            1 => Ok(merge_int32(&mut self.start, value)),
            2 => Ok(merge_int32(&mut self.end, value)),
            3 => merge_options(&mut self.options, context, value),
            _ => Ok(()),
        }
    }
}

impl Message for ReservedRange {
    ghost nothing = { no_reserved_range };

    ghost merged = { reserved_range_merged };

    fn empty(alloc: Global) -> ReservedRange {
        ReservedRange::empty(alloc)
    }

    #[tactic(auto, unfolding(crate::specs::Messages::reserved_range_merged))]
    fn merge_field(
        &mut self,
        _context: Context,
        field: &Field<'_>,
        _after: &[u8],
    ) -> Result<(), DecodeError> {
        let value = &field.value;
        match field.number {
            1 => Ok(merge_int32(&mut self.start, value)),
            2 => Ok(merge_int32(&mut self.end, value)),
            _ => Ok(()),
        }
    }
}

impl Message for DescriptorProto {
    ghost nothing = { no_message };

    ghost merged = { message_merged_at };

    fn empty(alloc: Global) -> DescriptorProto {
        DescriptorProto::empty(alloc)
    }

    fn merge_field(
        &mut self,
        context: Context,
        field: &Field<'_>,
        after: &[u8],
    ) -> Result<(), DecodeError> {
        merge_message_field(self, context, field, after)
    }
}

/// Reads a field into a message.
#[inline(always)]
#[cycle(message)]
#[tactic(auto, unfolding(crate::specs::Messages::message_row))]
fn merge_message_field(
    message: &mut DescriptorProto,
    context: Context,
    field: &Field<'_>,
    after: &[u8],
) -> Result<(), DecodeError>
    ensures { Leaves result message.new
        (message_at context.levels field.now.number (value_seen field.now.value) message.old) }
{
    let value = &field.value;
    match field.number {
        1 => merge_text(&mut message.name, context, value),
        2 => merge_messages(&mut message.field, context, field, after),
        3 => merge_nested(&mut message.nested_type, context, field, after),
        4 => merge_messages(&mut message.enum_type, context, field, after),
        5 => merge_messages(&mut message.extension_range, context, field, after),
        6 => merge_messages(&mut message.extension, context, field, after),
        7 => merge_options(&mut message.options, context, value),
        8 => merge_messages(&mut message.oneof_decl, context, field, after),
        9 => merge_messages(&mut message.reserved_range, context, field, after),
        10 => merge_texts(&mut message.reserved_name, context, value),
        _ => Ok(()),
    }
}

/// Reads one of the messages in a message.
#[inline(always)]
#[cycle(message)]
#[tactic(auto, unfolding(crate::specs::Parts::messages_merged))]
fn merge_nested(
    items: &mut Items<DescriptorProto>,
    context: Context,
    field: &Field<'_>,
    after: &[u8],
) -> Result<(), DecodeError>
    ensures { Leaves result items.new
        (messages_merged no_message (within context.levels message_merged_at)
        (value_seen field.now.value) items.old) }
{
    match &field.value {
        Value::Len(bytes, ends) => {
            make_room(items, field.number, after)?;
            add_nested(items, context, *ends, bytes)
        }
        _ => Ok(()),
    }
}

/// Puts a message of these bytes behind the others, if a level is left.
#[cycle(message)]
#[tactic(auto, unfolding(crate::specs::Parts::messages_merged))]
fn add_nested(
    items: &mut Items<DescriptorProto>,
    context: Context,
    ends: usize,
    bytes: &[u8],
) -> Result<(), DecodeError>
    ensures { Leaves result items.new
        (messages_merged no_message (within context.levels message_merged_at)
        (Len bytes.now ends) items.old) }
{
    let mut message = DescriptorProto::empty(context.alloc);
    merge_nested_inner(&mut message, context, ends, bytes)?;
    items.push(message)?;
    Ok(())
}

/// Reads the fields of bytes into a message, if a level is left.
#[cycle(message)]
fn merge_nested_inner(
    message: &mut DescriptorProto,
    context: Context,
    ends: usize,
    bytes: &[u8],
) -> Result<(), DecodeError>
    ensures { Leaves result message.new
        (inner_merged (within context.levels message_merged_at) ends bytes.now message.old) }
{
    let inner = context.inner(ends, bytes)?;
    merge_nested_fields(message, inner, ends, bytes)
}

/// Reads the fields of bytes, which end at offset `ends` of the input, into a message. No cycle of
/// calls can go through the trait, so `merge` does not serve here.
#[cycle(message)]
fn merge_nested_fields(
    message: &mut DescriptorProto,
    context: Context,
    ends: usize,
    bytes: &[u8],
) -> Result<(), DecodeError>
    ensures { Leaves result message.new
        (merged_from context.levels (message_at context.levels) ends bytes.now message.old) }
{
    let mut rest = bytes;
    while let Some((field, after)) = next_field(context.levels, ends, rest)? {
        merge_message_field(message, context, &field, after)?;
        rest = after;
    }
    Ok(())
}
