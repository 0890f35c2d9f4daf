ghost use Rattle.std.specs.Prelude.{◌≡◌, unwrap_or};
ghost use Rattle.wire_format.specs.Tokens.{value_seen, Len};
ghost use Rattle.descriptor_decoding.specs.Merging.{within, Leaves, Gives};
ghost use Rattle.descriptor_decoding.specs.Parts.{int32, int32_merged, bool_merged, text_of};
ghost use Rattle.descriptor_decoding.specs.Parts.{text_merged, texts_merged, packed_merged};
ghost use Rattle.descriptor_decoding.specs.Parts.{int32s_merged, inner_merged, message_merged};
ghost use Rattle.descriptor_decoding.specs.Parts.{messages_merged};

use crate::context::Context;
use crate::error::DecodeError;
use crate::merging::{Message, merge};
use crate::room::make_room;
use crate::utf8::read_utf8;
use plain_data::{Items, Numbers, Text};
use std::alloc::{AllocError, Global};
use wire_format::{Field, Value, WireFault, WireFaultKind, next_number};

fn int32(number: u64) -> i32
    ensures { result ≡ int32 number }
{
    ((number & 0xffff_ffff) as u32).cast_signed()
}

/// Reads a number or an enum.
#[inline]
pub fn merge_int32(part: &mut Option<i32>, value: &Value<'_>)
    ensures { part.new ≡ int32_merged (value_seen value.now) part.old }
{
    if let Value::Varint(number) = value {
        *part = Some(int32(*number));
    }
}

/// Reads a truth value.
#[inline]
pub fn merge_bool(part: &mut Option<bool>, value: &Value<'_>)
    ensures { part.new ≡ bool_merged (value_seen value.now) part.old }
{
    if let Value::Varint(number) = value {
        *part = Some(*number != 0);
    }
}

/// A text of these bytes, which end at offset `ends` of the input.
#[inline(always)]
fn text(alloc: Global, ends: usize, bytes: &[u8]) -> Result<Text, DecodeError>
    ensures { Gives result (text_of ends bytes.now) }
{
    match read_utf8(bytes) {
        Some(text) => Ok(Text::from_str(alloc, text)?),
        None => Err(DecodeError::Fault(WireFault::new(WireFaultKind::NotUtf8, ends, bytes))),
    }
}

/// Reads a text.
#[inline(always)]
#[tactic(auto, unfolding(crate::specs::Parts::text_merged))]
pub fn merge_text(
    part: &mut Option<Text>,
    context: Context,
    value: &Value<'_>,
) -> Result<(), DecodeError>
    ensures { Leaves result part.new (text_merged (value_seen value.now) part.old) }
{
    match value {
        Value::Len(bytes, ends) => put_text(part, context.alloc, *ends, bytes),
        _ => Ok(()),
    }
}

/// Puts a text of these bytes in the place of the one that may be there.
#[inline(never)]
#[tactic(auto, unfolding(crate::specs::Parts::text_merged))]
fn put_text(
    part: &mut Option<Text>,
    alloc: Global,
    ends: usize,
    bytes: &[u8],
) -> Result<(), DecodeError>
    ensures { Leaves result part.new (text_merged (Len bytes.now ends) part.old) }
{
    *part = Some(text(alloc, ends, bytes)?);
    Ok(())
}

/// Reads one of repeated texts.
#[inline(always)]
#[tactic(auto, unfolding(crate::specs::Parts::texts_merged))]
pub fn merge_texts(
    items: &mut Items<Text>,
    context: Context,
    value: &Value<'_>,
) -> Result<(), DecodeError>
    ensures { Leaves result items.new (texts_merged (value_seen value.now) items.old) }
{
    match value {
        Value::Len(bytes, ends) => add_text(items, context.alloc, *ends, bytes),
        _ => Ok(()),
    }
}

/// Puts a text of these bytes behind the others.
#[inline(never)]
#[tactic(auto, unfolding(crate::specs::Parts::texts_merged))]
fn add_text(
    items: &mut Items<Text>,
    alloc: Global,
    ends: usize,
    bytes: &[u8],
) -> Result<(), DecodeError>
    ensures { Leaves result items.new (texts_merged (Len bytes.now ends) items.old) }
{
    items.push(text(alloc, ends, bytes)?)?;
    Ok(())
}

/// Takes room for packed numbers where none came yet: each ends with a byte below 128. Those of
/// further parts find room by leaps. Up to seven bytes are not counted, since a list has room for
/// seven numbers in itself.
fn take_room(items: &mut Numbers, bytes: &[u8]) -> Result<(), AllocError>
    ensures { items.new ≡ items.old }
{
    if bytes.len() <= 7 || !items.as_slice().is_empty() {
        return Ok(());
    }
    items.reserve_exact(bytes.iter().filter(|b| **b < 128).count())
}

/// Reads packed numbers.
fn merge_packed(items: &mut Numbers, ends: usize, bytes: &[u8]) -> Result<(), DecodeError>
    ensures { Leaves result items.new (packed_merged ends bytes.now items.old) }
{
    take_room(items, bytes)?;
    let mut rest = bytes;
    while let Some((number, after)) = next_number(ends, rest)? {
        items.push(int32(number))?;
        rest = after;
    }
    Ok(())
}

/// Reads repeated numbers, packed or not.
#[inline(always)]
#[tactic(auto, unfolding(crate::specs::Parts::int32s_merged))]
pub fn merge_int32s(items: &mut Numbers, value: &Value<'_>) -> Result<(), DecodeError>
    ensures { Leaves result items.new (int32s_merged (value_seen value.now) items.old) }
{
    match value {
        Value::Varint(number) => {
            items.push(int32(*number))?;
            Ok(())
        }
        Value::Len(bytes, ends) => merge_packed(items, *ends, bytes),
        _ => Ok(()),
    }
}

/// Reads the fields of bytes, which end at offset `ends` of the input, into a message, if a level
/// is left.
pub fn merge_inner<M: Message>(
    message: &mut M,
    context: Context,
    ends: usize,
    bytes: &[u8],
) -> Result<(), DecodeError>
    ensures { Leaves result message.new
        (inner_merged (within context.levels M.merged) ends bytes.now message.old) }
{
    let inner = context.inner(ends, bytes)?;
    merge(message, inner, ends, bytes)
}

/// The message that is there, or an empty one.
fn taken<M: Message>(part: &mut Option<M>, alloc: Global) -> M
    ensures { result ≡ unwrap_or part.old M.nothing }
{
    match part.take() {
        Some(message) => message,
        None => M::empty(alloc),
    }
}

/// Reads a message that may be there already.
#[inline(always)]
#[tactic(auto, unfolding(crate::specs::Parts::message_merged))]
pub fn merge_message<M: Message>(
    part: &mut Option<M>,
    context: Context,
    value: &Value<'_>,
) -> Result<(), DecodeError>
    ensures { Leaves result part.new
        (message_merged M.nothing (within context.levels M.merged)
        (value_seen value.now) part.old) }
{
    if let Value::Len(bytes, ends) = value {
        let mut message = taken(part, context.alloc);
        merge_inner(&mut message, context, *ends, bytes)?;
        *part = Some(message);
    }
    Ok(())
}

/// Reads one of repeated messages.
#[inline(always)]
#[tactic(auto, unfolding(crate::specs::Parts::messages_merged))]
pub fn merge_messages<M: Message>(
    items: &mut Items<M>,
    context: Context,
    field: &Field<'_>,
    after: &[u8],
) -> Result<(), DecodeError>
    ensures { Leaves result items.new
        (messages_merged M.nothing (within context.levels M.merged)
        (value_seen field.now.value) items.old) }
{
    match &field.value {
        Value::Len(bytes, ends) => {
            make_room(items, field.number, after)?;
            add_message(items, context, *ends, bytes)
        }
        _ => Ok(()),
    }
}

/// Puts a message of these bytes behind the others, if a level is left. It is read where it stays.
#[tactic(auto, unfolding(crate::specs::Parts::messages_merged))]
fn add_message<M: Message>(
    items: &mut Items<M>,
    context: Context,
    ends: usize,
    bytes: &[u8],
) -> Result<(), DecodeError>
    ensures { Leaves result items.new
        (messages_merged M.nothing (within context.levels M.merged)
        (Len bytes.now ends) items.old) }
{
    let position = items.as_slice().len();
    items.push(M::empty(context.alloc))?;
    merge_inner(&mut items.as_mut_slice()[position], context, ends, bytes)
}
