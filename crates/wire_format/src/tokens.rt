//! Tokens: numbered values, and the beginnings and ends of groups.

ghost use Rattle.std.specs.Prelude.{◌≡◌, ◌<◌, length, IfOk, IfSome};
ghost use Rattle.std.specs.Int.{w32, w64};
ghost use Rattle.wire_format.specs.Reading.{Reads};
ghost use Rattle.wire_format.specs.Tokens.{value_seen, seen, fixed, delimited, value, token};
ghost use Rattle.wire_format.specs.Fields.{tokens, IsFirst};

use crate::fault::{WireFault, WireFaultKind};
use crate::varints::{tag, varint};

/// The value of a field.
#[derive(Clone, Copy, Drop)]
pub enum Value<'a> {
    Varint(u64),
    I64(u64),
    /// The bytes of a text, a message or packed numbers, and the offset in the input of their end.
    Len(&'a [u8], usize),
    /// The beginning of a group, whose tag stands at this offset of the input.
    Group(usize),
    /// The end of a group, whose tag stands at this offset.
    EndGroup(usize),
    I32(u32),
}

/// A field's number, which is not 0, and its value.
#[derive(Clone, Copy, Drop)]
pub struct Field<'a> {
    pub number: u32,
    pub value: Value<'a>,
}

#[tactic(auto, unfolding(crate::specs::Tokens::fixed))]
fn fixed_64(ends: usize, bytes: &[u8]) -> Result<(u64, &[u8]), WireFault>
    ensures { Reads (λ x. (x.0, x.1.now)) result (fixed w64 ends bytes.now) }
{
    if bytes.len() < 8 {
        return Err(WireFault::new(WireFaultKind::Truncated, ends, bytes));
    }
    let (front, rest) = bytes.split_at(8);
    let number = u64::from_le_bytes([
        front[0], front[1], front[2], front[3], front[4], front[5], front[6], front[7],
    ]);
    Ok((number, rest))
}

#[tactic(auto, unfolding(crate::specs::Tokens::fixed))]
fn fixed_32(ends: usize, bytes: &[u8]) -> Result<(u32, &[u8]), WireFault>
    ensures { Reads (λ x. (x.0, x.1.now)) result (fixed w32 ends bytes.now) }
{
    if bytes.len() < 4 {
        return Err(WireFault::new(WireFaultKind::Truncated, ends, bytes));
    }
    let (front, rest) = bytes.split_at(4);
    let number = u32::from_le_bytes([front[0], front[1], front[2], front[3]]);
    Ok((number, rest))
}

#[inline(always)]
#[tactic(auto, unfolding(crate::specs::Tokens::delimited))]
fn delimited(ends: usize, bytes: &[u8]) -> Result<(&[u8], &[u8]), WireFault>
    ensures { Reads (λ x. (x.0.now, x.1.now)) result (delimited ends bytes.now) }
{
    let (len, rest) = varint(ends, bytes)?;
    if (rest.len() as u64) < len {
        return Err(WireFault::new(WireFaultKind::Truncated, ends, rest));
    }
    Ok(rest.split_at(len as usize))
}

/// The value behind a tag, which begins at offset `at`, and what follows it.
#[inline(always)]
#[tactic(auto, unfolding(crate::specs::Tokens::value))]
fn value_behind(
    wire_type: u32,
    at: usize,
    ends: usize,
    bytes: &[u8],
) -> Result<(Value<'_>, &[u8]), WireFault>
    ensures { Reads (λ x. (value_seen x.0, x.1.now)) result (value wire_type at ends bytes.now) }
{
    match wire_type {
        0 => {
            let (number, rest) = varint(ends, bytes)?;
            Ok((Value::Varint(number), rest))
        }
        1 => {
            let (number, rest) = fixed_64(ends, bytes)?;
            Ok((Value::I64(number), rest))
        }
        2 => {
            let (payload, rest) = delimited(ends, bytes)?;
            let payload_ends = ends.saturating_sub(rest.len());
            Ok((Value::Len(payload, payload_ends), rest))
        }
        3 => Ok((Value::Group(at), bytes)),
        4 => Ok((Value::EndGroup(at), bytes)),
        5 => {
            let (number, rest) = fixed_32(ends, bytes)?;
            Ok((Value::I32(number), rest))
        }
        _ => Err(WireFault {
            kind: WireFaultKind::UnknownWireType,
            at,
        }),
    }
}

/// The token at the front, and what follows it.
#[inline(always)]
#[tactic(auto, unfolding(crate::specs::Tokens::token))]
fn token(ends: usize, bytes: &[u8]) -> Result<(Field<'_>, &[u8]), WireFault>
    ensures { Reads (λ x. (seen x.0, x.1.now)) result (token ends bytes.now) }
{
    let (tag, rest) = tag(ends, bytes)?;
    let at = ends.saturating_sub(bytes.len());
    let (value, rest) = value_behind(tag % 8, at, ends, rest)?;
    let number = tag / 8;
    Ok((Field { number, value }, rest))
}

/// The token at the front, and what follows it; `None` where there are no bytes.
#[inline(always)]
pub(crate) fn next_token(ends: usize, bytes: &[u8]) -> Result<Option<(Field<'_>, &[u8])>, WireFault>
    ensures first { IsFirst (λ x. (seen x.0, x.1.now)) (tokens ends) result
        (tokens ends bytes.now) }
    ensures shorter { IfOk result (λ next. IfSome next (λ x. length x.1.now < length bytes.now)) }
{
    if bytes.is_empty() {
        return Ok(None);
    }
    let (field, rest) = token(ends, bytes)?;
    Ok(Some((field, rest)))
}
