//! The fields of a message.

ghost use Rattle.std.specs.Prelude.{◌≡◌, ◌<◌, ℕ, length, IfOk, IfSome};
ghost use Rattle.wire_format.specs.Tokens.{seen, value_seen};
ghost use Rattle.wire_format.specs.Fields.{Then, fields, IsFirst};

use crate::fault::{WireFault, WireFaultKind};
use crate::groups::{after_group, level_within};
use crate::tokens::{Field, Value, next_token};

/// The first field outside groups, and the bytes after it; `None` where there is none. The bytes
/// end at offset `ends` of the input, and so many levels of groups may lie in them.
///
/// # Errors
/// The first fault up to the end of that field: in a tag or a value, a group that nests too deep
/// or does not end, or an end of a group that is not open.
#[inline(always)]
pub fn next_field(
    levels: u32,
    ends: usize,
    bytes: &[u8],
) -> Result<Option<(Field<'_>, &[u8])>, WireFault>
    ensures first { IsFirst (λ x. (seen x.0, x.1.now)) (fields levels ends) result
        (fields levels ends bytes.now) }
    ensures shorter { IfOk result (λ next. IfSome next (λ x. length x.1.now < length bytes.now)) }
{
    if let Some((field, rest)) = short_field(ends, bytes) {
        return Ok(Some((field, rest)));
    }
    if bytes.is_empty() {
        return Ok(None);
    }
    long_field(levels, ends, bytes)
}

/// Answers what `field_of_tokens` does. The answer is taken apart here, so that a field that is
/// read in one step needs no place for it and stays in registers.
#[inline(always)]
fn long_field(
    levels: u32,
    ends: usize,
    bytes: &[u8],
) -> Result<Option<(Field<'_>, &[u8])>, WireFault>
    ensures first { IsFirst (λ x. (seen x.0, x.1.now)) (fields levels ends) result
        (fields levels ends bytes.now) }
    ensures shorter { IfOk result (λ next. IfSome next (λ x. length x.1.now < length bytes.now)) }
{
    match field_of_tokens(levels, ends, bytes)? {
        Some((field, rest)) => Ok(Some((field, rest))),
        None => Ok(None),
    }
}

/// The field in front, and the bytes after it, where its tag has one byte and its value is a number
/// of one byte, or bytes whose length has one byte; `None` where it is none of these.
#[inline(always)]
fn short_field(ends: usize, bytes: &[u8]) -> Option<(Field<'_>, &[u8])>
    ensures first { IfSome result (λ x. (levels : ℕ) → fields levels ends bytes.now
        ≡ Then x.0.number (value_seen x.0.value) (fields levels ends x.1.now)) }
    ensures shorter { IfSome result (λ x. length x.1.now < length bytes.now) }
{
    let [tag, size, rest @ ..] = bytes else {
        return None;
    };
    if *tag < 8 || *tag >= 128 || *size >= 128 {
        return None;
    }
    let (number, len) = (u32::from(*tag / 8), usize::from(*size));
    match *tag % 8 {
        0 => {
            let value = Value::Varint(u64::from(*size));
            Some((Field { number, value }, rest))
        }
        2 if len <= rest.len() => {
            let (payload, rest) = rest.split_at(len);
            let value = Value::Len(payload, ends.saturating_sub(rest.len()));
            Some((Field { number, value }, rest))
        }
        _ => None,
    }
}

/// The first field outside groups, and the bytes after it, as token after token is read.
fn field_of_tokens(
    levels: u32,
    ends: usize,
    bytes: &[u8],
) -> Result<Option<(Field<'_>, &[u8])>, WireFault>
    ensures first { IsFirst (λ x. (seen x.0, x.1.now)) (fields levels ends) result
        (fields levels ends bytes.now) }
    ensures shorter { IfOk result (λ next. IfSome next (λ x. length x.1.now < length bytes.now)) }
{
    let mut rest = bytes;
    while let Some((field, after)) = next_token(ends, rest)? {
        match field.value {
            Value::Group(at) => {
                let left = level_within(levels, at)?;
                rest = after_group(field.number, left, ends, after)?;
            }
            Value::EndGroup(at) => {
                return Err(WireFault {
                    kind: WireFaultKind::EndGroup,
                    at,
                });
            }
            _ => return Ok(Some((field, after))),
        }
    }
    Ok(None)
}
