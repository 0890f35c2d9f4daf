//! Numbers in base 128, and tags.

ghost use Rattle.std.specs.Prelude.{◌≡◌};
ghost use Rattle.wire_format.specs.Reading.{Reads};
ghost use Rattle.wire_format.specs.Varints.{varint, tag};

use crate::fault::{WireFault, WireFaultKind};

/// The number at the front, as a varint, and the bytes after it. The bytes end at offset `ends` of
/// the input.
///
/// # Errors
/// `LongVarint` where the first ten bytes are all 128 or more, and `Truncated` where there are
/// fewer than ten, all such.
#[inline(always)]
#[tactic(auto, unfolding(crate::specs::Varints::varint))]
pub fn varint(ends: usize, bytes: &[u8]) -> Result<(u64, &[u8]), WireFault>
    ensures { Reads (λ x. (x.0, x.1.now)) result (varint ends bytes.now) }
{
    match bytes {
        [b, rest @ ..] if *b < 128 => Ok((u64::from(*b), rest)),
        [b, c, rest @ ..] if *c < 128 => Ok((u64::from(*b % 128) + 128 * u64::from(*c), rest)),
        _ => long_varint(ends, bytes),
    }
}

fn long_varint(ends: usize, bytes: &[u8]) -> Result<(u64, &[u8]), WireFault>
    ensures { Reads (λ x. (x.0, x.1.now)) result (varint ends bytes.now) }
{
    let mut value: u64 = 0;
    let mut scale: u64 = 1;
    for (i, b) in bytes.iter().enumerate() {
        if i == 10 {
            return Err(WireFault::new(WireFaultKind::LongVarint, ends, bytes));
        }
        value = value.wrapping_add(u64::from(*b % 128).wrapping_mul(scale));
        if *b < 128 {
            let (_, rest) = bytes.split_at(i + 1);
            return Ok((value, rest));
        }
        scale = scale.wrapping_mul(128);
    }
    if bytes.len() < 10 {
        Err(WireFault::new(WireFaultKind::Truncated, ends, bytes))
    } else {
        Err(WireFault::new(WireFaultKind::LongVarint, ends, bytes))
    }
}

/// The tag at the front, and the bytes after it.
#[inline(always)]
#[tactic(auto, unfolding(crate::specs::Varints::tag))]
pub(crate) fn tag(ends: usize, bytes: &[u8]) -> Result<(u32, &[u8]), WireFault>
    ensures { Reads (λ x. (x.0, x.1.now)) result (tag ends bytes.now) }
{
    let (tag, rest) = varint(ends, bytes)?;
    if tag >= 1 << 32 || bytes.len().saturating_sub(rest.len()) > 5 {
        return Err(WireFault::new(WireFaultKind::LargeTag, ends, bytes));
    }
    if tag < 8 {
        return Err(WireFault::new(WireFaultKind::FieldNumberZero, ends, bytes));
    }
    Ok((tag as u32, rest))
}
