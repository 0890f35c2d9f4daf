//! Room for what is read.

ghost use Rattle.std.specs.Prelude.{◌≡◌, ◌<◌, ◌≤◌, length, IfSome};

use plain_data::Items;
use std::alloc::AllocError;

/// Takes room for a message and for those of its list that follow it at once, where it is the first
/// one: `after` is what follows a field of this number. Those that come later find room by leaps.
#[inline(always)]
pub fn make_room<M>(items: &mut Items<M>, number: u32, after: &[u8]) -> Result<(), AllocError>
    ensures { items.new ≡ items.old }
{
    if !items.as_slice().is_empty() {
        return Ok(());
    }
    items.reserve_exact(alike(number, after).saturating_add(1))
}

/// How many fields stand in front of bytes, one behind another, that have this number and bytes as
/// their values, so far as their tags have one byte and their lengths one or two.
fn alike(number: u32, bytes: &[u8]) -> usize
    ensures { result ≤ length bytes.now }
{
    let tag = number.wrapping_mul(8).wrapping_add(2);
    let mut count = 0;
    let mut rest = bytes;
    while let Some(after) = after_alike(tag, rest) {
        count += 1;
        rest = after;
    }
    count
}

/// What is behind the field in front, if it has this tag, and its length has one byte or two.
#[inline(always)]
fn after_alike(tag: u32, bytes: &[u8]) -> Option<&[u8]>
    ensures { IfSome result (λ after. length after.now < length bytes.now) }
{
    let (len, rest) = match bytes {
        [first, size, rest @ ..] if u32::from(*first) == tag && *size < 128 => {
            (usize::from(*size), rest)
        }
        [first, low, high, rest @ ..] if u32::from(*first) == tag && *high < 128 => {
            (usize::from(*low % 128) + 128 * usize::from(*high), rest)
        }
        _ => return None,
    };
    if rest.len() < len {
        return None;
    }
    Some(rest.split_at(len).1)
}
