//! Packed numbers.

ghost use Rattle.std.specs.Prelude.{◌≡◌, ◌<◌, length, IfOk, IfSome};
ghost use Rattle.wire_format.specs.Packed.{numbers, IsFirstNumber};

use crate::fault::WireFault;
use crate::varints::varint;

/// The first of packed numbers, and the bytes after it; `None` where there are no bytes. The bytes
/// end at offset `ends` of the input.
///
/// # Errors
/// That of `varint`.
#[inline(always)]
pub fn next_number(ends: usize, bytes: &[u8]) -> Result<Option<(u64, &[u8])>, WireFault>
    ensures first { IsFirstNumber (λ x. (x.0, x.1.now)) (numbers ends) result
        (numbers ends bytes.now) }
    ensures shorter { IfOk result (λ next. IfSome next (λ x. length x.1.now < length bytes.now)) }
{
    if bytes.is_empty() {
        return Ok(None);
    }
    let (number, rest) = varint(ends, bytes)?;
    Ok(Some((number, rest)))
}
