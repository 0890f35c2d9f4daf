ghost use Rattle.std.specs.Prelude.{◌≡◌, ◌+◌, ◌-◌, ◌*◌, ◌<◌, ◌≤◌, ◌^◌, [], ◌∷◌, OnOk};
ghost use Rattle.wire_format.specs.Encoding.{varint_of};
ghost use Rattle.descriptor_encoding.specs.Fronts.{in_front, size};
ghost use Rattle.descriptor_encoding.specs.Wire.{number_field, bytes_field, Puts};

use crate::front::FrontBuffer;
use std::alloc::AllocError;

/// Puts a number in front of the bytes, as a varint.
#[cycle(varint)]
#[inline]
pub fn put_varint(out: &mut FrontBuffer, number: u64) -> Result<(), AllocError>
    ensures { OnOk result (out.new ≡ in_front (varint_of number) out.old) }
{
    if number < 128 {
        return out.put_byte(number as u8);
    }
    put_long_varint(out, number)
}

/// Puts a number of more than one digit in front of the bytes: its last digits, and then its first.
#[cycle(varint)]
#[inline(never)]
fn put_long_varint(out: &mut FrontBuffer, number: u64) -> Result<(), AllocError>
    requires { 128 ≤ number }
    ensures { OnOk result (out.new ≡ in_front (varint_of number) out.old) }
{
    put_varint(out, number / 128)?;
    out.put_byte((number % 128) as u8 + 128)
}

/// Puts a tag, and a number behind it, in front of the bytes.
#[inline(always)]
fn put_head(out: &mut FrontBuffer, tag: u64, number: u64) -> Result<(), AllocError>
    ensures { OnOk result (out.new ≡ in_front (varint_of tag)
        (in_front (varint_of number) out.old)) }
{
    if tag < 128 && number < 128 {
        return out.put_two(tag as u8, number as u8);
    }
    put_varint(out, number)?;
    put_varint(out, tag)
}

/// Puts a field whose value is a number in front of the bytes.
#[tactic(auto, using(crate::proofs::Appending::number_put))]
#[inline]
pub fn put_number_field(out: &mut FrontBuffer, field: u32, number: u64) -> Result<(), AllocError>
    requires { field < 2 ^ 29 }
    ensures { Puts result out.old out.new (number_field field number ∷ []) }
{
    put_head(out, 8 * u64::from(field), number)
}

/// Puts a field whose value is a text, bytes or a message in front of the bytes.
#[tactic(auto, using(crate::proofs::Appending::bytes_put))]
pub fn put_bytes_field(out: &mut FrontBuffer, field: u32, bytes: &[u8]) -> Result<(), AllocError>
    requires { field < 2 ^ 29 }
    ensures { Puts result out.old out.new (bytes_field field bytes.now ∷ []) }
{
    out.put_bytes(bytes)?;
    put_head(out, 8 * u64::from(field) + 2, bytes.len() as u64)
}

/// Puts the tag and the length of a value in front of it. The value is what stands before the last
/// `behind` bytes.
pub fn put_length(out: &mut FrontBuffer, field: u32, behind: usize) -> Result<(), AllocError>
    requires field { field < 2 ^ 29 }
    requires behind { behind ≤ size out.old }
    ensures { OnOk result (out.new ≡ in_front (varint_of (8 * field + 2))
        (in_front (varint_of (size out.old - behind)) out.old)) }
{
    let len = out.len() - behind;
    put_head(out, 8 * u64::from(field) + 2, len as u64)
}
