ghost use Rattle.std.specs.Prelude.{◌≡◌, ◌<◌, ◌^◌, List, [], ◌∷◌, map, OnOk};
ghost use Rattle.wire_format.specs.Encoding.{Numbered, encoding};
ghost use Rattle.descriptor_encoding.specs.Fronts.{in_front};
ghost use Rattle.descriptor_encoding.specs.Wire.{bytes_field, Puts};
ghost use Rattle.descriptor_encoding.specs.Parts.{bits, int32_listed, bool_listed, text_listed};
ghost use Rattle.descriptor_encoding.specs.Parts.{options_listed, texts_listed, int32s_listed};
ghost use Rattle.descriptor_encoding.specs.Parts.{packed, packed_listed, message_listed};
ghost use Rattle.descriptor_encoding.specs.Parts.{messages_listed};

use crate::front::FrontBuffer;
use crate::wire::{put_bytes_field, put_length, put_number_field, put_varint};
use plain_data::{Items, Numbers, Text};
use proto_types::Options;
use std::alloc::AllocError;

/// A message, as it is written.
pub trait Encode {
    /// The fields that a message is encoded as.
    ghost listed: { Self → List Numbered };

    /// Puts the message's fields in front of the bytes.
    ///
    /// # Errors
    /// `AllocError` where memory was refused.
    fn put(&self, out: &mut FrontBuffer) -> Result<(), AllocError>
        ensures { Puts result out.old out.new (listed self.now) };
}

fn bits(number: i32) -> u64
    ensures { result ≡ bits number }
{
    i64::from(number).cast_unsigned()
}

/// Puts a number or an enum.
#[inline]
pub fn put_int32(out: &mut FrontBuffer, field: u32, part: Option<i32>) -> Result<(), AllocError>
    requires { field < 2 ^ 29 }
    ensures { Puts result out.old out.new (int32_listed field part) }
{
    match part {
        Some(number) => put_number_field(out, field, bits(number)),
        None => Ok(()),
    }
}

/// Puts a truth value.
#[inline]
pub fn put_bool(out: &mut FrontBuffer, field: u32, part: Option<bool>) -> Result<(), AllocError>
    requires { field < 2 ^ 29 }
    ensures { Puts result out.old out.new (bool_listed field part) }
{
    match part {
        Some(true) => put_number_field(out, field, 1),
        Some(false) => put_number_field(out, field, 0),
        None => Ok(()),
    }
}

/// Puts a text.
pub fn put_text(out: &mut FrontBuffer, field: u32, part: &Option<Text>) -> Result<(), AllocError>
    requires { field < 2 ^ 29 }
    ensures { Puts result out.old out.new (text_listed field part.now) }
{
    match part {
        Some(text) => put_bytes_field(out, field, text.as_str().as_bytes()),
        None => Ok(()),
    }
}

/// Puts options, as the bytes that they were read from.
pub fn put_options<T>(
    out: &mut FrontBuffer,
    field: u32,
    part: &Option<Options<T>>,
) -> Result<(), AllocError>
    requires { field < 2 ^ 29 }
    ensures { Puts result out.old out.new (options_listed field part.now) }
{
    match part {
        Some(options) => put_bytes_field(out, field, options.encoded.as_slice()),
        None => Ok(()),
    }
}

/// Puts repeated texts.
#[tactic(auto, using(crate::proofs::Appending::one_more))]
pub fn put_texts(out: &mut FrontBuffer, field: u32, items: &Items<Text>) -> Result<(), AllocError>
    requires { field < 2 ^ 29 }
    ensures { Puts result out.old out.new (texts_listed field items.now) }
{
    let texts = items.as_slice();
    let mut left = texts.len();
    while left > 0 {
        left -= 1;
        put_bytes_field(out, field, texts[left].as_str().as_bytes())?;
    }
    Ok(())
}

/// Puts repeated numbers, each as a field.
#[tactic(auto, using(crate::proofs::Appending::one_more))]
pub fn put_int32s(out: &mut FrontBuffer, field: u32, items: &Numbers) -> Result<(), AllocError>
    requires { field < 2 ^ 29 }
    ensures { Puts result out.old out.new (int32s_listed field items.now) }
{
    let numbers = items.as_slice();
    let mut left = numbers.len();
    while left > 0 {
        left -= 1;
        put_number_field(out, field, bits(numbers[left]))?;
    }
    Ok(())
}

/// Puts numbers one behind another.
#[tactic(auto, using(crate::proofs::Appending::both))]
fn put_numbers(out: &mut FrontBuffer, numbers: &[i32]) -> Result<(), AllocError>
    ensures { OnOk result (out.new ≡ in_front (packed numbers.now) out.old) }
{
    let mut left = numbers.len();
    while left > 0 {
        left -= 1;
        put_varint(out, bits(numbers[left]))?;
    }
    Ok(())
}

/// Puts repeated numbers, packed.
#[tactic(auto, using(crate::proofs::Appending::measured))]
pub fn put_packed(out: &mut FrontBuffer, field: u32, items: &Numbers) -> Result<(), AllocError>
    requires { field < 2 ^ 29 }
    ensures { Puts result out.old out.new (packed_listed field items.now) }
{
    match items.as_slice() {
        [] => Ok(()),
        numbers => {
            let behind = out.len();
            put_numbers(out, numbers)?;
            put_length(out, field, behind)
        }
    }
}

/// Puts a message as a field.
#[tactic(auto, using(crate::proofs::Appending::measured))]
fn put_one<M: Encode>(out: &mut FrontBuffer, field: u32, message: &M) -> Result<(), AllocError>
    requires { field < 2 ^ 29 }
    ensures { Puts result out.old out.new
        (bytes_field field (encoding (M.listed message.now)) ∷ []) }
{
    let behind = out.len();
    message.put(out)?;
    put_length(out, field, behind)
}

/// Puts a message that may be missing.
pub fn put_message<M: Encode>(
    out: &mut FrontBuffer,
    field: u32,
    part: &Option<M>,
) -> Result<(), AllocError>
    requires { field < 2 ^ 29 }
    ensures { Puts result out.old out.new (message_listed M.listed field part.now) }
{
    match part {
        Some(message) => put_one(out, field, message),
        None => Ok(()),
    }
}

/// Puts repeated messages.
pub fn put_messages<M: Encode>(
    out: &mut FrontBuffer,
    field: u32,
    items: &Items<M>,
) -> Result<(), AllocError>
    requires { field < 2 ^ 29 }
    ensures { Puts result out.old out.new
        (messages_listed field (map M.listed items.now)) }
{
    put_each(out, field, items.as_slice())
}

/// Puts messages, each as a field.
#[tactic(auto, using(crate::proofs::Appending::one_more))]
pub fn put_each<M: Encode>(
    out: &mut FrontBuffer,
    field: u32,
    messages: &[M],
) -> Result<(), AllocError>
    requires { field < 2 ^ 29 }
    ensures { Puts result out.old out.new
        (messages_listed field (map M.listed messages.now)) }
{
    let mut left = messages.len();
    while left > 0 {
        left -= 1;
        put_one(out, field, &messages[left])?;
    }
    Ok(())
}
