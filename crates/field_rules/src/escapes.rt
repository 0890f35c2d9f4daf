//! Texts with C escapes, and the bytes that they stand for.

ghost use Rattle.std.specs.Prelude.{◌≡◌, ◌<◌, ◌≤◌, MatchResult, None, Some, if◌then◌else◌};
ghost use Rattle.std.specs.Char.{is_digit, digit_value};
ghost use Rattle.std.specs.Option.{option_map, ok_or};
ghost use Rattle.field_rules.specs.EscapeCode as code;
ghost use Rattle.field_rules.specs.Escapes as spec;
ghost use Rattle.field_rules.specs.declared.escape_faults.EscapeFault.TheVariants.{InvalidEscape};

use crate::escape_faults::EscapeFault;
use std::alloc::Global;

/// The bytes that a text stands for: each byte for itself, but for a backslash, which begins an
/// escape. Behind it stand one of the letters `a b f n r t v`, with their bytes in C; or a
/// backslash, `?`, `'` or `"`, for themselves; or one to three octal digits, as many as there are;
/// or `x` or `X` and two hexadecimal digits.
///
/// # Errors
/// The leftmost fault. `MissingEscape`: nothing stands behind a backslash. `HexTooShort`: fewer
/// than two bytes stand behind `x`. `InvalidHex`: these two are not both hexadecimal digits.
/// `OctalTooLarge`: the octal number is above 255. `InvalidEscape`: any other byte stands behind a
/// backslash. `OutOfMemory`: memory was refused before any fault was met.
pub fn unescape_c_escape_string(alloc: Global, text: &str) -> Result<Vec<u8>, EscapeFault>
    ensures { MatchResult result
        (λ bytes. spec.Escaped text.now bytes.items)
        (λ fault. spec.IsRefusal text.now fault) }
{
    let mut bytes = Vec::new(alloc);
    let mut rest = text.as_bytes();
    while let Some((byte, after)) = next_byte(rest)? {
        bytes.push(byte)?;
        rest = after;
    }
    Ok(bytes)
}

/// The byte with which a text begins, as it is or as an escape, and what follows it.
fn next_byte(text: &[u8]) -> Result<Option<(u8, &[u8])>, EscapeFault>
    ensures { code.next_in result ≡ code.next_byte text.now }
{
    match text {
        [] => Ok(None),
        [b'\\', rest @ ..] => Ok(Some(escape(rest)?)),
        [first, rest @ ..] => Ok(Some((*first, rest))),
    }
}

/// The byte of the escape whose backslash stands before a text, and what follows it.
fn escape(text: &[u8]) -> Result<(u8, &[u8]), EscapeFault>
    ensures { code.one_in result ≡ spec.one_escape text.now }
{
    match text {
        [] => Err(EscapeFault::MissingEscape),
        [b'x' | b'X', rest @ ..] => hex_escape(rest),
        [first, rest @ ..] => match digit(*first, 8) {
            Some(digit) => octal_escape(digit, rest),
            None => Ok((simple_escape(*first)?, rest)),
        },
    }
}

/// The byte of two hexadecimal digits, and what follows them.
fn hex_escape(text: &[u8]) -> Result<(u8, &[u8]), EscapeFault>
    ensures { code.one_in result ≡ spec.hex_escape text.now }
{
    let [high, low, rest @ ..] = text else {
        return Err(EscapeFault::HexTooShort);
    };
    match (digit(*high, 16), digit(*low, 16)) {
        (Some(high), Some(low)) => Ok((high * 16 + low, rest)),
        _ => Err(EscapeFault::InvalidHex),
    }
}

/// The byte of an octal digit and up to two more in front of a text, and what follows them.
fn octal_escape(first: u8, text: &[u8]) -> Result<(u8, &[u8]), EscapeFault>
    requires { first < 8 }
    ensures { code.one_in result ≡ spec.octal_second first text.now }
{
    let Some((second, rest)) = octal_digit(text) else {
        return Ok((first, text));
    };
    let two = first * 8 + second;
    let Some((third, rest)) = octal_digit(rest) else {
        return Ok((two, rest));
    };
    match u8::try_from(u16::from(two) * 8 + u16::from(third)) {
        Ok(byte) => Ok((byte, rest)),
        Err(_) => Err(EscapeFault::OctalTooLarge),
    }
}

/// The octal digit with which a text begins, if it does, and what follows it.
fn octal_digit(text: &[u8]) -> Option<(u8, &[u8])>
    ensures { option_map (λ one. (one.0, one.1.now)) result ≡ code.octal_digit text.now }
{
    let [first, rest @ ..] = text else {
        return None;
    };
    Some((digit(*first, 8)?, rest))
}

/// The byte of a letter or a mark behind a backslash.
fn simple_escape(letter: u8) -> Result<u8, EscapeFault>
    ensures { result ≡ ok_or (spec.letter_value letter) InvalidEscape }
{
    match letter {
        b'a' => Ok(0x07),
        b'b' => Ok(0x08),
        b'f' => Ok(0x0c),
        b'n' => Ok(b'\n'),
        b'r' => Ok(b'\r'),
        b't' => Ok(b'\t'),
        b'v' => Ok(0x0b),
        b'\\' | b'?' | b'\'' | b'"' => Ok(letter),
        _ => Err(EscapeFault::InvalidEscape),
    }
}

/// The value of a digit, if the byte is one.
fn digit(byte: u8, radix: u8) -> Option<u8>
    requires at_least { 2 ≤ radix }
    requires at_most { radix ≤ 36 }
    ensures { result ≡ (if is_digit byte radix then Some (digit_value byte) else None) }
{
    let digit = char::from(byte).to_digit(u32::from(radix))?;
    Some(digit as u8)
}
