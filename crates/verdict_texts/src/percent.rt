//! Texts in which characters stand as a percent sign and two hexadecimal digits.

ghost use Rattle.std.specs.Prelude.{◌≡◌, ◌<◌, ◌++◌, OnOk, string_bytes};
ghost use Rattle.verdict_texts.specs.Percent as spec;

use std::alloc::AllocError;

/// Writes a text as the message of a workflow command.
pub(crate) fn write_message(text: &mut String, value: &str) -> Result<(), AllocError>
    ensures { OnOk result
        (string_bytes text.new ≡ string_bytes text.old ++ spec.message value.now) }
{
    for c in value.chars() {
        write_message_char(text, c)?;
    }
    Ok(())
}

/// Writes a text as a property of a workflow command.
pub(crate) fn write_property(text: &mut String, value: &str) -> Result<(), AllocError>
    ensures { OnOk result (string_bytes text.new ≡ string_bytes text.old
        ++ spec.property value.now) }
{
    for c in value.chars() {
        write_property_char(text, c)?;
    }
    Ok(())
}

/// Writes a character of a message.
fn write_message_char(text: &mut String, c: char) -> Result<(), AllocError>
    ensures { OnOk result (string_bytes text.new ≡ string_bytes text.old ++ spec.message_char c) }
{
    match c {
        '%' => text.push_str("%25"),
        '\r' => text.push_str("%0D"),
        '\n' => text.push_str("%0A"),
        _ => text.push(c),
    }
}

/// Writes a character of a property.
fn write_property_char(text: &mut String, c: char) -> Result<(), AllocError>
    ensures { OnOk result (string_bytes text.new ≡ string_bytes text.old
        ++ spec.property_char c) }
{
    match c {
        ':' => text.push_str("%3A"),
        ',' => text.push_str("%2C"),
        _ => write_message_char(text, c),
    }
}

/// Writes the name of a file as the path of a URI.
#[tactic(auto, unfolding(crate::specs::Percent::uri))]
pub(crate) fn write_uri(text: &mut String, name: &str) -> Result<(), AllocError>
    ensures { OnOk result (string_bytes text.new ≡ string_bytes text.old ++ spec.uri name.now) }
{
    for byte in name.as_bytes() {
        write_uri_byte(text, *byte)?;
    }
    Ok(())
}

/// Whether a byte stands for itself in the path of a URI.
fn is_plain_byte(byte: u8) -> bool
    ensures { result ≡ spec.is_plain_byte byte }
{
    byte.is_ascii_alphanumeric()
        || byte == b'-'
        || byte == b'.'
        || byte == b'/'
        || byte == b'_'
        || byte == b'~'
}

/// Writes a byte of the path of a URI.
fn write_uri_byte(text: &mut String, byte: u8) -> Result<(), AllocError>
    ensures { OnOk result (string_bytes text.new ≡ string_bytes text.old ++ spec.uri_byte byte) }
{
    if is_plain_byte(byte) {
        return text.push(char::from(byte));
    }
    text.push('%')?;
    text.push(capital_digit(byte / 16))?;
    text.push(capital_digit(byte % 16))
}

/// A hexadecimal digit, in capitals.
fn capital_digit(value: u8) -> char
    requires { value < 16 }
    ensures { result ≡ spec.capital_digit value }
{
    char::from(if value < 10 { 48 + value } else { 55 + value })
}
