ghost use Rattle.std.specs.Prelude.{◌≡◌, ◌++◌, IfOk, OnOk, string_bytes};
ghost use Rattle.verdict_texts.specs.JsonStrings as spec;

use crate::plain::Escape;
use std::alloc::{AllocError, Global};
use std::fmt::Write;

/// A text as a string of JSON, with its quotes.
///
/// # Errors
/// `AllocError` where memory was refused.
pub fn json_string(alloc: Global, value: &str) -> Result<String, AllocError>
    ensures { IfOk result (λ s. string_bytes s ≡ spec.json_string value.now) }
{
    let mut text = String::new(alloc);
    write_json_string(&mut text, value)?;
    Ok(text)
}

/// Writes a text as a string of JSON, with its quotes, behind another text.
///
/// # Errors
/// `AllocError` where memory was refused.
pub fn write_json_string(text: &mut String, value: &str) -> Result<(), AllocError>
    ensures { OnOk result (string_bytes text.new ≡ string_bytes text.old
        ++ spec.json_string value.now) }
{
    text.push('"')?;
    for c in value.chars() {
        write_json_char(text, c)?;
    }
    text.push('"')
}

/// Writes a character of a string: as it is, or as an escape.
fn write_json_char(text: &mut String, c: char) -> Result<(), AllocError>
    ensures { OnOk result (string_bytes text.new ≡ string_bytes text.old ++ spec.json_char c) }
{
    match c {
        '"' => text.push_str("\\\""),
        '\\' => text.push_str("\\\\"),
        '\u{8}' => text.push_str("\\b"),
        '\t' => text.push_str("\\t"),
        '\n' => text.push_str("\\n"),
        '\u{c}' => text.push_str("\\f"),
        '\r' => text.push_str("\\r"),
        '\u{2028}' => text.push_str("\\u2028"),
        '\u{2029}' => text.push_str("\\u2029"),
        _ => {
            if c < ' ' {
                let escape = Escape(u32::from(c));
                write!(text, "{escape}")
            } else {
                text.push(c)
            }
        }
    }
}
