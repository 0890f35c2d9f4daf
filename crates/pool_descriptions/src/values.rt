//! Default values in the text of a pool.

ghost use Rattle.std.specs.Prelude.{◌≡◌, IfOk, string_bytes};
ghost use Rattle.std.specs.Option.{option_copied};
ghost use Rattle.verdict_texts.specs.JsonStrings.{json_string};
ghost use Rattle.verdict_texts.specs.Lines.{plain_text};
ghost use Rattle.pool_descriptions.specs.Values as spec;

use pool_types::DefaultValue;
use std::alloc::{AllocError, Global};
use verdict_texts::{Plain, json_string};

/// A default value: a text as a string of JSON, and the number of an enum's value.
fn value_words(alloc: Global, value: &DefaultValue) -> Result<String, AllocError>
    ensures { IfOk result (λ s. string_bytes s ≡ spec.value_words value.now) }
{
    match value {
        DefaultValue::I32(number) => format!(in alloc; "{number}"),
        DefaultValue::I64(number) => format!(in alloc; "{number}"),
        DefaultValue::U32(number) => format!(in alloc; "{number}"),
        DefaultValue::U64(number) => format!(in alloc; "{number}"),
        DefaultValue::Bool(truth) => format!(in alloc; "{truth}"),
        DefaultValue::String(text) => text_words(alloc, text.as_str()),
        DefaultValue::Bytes(bytes) => bytes_words(alloc, bytes.as_slice()),
        DefaultValue::EnumNumber(number) => format!(in alloc; "{number}"),
        DefaultValue::FloatText(text) => {
            let text = Plain(text.as_str());
            format!(in alloc; "{text}")
        }
    }
}

/// A text as a string of JSON.
fn text_words(alloc: Global, text: &str) -> Result<String, AllocError>
    ensures { IfOk result (λ s. string_bytes s ≡ plain_text (json_string text.now)) }
{
    let quoted = json_string(alloc, text)?;
    let plain = Plain(quoted.as_str());
    format!(in alloc; "{plain}")
}

/// Bytes as numbers in square brackets.
fn bytes_words(alloc: Global, bytes: &[u8]) -> Result<String, AllocError>
    ensures { IfOk result (λ s. string_bytes s ≡ spec.bytes_text bytes.now) }
{
    format!(in alloc; "{bytes:?}")
}

/// The default value of a field, where one was given.
pub(super) fn default_words(
    alloc: Global,
    default: &Option<DefaultValue>,
) -> Result<String, AllocError>
    ensures { IfOk result (λ s. string_bytes s ≡ spec.default_words default.now) }
{
    match default {
        Some(value) => {
            let value = value_words(alloc, value)?;
            format!(in alloc; " default {value}")
        }
        None => Ok(String::new(alloc)),
    }
}
