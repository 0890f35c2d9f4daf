//! The values of a kind that is no message, group or enum.

ghost use Rattle.std.specs.Prelude.{◌≡◌, IsTrue};
ghost use Rattle.field_rules.specs.Simple as spec;

use crate::escape_faults::ValueFault;
use crate::escapes::unescape_c_escape_string;
use plain_data::{Items, Text, parse_bool, parse_int32};
use pool_types::{DefaultValue, KindIndex};
use std::alloc::Global;

/// The value that a text writes, of a kind that is no message, group or enum.
///
/// Whole numbers are one or more ASCII digits behind an optional `+`, or behind `-` where the type
/// has a sign; leading zeros are allowed, and the value lies in the range of the type. Truth values
/// are `true` and `false`. A string is the text. Bytes are what `unescape_c_escape_string` gives.
/// The text of a `double` or a `float` is kept as it is, unread.
///
/// # Errors
/// `Number` where the text is no whole number of the type, `Bool` where it is neither `true` nor
/// `false`, `Escape` with the leftmost fault of the text of bytes, and `OutOfMemory` where memory
/// was refused. The text of a string, a `double` or a `float` is refused for want of memory alone.
pub fn parse_simple_value(
    alloc: Global,
    kind: KindIndex,
    text: &str,
) -> Result<DefaultValue, ValueFault>
    requires { IsTrue (spec.is_simple kind) }
    ensures { spec.IsValueOf result (spec.simple_value kind text.now) }
{
    match kind {
        KindIndex::Double | KindIndex::Float => {
            Ok(DefaultValue::FloatText(Text::from_str(alloc, text)?))
        }
        KindIndex::Int32 | KindIndex::Sint32 | KindIndex::Sfixed32 => {
            Ok(DefaultValue::I32(int32(text)?))
        }
        KindIndex::Int64 | KindIndex::Sint64 | KindIndex::Sfixed64 => {
            Ok(DefaultValue::I64(int64(text)?))
        }
        KindIndex::Uint32 | KindIndex::Fixed32 => Ok(DefaultValue::U32(uint32(text)?)),
        KindIndex::Uint64 | KindIndex::Fixed64 => Ok(DefaultValue::U64(uint64(text)?)),
        KindIndex::Bool => Ok(DefaultValue::Bool(truth(text)?)),
        KindIndex::String => Ok(DefaultValue::String(Text::from_str(alloc, text)?)),
        KindIndex::Bytes => {
            let bytes = unescape_c_escape_string(alloc, text)?;
            Ok(DefaultValue::Bytes(Items::from_vec(bytes)))
        }
        KindIndex::Message(_) | KindIndex::Enum(_) | KindIndex::Group(_) => unreachable!(),
    }
}

/// A whole number of 32 bits with a sign.
fn int32(text: &str) -> Result<i32, ValueFault>
    ensures { result ≡ spec.signed_in 32 text.now }
{
    parse_int32(text).ok_or(ValueFault::Number)
}

/// A whole number of 64 bits with a sign.
fn int64(text: &str) -> Result<i64, ValueFault>
    ensures { result ≡ spec.signed_in 64 text.now }
{
    text.parse::<i64>().ok().ok_or(ValueFault::Number)
}

/// A whole number of 32 bits without a sign.
fn uint32(text: &str) -> Result<u32, ValueFault>
    ensures { result ≡ spec.unsigned_in 32 text.now }
{
    text.parse::<u32>().ok().ok_or(ValueFault::Number)
}

/// A whole number of 64 bits without a sign.
fn uint64(text: &str) -> Result<u64, ValueFault>
    ensures { result ≡ spec.unsigned_in 64 text.now }
{
    text.parse::<u64>().ok().ok_or(ValueFault::Number)
}

/// A truth value.
fn truth(text: &str) -> Result<bool, ValueFault>
    ensures { result ≡ spec.truth_in text.now }
{
    parse_bool(text).ok_or(ValueFault::Bool)
}
