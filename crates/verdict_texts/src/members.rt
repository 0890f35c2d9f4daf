//! The parts of objects of JSON that formats have in common.

ghost use Rattle.std.specs.Prelude.{◌≡◌, ◌++◌, OnOk, string_bytes};
ghost use Rattle.verdict_texts.specs.Members as spec;

use crate::write_json_string;
use std::alloc::AllocError;

/// Writes the name of an object's first member.
#[tactic(auto, unfolding(crate::specs::Members::key))]
pub(crate) fn write_key(text: &mut String, name: &str) -> Result<(), AllocError>
    ensures { OnOk result (string_bytes text.new ≡ string_bytes text.old ++ spec.key name.now) }
{
    text.push('"')?;
    text.push_str(name)?;
    text.push_str("\":")
}

/// Writes the name of a further member.
#[tactic(auto, unfolding(crate::specs::Members::next_key))]
pub(crate) fn write_next_key(text: &mut String, name: &str) -> Result<(), AllocError>
    ensures { OnOk result (string_bytes text.new ≡ string_bytes text.old
        ++ spec.next_key name.now) }
{
    text.push_str(",\"")?;
    text.push_str(name)?;
    text.push_str("\":")
}

/// Writes a text as an object's first member.
#[tactic(auto, unfolding(crate::specs::Members::text_member))]
pub(crate) fn write_text_member(
    text: &mut String,
    name: &str,
    value: &str,
) -> Result<(), AllocError>
    ensures { OnOk result (string_bytes text.new ≡ string_bytes text.old
        ++ spec.text_member name.now value.now) }
{
    write_key(text, name)?;
    write_json_string(text, value)
}

/// Writes a text as a further member.
#[tactic(auto, unfolding(crate::specs::Members::next_text_member))]
pub(crate) fn write_next_text_member(
    text: &mut String,
    name: &str,
    value: &str,
) -> Result<(), AllocError>
    ensures { OnOk result (string_bytes text.new ≡ string_bytes text.old
        ++ spec.next_text_member name.now value.now) }
{
    write_next_key(text, name)?;
    write_json_string(text, value)
}

/// Writes a number as an object's first member.
#[tactic(auto, unfolding(crate::specs::Members::number_member))]
pub(crate) fn write_number_member(
    text: &mut String,
    name: &str,
    number: i64,
) -> Result<(), AllocError>
    ensures { OnOk result (string_bytes text.new ≡ string_bytes text.old
        ++ spec.number_member name.now number) }
{
    write_key(text, name)?;
    write!(text, "{number}")
}

/// Writes a number as a further member.
#[tactic(auto, unfolding(crate::specs::Members::next_number_member))]
pub(crate) fn write_next_number_member(
    text: &mut String,
    name: &str,
    number: i64,
) -> Result<(), AllocError>
    ensures { OnOk result (string_bytes text.new ≡ string_bytes text.old
        ++ spec.next_number_member name.now number) }
{
    write_next_key(text, name)?;
    write!(text, "{number}")
}

/// Writes an object whose only member is a text.
#[tactic(auto, unfolding(crate::specs::Members::text_object))]
pub(crate) fn write_text_object(text: &mut String, value: &str) -> Result<(), AllocError>
    ensures { OnOk result (string_bytes text.new ≡ string_bytes text.old
        ++ spec.text_object value.now) }
{
    text.push_str("{")?;
    write_text_member(text, "text", value)?;
    text.push_str("}")
}
