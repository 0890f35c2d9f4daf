//! A fault as an object of JSON.

ghost use Rattle.std.specs.Prelude.{◌≡◌, ◌++◌, OnOk, string_bytes};
ghost use Rattle.verdict_texts.specs.JsonFaults as spec;

use crate::strings::write_json_string;
use crate::telling::{Position, ToldFault, ToldPlace, ToldSecond};
use plain_data::Text;
use std::alloc::AllocError;

/// Writes numbers as an array.
fn write_json_numbers(text: &mut String, numbers: &[i32]) -> Result<(), AllocError>
    ensures { OnOk result (string_bytes text.new ≡ string_bytes text.old
        ++ spec.json_numbers numbers.now) }
{
    let [first, rest @ ..] = numbers else {
        return text.push_str("[]");
    };
    let first = *first;
    write!(text, "[{first}")?;
    for number in rest {
        let number = *number;
        write!(text, ",{number}")?;
    }
    text.push(']')
}

/// Writes a text that may be missing, as a string or null.
fn write_json_text(text: &mut String, value: &Option<Text>) -> Result<(), AllocError>
    ensures { OnOk result (string_bytes text.new ≡ string_bytes text.old
        ++ spec.json_text value.now) }
{
    match value {
        Some(value) => write_json_string(text, value.as_str()),
        None => text.push_str("null"),
    }
}

/// Writes a line and a column, as two members of an object, or two nulls.
fn write_json_position(text: &mut String, position: Option<Position>) -> Result<(), AllocError>
    ensures { OnOk result (string_bytes text.new ≡ string_bytes text.old
        ++ spec.json_position position) }
{
    match position {
        Some(position) => {
            let Position { line, column } = position;
            write!(text, "\"line\":{line},\"column\":{column}")
        }
        None => text.push_str("\"line\":null,\"column\":null"),
    }
}

/// Writes a file, and where something begins in it, as three members of an object.
fn write_json_start(text: &mut String, place: &ToldPlace) -> Result<(), AllocError>
    ensures { OnOk result (string_bytes text.new ≡ string_bytes text.old
        ++ spec.json_start place.now) }
{
    text.push_str("\"file\":")?;
    write_json_string(text, place.file.as_str())?;
    text.push_str(",")?;
    write_json_position(text, place.position)
}

/// Writes where something stands, as five members of an object.
fn write_json_members(text: &mut String, place: &ToldPlace) -> Result<(), AllocError>
    ensures { OnOk result (string_bytes text.new ≡ string_bytes text.old
        ++ spec.json_members place.now) }
{
    write_json_start(text, place)?;
    text.push_str(",\"path\":")?;
    write_json_numbers(text, place.path.as_slice())?;
    text.push_str(",\"element\":")?;
    write_json_text(text, &place.element)
}

/// Writes where a fault stands, if it shows a place, or five nulls.
fn write_json_place(text: &mut String, place: &Option<ToldPlace>) -> Result<(), AllocError>
    ensures { OnOk result (string_bytes text.new ≡ string_bytes text.old
        ++ spec.json_place place.now) }
{
    match place {
        Some(place) => write_json_members(text, place),
        None => text.push_str(
            "\"file\":null,\"line\":null,\"column\":null,\"path\":null,\"element\":null",
        ),
    }
}

/// Writes the second place of a fault, as an array of at most one object.
fn write_json_second(text: &mut String, second: &Option<ToldSecond>) -> Result<(), AllocError>
    ensures { OnOk result (string_bytes text.new ≡ string_bytes text.old
        ++ spec.json_second second.now) }
{
    match second {
        Some(second) => {
            text.push_str("[{")?;
            write_json_members(text, &second.place)?;
            text.push_str("}]")
        }
        None => text.push_str("[]"),
    }
}

/// Writes the code and the text of a fault, as two members of an object.
fn write_json_head(text: &mut String, told: &ToldFault) -> Result<(), AllocError>
    ensures { OnOk result (string_bytes text.new ≡ string_bytes text.old
        ++ spec.json_head told.now) }
{
    let code = told.code.as_str();
    write!(text, "\"code\":\"{code}\",\"message\":")?;
    write_json_string(text, told.message.as_str())
}

/// Writes the second place of a fault, and what is told beside it, as two members of an object.
fn write_json_tail(text: &mut String, told: &ToldFault) -> Result<(), AllocError>
    ensures { OnOk result (string_bytes text.new ≡ string_bytes text.old
        ++ spec.json_tail told.now) }
{
    text.push_str("\"related\":")?;
    write_json_second(text, &told.second)?;
    text.push_str(",\"note\":")?;
    write_json_string(text, told.note.as_str())
}

/// Writes a fault as an object of JSON: its code, its text, where it stands, its second place, and
/// what is told beside it.
///
/// # Errors
/// `AllocError` where memory was refused.
#[tactic(auto, unfolding(crate::specs::JsonFaults::json_fault))]
pub fn write_fault_json(text: &mut String, told: &ToldFault) -> Result<(), AllocError>
    ensures { OnOk result (string_bytes text.new ≡ string_bytes text.old
        ++ spec.json_fault told.now) }
{
    text.push_str("{")?;
    write_json_head(text, told)?;
    text.push_str(",")?;
    write_json_place(text, &told.place)?;
    text.push_str(",")?;
    write_json_tail(text, told)?;
    text.push_str("}")
}
