//! A fault as lines for people.

ghost use Rattle.std.specs.Prelude.{◌≡◌, ◌++◌, IfOk, OnOk, string_bytes};
ghost use Rattle.verdict_texts.specs.PlainFaults as spec;

use crate::lines::write_line;
use crate::telling::{Position, ToldFault, ToldPlace, ToldSecond};
use std::alloc::{AllocError, Global};

/// A line and a column of a file.
fn position_words(alloc: Global, file: &str, position: Position) -> Result<String, AllocError>
    ensures { IfOk result (λ s. string_bytes s ≡ spec.position_words file.now position) }
{
    let Position { line, column } = position;
    format!(in alloc; "{file}:{line}:{column}")
}

/// The element of a place, or else its file alone.
fn named_words(alloc: Global, place: &ToldPlace) -> Result<String, AllocError>
    ensures { IfOk result (λ s. string_bytes s ≡ spec.named_words place.now) }
{
    let file = place.file.as_str();
    match &place.element {
        Some(element) => {
            let element = element.as_str();
            format!(in alloc; "{file}: {element}")
        }
        None => String::from_str(alloc, file),
    }
}

/// Where something stands: line and column, or else the element, or else the file alone.
fn place_words(alloc: Global, place: &ToldPlace) -> Result<String, AllocError>
    ensures { IfOk result (λ s. string_bytes s ≡ spec.place_words place.now) }
{
    match place.position {
        Some(position) => position_words(alloc, place.file.as_str(), position),
        None => named_words(alloc, place),
    }
}

/// Where a fault stands, if it shows a place, and its text.
fn fault_words(alloc: Global, told: &ToldFault) -> Result<String, AllocError>
    ensures { IfOk result (λ s. string_bytes s ≡ spec.fault_words told.now) }
{
    let message = told.message.as_str();
    match &told.place {
        Some(place) => {
            let place = place_words(alloc, place)?;
            format!(in alloc; "{place}: {message}")
        }
        None => String::from_str(alloc, message),
    }
}

/// The element of a place, in brackets, if there is one and the line does not tell it.
fn bracketed_words(alloc: Global, place: &ToldPlace) -> Result<String, AllocError>
    ensures { IfOk result (λ s. string_bytes s ≡ spec.bracketed_words place.now) }
{
    match place.position {
        Some(_) => match &place.element {
            Some(element) => {
                let element = element.as_str();
                format!(in alloc; " ('{element}')")
            }
            None => Ok(String::new(alloc)),
        },
        None => Ok(String::new(alloc)),
    }
}

/// Where the second place of a fault stands.
fn second_words(alloc: Global, second: &ToldSecond) -> Result<String, AllocError>
    ensures { IfOk result (λ s. string_bytes s ≡ spec.second_words second.now) }
{
    let words = second.words.as_str();
    let place = place_words(alloc, &second.place)?;
    let element = bracketed_words(alloc, &second.place)?;
    format!(in alloc; "  note: {words}{place}{element}")
}

/// Writes the line of the second place, if there is one.
fn write_second_line(
    alloc: Global,
    text: &mut String,
    second: &Option<ToldSecond>,
) -> Result<(), AllocError>
    ensures { OnOk result (string_bytes text.new ≡ string_bytes text.old
        ++ spec.second_line second.now) }
{
    match second {
        Some(second) => {
            let words = second_words(alloc, second)?;
            write_line(text, words.as_str())
        }
        None => Ok(()),
    }
}

/// What is told beside a fault.
fn note_words(alloc: Global, told: &ToldFault) -> Result<String, AllocError>
    ensures { IfOk result (λ s. string_bytes s ≡ spec.note_words told.now) }
{
    let note = told.note.as_str();
    format!(in alloc; "  note: {note}")
}

/// Writes a fault as lines for people: where it stands and its text; where its second place stands,
/// if it has one; and what to do.
///
/// # Errors
/// `AllocError` where memory was refused.
#[tactic(auto, unfolding(crate::specs::PlainFaults::fault_lines))]
pub fn write_fault_lines(
    alloc: Global,
    text: &mut String,
    told: &ToldFault,
) -> Result<(), AllocError>
    ensures { OnOk result (string_bytes text.new ≡ string_bytes text.old
        ++ spec.fault_lines told.now) }
{
    let words = fault_words(alloc, told)?;
    write_line(text, words.as_str())?;
    write_second_line(alloc, text, &told.second)?;
    let note = note_words(alloc, told)?;
    write_line(text, note.as_str())
}
