//! A fault as one text of several lines, for formats that have a place for one text alone.

ghost use Rattle.std.specs.Prelude.{◌≡◌, ◌∷◌, ◌++◌, IfOk, OnOk, string_bytes};
ghost use Rattle.std.specs.Option.{option_map_or};
ghost use Rattle.verdict_texts.specs.Texts as spec;

use crate::{Position, ToldFault, ToldPlace, ToldSecond};
use plain_data::Text;
use std::alloc::{AllocError, Global};

/// Where something begins in its file, if that is known and counts from 1.
pub(crate) fn position_of(place: &ToldPlace) -> Option<Position>
    ensures { result ≡ spec.position_of place.now }
{
    let at = place.position?;
    if at.line > 0 && at.column > 0 {
        Some(at)
    } else {
        None
    }
}

/// Writes a file, and where something begins in it, if that is known.
fn write_place(text: &mut String, place: &ToldPlace) -> Result<(), AllocError>
    ensures { OnOk result (string_bytes text.new ≡ string_bytes text.old
        ++ spec.place_words place.now) }
{
    text.push_str(place.file.as_str())?;
    match position_of(place) {
        Some(at) => {
            let Position { line, column } = at;
            write!(text, ":{line}:{column}")
        }
        None => Ok(()),
    }
}

/// Writes an element before a text, if there is one.
fn write_element(text: &mut String, element: &Option<Text>) -> Result<(), AllocError>
    ensures { OnOk result (string_bytes text.new ≡ string_bytes text.old
        ++ spec.element_words element.now) }
{
    match element {
        Some(name) => {
            let name = name.as_str();
            write!(text, "{name}: ")
        }
        None => Ok(()),
    }
}

/// Writes the element of a place whose position is not known, before a text.
fn write_named(text: &mut String, place: &ToldPlace) -> Result<(), AllocError>
    ensures { OnOk result (string_bytes text.new ≡ string_bytes text.old
        ++ spec.named_words place.now) }
{
    match position_of(place) {
        Some(_) => Ok(()),
        None => write_element(text, &place.element),
    }
}

/// Writes the text of a fault, with the element where the source is not known.
fn write_headline(text: &mut String, told: &ToldFault) -> Result<(), AllocError>
    ensures { OnOk result (string_bytes text.new ≡ string_bytes text.old
        ++ spec.headline told.now) }
{
    if let Some(place) = &told.place {
        write_named(text, place)?;
    }
    text.push_str(told.message.as_str())
}

/// Where the second place of a fault stands.
pub(crate) fn second_words(alloc: Global, second: &ToldSecond) -> Result<String, AllocError>
    ensures { IfOk result (λ s. string_bytes s ≡ spec.second_words second.now) }
{
    let mut text = String::from_str(alloc, second.words.as_str())?;
    write_place(&mut text, &second.place)?;
    Ok(text)
}

/// Writes the line of the second place, if there is one.
fn write_second_line(
    alloc: Global,
    text: &mut String,
    second: &Option<ToldSecond>,
) -> Result<(), AllocError>
    ensures { OnOk result (string_bytes text.new ≡ string_bytes text.old
        ++ spec.second_line second.now) }
{
    match second {
        Some(second) => {
            let words = second_words(alloc, second)?;
            let words = words.as_str();
            write!(text, "\n{words}")
        }
        None => Ok(()),
    }
}

/// A fault as a text: what it is, its second place, and what is told beside it, each on a line.
#[tactic(auto, unfolding(crate::specs::Texts::told_text))]
pub(crate) fn told_text(alloc: Global, told: &ToldFault) -> Result<String, AllocError>
    ensures { IfOk result (λ s. string_bytes s ≡ spec.told_text told.now) }
{
    let mut text = String::new(alloc);
    write_headline(&mut text, told)?;
    write_second_line(alloc, &mut text, &told.second)?;
    text.push('\n')?;
    text.push_str(told.note.as_str())?;
    Ok(text)
}
