//! Faults as annotations of GitHub's workflow commands.

ghost use Rattle.std.specs.Prelude.{◌≡◌, [], ◌++◌, IfOk, OnOk, string_bytes};
ghost use Rattle.std.specs.List.{flat_map};
ghost use Rattle.std.specs.Option.{option_map_or};
ghost use Rattle.verdict_texts.specs.Annotations as spec;

use crate::percent::{write_message, write_property};
use crate::texts::{position_of, told_text};
use crate::{Position, ToldFault, ToldPlace};
use std::alloc::{AllocError, Global};

/// Writes a line and a column, if they are known, as two properties.
fn write_position(text: &mut String, position: Option<Position>) -> Result<(), AllocError>
    ensures { OnOk result (string_bytes text.new ≡ string_bytes text.old
        ++ option_map_or spec.position_properties position []) }
{
    match position {
        Some(at) => {
            let Position { line, column } = at;
            write!(text, ",line={line},col={column}")
        }
        None => Ok(()),
    }
}

/// Writes where a fault stands, if it shows a place, as properties before another.
fn write_place(text: &mut String, place: &Option<ToldPlace>) -> Result<(), AllocError>
    ensures { OnOk result (string_bytes text.new ≡ string_bytes text.old
        ++ option_map_or spec.place_properties place.now []) }
{
    match place {
        Some(place) => {
            text.push_str("file=")?;
            write_property(text, place.file.as_str())?;
            write_position(text, position_of(place))?;
            text.push_str(",")
        }
        None => Ok(()),
    }
}

/// Writes a fault as an annotation, a line.
#[tactic(auto, unfolding(crate::specs::Annotations::annotation))]
fn write_annotation(alloc: Global, text: &mut String, told: &ToldFault) -> Result<(), AllocError>
    ensures { OnOk result (string_bytes text.new ≡ string_bytes text.old
        ++ spec.annotation told.now) }
{
    let words = told_text(alloc, told)?;
    text.push_str("::error ")?;
    write_place(text, &told.place)?;
    text.push_str("title=")?;
    write_property(text, told.code.as_str())?;
    text.push_str("::")?;
    write_message(text, words.as_str())?;
    text.push('\n')
}

/// Writes how many faults are not told, if any, as an annotation.
fn write_more(text: &mut String, more: usize) -> Result<(), AllocError>
    ensures { OnOk result (string_bytes text.new ≡ string_bytes text.old
        ++ spec.more_annotation more) }
{
    if more == 0 {
        return Ok(());
    }
    write!(
        text,
        "::error title=More::{more} faults more are not told\n"
    )
}

/// Faults as annotations of a workflow of GitHub's, each on a line, and how many more there are.
///
/// # Errors
/// `AllocError` where memory was refused.
pub fn annotations_text(
    alloc: Global,
    told: &[ToldFault],
    more: usize,
) -> Result<String, AllocError>
    ensures { IfOk result (λ s. string_bytes s ≡ spec.annotations told.now more) }
{
    let mut text = String::new(alloc);
    for fault in told {
        write_annotation(alloc, &mut text, fault)?;
    }
    write_more(&mut text, more)?;
    Ok(text)
}
