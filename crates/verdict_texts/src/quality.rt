//! Faults as a report of GitLab's code quality.

ghost use Rattle.std.specs.Prelude.{◌≡◌, [], ◌∷◌, ◌++◌, IfOk, OnOk, map, string_bytes};
ghost use Rattle.std.specs.Fmt.{signed_decimal};
ghost use Rattle.std.specs.List.{flat_map};
ghost use Rattle.std.specs.Option.{option_map_or};
ghost use Rattle.verdict_texts.specs.Fingerprints.{marked};
ghost use Rattle.verdict_texts.specs.Quality as spec;

use crate::fingerprints::{Marked, apart};
use crate::members::{write_key, write_next_key, write_next_text_member, write_text_member};
use crate::texts::{position_of, told_text};
use crate::{ToldFault, ToldPlace};
use plain_data::Text;
use std::alloc::{AllocError, Global};

/// Writes the numbers of a path, each behind a space.
fn write_path(text: &mut String, path: &[i32]) -> Result<(), AllocError>
    ensures { OnOk result (string_bytes text.new ≡ string_bytes text.old
        ++ flat_map (λ n. 32 ∷ signed_decimal n) path.now) }
{
    for number in path {
        let number = *number;
        write!(text, " {number}")?;
    }
    Ok(())
}

/// Writes the file and the path of a fault, if it shows a place.
fn write_mark(text: &mut String, place: &Option<ToldPlace>) -> Result<(), AllocError>
    ensures { OnOk result (string_bytes text.new ≡ string_bytes text.old
        ++ option_map_or spec.place_mark place.now []) }
{
    match place {
        Some(place) => {
            text.push_str(" ")?;
            text.push_str(place.file.as_str())?;
            write_path(text, place.path.as_slice())
        }
        None => Ok(()),
    }
}

/// The mark of a fault: its kind, its file, its path and its text, but not its line.
#[tactic(auto, unfolding(crate::specs::Quality::fault_mark))]
pub(crate) fn fault_mark(alloc: Global, told: &ToldFault) -> Result<String, AllocError>
    ensures { IfOk result (λ s. string_bytes s ≡ spec.fault_mark told.now) }
{
    let mut text = String::from_str(alloc, told.code.as_str())?;
    write_mark(&mut text, &told.place)?;
    text.push_str(" ")?;
    text.push_str(told.message.as_str())?;
    Ok(text)
}

/// The name of the file of a fault, which is empty where it shows none.
fn file_of(place: &Option<ToldPlace>) -> &str
    ensures { result.now ≡ spec.file_of place.now }
{
    match place {
        Some(place) => place.file.as_str(),
        None => "",
    }
}

/// Writes the line of a place, 1 where none is known.
fn write_line_of(text: &mut String, place: &ToldPlace) -> Result<(), AllocError>
    ensures { OnOk result (string_bytes text.new ≡ string_bytes text.old
        ++ spec.place_line place.now) }
{
    match position_of(place) {
        Some(at) => {
            let line = at.line;
            write!(text, "{line}")
        }
        None => text.push_str("1"),
    }
}

/// Writes the line of a fault, 1 where none is known.
fn write_line(text: &mut String, place: &Option<ToldPlace>) -> Result<(), AllocError>
    ensures { OnOk result (string_bytes text.new ≡ string_bytes text.old
        ++ spec.line_of place.now) }
{
    match place {
        Some(place) => write_line_of(text, place),
        None => text.push_str("1"),
    }
}

/// Writes the line of a fault as an object.
#[tactic(auto, unfolding(crate::specs::Quality::quality_lines))]
fn write_lines(text: &mut String, place: &Option<ToldPlace>) -> Result<(), AllocError>
    ensures { OnOk result (string_bytes text.new ≡ string_bytes text.old
        ++ spec.quality_lines place.now) }
{
    text.push_str("{")?;
    write_key(text, "begin")?;
    write_line(text, place)?;
    text.push_str("}")
}

/// Writes the file and the line of a fault as an object.
#[tactic(auto, unfolding(crate::specs::Quality::quality_location))]
fn write_location(text: &mut String, place: &Option<ToldPlace>) -> Result<(), AllocError>
    ensures { OnOk result (string_bytes text.new ≡ string_bytes text.old
        ++ spec.quality_location place.now) }
{
    text.push_str("{")?;
    write_text_member(text, "path", file_of(place))?;
    write_next_key(text, "lines")?;
    write_lines(text, place)?;
    text.push_str("}")
}

/// Writes the text of a fault, and its kind, as the first members of an object.
#[tactic(auto, unfolding(crate::specs::Quality::quality_head))]
fn write_head(alloc: Global, text: &mut String, told: &ToldFault) -> Result<(), AllocError>
    ensures { OnOk result (string_bytes text.new ≡ string_bytes text.old
        ++ spec.quality_head told.now) }
{
    let words = told_text(alloc, told)?;
    text.push_str("{")?;
    write_text_member(text, "description", words.as_str())?;
    write_next_text_member(text, "check_name", told.code.as_str())
}

/// Writes how severe a fault is, as a further member.
#[tactic(auto, unfolding(crate::specs::Quality::quality_severity))]
fn write_severity(text: &mut String) -> Result<(), AllocError>
    ensures { OnOk result (string_bytes text.new ≡ string_bytes text.old
        ++ spec.quality_severity) }
{
    write_next_text_member(text, "severity", "critical")
}

/// Writes where a fault stands, as a further member.
#[tactic(auto, unfolding(crate::specs::Quality::quality_place))]
fn write_place(text: &mut String, place: &Option<ToldPlace>) -> Result<(), AllocError>
    ensures { OnOk result (string_bytes text.new ≡ string_bytes text.old
        ++ spec.quality_place place.now) }
{
    write_next_key(text, "location")?;
    write_location(text, place)
}

/// Writes a fault as an object.
#[tactic(auto, unfolding(crate::specs::Quality::quality_object))]
fn write_object(alloc: Global, text: &mut String, one: &Marked) -> Result<(), AllocError>
    ensures { OnOk result (string_bytes text.new ≡ string_bytes text.old
        ++ spec.quality_object (marked one.now)) }
{
    write_head(alloc, text, one.told)?;
    write_next_text_member(text, "fingerprint", one.mark.as_str())?;
    write_severity(text)?;
    write_place(text, &one.told.place)?;
    text.push_str("}")?;
    Ok(())
}

/// Writes faults as objects, with a comma before each.
fn write_further(alloc: Global, text: &mut String, all: &[Marked]) -> Result<(), AllocError>
    ensures { OnOk result (string_bytes text.new ≡ string_bytes text.old
        ++ flat_map (λ one. 44 ∷ spec.quality_object (marked one)) all.now) }
{
    for one in all {
        text.push(',')?;
        write_object(alloc, text, one)?;
    }
    Ok(())
}

/// Writes faults as objects, with a comma between each two.
fn write_objects(alloc: Global, text: &mut String, all: &[Marked]) -> Result<(), AllocError>
    ensures { OnOk result (string_bytes text.new ≡ string_bytes text.old
        ++ spec.quality_objects (map marked all.now)) }
{
    if let [first, rest @ ..] = all {
        write_object(alloc, text, first)?;
        write_further(alloc, text, rest)?;
    }
    Ok(())
}

/// A report of GitLab's code quality of faults or changes by their marks, on one line. Each has its
/// fingerprint there, and no two have the same.
///
/// # Errors
/// `AllocError` where memory was refused.
pub fn quality_of(alloc: Global, all: &[Marked]) -> Result<String, AllocError>
    ensures { IfOk result (λ s. string_bytes s ≡ spec.quality_of (map marked all.now)) }
{
    let told = apart(alloc, all)?;
    let mut text = String::from_str(alloc, "[")?;
    write_objects(alloc, &mut text, told.as_slice())?;
    text.push_str("]\n")?;
    Ok(text)
}

/// Faults and their marks.
fn marked_faults(alloc: Global, told: &[ToldFault]) -> Result<Vec<Marked<'_>>, AllocError>
    ensures { IfOk result (λ all. map marked all.items ≡ map spec.marked_fault told.now) }
{
    let mut all = Vec::new(alloc);
    for fault in told {
        let mark = fault_mark(alloc, fault)?;
        all.push(Marked {
            mark: Text::from_string(mark),
            told: fault,
        })?;
    }
    Ok(all)
}

/// Faults as a report of GitLab's code quality, on one line.
///
/// # Errors
/// `AllocError` where memory was refused.
pub fn quality_text(alloc: Global, told: &[ToldFault]) -> Result<String, AllocError>
    ensures { IfOk result (λ s. string_bytes s ≡ spec.quality told.now) }
{
    let all = marked_faults(alloc, told)?;
    quality_of(alloc, all.as_slice())
}
