//! Faults as a log of SARIF, version 2.1.0.

ghost use Rattle.std.specs.Prelude.{◌≡◌, [], ◌∷◌, ◌++◌, IfOk, OnOk, string_bytes};
ghost use Rattle.std.specs.List.{flat_map};
ghost use Rattle.std.specs.Option.{option_map_or};
ghost use Rattle.verdict_texts.specs.Sarif as spec;

use crate::members::{
    write_key, write_next_key, write_next_number_member, write_next_text_member,
    write_number_member, write_text_member, write_text_object,
};
use crate::percent::write_uri;
use crate::rules::RULES;
use crate::texts::{position_of, second_words, told_text};
use crate::{Position, ToldFault, ToldPlace, ToldSecond};
use plain_data::Text;
use std::alloc::{AllocError, Global};

/// Writes where something begins as a region.
#[tactic(auto, unfolding(crate::specs::Sarif::region))]
fn write_region(text: &mut String, at: Position) -> Result<(), AllocError>
    ensures { OnOk result (string_bytes text.new ≡ string_bytes text.old ++ spec.region at) }
{
    let Position { line, column } = at;
    text.push_str("{")?;
    write_number_member(text, "startLine", line)?;
    write_next_number_member(text, "startColumn", column)?;
    text.push_str("}")
}

/// Writes a region, if there is one, as a further member.
fn write_region_member(text: &mut String, position: Option<Position>) -> Result<(), AllocError>
    ensures { OnOk result (string_bytes text.new ≡ string_bytes text.old
        ++ spec.region_member position) }
{
    match position {
        Some(at) => {
            write_next_key(text, "region")?;
            write_region(text, at)
        }
        None => Ok(()),
    }
}

/// Writes the file of a place.
#[tactic(auto, unfolding(crate::specs::Sarif::artifact))]
fn write_artifact(text: &mut String, place: &ToldPlace) -> Result<(), AllocError>
    ensures { OnOk result (string_bytes text.new ≡ string_bytes text.old
        ++ spec.artifact place.now) }
{
    text.push_str("{")?;
    write_key(text, "uri")?;
    text.push_str("\"")?;
    write_uri(text, place.file.as_str())?;
    text.push_str("\"}")
}

/// Writes a file, and where something begins in it, as a physical location.
#[tactic(auto, unfolding(crate::specs::Sarif::physical))]
fn write_physical(text: &mut String, place: &ToldPlace) -> Result<(), AllocError>
    ensures { OnOk result (string_bytes text.new ≡ string_bytes text.old
        ++ spec.physical place.now) }
{
    text.push_str("{")?;
    write_key(text, "artifactLocation")?;
    write_artifact(text, place)?;
    write_region_member(text, position_of(place))?;
    text.push_str("}")
}

/// Writes a full name as a logical location.
#[tactic(auto, unfolding(crate::specs::Sarif::logical))]
fn write_logical(text: &mut String, name: &str) -> Result<(), AllocError>
    ensures { OnOk result (string_bytes text.new ≡ string_bytes text.old
        ++ spec.logical name.now) }
{
    text.push_str("[{")?;
    write_text_member(text, "fullyQualifiedName", name)?;
    text.push_str("}]")
}

/// Writes an element, if there is one, as a further member.
fn write_element_member(text: &mut String, element: &Option<Text>) -> Result<(), AllocError>
    ensures { OnOk result (string_bytes text.new ≡ string_bytes text.old
        ++ spec.element_member element.now) }
{
    match element {
        Some(name) => {
            write_next_key(text, "logicalLocations")?;
            write_logical(text, name.as_str())
        }
        None => Ok(()),
    }
}

/// Writes the members of a location: the place in a file, and the element, if there is one.
#[tactic(auto, unfolding(crate::specs::Sarif::location))]
fn write_members(text: &mut String, place: &ToldPlace) -> Result<(), AllocError>
    ensures { OnOk result (string_bytes text.new ≡ string_bytes text.old
        ++ spec.location place.now) }
{
    write_key(text, "physicalLocation")?;
    write_physical(text, place)?;
    write_element_member(text, &place.element)
}

/// Writes the place of a fault, if it shows one, as a location.
fn write_location(text: &mut String, place: &Option<ToldPlace>) -> Result<(), AllocError>
    ensures { OnOk result (string_bytes text.new ≡ string_bytes text.old
        ++ option_map_or spec.place_location place.now []) }
{
    match place {
        Some(place) => {
            text.push_str("{")?;
            write_members(text, place)?;
            text.push_str("}")
        }
        None => Ok(()),
    }
}

/// Writes a second place as a related location with its words.
#[tactic(auto, unfolding(crate::specs::Sarif::second_location))]
fn write_second(alloc: Global, text: &mut String, second: &ToldSecond) -> Result<(), AllocError>
    ensures { OnOk result (string_bytes text.new ≡ string_bytes text.old
        ++ spec.second_location second.now) }
{
    let words = second_words(alloc, second)?;
    text.push_str("{")?;
    write_members(text, &second.place)?;
    write_next_key(text, "message")?;
    write_text_object(text, words.as_str())?;
    text.push_str("}")
}

/// Writes the second place of a fault, if it has one, as a related location.
fn write_second_if(
    alloc: Global,
    text: &mut String,
    second: &Option<ToldSecond>,
) -> Result<(), AllocError>
    ensures { OnOk result (string_bytes text.new ≡ string_bytes text.old
        ++ option_map_or spec.second_location second.now []) }
{
    match second {
        Some(second) => write_second(alloc, text, second),
        None => Ok(()),
    }
}

/// Writes the place of a fault, if it shows one, as a member.
#[tactic(auto, unfolding(crate::specs::Sarif::locations))]
fn write_locations(text: &mut String, place: &Option<ToldPlace>) -> Result<(), AllocError>
    ensures { OnOk result (string_bytes text.new ≡ string_bytes text.old
        ++ spec.locations place.now) }
{
    write_next_key(text, "locations")?;
    text.push_str("[")?;
    write_location(text, place)?;
    text.push_str("]")
}

/// Writes the second place of a fault, if it has one, as a member.
#[tactic(auto, unfolding(crate::specs::Sarif::related))]
fn write_related(
    alloc: Global,
    text: &mut String,
    second: &Option<ToldSecond>,
) -> Result<(), AllocError>
    ensures { OnOk result (string_bytes text.new ≡ string_bytes text.old
        ++ spec.related second.now) }
{
    write_next_key(text, "relatedLocations")?;
    text.push_str("[")?;
    write_second_if(alloc, text, second)?;
    text.push_str("]")
}

/// Writes the kind of a fault and its text, as the first members of a result.
#[tactic(auto, unfolding(crate::specs::Sarif::result_head))]
fn write_head(alloc: Global, text: &mut String, told: &ToldFault) -> Result<(), AllocError>
    ensures { OnOk result (string_bytes text.new ≡ string_bytes text.old
        ++ spec.result_head told.now) }
{
    let words = told_text(alloc, told)?;
    text.push_str("{")?;
    write_text_member(text, "ruleId", told.code.as_str())?;
    write_next_text_member(text, "level", "error")?;
    write_next_key(text, "message")?;
    write_text_object(text, words.as_str())
}

/// Writes the first members of a result: its kind, its text, its place and its second place.
#[tactic(auto, unfolding(crate::specs::Sarif::result_members))]
pub(crate) fn write_result_members(
    alloc: Global,
    text: &mut String,
    told: &ToldFault,
) -> Result<(), AllocError>
    ensures { OnOk result (string_bytes text.new ≡ string_bytes text.old
        ++ spec.result_members told.now) }
{
    write_head(alloc, text, told)?;
    write_locations(text, &told.place)?;
    write_related(alloc, text, &told.second)
}

/// Writes a fault as a result.
fn write_result(alloc: Global, text: &mut String, told: &ToldFault) -> Result<(), AllocError>
    ensures { OnOk result (string_bytes text.new ≡ string_bytes text.old
        ++ spec.result_object told.now) }
{
    write_result_members(alloc, text, told)?;
    text.push_str("}")
}

/// Writes faults as results, with a comma before each.
fn write_further(alloc: Global, text: &mut String, told: &[ToldFault]) -> Result<(), AllocError>
    ensures { OnOk result (string_bytes text.new ≡ string_bytes text.old
        ++ flat_map (λ g. 44 ∷ spec.result_object g) told.now) }
{
    for fault in told {
        text.push(',')?;
        write_result(alloc, text, fault)?;
    }
    Ok(())
}

/// Writes faults as results, with a comma between each two.
fn write_results(alloc: Global, text: &mut String, told: &[ToldFault]) -> Result<(), AllocError>
    ensures { OnOk result (string_bytes text.new ≡ string_bytes text.old
        ++ spec.results told.now) }
{
    if let [first, rest @ ..] = told {
        write_result(alloc, text, first)?;
        write_further(alloc, text, rest)?;
    }
    Ok(())
}

/// The beginning of a log, with its one run: the tool and its rules.
fn rules(alloc: Global) -> Result<String, AllocError>
    ensures { IfOk result (λ s. string_bytes s ≡ spec.rules) }
{
    String::from_str(alloc, RULES)
}

/// Writes how many faults are not told, as the properties of a run.
#[tactic(auto, unfolding(crate::specs::Sarif::properties))]
fn write_properties(text: &mut String, more: usize) -> Result<(), AllocError>
    ensures { OnOk result (string_bytes text.new ≡ string_bytes text.old
        ++ spec.properties more) }
{
    text.push_str("{")?;
    write_key(text, "more")?;
    write!(text, "{more}}}")
}

/// Faults as a log of SARIF, version 2.1.0, with all rules, on one line.
///
/// # Errors
/// `AllocError` where memory was refused.
pub fn sarif_text(alloc: Global, told: &[ToldFault], more: usize) -> Result<String, AllocError>
    ensures { IfOk result (λ s. string_bytes s ≡ spec.sarif told.now more) }
{
    let mut text = rules(alloc)?;
    write_next_key(&mut text, "results")?;
    text.push_str("[")?;
    write_results(alloc, &mut text, told)?;
    text.push_str("]")?;
    write_next_key(&mut text, "properties")?;
    write_properties(&mut text, more)?;
    text.push_str("}]}\n")?;
    Ok(text)
}
