//! What a new version changes of older ones, as objects of JSON.

ghost use Rattle.std.specs.Prelude.{◌≡◌, ◌∷◌, ◌++◌, IfOk, OnOk, string_bytes};
ghost use Rattle.std.specs.List.{flat_map};
ghost use Rattle.pool_changes.specs.Texts as spec;

use crate::kinds::levels;
use crate::{Level, ToldChanges};
use std::alloc::{AllocError, Global};
use verdict_texts::{ToldFault, json_string, write_fault_json};

/// What stands behind an opening brace, if a text begins with one.
fn behind_brace(text: &str) -> &str
    ensures { result.now ≡ spec.behind_first 123 text.now }
{
    match text.strip_prefix('{') {
        Some(rest) => rest,
        None => text,
    }
}

/// What stands behind a comma, if a text begins with one.
pub fn behind_comma(text: &str) -> &str
    ensures { result.now ≡ spec.behind_first 44 text.now }
{
    match text.strip_prefix(',') {
        Some(rest) => rest,
        None => text,
    }
}

/// The first members of a change: its level, its direction, and the older version.
fn change_head(alloc: Global, changes: &ToldChanges, level: Level) -> Result<String, AllocError>
    ensures { IfOk result (λ s. string_bytes s ≡ spec.change_head changes.now level) }
{
    let level = level.word();
    let direction = changes.direction.word();
    let against = json_string(alloc, changes.against.as_str())?;
    let against = against.as_str();
    format!(in alloc;
        "{{\"level\":\"{level}\",\"direction\":\"{direction}\",\"against\":{against},"
    )
}

/// Writes a change at a level: an object with these members and with those of a fault.
#[tactic(auto, unfolding(crate::specs::Texts::json_change))]
fn write_change(
    alloc: Global,
    text: &mut String,
    changes: &ToldChanges,
    level: Level,
    change: &ToldFault,
) -> Result<(), AllocError>
    ensures { OnOk result (string_bytes text.new ≡ string_bytes text.old
        ++ spec.json_change changes.now level change.now) }
{
    let mut fault = String::new(alloc);
    write_fault_json(&mut fault, change)?;
    let head = change_head(alloc, changes, level)?;
    text.push_str(head.as_str())?;
    text.push_str(behind_brace(fault.as_str()))
}

/// Writes the changes at a level that are told against an older version, with a comma before each.
fn write_level(
    alloc: Global,
    text: &mut String,
    changes: &ToldChanges,
    level: Level,
) -> Result<(), AllocError>
    ensures { OnOk result (string_bytes text.new ≡ string_bytes text.old
        ++ spec.json_changes_at changes.now level) }
{
    let told = changes.at(level);
    for change in told {
        text.push(',')?;
        write_change(alloc, text, changes, level, change)?;
    }
    Ok(())
}

/// Writes the changes that are told against an older version, with a comma before each.
fn write_told(alloc: Global, text: &mut String, changes: &ToldChanges) -> Result<(), AllocError>
    ensures { OnOk result (string_bytes text.new ≡ string_bytes text.old
        ++ spec.json_changes changes.now) }
{
    for level in levels() {
        write_level(alloc, text, changes, *level)?;
    }
    Ok(())
}

/// Writes the changes that are told against older versions, with a comma before each.
fn write_all(alloc: Global, text: &mut String, all: &[ToldChanges]) -> Result<(), AllocError>
    ensures { OnOk result (string_bytes text.new ≡ string_bytes text.old
        ++ flat_map spec.json_changes all.now) }
{
    for changes in all {
        write_told(alloc, text, changes)?;
    }
    Ok(())
}

/// The changes that are told against older versions, as entries of an array.
fn changes_entries(alloc: Global, all: &[ToldChanges]) -> Result<String, AllocError>
    ensures { IfOk result (λ s. string_bytes s ≡ spec.changes_entries all.now) }
{
    let mut told = String::new(alloc);
    write_all(alloc, &mut told, all)?;
    String::from_str(alloc, behind_comma(told.as_str()))
}

/// How many changes there are at the levels that were not asked for, as an object.
fn beyond_object(alloc: Global, changes: &ToldChanges) -> Result<String, AllocError>
    ensures { IfOk result (λ s. string_bytes s ≡ spec.beyond_object changes.now) }
{
    let json = changes.json_beyond;
    let source = changes.source_beyond;
    format!(in alloc; "{{\"json\":{json},\"source\":{source}}}")
}

/// The direction of a comparison, how many changes there are, how many are not told, and how many
/// there are at the levels that were not asked for.
fn counted_members(alloc: Global, changes: &ToldChanges) -> Result<String, AllocError>
    ensures { IfOk result (λ s. string_bytes s ≡ spec.counted_members changes.now) }
{
    let direction = changes.direction.word();
    let count = changes.count;
    let more = changes.untold();
    let beyond = beyond_object(alloc, changes)?;
    let beyond = beyond.as_str();
    format!(in alloc;
        "\"direction\":\"{direction}\",\"count\":{count},\"more\":{more},\"beyond\":{beyond}}}"
    )
}

/// A comparison: the older version, and the members of what was counted.
#[tactic(auto, unfolding(crate::specs::Texts::json_compared))]
fn json_compared(alloc: Global, changes: &ToldChanges) -> Result<String, AllocError>
    ensures { IfOk result (λ s. string_bytes s ≡ spec.json_compared changes.now) }
{
    let against = json_string(alloc, changes.against.as_str())?;
    let against = against.as_str();
    let counted = counted_members(alloc, changes)?;
    let counted = counted.as_str();
    format!(in alloc; "{{\"against\":{against},{counted}")
}

/// Writes comparisons, with a comma before each.
fn write_each_compared(
    alloc: Global,
    text: &mut String,
    all: &[ToldChanges],
) -> Result<(), AllocError>
    ensures { OnOk result (string_bytes text.new ≡ string_bytes text.old
        ++ flat_map (λ r. 44 ∷ spec.json_compared r) all.now) }
{
    for changes in all {
        let compared = json_compared(alloc, changes)?;
        text.push(',')?;
        text.push_str(compared.as_str())?;
    }
    Ok(())
}

/// What was compared, as entries of an array of JSON.
///
/// # Errors
/// `AllocError` where memory was refused.
pub fn compared_entries(alloc: Global, all: &[ToldChanges]) -> Result<String, AllocError>
    ensures { IfOk result (λ s. string_bytes s ≡ spec.compared_entries all.now) }
{
    let mut text = String::new(alloc);
    write_each_compared(alloc, &mut text, all)?;
    String::from_str(alloc, behind_comma(text.as_str()))
}

/// An object, with what was compared and with the changes in front of its own members.
///
/// # Errors
/// `AllocError` where memory was refused.
pub fn with_changes(alloc: Global, all: &[ToldChanges], object: &str) -> Result<String, AllocError>
    ensures { IfOk result (λ s. string_bytes s ≡ spec.with_changes all.now object.now) }
{
    let compared = compared_entries(alloc, all)?;
    let compared = compared.as_str();
    let changes = changes_entries(alloc, all)?;
    let changes = changes.as_str();
    let members = behind_brace(object);
    format!(in alloc; "{{\"compared\":[{compared}],\"changes\":[{changes}],{members}")
}
