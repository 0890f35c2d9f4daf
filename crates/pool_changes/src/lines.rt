//! What a new version changes of an older one, as lines for people.

ghost use Rattle.std.specs.Prelude.{◌≡◌, ◌++◌, IfOk, OnOk, string_bytes};
ghost use Rattle.std.specs.List.{flat_map};
ghost use Rattle.verdict_texts.specs.PlainFaults.{fault_lines};
ghost use Rattle.pool_changes.specs.Texts as spec;

use crate::{Level, ToldChanges};
use std::alloc::{AllocError, Global};
use verdict_texts::{ToldFault, write_fault_lines, write_line};

/// The word for a number of changes.
#[tactic(auto, unfolding(crate::specs::Texts::change_word))]
fn change_word(count: usize) -> &'static str
    ensures { result.now ≡ spec.change_word count }
{
    if count == 1 { "change" } else { "changes" }
}

/// How many changes there are, or that there are none, before the level.
#[tactic(auto, unfolding(crate::specs::Texts::count_words))]
fn count_words(alloc: Global, count: usize) -> Result<String, AllocError>
    ensures { IfOk result (λ s. string_bytes s ≡ spec.count_words count) }
{
    if count == 0 {
        return String::from_str(alloc, "unchanged");
    }
    let word = change_word(count);
    format!(in alloc; "changed: {count} {word}")
}

/// How many changes are not told, if any.
#[tactic(auto, unfolding(crate::specs::Texts::untold_words))]
fn untold_words(alloc: Global, untold: usize) -> Result<String, AllocError>
    ensures { IfOk result (λ s. string_bytes s ≡ spec.untold_words untold) }
{
    if untold == 0 {
        return Ok(String::new(alloc));
    }
    format!(in alloc; ", of which {untold} are not shown")
}

/// How many changes there are, at which level, and against which older version.
fn compared_words(alloc: Global, changes: &ToldChanges) -> Result<String, AllocError>
    ensures { IfOk result (λ s. string_bytes s ≡ spec.compared_words changes.now) }
{
    let level = changes.level.word();
    let against = changes.against.as_str();
    let counted = count_words(alloc, changes.count)?;
    let counted = counted.as_str();
    format!(in alloc; "{counted} at {level} against {against}")
}

/// In which direction, and how many of them are not told, if any.
fn direction_words(alloc: Global, changes: &ToldChanges) -> Result<String, AllocError>
    ensures { IfOk result (λ s. string_bytes s ≡ spec.direction_words changes.now) }
{
    let direction = changes.direction.word();
    let untold = untold_words(alloc, changes.untold())?;
    let untold = untold.as_str();
    format!(in alloc; ", {direction}{untold}")
}

/// Writes how many changes there are at a level that was not asked for, if any.
#[tactic(auto, unfolding(crate::specs::Texts::beyond_words))]
fn write_beyond(text: &mut String, level: Level, count: usize) -> Result<(), AllocError>
    ensures { OnOk result (string_bytes text.new ≡ string_bytes text.old
        ++ spec.beyond_words level count) }
{
    if count == 0 {
        return Ok(());
    }
    let level = level.word();
    write!(text, "; {count} at {level}")
}

/// The last line: how many changes there are, at which level, against which older version, in which
/// direction, and how many there are at the levels that were not asked for.
fn last_words(alloc: Global, changes: &ToldChanges) -> Result<String, AllocError>
    ensures { IfOk result (λ s. string_bytes s ≡ spec.last_words changes.now) }
{
    let mut text = compared_words(alloc, changes)?;
    let direction = direction_words(alloc, changes)?;
    text.push_str(direction.as_str())?;
    write_beyond(&mut text, Level::Json, changes.json_beyond)?;
    write_beyond(&mut text, Level::Source, changes.source_beyond)?;
    Ok(text)
}

/// Writes the lines of changes.
fn write_told(alloc: Global, text: &mut String, told: &[ToldFault]) -> Result<(), AllocError>
    ensures { OnOk result (string_bytes text.new ≡ string_bytes text.old
        ++ flat_map fault_lines told.now) }
{
    for change in told {
        write_fault_lines(alloc, text, change)?;
    }
    Ok(())
}

/// Writes the lines of the changes that are told, and a last line that counts them all.
///
/// # Errors
/// `AllocError` where memory was refused.
pub fn write_changes(
    alloc: Global,
    text: &mut String,
    changes: &ToldChanges,
) -> Result<(), AllocError>
    ensures { OnOk result (string_bytes text.new ≡ string_bytes text.old
        ++ spec.changes_lines changes.now) }
{
    write_told(alloc, text, changes.told.as_slice())?;
    let last = last_words(alloc, changes)?;
    write_line(text, last.as_str())
}
