//! What an accepted batch changes of older versions, in each format.

ghost use Rattle.std.specs.Prelude.{◌≡◌, ◌++◌, IfOk, OnOk, map, string_bytes};
ghost use Rattle.std.specs.List.{flat_map};
ghost use Rattle.pool_changes.specs.Texts.{changes_lines};
ghost use Rattle.verdict_texts.specs.Changes.{marks};
ghost use Rattle.verdict_texts.specs.Fingerprints.{marked};
ghost use Rattle.descriptor_check.specs.ChangeFormats as spec;

use pool_changes::{
    Level, ToldChanges, behind_comma, compared_entries, levels, with_changes, write_changes,
};
use std::alloc::{AllocError, Global};
use verdict_texts::{ChangeMarks, Format, Marked, annotations_text, quality_of, sarif_of};

/// Writes the lines of changes.
fn write_each(alloc: Global, text: &mut String, told: &[ToldChanges]) -> Result<(), AllocError>
    ensures { OnOk result (string_bytes text.new ≡ string_bytes text.old
        ++ flat_map changes_lines told.now) }
{
    for changes in told {
        write_changes(alloc, text, changes)?;
    }
    Ok(())
}

/// Writes the annotations of changes.
fn write_annotations(
    alloc: Global,
    text: &mut String,
    told: &[ToldChanges],
) -> Result<(), AllocError>
    ensures { OnOk result (string_bytes text.new ≡ string_bytes text.old
        ++ flat_map spec.changes_annotations told.now) }
{
    for changes in told {
        write_annotated(alloc, text, changes)?;
    }
    Ok(())
}

/// Writes the annotations of what a new version changes of an older one.
fn write_annotated(
    alloc: Global,
    text: &mut String,
    changes: &ToldChanges,
) -> Result<(), AllocError>
    ensures { OnOk result (string_bytes text.new ≡ string_bytes text.old
        ++ spec.changes_annotations changes.now) }
{
    let annotations = annotations_text(alloc, changes.told.as_slice(), changes.untold())?;
    text.push_str(annotations.as_str())
}

/// What is told of the changes at a level besides.
fn marks_at(changes: &ToldChanges, level: Level) -> ChangeMarks<'_>
    ensures { marks result ≡ spec.marks_at changes.now level }
{
    ChangeMarks {
        level: level.word(),
        direction: changes.direction.word(),
        against: changes.against.as_str(),
    }
}

/// Appends the changes of each level and their marks.
fn push_marked<'a>(
    alloc: Global,
    all: &mut Vec<Marked<'a>>,
    changes: &'a ToldChanges,
) -> Result<(), AllocError>
    ensures { OnOk result (map marked all.new.items ≡ map marked all.old.items
        ++ spec.marked_at_levels changes.now) }
{
    for level in levels() {
        let marks = marks_at(changes, *level);
        marks.push_marked(alloc, all, changes.at(*level))?;
    }
    Ok(())
}

/// All changes that are told, and their marks.
fn all_marked(alloc: Global, told: &[ToldChanges]) -> Result<Vec<Marked<'_>>, AllocError>
    ensures { IfOk result (λ all. map marked all.items
        ≡ flat_map spec.marked_at_levels told.now) }
{
    let mut all = Vec::new(alloc);
    for changes in told {
        push_marked(alloc, &mut all, changes)?;
    }
    Ok(all)
}

/// The changes as a report of GitLab's code quality; where nothing was compared, that of the
/// verdict.
fn quality_report(alloc: Global, told: &[ToldChanges], report: &str) -> Result<String, AllocError>
    ensures { IfOk result (λ s. string_bytes s ≡ spec.quality_report told.now report.now) }
{
    if told.is_empty() {
        return String::from_str(alloc, report);
    }
    let all = all_marked(alloc, told)?;
    quality_of(alloc, all.as_slice())
}

/// Writes the changes of each level as results of SARIF, with a comma before each.
fn write_results(alloc: Global, text: &mut String, changes: &ToldChanges) -> Result<(), AllocError>
    ensures { OnOk result (string_bytes text.new ≡ string_bytes text.old
        ++ spec.sarif_results changes.now) }
{
    for level in levels() {
        let marks = marks_at(changes, *level);
        marks.write_results(alloc, text, changes.at(*level))?;
    }
    Ok(())
}

/// Writes changes as results of SARIF, with a comma before each.
fn write_all_results(
    alloc: Global,
    text: &mut String,
    told: &[ToldChanges],
) -> Result<(), AllocError>
    ensures { OnOk result (string_bytes text.new ≡ string_bytes text.old
        ++ flat_map spec.sarif_results told.now) }
{
    for changes in told {
        write_results(alloc, text, changes)?;
    }
    Ok(())
}

/// The changes as a log of SARIF, whose rules are the kinds of changes; where nothing was compared,
/// that of the verdict.
fn sarif_report(alloc: Global, told: &[ToldChanges], report: &str) -> Result<String, AllocError>
    ensures { IfOk result (λ s. string_bytes s ≡ spec.sarif_report told.now report.now) }
{
    if told.is_empty() {
        return String::from_str(alloc, report);
    }
    let mut results = String::new(alloc);
    write_all_results(alloc, &mut results, told)?;
    let compared = compared_entries(alloc, told)?;
    sarif_of(alloc, behind_comma(results.as_str()), compared.as_str())
}

/// What is told for people: the verdict, and behind it the lines of the changes.
fn lines_report(alloc: Global, told: &[ToldChanges], report: &str) -> Result<String, AllocError>
    ensures { IfOk result (λ s. string_bytes s ≡ report.now ++ flat_map changes_lines told.now) }
{
    let mut text = String::from_str(alloc, report)?;
    write_each(alloc, &mut text, told)?;
    Ok(text)
}

/// The annotations of the verdict, and behind them those of the changes.
fn annotations_report(
    alloc: Global,
    told: &[ToldChanges],
    report: &str,
) -> Result<String, AllocError>
    ensures { IfOk result (λ s. string_bytes s
        ≡ report.now ++ flat_map spec.changes_annotations told.now) }
{
    let mut text = String::from_str(alloc, report)?;
    write_annotations(alloc, &mut text, told)?;
    Ok(text)
}

/// What is told in a format of what was compared, by what it tells of the verdict.
pub(crate) fn report_with(
    alloc: Global,
    format: Format,
    told: &[ToldChanges],
    report: &str,
) -> Result<String, AllocError>
    ensures { IfOk result (λ s. string_bytes s ≡ spec.report_with format told.now report.now) }
{
    match format {
        Format::Text => lines_report(alloc, told, report),
        Format::Json => with_changes(alloc, told, report),
        Format::GitHub => annotations_report(alloc, told, report),
        Format::GitLab => quality_report(alloc, told, report),
        Format::Sarif => sarif_report(alloc, told, report),
    }
}
