//! What is told of a call that added nothing.

ghost use Rattle.std.specs.Prelude.{◌≡◌, IfOk, map, string_bytes};
ghost use Rattle.numbered_pool.specs.Reports as spec;

use joined_files::{UnequalFile, tell_unequal};
use plain_data::Text;
use record_walk::CountKind;
use std::alloc::{AllocError, Global};
use verdict_texts::{
    RefusedBatch, ToldRefusal, refused_json, refused_text, tell_refusal, too_many_json,
    too_many_text, unread_json, write_line,
};

/// What the last call that added files tells. Both texts are empty where it told nothing.
#[derive(PartialEq, Drop)]
pub struct Report {
    /// Lines for people.
    pub lines: Text,
    /// An object of JSON, and the end of its line.
    pub json: Text,
}

impl Report {
    /// Nothing told, which takes no memory.
    pub fn new(alloc: Global) -> Report
        ensures { result ≡ spec.no_report }
    {
        Report {
            lines: Text::new(alloc),
            json: Text::new(alloc),
        }
    }
}

/// What is told of new files that break rules: so many of their faults at most.
pub(crate) fn refused_report(
    alloc: Global,
    batch: &RefusedBatch,
    most: usize,
) -> Result<Report, AllocError>
    ensures { IfOk result (λ report. report ≡ spec.refused_report
        (map (λ f. f.raw) batch.now.linked.now) batch.now.files.now batch.now.faults.now
        batch.now.rest most) }
{
    let refusal = tell_refusal(alloc, batch, most)?;
    told_report(alloc, &refusal)
}

/// What is told of files that differ from others of their names: so many of them at most.
pub(crate) fn unequal_report(
    alloc: Global,
    unequal: &[UnequalFile],
    most: usize,
) -> Result<Report, AllocError>
    ensures { IfOk result (λ report. report ≡ spec.unequal_report unequal.now most) }
{
    let refusal = tell_unequal(alloc, unequal, most)?;
    told_report(alloc, &refusal)
}

/// A refused batch as it is told. Both texts are printed of one list.
fn told_report(alloc: Global, refusal: &ToldRefusal) -> Result<Report, AllocError>
    ensures { IfOk result (λ report. report ≡ spec.told_report refusal.now) }
{
    let lines = refused_text(alloc, refusal)?;
    let json = refused_json(alloc, refusal)?;
    Ok(as_report(lines, json))
}

/// What is told of files of which there are too many.
pub(crate) fn too_many_report(alloc: Global, kind: CountKind) -> Result<Report, AllocError>
    ensures { IfOk result (λ report. report ≡ spec.too_many_report kind) }
{
    let lines = too_many_text(alloc, kind)?;
    let json = too_many_json(alloc, kind)?;
    Ok(as_report(lines, json))
}

/// What is told of bytes that are no files.
pub(crate) fn fault_report(alloc: Global, words: &str) -> Result<Report, AllocError>
    ensures { IfOk result (λ report. report ≡ spec.fault_report words.now) }
{
    let mut lines = String::new(alloc);
    write_line(&mut lines, words)?;
    let json = unread_json(alloc, words)?;
    Ok(as_report(lines, json))
}

/// Two texts as a report.
fn as_report(lines: String, json: String) -> Report
    ensures { result ≡ record { lines = string_bytes lines; json = string_bytes json } }
{
    Report {
        lines: Text::from_string(lines),
        json: Text::from_string(json),
    }
}
