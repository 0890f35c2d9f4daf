//! The verdict on a batch in each format.

ghost use Rattle.std.specs.Prelude.{◌≡◌, ◌++◌, IfOk, string_bytes};
ghost use Rattle.verdict_texts.specs.Formats as spec;

use crate::annotations::annotations_text;
use crate::quality::quality_text;
use crate::sarif::sarif_text;
use crate::{
    ToldFault, ToldRefusal, accepted_json, accepted_text, refused_json, refused_text,
    too_many_json, too_many_text, unread_json,
};
use plain_data::Text;
use record_walk::{CountKind, Counts, count_word};
use std::alloc::{AllocError, Global};

/// How a verdict is told.
#[derive(Clone, Copy, PartialEq, Debug)]
pub enum Format {
    /// Lines for people.
    Text,
    /// One object of JSON.
    Json,
    /// Annotations of a workflow of GitHub's.
    GitHub,
    /// A report of GitLab's code quality.
    GitLab,
    /// A log of SARIF.
    Sarif,
}

impl Format {
    /// Whether it is of lines for people, among which more than the verdict can be told.
    pub fn is_for_people(self) -> bool
        ensures { result ≡ spec.is_for_people self }
    {
        matches!(self, Format::Text)
    }
}

/// A fault of a whole batch, which has no place.
fn fault_of_all(
    alloc: Global,
    code: &str,
    message: &str,
    note: &str,
) -> Result<ToldFault, AllocError>
    ensures { IfOk result (λ told. told ≡ spec.fault_of_all code.now message.now note.now) }
{
    let code = Text::from_str(alloc, code)?;
    let message = Text::from_str(alloc, message)?;
    let note = Text::from_str(alloc, note)?;
    Ok(ToldFault {
        code,
        message,
        place: None,
        second: None,
        note,
    })
}

/// Too much of a kind, as a fault.
fn too_many_fault(alloc: Global, kind: CountKind) -> Result<ToldFault, AllocError>
    ensures { IfOk result (λ told. told ≡ spec.too_many_fault kind) }
{
    let word = count_word(kind);
    let message = format!(in alloc; "too many {word}")?;
    fault_of_all(
        alloc,
        "TooMany",
        message.as_str(),
        "no pool has room for them",
    )
}

/// Why there is no verdict, as a fault.
fn unread_fault(alloc: Global, words: &str) -> Result<ToldFault, AllocError>
    ensures { IfOk result (λ told. told ≡ spec.unread_fault words.now) }
{
    fault_of_all(alloc, "NoVerdict", words, "there is no verdict")
}

/// What is told of an accepted batch, by how much it declares.
///
/// # Errors
/// `AllocError` where memory was refused.
pub fn accepted_report(alloc: Global, format: Format, counts: Counts) -> Result<String, AllocError>
    ensures { IfOk result (λ s. string_bytes s ≡ spec.accepted_report format counts) }
{
    match format {
        Format::Text | Format::GitHub => accepted_text(alloc, counts),
        Format::Json => accepted_json(alloc, counts),
        Format::GitLab => quality_text(alloc, &[]),
        Format::Sarif => sarif_text(alloc, &[], 0),
    }
}

/// What is told of a batch that breaks rules.
///
/// # Errors
/// `AllocError` where memory was refused.
pub fn refused_report(
    alloc: Global,
    format: Format,
    refusal: &ToldRefusal,
) -> Result<String, AllocError>
    ensures { IfOk result (λ s. string_bytes s ≡ spec.refused_report format refusal.now) }
{
    let told = refusal.told.as_slice();
    match format {
        Format::Text => refused_text(alloc, refusal),
        Format::Json => refused_json(alloc, refusal),
        Format::GitHub => annotations_text(alloc, told, refusal.untold()),
        Format::GitLab => quality_text(alloc, told),
        Format::Sarif => sarif_text(alloc, told, refusal.untold()),
    }
}

/// What is told of a batch for which no pool has room.
///
/// # Errors
/// `AllocError` where memory was refused.
pub fn too_many_report(alloc: Global, format: Format, kind: CountKind) -> Result<String, AllocError>
    ensures { IfOk result (λ s. string_bytes s ≡ spec.too_many_report format kind) }
{
    match format {
        Format::Text => too_many_text(alloc, kind),
        Format::Json => too_many_json(alloc, kind),
        Format::GitHub => annotations_text(alloc, &[too_many_fault(alloc, kind)?], 0),
        Format::GitLab => quality_text(alloc, &[too_many_fault(alloc, kind)?]),
        Format::Sarif => sarif_text(alloc, &[too_many_fault(alloc, kind)?], 0),
    }
}

/// What is told where there is no verdict, with the reason. People are told on the standard error.
///
/// # Errors
/// `AllocError` where memory was refused.
pub fn unread_report(alloc: Global, format: Format, words: &str) -> Result<String, AllocError>
    ensures { IfOk result (λ s. string_bytes s ≡ spec.unread_report format words.now) }
{
    match format {
        Format::Text => Ok(String::new(alloc)),
        Format::Json => unread_json(alloc, words),
        Format::GitHub => annotations_text(alloc, &[unread_fault(alloc, words)?], 0),
        Format::GitLab => quality_text(alloc, &[unread_fault(alloc, words)?]),
        Format::Sarif => sarif_text(alloc, &[unread_fault(alloc, words)?], 0),
    }
}
