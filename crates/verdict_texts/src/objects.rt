//! The verdict as an object of JSON.

ghost use Rattle.std.specs.Prelude.{◌≡◌, ◌∷◌, ◌++◌, IfOk, OnOk, string_bytes};
ghost use Rattle.std.specs.List.{flat_map};
ghost use Rattle.verdict_texts.specs.JsonFaults.{json_fault};
ghost use Rattle.verdict_texts.specs.Objects as spec;

use crate::accepted::json_counts;
use crate::json_faults::write_fault_json;
use crate::refused::ToldRefusal;
use crate::strings::json_string;
use crate::telling::ToldFault;
use record_walk::{CountKind, Counts, count_word};
use std::alloc::{AllocError, Global};

/// An object: its first members, its faults, and its last members.
fn object(alloc: Global, head: &str, faults: &str, tail: &str) -> Result<String, AllocError>
    ensures { IfOk result (λ s. string_bytes s ≡ spec.object head.now faults.now tail.now) }
{
    format!(in alloc; "{{{head},\"faults\":[{faults}],{tail}}}\n")
}

/// The first members: the verdict, how much is declared, and of what there is too much.
fn head(alloc: Global, verdict: &str, counts: &str, too_many: &str) -> Result<String, AllocError>
    ensures { IfOk result (λ s. string_bytes s
        ≡ spec.head verdict.now counts.now too_many.now) }
{
    format!(in alloc; "\"verdict\":\"{verdict}\",\"counts\":{counts},\"too_many\":{too_many}")
}

/// The last members: how many faults are not told, and why there is no verdict.
fn tail(alloc: Global, more: usize, error: &str) -> Result<String, AllocError>
    ensures { IfOk result (λ s. string_bytes s ≡ spec.tail more error.now) }
{
    format!(in alloc; "\"more\":{more},\"error\":{error}")
}

/// Writes faults as objects of JSON, with a comma before each.
fn write_further(text: &mut String, told: &[ToldFault]) -> Result<(), AllocError>
    ensures { OnOk result (string_bytes text.new ≡ string_bytes text.old
        ++ flat_map (λ g. 44 ∷ json_fault g) told.now) }
{
    for fault in told {
        text.push(',')?;
        write_fault_json(text, fault)?;
    }
    Ok(())
}

/// Faults as objects of JSON, with a comma between each two.
fn json_faults(alloc: Global, told: &[ToldFault]) -> Result<String, AllocError>
    ensures { IfOk result (λ s. string_bytes s ≡ spec.json_faults told.now) }
{
    let mut text = String::new(alloc);
    if let [first, rest @ ..] = told {
        write_fault_json(&mut text, first)?;
        write_further(&mut text, rest)?;
    }
    Ok(text)
}

/// The object of a batch that is accepted.
///
/// # Errors
/// `AllocError` where memory was refused.
pub fn accepted_json(alloc: Global, counts: Counts) -> Result<String, AllocError>
    ensures { IfOk result (λ s. string_bytes s ≡ spec.accepted_json counts) }
{
    let counts = json_counts(alloc, counts)?;
    let head = head(alloc, "accepted", counts.as_str(), "null")?;
    let tail = tail(alloc, 0, "null")?;
    object(alloc, head.as_str(), "", tail.as_str())
}

/// The object of a batch that is refused: the faults that are told, and how many more there are.
///
/// # Errors
/// `AllocError` where memory was refused.
pub fn refused_json(alloc: Global, refusal: &ToldRefusal) -> Result<String, AllocError>
    ensures { IfOk result (λ s. string_bytes s ≡ spec.refused_json refusal.now) }
{
    let told = json_faults(alloc, refusal.told.as_slice())?;
    let head = head(alloc, "refused", "null", "null")?;
    let tail = tail(alloc, refusal.untold(), "null")?;
    object(alloc, head.as_str(), told.as_str(), tail.as_str())
}

/// The object of a batch for which no pool has room.
///
/// # Errors
/// `AllocError` where memory was refused.
pub fn too_many_json(alloc: Global, kind: CountKind) -> Result<String, AllocError>
    ensures { IfOk result (λ s. string_bytes s ≡ spec.too_many_json kind) }
{
    let word = json_string(alloc, count_word(kind))?;
    let head = head(alloc, "refused", "null", word.as_str())?;
    let tail = tail(alloc, 0, "null")?;
    object(alloc, head.as_str(), "", tail.as_str())
}

/// The object where an input is no set.
///
/// # Errors
/// `AllocError` where memory was refused.
pub fn unread_json(alloc: Global, words: &str) -> Result<String, AllocError>
    ensures { IfOk result (λ s. string_bytes s ≡ spec.unread_json words.now) }
{
    let error = json_string(alloc, words)?;
    let head = head(alloc, "none", "null", "null")?;
    let tail = tail(alloc, 0, error.as_str())?;
    object(alloc, head.as_str(), "", tail.as_str())
}
