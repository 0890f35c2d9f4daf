//! What tells the faults of a report of GitLab's code quality from each other.

ghost use Rattle.std.specs.Prelude.{◌≡◌, ◌+◌, ◌<◌, ◌^◌, ℕ, List, if◌then◌else◌, map, IfOk, OnOk};
ghost use Rattle.std.specs.Prelude.{string_bytes};
ghost use Rattle.std.specs.Str.{bytes_eq};
ghost use Rattle.verdict_texts.specs.Fingerprints as spec;

use crate::ToldFault;
use plain_data::Text;
use std::alloc::{AllocError, Global};
use std::collections::HashMap;

/// A fault of a report, and the mark that tells it from the faults with other marks.
#[derive(Drop)]
pub struct Marked<'a> {
    pub mark: Text,
    pub told: &'a ToldFault,
}

/// The fingerprint of the nth fault with a mark.
#[tactic(auto, unfolding(crate::specs::Fingerprints::fingerprint))]
fn fingerprint(alloc: Global, mark: &str, nth: usize) -> Result<String, AllocError>
    ensures { IfOk result (λ s. string_bytes s ≡ spec.fingerprint mark.now nth) }
{
    if nth == 1 && !mark.starts_with('#') {
        return String::from_str(alloc, mark);
    }
    format!(in alloc; "#{nth} {mark}")
}

/// Counts a text once more, and how often it is counted by then.
fn count<'a>(counts: &mut HashMap<&'a str, usize>, text: &'a str) -> Result<usize, AllocError>
    requires { spec.counted counts.old text.now + 1 < 2 ^ 64 }
    ensures nth { IfOk result (λ nth. nth ≡ spec.counted counts.old text.now + 1) }
    ensures all { OnOk result ((other : List ℕ) → spec.counted counts.new other
        ≡ spec.counted counts.old other + (if bytes_eq other text.now then 1 else 0)) }
{
    let nth = counts.get(text).copied().unwrap_or(0) + 1;
    counts.insert(text, nth)?;
    Ok(nth)
}

/// The faults of a report, with their fingerprints in place of their marks.
pub(crate) fn apart<'a>(alloc: Global, all: &[Marked<'a>]) -> Result<Vec<Marked<'a>>, AllocError>
    ensures { IfOk result (λ told. map spec.marked told.items
        ≡ spec.apart (map spec.marked all.now)) }
{
    let mut counts = HashMap::new(alloc);
    let mut told = Vec::new(alloc);
    for one in all {
        let mark = one.mark.as_str();
        let nth = count(&mut counts, mark)?;
        let fingerprint = fingerprint(alloc, mark, nth)?;
        told.push(Marked {
            mark: Text::from_string(fingerprint),
            told: one.told,
        })?;
    }
    Ok(told)
}
