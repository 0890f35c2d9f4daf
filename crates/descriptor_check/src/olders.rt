//! The older versions with which a new one is compared.

ghost use Rattle.std.specs.Prelude.{◌≡◌, IfOk, string_bytes};
ghost use Rattle.descriptor_check.specs.Answers.{unread_answer};
ghost use Rattle.descriptor_check.specs.Olders as spec;
ghost use Rattle.descriptor_check.specs.declared.olders.OlderError.TheVariants.{Answered};

use crate::answer::{Answer, Wanted};
use crate::batches::{BatchError, NotASet, read_batch};
use crate::checking::tell_unread;
use crate::complaints::{no_answer, write_complaint};
use crate::inputs::Input;
use crate::verdicts::{Refusal, Verdict, verdict_on_joined};
use descriptor_pool::DescriptorPool;
use joined_files::{UnequalFile, tell_unequal};
use plain_data::{Items, Text};
use std::alloc::{AllocError, Global};
use std::slice::from_ref;
use verdict_texts::{RefusedBatch, refused_text, tell_refusal, too_many_text, unread_report};

/// An older version.
#[derive(Drop)]
pub struct Older {
    /// The name of its set.
    pub name: Text,
    /// The pool of its files.
    pub pool: DescriptorPool,
}

/// Why there is no older version.
#[derive(Drop)]
pub(crate) enum OlderError {
    /// It is no set, or it is refused: what is answered then.
    Answered(Answer),
    /// Memory was refused.
    OutOfMemory,
}

impl From<AllocError> for OlderError {
    ghost use Rattle.std.specs.Prelude.{◌≡◌};
    ghost use Rattle.descriptor_check.specs.declared.olders.OlderError.TheVariants.{OutOfMemory};

    ghost from_gives = { λ _ error. error ≡ OutOfMemory };

    fn from(_error: AllocError) -> OlderError {
        OlderError::OutOfMemory
    }
}

/// That an older version is refused, by its name.
fn refused_words(alloc: Global, name: &str) -> Result<String, AllocError>
    ensures { IfOk result (λ s. string_bytes s ≡ spec.refused_words name.now) }
{
    format!(in alloc; "{name}: this older version is refused, so nothing is compared with it")
}

/// That an older version is refused: what is told of it, and its name.
fn refused_older(
    alloc: Global,
    wanted: &Wanted,
    name: &str,
    text: String,
) -> Result<OlderError, AllocError>
    ensures { IfOk result (λ error. error
        ≡ Answered (spec.refused_older wanted.now name.now (string_bytes text))) }
{
    let words = refused_words(alloc, name)?;
    let report = unread_report(alloc, wanted.format, words.as_str())?;
    let mut complaint = text;
    write_complaint(alloc, &mut complaint, words.as_str())?;
    Ok(OlderError::Answered(no_answer(report, complaint)))
}

/// That an older version is no set.
fn unread_older(alloc: Global, wanted: &Wanted, input: &NotASet) -> Result<OlderError, AllocError>
    ensures { IfOk result (λ error. error ≡ Answered (unread_answer wanted.now input.now)) }
{
    Ok(OlderError::Answered(tell_unread(alloc, wanted, input)?))
}

/// The faults of an older version.
fn older_faults(alloc: Global, wanted: &Wanted, refusal: &Refusal) -> Result<String, AllocError>
    ensures { IfOk result (λ s. string_bytes s ≡ spec.older_faults wanted.now refusal.now) }
{
    let batch = RefusedBatch {
        linked: &[],
        files: refusal.files.as_slice(),
        faults: refusal.faults.as_slice(),
        rest: refusal.rest,
    };
    let told = tell_refusal(alloc, &batch, wanted.most)?;
    refused_text(alloc, &told)
}

/// The unequal files of an older version.
fn unequal_text(
    alloc: Global,
    wanted: &Wanted,
    unequal: &[UnequalFile],
) -> Result<String, AllocError>
    ensures { IfOk result (λ s. string_bytes s ≡ spec.unequal_text wanted.now unequal.now) }
{
    let told = tell_unequal(alloc, unequal, wanted.most)?;
    refused_text(alloc, &told)
}

/// An older version by its name and the verdict on it.
fn older_judged(
    alloc: Global,
    wanted: &Wanted,
    name: &Text,
    verdict: Verdict,
) -> Result<Older, OlderError>
    ensures { spec.Gives result (spec.older_judged wanted.now name.now verdict) }
{
    match verdict {
        Verdict::Accepted(pool) => {
            let name = name.clone(alloc)?;
            Ok(Older { name, pool })
        }
        Verdict::Refused(refusal) => {
            let text = older_faults(alloc, wanted, &refusal)?;
            Err(refused_older(alloc, wanted, name.as_str(), text)?)
        }
        Verdict::TooMany(kind) => {
            let text = too_many_text(alloc, kind)?;
            Err(refused_older(alloc, wanted, name.as_str(), text)?)
        }
        Verdict::Unequal(unequal) => {
            let text = unequal_text(alloc, wanted, unequal.as_slice())?;
            Err(refused_older(alloc, wanted, name.as_str(), text)?)
        }
    }
}

/// The older version of an input.
fn older_of(alloc: Global, wanted: &Wanted, input: &Input) -> Result<Older, OlderError>
    ensures { spec.Gives result (spec.older_of wanted.now input.now) }
{
    match read_batch(alloc, from_ref(input)) {
        Ok(joined) => {
            let verdict = verdict_on_joined(alloc, joined, false, wanted.most)?;
            older_judged(alloc, wanted, &input.name, verdict)
        }
        Err(BatchError::NotASet(flawed)) => Err(unread_older(alloc, wanted, &flawed)?),
        Err(BatchError::OutOfMemory) => Err(OlderError::OutOfMemory),
    }
}

/// The older versions of inputs, each linked alone, in order.
///
/// # Errors
/// `Answered` with what is answered where one is no set or is refused, of the first such; and
/// `OutOfMemory`.
pub(crate) fn read_olders(
    alloc: Global,
    wanted: &Wanted,
    inputs: &[Input],
) -> Result<Items<Older>, OlderError>
    ensures { spec.Gives result (spec.olders_of wanted.now inputs.now) }
{
    let mut olders = Items::new(alloc);
    for input in inputs {
        olders.push(older_of(alloc, wanted, input)?)?;
    }
    Ok(olders)
}
