//! The check: from inputs to what is told of them.

ghost use Rattle.std.specs.Prelude.{◌≡◌, ◌++◌, IfOk, OnOk, string_bytes};
ghost use Rattle.std.specs.List.{flat_map};
ghost use Rattle.joined_files.specs.Telling.{passed_words};
ghost use Rattle.record_walk.specs.Counts.{counts_in};
ghost use Rattle.verdict_texts.specs.Formats as formats;
ghost use Rattle.descriptor_check.specs.Answers as spec;
ghost use Rattle.descriptor_check.specs.Arguments as arguments;
ghost use Rattle.descriptor_check.specs.Complaints.{complaint};
ghost use Rattle.descriptor_check.specs.declared.answer.Status.TheVariants.{Accepted};

use crate::answer::{Answer, LinkedSet, Status, Wanted};
use crate::arguments::help;
use crate::batches::{BatchError, NotASet, read_batch};
use crate::complaints::{no_answer, write_complaint};
use crate::described::{unknown_names, write_names};
use crate::inputs::Input;
use crate::strict::{Judgement, judge};
use crate::unread::unread_words;
use crate::verdicts::{Refusal, Verdict};
use descriptor_encoding::encode_linked;
use descriptor_pool::DescriptorPool;
use joined_files::{JoinedFiles, UnequalFile, tell_unequal};
use plain_data::{Items, Text};
use pool_descriptions::write_list;
use protoc_rules::{StrictFault, tell_strict_faults};
use record_walk::CountKind;
use std::alloc::{AllocError, Global};
use verdict_texts::{
    Format, RefusedBatch, accepted_text, refused_report, tell_refusal, too_many_report,
    unread_report,
};

/// The verdict on the files of some inputs, linked as one batch, as text and as a status, and what
/// is wanted of an accepted batch besides. Where that is wanted, what `protoc` refuses besides is
/// refused. Where a name is to be told that means nothing in the batch, there is no verdict.
///
/// # Errors
/// `AllocError` where memory was refused.
pub fn check(alloc: Global, wanted: &Wanted, inputs: &[Input]) -> Result<Answer, AllocError>
    ensures { IfOk result (λ answer. answer ≡ spec.answer wanted.now inputs.now) }
{
    match read_batch(alloc, inputs) {
        Ok(joined) => tell_joined(alloc, wanted, joined),
        Err(BatchError::NotASet(input)) => tell_unread(alloc, wanted, &input),
        Err(BatchError::OutOfMemory) => Err(AllocError),
    }
}

/// What is told of the files of sets.
fn tell_joined(alloc: Global, wanted: &Wanted, joined: JoinedFiles) -> Result<Answer, AllocError>
    ensures { IfOk result (λ answer. answer ≡ spec.joined_answer wanted.now joined) }
{
    let lines = passed_over(alloc, wanted, joined.unequal.as_slice())?;
    let judgement = judge(alloc, wanted, joined)?;
    let answer = tell_judgement(alloc, wanted, &judgement)?;
    with_complaints(lines, answer)
}

/// A line for each unequal file that is passed over, where the first of a name counts.
#[tactic(auto, unfolding(crate::specs::Answers::passed_over))]
pub(crate) fn passed_over(
    alloc: Global,
    wanted: &Wanted,
    unequal: &[UnequalFile],
) -> Result<String, AllocError>
    ensures { IfOk result (λ s. string_bytes s ≡ spec.passed_over wanted.now unequal.now) }
{
    let mut lines = String::new(alloc);
    if wanted.first_counts {
        write_passed(alloc, &mut lines, unequal)?;
    }
    Ok(lines)
}

/// Writes a line for each unequal file that is passed over.
fn write_passed(
    alloc: Global,
    lines: &mut String,
    unequal: &[UnequalFile],
) -> Result<(), AllocError>
    ensures { OnOk result (string_bytes lines.new ≡ string_bytes lines.old
        ++ flat_map (λ u. complaint (passed_words u)) unequal.now) }
{
    for file in unequal {
        write_passed_file(alloc, lines, file)?;
    }
    Ok(())
}

/// Writes a line that tells of an unequal file that it is passed over.
fn write_passed_file(
    alloc: Global,
    lines: &mut String,
    file: &UnequalFile,
) -> Result<(), AllocError>
    ensures { OnOk result (string_bytes lines.new ≡ string_bytes lines.old
        ++ complaint (passed_words file.now)) }
{
    let words = joined_files::passed_words(alloc, file)?;
    write_complaint(alloc, lines, words.as_str())
}

/// An answer, with further lines for the standard error in front.
pub(crate) fn with_complaints(lines: String, answer: Answer) -> Result<Answer, AllocError>
    ensures { IfOk result (λ a. a ≡ spec.with_complaints (string_bytes lines) answer) }
{
    let mut complaint = lines;
    complaint.push_str(answer.complaint.as_str())?;
    let mut answer = answer;
    answer.complaint = Text::from_string(complaint);
    Ok(answer)
}

/// What is told of a judgement.
pub(crate) fn tell_judgement(
    alloc: Global,
    wanted: &Wanted,
    judgement: &Judgement,
) -> Result<Answer, AllocError>
    ensures { IfOk result (λ answer. answer ≡ spec.judged_answer wanted.now judgement.now) }
{
    match &judgement.verdict {
        Verdict::Accepted(pool) => { tell_linked(alloc, wanted, pool, judgement.strict.as_slice()) }
        Verdict::Refused(refusal) => tell_refused(alloc, wanted, refusal),
        Verdict::TooMany(kind) => tell_too_many(alloc, wanted, *kind),
        Verdict::Unequal(unequal) => tell_unequal_files(alloc, wanted, unequal.as_slice()),
    }
}

/// A verdict that is told by a text.
fn told_by(alloc: Global, status: Status, report: String) -> Answer
    ensures { result ≡ spec.told status (string_bytes report) }
{
    Answer {
        status,
        report: Text::from_string(report),
        complaint: Text::new(alloc),
        linked: None,
    }
}

/// What is told of a batch that breaks no rule of the linker, by what `protoc` refuses besides.
fn tell_linked(
    alloc: Global,
    wanted: &Wanted,
    pool: &DescriptorPool,
    strict: &[StrictFault],
) -> Result<Answer, AllocError>
    ensures { IfOk result (λ answer. answer
        ≡ spec.linked_answer wanted.now pool.now strict.now) }
{
    if strict.is_empty() {
        return tell_accepted(alloc, wanted, pool);
    }
    let refusal = tell_strict_faults(alloc, pool.files(), strict, wanted.most)?;
    let report = refused_report(alloc, wanted.format, &refusal)?;
    Ok(told_by(alloc, Status::Refused, report))
}

fn tell_accepted(
    alloc: Global,
    wanted: &Wanted,
    pool: &DescriptorPool,
) -> Result<Answer, AllocError>
    ensures { IfOk result (λ answer. answer ≡ spec.accepted_answer wanted.now pool.now) }
{
    let complaint = unknown_names(alloc, pool, wanted.names.as_slice())?;
    if !complaint.is_empty() {
        return Ok(no_answer(String::new(alloc), complaint));
    }
    tell_pool(alloc, wanted, pool)
}

/// What is told of an accepted batch in which each name that is wanted means something.
fn tell_pool(alloc: Global, wanted: &Wanted, pool: &DescriptorPool) -> Result<Answer, AllocError>
    ensures { IfOk result (λ answer. answer ≡ spec.told_with Accepted
        (spec.accepted_report wanted.now pool.now) (spec.linked_set wanted.now pool.now)) }
{
    let report = accepted_report(alloc, wanted, pool)?;
    let report = Text::from_string(report);
    let linked = linked_set(alloc, wanted, pool)?;
    Ok(Answer {
        status: Status::Accepted,
        report,
        complaint: Text::new(alloc),
        linked,
    })
}

/// What is told of an accepted batch.
fn accepted_report(
    alloc: Global,
    wanted: &Wanted,
    pool: &DescriptorPool,
) -> Result<String, AllocError>
    ensures { IfOk result (λ s. string_bytes s ≡ spec.accepted_report wanted.now pool.now) }
{
    if wanted.format.is_for_people() {
        accepted_lines(alloc, wanted, pool)
    } else {
        counts_report(alloc, wanted.format, pool)
    }
}

/// How much an accepted batch declares, in a format.
fn counts_report(alloc: Global, format: Format, pool: &DescriptorPool) -> Result<String, AllocError>
    ensures { IfOk result (λ s. string_bytes s
        ≡ formats.accepted_report format (counts_in pool.now)) }
{
    verdict_texts::accepted_report(alloc, format, pool.counts())
}

/// What is told of an accepted batch for people.
fn accepted_lines(
    alloc: Global,
    wanted: &Wanted,
    pool: &DescriptorPool,
) -> Result<String, AllocError>
    ensures { IfOk result (λ s. string_bytes s ≡ spec.accepted_lines wanted.now pool.now) }
{
    let mut text = String::new(alloc);
    if wanted.lists {
        write_list(alloc, &mut text, pool)?;
    }
    write_names(alloc, &mut text, pool, wanted.names.as_slice())?;
    let counts = accepted_text(alloc, pool.counts())?;
    text.push_str(counts.as_str())?;
    Ok(text)
}

/// The set of the linked files of a pool, where it is wanted.
fn linked_set(
    alloc: Global,
    wanted: &Wanted,
    pool: &DescriptorPool,
) -> Result<Option<LinkedSet>, AllocError>
    ensures { IfOk result (λ set. set ≡ spec.linked_set wanted.now pool.now) }
{
    match &wanted.linked {
        Some(name) => Ok(Some(set_for(alloc, name, pool)?)),
        None => Ok(None),
    }
}

/// The set of the linked files of a pool, for the file with a name.
fn set_for(alloc: Global, name: &Text, pool: &DescriptorPool) -> Result<LinkedSet, AllocError>
    ensures { IfOk result (λ set. set ≡ spec.set_for name.now pool.now) }
{
    let name = name.clone(alloc)?;
    let bytes = encode_linked(alloc, pool.files())?;
    Ok(LinkedSet {
        name,
        bytes: Items::from_vec(bytes),
    })
}

/// What is told of a batch that breaks rules: the first of its faults, as lines or as an object.
fn tell_refused(alloc: Global, wanted: &Wanted, refusal: &Refusal) -> Result<Answer, AllocError>
    ensures { IfOk result (λ answer. answer ≡ spec.refused_answer wanted.now refusal.now) }
{
    let batch = RefusedBatch {
        linked: &[],
        files: refusal.files.as_slice(),
        faults: refusal.faults.as_slice(),
        rest: refusal.rest,
    };
    let refusal = tell_refusal(alloc, &batch, wanted.most)?;
    let report = refused_report(alloc, wanted.format, &refusal)?;
    Ok(told_by(alloc, Status::Refused, report))
}

fn tell_too_many(alloc: Global, wanted: &Wanted, kind: CountKind) -> Result<Answer, AllocError>
    ensures { IfOk result (λ answer. answer ≡ spec.too_many_answer wanted.now kind) }
{
    let report = too_many_report(alloc, wanted.format, kind)?;
    Ok(told_by(alloc, Status::Refused, report))
}

/// What is told of a batch whose sets have unequal files of one name: the first of them.
fn tell_unequal_files(
    alloc: Global,
    wanted: &Wanted,
    unequal: &[UnequalFile],
) -> Result<Answer, AllocError>
    ensures { IfOk result (λ answer. answer ≡ spec.unequal_answer wanted.now unequal.now) }
{
    let refusal = tell_unequal(alloc, unequal, wanted.most)?;
    let report = refused_report(alloc, wanted.format, &refusal)?;
    Ok(told_by(alloc, Status::Refused, report))
}

pub(crate) fn tell_unread(
    alloc: Global,
    wanted: &Wanted,
    input: &NotASet,
) -> Result<Answer, AllocError>
    ensures { IfOk result (λ answer. answer ≡ spec.unread_answer wanted.now input.now) }
{
    let words = unread_words(alloc, input)?;
    let report = unread_report(alloc, wanted.format, words.as_str())?;
    let mut complaint = String::new(alloc);
    write_complaint(alloc, &mut complaint, words.as_str())?;
    Ok(no_answer(report, complaint))
}

/// The answer that tells a text, whatever the inputs.
pub(crate) fn tell(alloc: Global, words: &str) -> Result<Answer, AllocError>
    ensures { IfOk result (λ answer. answer ≡ spec.told Accepted words.now) }
{
    Ok(told_by(alloc, Status::Accepted, String::from_str(alloc, words)?))
}

/// The answer that shows what the program does, and its arguments.
pub(crate) fn tell_help(alloc: Global) -> Result<Answer, AllocError>
    ensures { IfOk result (λ answer. answer ≡ spec.told Accepted arguments.help) }
{
    Ok(told_by(alloc, Status::Accepted, help(alloc)?))
}
