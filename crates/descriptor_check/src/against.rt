//! The check of inputs against older versions.

ghost use Rattle.std.specs.Prelude.{◌≡◌, ◌++◌, IfOk, OnOk};
ghost use Rattle.std.specs.List.{flat_map};
ghost use Rattle.descriptor_check.specs.Against as spec;
ghost use Rattle.descriptor_check.specs.Batches.{batch_of};

use crate::answer::{Answer, LinkedSet, Status, Wanted};
use crate::batches::{BatchError, read_batch};
use crate::change_formats::report_with;
use crate::checking::{check, passed_over, tell_judgement, tell_unread, with_complaints};
use crate::inputs::Input;
use crate::olders::{Older, OlderError, read_olders};
use crate::strict::{Judgement, judge};
use crate::verdicts::Verdict;
use descriptor_pool::DescriptorPool;
use joined_files::JoinedFiles;
use plain_data::Text;
use pool_changes::{Comparison, Compatibility, Level, ToldChanges, tell_changes};
use std::alloc::{AllocError, Global};

/// What is wanted of a check, and the older versions that it is against.
#[derive(Clone, Copy)]
struct WantedAgainst<'a> {
    wanted: &'a Wanted,
    olders: &'a [Older],
}

/// The verdict on the files of some inputs as `check` tells it, and behind it what an accepted
/// batch changes of older versions, the files of each of which are linked alone, and first. Where
/// something changes, the status is `Refused`, and no set is written. Where an older version is
/// refused, there is no verdict.
///
/// # Errors
/// `AllocError` where memory was refused.
pub fn check_against(
    alloc: Global,
    wanted: &Wanted,
    older: &[Input],
    inputs: &[Input],
) -> Result<Answer, AllocError>
    ensures { IfOk result (λ answer. answer
        ≡ spec.answer_against wanted.now older.now inputs.now) }
{
    if older.is_empty() {
        return check(alloc, wanted, inputs);
    }
    match read_olders(alloc, wanted, older) {
        Ok(olders) => {
            let olders = olders.as_slice();
            check_batch(alloc, WantedAgainst { wanted, olders }, inputs)
        }
        Err(OlderError::Answered(answer)) => with_told(alloc, wanted, &[], answer),
        Err(OlderError::OutOfMemory) => Err(AllocError),
    }
}

/// The verdict on the files of some inputs, and what they change of older versions.
fn check_batch(
    alloc: Global,
    against: WantedAgainst<'_>,
    inputs: &[Input],
) -> Result<Answer, AllocError>
    ensures { IfOk result (λ answer. answer ≡ spec.batch_against against.entry.wanted.now
        against.entry.olders.now (batch_of inputs.now)) }
{
    match read_batch(alloc, inputs) {
        Ok(joined) => check_joined(alloc, against, joined),
        Err(BatchError::NotASet(input)) => {
            let answer = tell_unread(alloc, against.wanted, &input)?;
            with_told(alloc, against.wanted, &[], answer)
        }
        Err(BatchError::OutOfMemory) => Err(AllocError),
    }
}

/// The verdict on the files of sets, and what they change of older versions.
fn check_joined(
    alloc: Global,
    against: WantedAgainst<'_>,
    joined: JoinedFiles,
) -> Result<Answer, AllocError>
    ensures { IfOk result (λ answer. answer ≡ spec.joined_against against.entry.wanted.now
        against.entry.olders.now joined) }
{
    let lines = passed_over(alloc, against.wanted, joined.unequal.as_slice())?;
    let judgement = judge(alloc, against.wanted, joined)?;
    let answer = tell_against(alloc, against, &judgement)?;
    with_complaints(lines, answer)
}

/// What is told of a judgement, and of what changes.
fn tell_against(
    alloc: Global,
    against: WantedAgainst<'_>,
    judgement: &Judgement,
) -> Result<Answer, AllocError>
    ensures { IfOk result (λ answer. answer ≡ spec.judged_against against.entry.wanted.now
        against.entry.olders.now judgement.now) }
{
    let answer = tell_judgement(alloc, against.wanted, judgement)?;
    let told = compared_for(alloc, against, &judgement.verdict, answer.status)?;
    with_told(alloc, against.wanted, told.as_slice(), answer)
}

/// The compatibility that is wanted: backward, where none is said.
fn compatibility_wanted(wanted: &Wanted) -> Compatibility
    ensures { result ≡ spec.compatibility_wanted wanted.now }
{
    wanted.compatibility.unwrap_or(Compatibility::Backward)
}

/// The level that is wanted: wire, where none is said.
fn level_wanted(wanted: &Wanted) -> Level
    ensures { result ≡ spec.level_wanted wanted.now }
{
    wanted.level.unwrap_or(Level::Wire)
}

/// Appends what a pool changes of an older version, in each direction that is wanted.
fn tell_older(
    told: &mut Vec<ToldChanges>,
    wanted: &Wanted,
    older: &Older,
    pool: &DescriptorPool,
) -> Result<(), AllocError>
    ensures { OnOk result (told.new.items ≡ told.old.items
        ++ spec.compared_with wanted.now pool.now older.now) }
{
    let alloc = *told.allocator();
    let comparison = Comparison {
        compatibility: compatibility_wanted(wanted),
        level: level_wanted(wanted),
        old: &older.pool,
        new: pool,
    };
    let mut changes = tell_changes(alloc, comparison, older.name.as_str(), wanted.most)?;
    told.append(&mut changes)?;
    Ok(())
}

/// What an accepted batch changes of older versions, by the status of the answer to it.
fn compared_for(
    alloc: Global,
    against: WantedAgainst<'_>,
    verdict: &Verdict,
    status: Status,
) -> Result<Vec<ToldChanges>, AllocError>
    ensures { IfOk result (λ told. told.items ≡ spec.compared_for against.entry.wanted.now
        against.entry.olders.now verdict.now status) }
{
    match verdict {
        Verdict::Accepted(pool) => compared_if(alloc, against, pool, status),
        Verdict::Refused(_) | Verdict::TooMany(_) | Verdict::Unequal(_) => Ok(Vec::new(alloc)),
    }
}

/// What the pool of an accepted batch changes of older versions, if the answer to it is a verdict.
fn compared_if(
    alloc: Global,
    against: WantedAgainst<'_>,
    pool: &DescriptorPool,
    status: Status,
) -> Result<Vec<ToldChanges>, AllocError>
    ensures { IfOk result (λ told. told.items ≡ spec.compared_if against.entry.wanted.now
        against.entry.olders.now pool.now status) }
{
    match status {
        Status::Accepted => compared(alloc, against, pool),
        _ => Ok(Vec::new(alloc)),
    }
}

/// What a pool changes of older versions.
fn compared(
    alloc: Global,
    against: WantedAgainst<'_>,
    pool: &DescriptorPool,
) -> Result<Vec<ToldChanges>, AllocError>
    ensures { IfOk result (λ told. told.items
        ≡ flat_map (spec.compared_with against.entry.wanted.now pool.now)
        against.entry.olders.now) }
{
    let WantedAgainst { wanted, olders } = against;
    let mut told = Vec::new(alloc);
    for older in olders {
        tell_older(&mut told, wanted, older, pool)?;
    }
    Ok(told)
}

/// Whether something changes.
fn some_change(told: &[ToldChanges]) -> bool
    ensures { result ≡ spec.some_change told.now }
{
    told.iter().any(|changes| changes.count != 0)
}

/// The status of an answer and its set; where something changes, the status of a refused batch, and
/// no set.
fn unless_changed(
    told: &[ToldChanges],
    status: Status,
    linked: Option<LinkedSet>,
) -> (Status, Option<LinkedSet>)
    ensures { result ≡ spec.unless_changed told.now status linked }
{
    if some_change(told) {
        (Status::Refused, None)
    } else {
        (status, linked)
    }
}

/// An answer with what was compared. Where something changes, the status is that of a refused
/// batch, and no set is written.
fn with_told(
    alloc: Global,
    wanted: &Wanted,
    told: &[ToldChanges],
    answer: Answer,
) -> Result<Answer, AllocError>
    ensures { IfOk result (λ a. a ≡ spec.with_told wanted.now told.now answer) }
{
    let report = report_with(alloc, wanted.format, told, answer.report.as_str())?;
    let report = Text::from_string(report);
    let Answer {
        status,
        complaint,
        linked,
        ..
    } = answer;
    let (status, linked) = unless_changed(told, status, linked);
    Ok(Answer {
        status,
        report,
        complaint,
        linked,
    })
}
