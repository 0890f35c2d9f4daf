//! What is told where there is no verdict.

ghost use Rattle.std.specs.Prelude.{◌≡◌, ◌++◌, IfOk, OnOk, string_bytes};
ghost use Rattle.descriptor_check.specs.Complaints as spec;

use crate::answer::{Answer, Status};
use crate::arguments::USAGE;
use plain_data::Text;
use std::alloc::{AllocError, Global};
use verdict_texts::write_line;

/// Writes a line of the program's for the standard error.
pub(crate) fn write_complaint(
    alloc: Global,
    text: &mut String,
    words: &str,
) -> Result<(), AllocError>
    ensures { OnOk result (string_bytes text.new ≡ string_bytes text.old
        ++ spec.complaint words.now) }
{
    let words = format!(in alloc; "check_descriptors: {words}")?;
    write_line(text, words.as_str())
}

/// The answer where there is no verdict, with what is written to the two outputs.
pub(crate) fn no_answer(report: String, complaint: String) -> Answer
    ensures { result ≡ spec.no_answer (string_bytes report) (string_bytes complaint) }
{
    Answer {
        status: Status::NoVerdict,
        report: Text::from_string(report),
        complaint: Text::from_string(complaint),
        linked: None,
    }
}

/// The answer where there is no verdict, and why.
pub(crate) fn complain(alloc: Global, words: &str) -> Result<Answer, AllocError>
    ensures { IfOk result (λ answer. answer ≡ spec.no_verdict words.now) }
{
    let mut complaint = String::new(alloc);
    write_complaint(alloc, &mut complaint, words)?;
    Ok(no_answer(String::new(alloc), complaint))
}

/// The answer to wrong arguments: why they are, and those that there are.
pub(crate) fn complain_of_arguments(alloc: Global, words: &str) -> Result<Answer, AllocError>
    ensures { IfOk result (λ answer. answer ≡ spec.wrong_arguments words.now) }
{
    let mut complaint = String::new(alloc);
    write_complaint(alloc, &mut complaint, words)?;
    complaint.push_str(USAGE)?;
    Ok(no_answer(String::new(alloc), complaint))
}
