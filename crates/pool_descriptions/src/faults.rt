//! The faults of a refused batch.

ghost use Rattle.std.specs.Prelude.{◌≡◌, ◌++◌, IfOk, OnOk, string_bytes};
ghost use Rattle.std.specs.Option.{option_copied};
ghost use Rattle.pool_descriptions.specs.Faults as spec;

use crate::words::{name_word, path_words};
use pool_faults::{DescriptorError, DescriptorErrorKind, Label, Labelled};
use std::alloc::{AllocError, Global};
use std::fmt::Write;
use verdict_texts::{related_label, write_line};

/// All faults of a refused batch, as a text: how many there are, and of each its text behind the
/// label that it shows, a line `at` with the file, the path and the span of that label, and a line
/// `cites` with those of what it cites, where there are such. The numbers of a span count from 0.
/// Texts are escaped as `describe` escapes them.
///
/// # Errors
/// `AllocError` where memory was refused.
pub fn faults_text(alloc: Global, error: &DescriptorError) -> Result<String, AllocError>
    ensures { IfOk result (λ text. string_bytes text ≡ spec.faults_text error.now.errors) }
{
    let faults = error.errors();
    let count = faults.len();
    let mut text = format!(in alloc; "refused {count}\n")?;
    for fault in faults {
        write_fault(&mut text, alloc, fault)?;
    }
    Ok(text)
}

/// Tells a fault and its places.
fn write_fault(
    text: &mut String,
    alloc: Global,
    fault: &DescriptorErrorKind,
) -> Result<(), AllocError>
    ensures { OnOk result (string_bytes text.new ≡ string_bytes text.old
        ++ spec.fault_lines fault.now) }
{
    let shown = label_line(alloc, "at", fault.label())?;
    let cited = label_line(alloc, "cites", related_label(fault))?;
    let fault = Labelled(fault);
    let told = format!(in alloc; "{fault}")?;
    write_line(text, told.as_str())?;
    write!(text, "{shown}{cited}")
}

/// A place behind a word for it, where there is one.
fn label_line(alloc: Global, word: &str, label: Option<&Label>) -> Result<String, AllocError>
    ensures { IfOk result (λ s. string_bytes s
        ≡ spec.label_line word.now (option_copied label.entry)) }
{
    match label {
        Some(label) => place_line(alloc, word, label),
        None => Ok(String::new(alloc)),
    }
}

/// A place behind a word for it: the file, the path and the span.
fn place_line(alloc: Global, word: &str, label: &Label) -> Result<String, AllocError>
    ensures { IfOk result (λ s. string_bytes s ≡ spec.place_line word.now label.now) }
{
    let file = name_word(label.file());
    let path = path_words(alloc, label.path())?;
    let span = span_words(alloc, label.span())?;
    format!(in alloc; "  {word} {file} {path}{span}\n")
}

/// The four numbers of a span, where it is known.
fn span_words(alloc: Global, span: Option<[i32; 4]>) -> Result<String, AllocError>
    ensures { IfOk result (λ s. string_bytes s ≡ spec.span_words span) }
{
    match span {
        Some(span) => {
            let span = path_words(alloc, &span)?;
            format!(in alloc; " {span}")
        }
        None => Ok(String::new(alloc)),
    }
}
