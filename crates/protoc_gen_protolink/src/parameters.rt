//! The parameter of a plugin: options of the check.

ghost use Rattle.std.specs.Prelude.{◌≡◌, ◌==◌, ◌++◌, IfOk, OnOk, codes, map};
ghost use Rattle.std.specs.List.{slice_split};
ghost use Rattle.protoc_gen_protolink.specs.Parameters as spec;

use descriptor_check::{Request, read_arguments};
use plain_data::{Items, Text};
use std::alloc::{AllocError, Global};

/// What a parameter asks of the check, whose one file is `-`.
///
/// # Errors
/// `AllocError` where memory was refused.
pub(crate) fn asked_by(alloc: Global, parameter: &Option<Text>) -> Result<Request, AllocError>
    ensures { IfOk result (λ request. request ≡ spec.asked_by parameter.now) }
{
    let words = match parameter {
        Some(parameter) => words_of(alloc, parameter.as_str())?,
        None => words_of(alloc, "")?,
    };
    read_arguments(alloc, words.as_slice())
}

/// What stands between the commas of a text.
fn parts(alloc: Global, text: &str) -> Result<Vec<&str>, AllocError>
    ensures { IfOk result (λ parts. map (λ part. part.now) parts.items
        ≡ slice_split (λ c. c == 44) text.now) }
{
    text.split(',').collect(alloc)
}

/// The words of a parameter.
fn words_of(alloc: Global, parameter: &str) -> Result<Items<Text>, AllocError>
    ensures { IfOk result (λ words. words ≡ spec.words_of parameter.now) }
{
    let mut words = Items::new(alloc);
    let parts = parts(alloc, parameter)?;
    for part in parts.as_slice() {
        push_part(alloc, &mut words, part)?;
    }
    words.push(Text::from_str(alloc, "-")?)?;
    Ok(words)
}

/// Puts the words of a part of a parameter behind others.
fn push_part(alloc: Global, words: &mut Items<Text>, part: &str) -> Result<(), AllocError>
    ensures { OnOk result (words.new ≡ words.old ++ spec.part_words part.now) }
{
    if part.is_empty() {
        return Ok(());
    }
    push_option(alloc, words, part)
}

/// Puts the words of an option behind others.
fn push_option(alloc: Global, words: &mut Items<Text>, option: &str) -> Result<(), AllocError>
    ensures { OnOk result (words.new ≡ words.old ++ spec.option_words option.now) }
{
    match option.split_once('=') {
        Some((name, value)) => {
            words.push(dashed(alloc, name)?)?;
            words.push(Text::from_str(alloc, value)?)?;
        }
        None => words.push(dashed(alloc, option)?)?,
    }
    Ok(())
}

/// The name of an option behind two dashes.
fn dashed(alloc: Global, name: &str) -> Result<Text, AllocError>
    ensures { IfOk result (λ word. word ≡ codes "--" ++ name.now) }
{
    Ok(Text::from_string(format!(in alloc; "--{name}")?))
}
