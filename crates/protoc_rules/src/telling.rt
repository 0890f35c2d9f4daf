//! A broken rule as it is told, made of the records of a pool.

ghost use Rattle.std.specs.Prelude.{◌≡◌, ◌++◌, IfOk, OnOk, slice_get, string_bytes, take};
ghost use Rattle.std.specs.Prelude.{option_map};
ghost use Rattle.std.specs.List.{flat_map};
ghost use Rattle.std.specs.Option.{option_copied};
ghost use Rattle.protoc_rules.specs.Rules.{told_rule};
ghost use Rattle.protoc_rules.specs.Telling as spec;
ghost use Rattle.verdict_texts.specs.Telling as telling;

use crate::StrictFault;
use crate::rules::{StrictRule, strict_rule};
use plain_data::{Items, Text};
use pool_faults::Label;
use pool_types::FileDescriptorInner;
use proto_types::FileDescriptorProto;
use std::alloc::{AllocError, Global};
use verdict_texts::{Position, ToldFault, ToldPlace, ToldRefusal, ToldSecond};

/// Where a span begins, which counts from 0.
fn position_of(span: [i32; 4]) -> Position
    ensures { result ≡ telling.position_of span }
{
    let [line, column, _, _] = span;
    Position {
        line: i64::from(line) + 1,
        column: i64::from(column) + 1,
    }
}

/// The element at a place: the declaration that breaks a rule, which a file does not have.
fn element_of(alloc: Global, name: &Text) -> Result<Option<Text>, AllocError>
    ensures { IfOk result (λ element. element ≡ spec.element_of name.now) }
{
    if name.as_str().is_empty() {
        return Ok(None);
    }
    Ok(Some(name.clone(alloc)?))
}

/// The place of a path in a file, in the declaration with a full name.
fn place_in(
    alloc: Global,
    file: &FileDescriptorProto,
    name: &Text,
    path: &[i32],
) -> Result<ToldPlace, AllocError>
    ensures { IfOk result (λ place. place ≡ spec.place_in file.now name.now path.now) }
{
    let element = element_of(alloc, name)?;
    let Label { file, path, span } = Label::in_record(alloc, file, path)?;
    let position = span.map(position_of);
    Ok(ToldPlace {
        file,
        position,
        path,
        element,
    })
}

/// The name of what breaks a rule: of the declaration, or else of its file.
fn broken_name<'a>(file: &'a FileDescriptorProto, fault: &'a StrictFault) -> &'a str
    ensures { result.now ≡ spec.broken_name file.now fault.now }
{
    if fault.element.as_str().is_empty() {
        file.name()
    } else {
        fault.element.as_str()
    }
}

/// The text of a broken rule, by the name of what breaks it.
fn broken_text(alloc: Global, name: &str, rule: StrictRule) -> Result<String, AllocError>
    ensures { IfOk result (λ s. string_bytes s ≡ spec.broken_text name.now (told_rule rule)) }
{
    let text = rule.text;
    format!(in alloc; "'{name}' {text}")
}

/// The second place of a broken rule in a file, if it has one.
fn second_in(
    alloc: Global,
    file: &FileDescriptorProto,
    rule: StrictRule,
    fault: &StrictFault,
) -> Result<Option<ToldSecond>, AllocError>
    ensures { IfOk result (λ told. told ≡ option_map
        (spec.second_in file.now (told_rule rule) fault.now.element) fault.now.second) }
{
    match &fault.second {
        Some(path) => {
            let words = Text::from_str(alloc, rule.second)?;
            let place = place_in(alloc, file, &fault.element, path.as_slice())?;
            Ok(Some(ToldSecond { words, place }))
        }
        None => Ok(None),
    }
}

/// A broken rule of a file as it is told.
fn told_in(
    alloc: Global,
    file: &FileDescriptorProto,
    fault: &StrictFault,
) -> Result<ToldFault, AllocError>
    ensures { IfOk result (λ told. told ≡ spec.told_in file.now fault.now) }
{
    let rule = strict_rule(fault.kind);
    let code = Text::from_str(alloc, rule.code)?;
    let message = broken_text(alloc, broken_name(file, fault), rule)?;
    let message = Text::from_string(message);
    let place = place_in(alloc, file, &fault.element, fault.path.as_slice())?;
    let second = second_in(alloc, file, rule, fault)?;
    let note = Text::from_str(alloc, rule.remedy)?;
    Ok(ToldFault {
        code,
        message,
        place: Some(place),
        second,
        note,
    })
}

/// The file with an index.
fn file_at(files: &[FileDescriptorInner], index: u32) -> Option<&FileDescriptorInner>
    ensures { option_copied result ≡ slice_get files.now index }
{
    files.get(index as usize)
}

/// Appends a broken rule as it is told, by the files of its pool.
fn tell_one(
    alloc: Global,
    told: &mut Items<ToldFault>,
    files: &[FileDescriptorInner],
    fault: &StrictFault,
) -> Result<(), AllocError>
    ensures { OnOk result (told.new ≡ told.old ++ spec.told_strict files.now fault.now) }
{
    match file_at(files, fault.file) {
        Some(file) => told.push(told_in(alloc, &file.raw, fault)?),
        None => Ok(()),
    }
}

/// Broken rules as they are told.
fn tell_each(
    alloc: Global,
    files: &[FileDescriptorInner],
    faults: &[StrictFault],
) -> Result<Items<ToldFault>, AllocError>
    ensures { IfOk result (λ told. told ≡ flat_map (spec.told_strict files.now) faults.now) }
{
    let mut told = Items::new(alloc);
    for fault in faults {
        tell_one(alloc, &mut told, files, fault)?;
    }
    Ok(told)
}

/// The first of some broken rules.
fn first_faults(faults: &[StrictFault], most: usize) -> &[StrictFault]
    ensures { result.now ≡ take most faults.now }
{
    if most < faults.len() {
        &faults[..most]
    } else {
        faults
    }
}

/// Tells what `protoc` refuses besides in the files of a pool: so many of the faults at most, the
/// first of them, and how many there are.
///
/// # Errors
/// `AllocError` where memory was refused.
pub fn tell_strict_faults(
    alloc: Global,
    files: &[FileDescriptorInner],
    faults: &[StrictFault],
    most: usize,
) -> Result<ToldRefusal, AllocError>
    ensures { IfOk result (λ told. told ≡ spec.told_refusal files.now faults.now most) }
{
    let told = tell_each(alloc, files, first_faults(faults, most))?;
    let count = faults.len();
    Ok(ToldRefusal { told, count })
}
