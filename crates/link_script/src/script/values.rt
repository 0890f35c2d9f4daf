//! What single words say.

ghost use Rattle.std.specs.Prelude.{◌≡◌, ◌<◌, ◌≤◌, ◌==◌, map, length, take, IfOk};
ghost use Rattle.std.specs.List.{slice_split};
ghost use Rattle.std.specs.Str.Parse.{AllDigits, digits_value};
ghost use Rattle.proto_types.specs.Readers.{text_of};
ghost use Rattle.link_script.specs.Script.Arguments as spec;
ghost use Rattle.link_script.specs.Script.Answers.{IsAnswer, IsFirstNumber};

use super::cuts::{cut_at, is_same, parted};
use super::line_error::LineError;
use super::statement::ScriptFault;
use plain_data::{Numbers, Text, parse_bool, parse_int32};
use std::alloc::{AllocError, Global};

/// The labels, in the order of their numbers from 1 on.
const LABELS: [&str; 3] = ["optional", "required", "repeated"];

/// The types, in the order of their numbers from 1 on.
const TYPES: [&str; 18] = [
    "double", "float", "int64", "uint64", "int32", "fixed64", "fixed32", "bool", "string", "group",
    "message", "bytes", "uint32", "enum", "sfixed32", "sfixed64", "sint32", "sint64",
];

/// Whether a word stands for a missing value.
fn is_absent(word: &str) -> bool
    ensures { result ≡ spec.is_absent word.now }
{
    is_same(word, "~")
}

/// A text, which may be missing.
pub(super) fn text(alloc: Global, word: &str) -> Result<Option<Text>, AllocError>
    ensures { IfOk result (λ text. text ≡ spec.text_in word.now) }
{
    if is_absent(word) {
        Ok(None)
    } else if is_same(word, "''") {
        Ok(Some(Text::new(alloc)))
    } else {
        Ok(Some(Text::from_str(alloc, word)?))
    }
}

/// A number, which may be missing.
pub(super) fn number_of(word: &str) -> Result<Option<i32>, ScriptFault>
    ensures { result ≡ spec.number_in word.now }
{
    if is_absent(word) {
        return Ok(None);
    }
    Ok(Some(given_number(word)?))
}

/// The position of a word among names, counted from 1, or else the number that it writes.
fn named(names: &[&str], word: &str) -> Option<i32>
    requires { length names.now < 100 }
    ensures { result ≡ spec.named_in (map (λ name. name.now) names.now) word.now }
{
    let mut number = 1;
    for name in names {
        if is_same(word, name) {
            return Some(number);
        }
        number += 1;
    }
    parse_int32(word)
}

/// A name's number, which may be missing.
fn named_or_bad(names: &[&str], word: &str) -> Result<Option<i32>, ScriptFault>
    requires { length names.now < 100 }
    ensures { result ≡ spec.named_or_bad (map (λ name. name.now) names.now) word.now }
{
    if is_absent(word) {
        return Ok(None);
    }
    Ok(Some(named(names, word).ok_or(ScriptFault::BadWord)?))
}

/// A label, by its name or its number.
pub(super) fn label_of(word: &str) -> Result<Option<i32>, ScriptFault>
    ensures { result ≡ spec.named_or_bad spec.labels word.now }
{
    named_or_bad(&LABELS, word)
}

/// A type, by its name or its number.
pub(super) fn type_of(word: &str) -> Result<Option<i32>, ScriptFault>
    ensures { result ≡ spec.named_or_bad spec.types word.now }
{
    named_or_bad(&TYPES, word)
}

/// A name that is asked for: a missing one is the empty one.
pub(super) fn name_of(alloc: Global, word: &str) -> Result<Text, AllocError>
    ensures { IfOk result (λ name. name ≡ text_of (spec.text_in word.now)) }
{
    Ok(text(alloc, word)?.unwrap_or(Text::new(alloc)))
}

/// A text that may not be missing.
pub(super) fn given_text(alloc: Global, word: &str) -> Result<Text, LineError>
    ensures { IsAnswer (spec.given_text_in word.now) result }
{
    text(alloc, word)?.ok_or(LineError::Fault(ScriptFault::BadWord))
}

/// A number that may not be missing.
pub(super) fn given_number(word: &str) -> Result<i32, ScriptFault>
    ensures { result ≡ spec.given_number_in word.now }
{
    parse_int32(word).ok_or(ScriptFault::BadNumber)
}

/// A number of so many digits is in range, whatever they are.
const MOST_DIGITS: usize = 9;

/// How many digits a text begins with, of which so many are read, and their value.
fn leading_digits(text: &[u8]) -> (usize, u32)
    ensures count { (result.0 ≤ MOST_DIGITS) × (result.0 ≤ length text.now) }
    ensures digits { AllDigits 10 (take result.0 text.now) }
    ensures value { result.1 ≡ digits_value 10 (take result.0 text.now) }
{
    let most = text.len().min(MOST_DIGITS);
    let mut count = 0;
    let mut value = 0;
    while count < most {
        let byte = text[count];
        if !byte.is_ascii_digit() {
            break;
        }
        value = value * 10 + (byte - b'0') as u32;
        count += 1;
    }
    (count, value)
}

/// The first number between commas, whatever it is, and the text behind its comma, if it has one.
fn any_first_number(text: &str) -> Result<(i32, Option<&str>), ScriptFault>
    ensures { IsFirstNumber text.now result }
{
    match cut_at(text, b',') {
        Some((number, rest)) => Ok((given_number(number)?, Some(rest))),
        None => Ok((given_number(text)?, None)),
    }
}

/// The first number between commas, and the text behind its comma, if it has one. Most numbers are
/// a few digits, which are read where they stand.
fn first_number(text: &str) -> Result<(i32, Option<&str>), ScriptFault>
    ensures { IsFirstNumber text.now result }
{
    let (count, value) = leading_digits(text.as_bytes());
    if count == 0 {
        return any_first_number(text);
    }
    if count == text.len() {
        return Ok((value as i32, None));
    }
    if text.as_bytes()[count] != b',' {
        return any_first_number(text);
    }
    let (_, rest) = parted(text, count);
    Ok((value as i32, Some(rest)))
}

/// The numbers between commas.
fn between_commas(alloc: Global, word: &str) -> Result<Numbers, LineError>
    ensures { IsAnswer (spec.each_number (slice_split (λ c. c == 44) word.now)) result }
{
    // A comma stands between each two numbers.
    let most = word.len() / 2 + 1;
    let mut numbers = Numbers::new(alloc);
    numbers.reserve_exact(most)?;
    let mut left = word;
    loop {
        let (number, rest) = first_number(left)?;
        numbers.push(number)?;
        let Some(rest) = rest else {
            return Ok(numbers);
        };
        left = rest;
    }
}

/// Numbers between commas, or none in two quotes.
pub(super) fn numbers(alloc: Global, word: &str) -> Result<Numbers, LineError>
    ensures { IsAnswer (spec.numbers_in word.now) result }
{
    if is_same(word, "''") {
        return Ok(Numbers::new(alloc));
    }
    between_commas(alloc, word)
}

/// A truth value.
pub(super) fn truth(word: &str) -> Result<bool, ScriptFault>
    ensures { result ≡ spec.truth_in word.now }
{
    parse_bool(word).ok_or(ScriptFault::BadWord)
}
