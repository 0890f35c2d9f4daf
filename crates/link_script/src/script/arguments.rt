//! The statements that keywords and the words behind them make.

ghost use Rattle.link_script.specs.Script.Arguments as spec;
ghost use Rattle.link_script.specs.Script.Answers.{IsAnswer, IsLocation, said_by, words_left};
ghost use Rattle.link_script.specs.declared.script.statement.Keyword.TheVariants as word;

use super::line_error::LineError;
use super::rest::rest;
use super::said::{SaidExtension, SaidField, SaidLocation, SaidMethod, SaidValue};
use super::statement::{Keyword, ScriptFault, Statement};
use super::values::{
    given_number, given_text, label_of, name_of, number_of, numbers, text, truth, type_of,
};
use super::words::{KeyedLine, Words};
use std::alloc::Global;

/// The statement of a line that begins with a keyword.
pub(super) fn statement(alloc: Global, keyed: KeyedLine<'_>) -> Result<Statement, LineError>
    ensures { IsAnswer (said_by keyed.entry) result }
{
    match keyed.keyword {
        Keyword::Default => Ok(Statement::Default(rest(alloc, keyed.line)?)),
        _ => of_words(alloc, keyed.keyword, keyed.words),
    }
}

/// The statement of a keyword, by how many words are behind it.
fn of_words(alloc: Global, keyword: Keyword, mut words: Words<'_>) -> Result<Statement, LineError>
    ensures { IsAnswer (spec.statement_in keyword (words_left words.entry)) result }
{
    let Some(first) = words.next() else {
        return of_none(keyword);
    };
    let Some(second) = words.next() else {
        return of_one(alloc, keyword, first);
    };
    let Some(third) = words.next() else {
        return of_two(alloc, keyword, first, second);
    };
    let Some(fourth) = words.next() else {
        let names = MethodWords {
            name: first,
            input: second,
            output: third,
        };
        return of_three(alloc, keyword, names);
    };
    let Some(fifth) = words.next() else {
        return Err(LineError::Fault(ScriptFault::WrongCount));
    };
    let Some(sixth) = words.next() else {
        return Err(LineError::Fault(ScriptFault::WrongCount));
    };
    if words.next().is_some() {
        return Err(LineError::Fault(ScriptFault::WrongCount));
    }
    let field = FieldWords {
        name: first,
        number: second,
        label: third,
        type_: fourth,
        type_name: fifth,
        last: sixth,
    };
    of_six(alloc, keyword, field)
}

fn of_none(keyword: Keyword) -> Result<Statement, LineError>
    ensures { IsAnswer (spec.of_none keyword) result }
{
    match keyword {
        Keyword::Alias => Ok(Statement::Alias),
        Keyword::End => Ok(Statement::End),
        Keyword::Link => Ok(Statement::Link),
        Keyword::Walk => Ok(Statement::Walk),
        Keyword::Relink => Ok(Statement::Relink),
        _ => Err(LineError::Fault(ScriptFault::WrongCount)),
    }
}

fn of_one(alloc: Global, keyword: Keyword, word: &str) -> Result<Statement, LineError>
    ensures { IsAnswer (spec.of_one keyword word.now) result }
{
    match keyword {
        Keyword::File => Ok(Statement::File(text(alloc, word)?)),
        Keyword::Package => Ok(Statement::Package(text(alloc, word)?)),
        Keyword::Syntax => Ok(Statement::Syntax(text(alloc, word)?)),
        Keyword::Import => Ok(Statement::Import(given_text(alloc, word)?)),
        Keyword::Public => Ok(Statement::Public(given_number(word)?)),
        Keyword::Weak => Ok(Statement::Weak(given_number(word)?)),
        Keyword::Service => Ok(Statement::Service(text(alloc, word)?)),
        Keyword::Message => Ok(Statement::Message(text(alloc, word)?)),
        Keyword::Enum => Ok(Statement::Enum(text(alloc, word)?)),
        Keyword::Oneof => Ok(Statement::Oneof(text(alloc, word)?)),
        Keyword::Json => Ok(Statement::Json(text(alloc, word)?)),
        Keyword::Packed => Ok(Statement::Packed(truth(word)?)),
        Keyword::Find => Ok(Statement::Find(name_of(alloc, word)?)),
        Keyword::Refs => Ok(Statement::Refs(name_of(alloc, word)?)),
        _ => Err(LineError::Fault(ScriptFault::WrongCount)),
    }
}

/// A location by its path and its span.
fn location(alloc: Global, path: &str, span: &str) -> Result<SaidLocation, LineError>
    ensures { IsLocation (spec.of_two word.At path.now span.now) result }
{
    let path = numbers(alloc, path)?;
    let span = numbers(alloc, span)?;
    Ok(SaidLocation { path, span })
}

/// The location that the words behind its keyword say.
pub(super) fn location_of(alloc: Global, mut words: Words<'_>) -> Result<SaidLocation, LineError>
    ensures { IsLocation (spec.statement_in word.At (words_left words.entry)) result }
{
    let Some(path) = words.next() else {
        return Err(LineError::Fault(ScriptFault::WrongCount));
    };
    let Some(span) = words.next() else {
        return Err(LineError::Fault(ScriptFault::WrongCount));
    };
    if words.next().is_some() {
        return Err(LineError::Fault(ScriptFault::WrongCount));
    }
    location(alloc, path, span)
}

fn of_two(
    alloc: Global,
    keyword: Keyword,
    first: &str,
    second: &str,
) -> Result<Statement, LineError>
    ensures { IsAnswer (spec.of_two keyword first.now second.now) result }
{
    match keyword {
        Keyword::At => Ok(Statement::At(location(alloc, first, second)?)),
        Keyword::Reserved => {
            let start = number_of(first)?;
            Ok(Statement::Reserved(start, number_of(second)?))
        }
        Keyword::Extensions => {
            let start = number_of(first)?;
            Ok(Statement::Extensions(start, number_of(second)?))
        }
        Keyword::Value => {
            let number = number_of(second)?;
            let name = text(alloc, first)?;
            Ok(Statement::Value(SaidValue { name, number }))
        }
        Keyword::Ext => {
            let number = given_number(second)?;
            Ok(Statement::Ext(name_of(alloc, first)?, number))
        }
        _ => Err(LineError::Fault(ScriptFault::WrongCount)),
    }
}

/// The words of a method.
#[derive(Clone, Copy)]
struct MethodWords<'a> {
    name: &'a str,
    input: &'a str,
    output: &'a str,
}

fn of_three(alloc: Global, keyword: Keyword, words: MethodWords<'_>) -> Result<Statement, LineError>
    ensures { IsAnswer (spec.of_three keyword words.entry.name.now words.entry.input.now
        words.entry.output.now) result }
{
    match keyword {
        Keyword::Method => Ok(Statement::Method(SaidMethod {
            name: text(alloc, words.name)?,
            input_type: text(alloc, words.input)?,
            output_type: text(alloc, words.output)?,
        })),
        _ => Err(LineError::Fault(ScriptFault::WrongCount)),
    }
}

/// The words of a field or an extension, of which the last is its oneof's index, or its extendee.
#[derive(Clone, Copy)]
struct FieldWords<'a> {
    name: &'a str,
    number: &'a str,
    label: &'a str,
    type_: &'a str,
    type_name: &'a str,
    last: &'a str,
}

fn of_six(alloc: Global, keyword: Keyword, words: FieldWords<'_>) -> Result<Statement, LineError>
    ensures { IsAnswer (spec.of_six keyword words.entry.name.now words.entry.number.now
        words.entry.label.now words.entry.type_.now words.entry.type_name.now
        words.entry.last.now) result }
{
    match keyword {
        Keyword::Field => {
            let mut field = typed(alloc, words)?;
            field.oneof_index = number_of(words.last)?;
            Ok(Statement::Field(field))
        }
        Keyword::Extend => {
            let field = typed(alloc, words)?;
            let extendee = text(alloc, words.last)?;
            Ok(Statement::Extend(SaidExtension { field, extendee }))
        }
        _ => Err(LineError::Fault(ScriptFault::WrongCount)),
    }
}

/// What a field and an extension have in common; the leftmost fault is told.
fn typed(alloc: Global, words: FieldWords<'_>) -> Result<SaidField, LineError>
    ensures { IsAnswer (spec.typed_in words.entry.name.now words.entry.number.now
        words.entry.label.now words.entry.type_.now words.entry.type_name.now) result }
{
    let number = number_of(words.number)?;
    let label = label_of(words.label)?;
    let type_ = type_of(words.type_)?;
    Ok(SaidField {
        name: text(alloc, words.name)?,
        number,
        label,
        type_,
        type_name: text(alloc, words.type_name)?,
        oneof_index: None,
    })
}
