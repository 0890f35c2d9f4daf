//! Reading a script, line by line.

ghost use Rattle.std.specs.Prelude.{◌≡◌, ℕ, List, ◌∷◌, IfOk};
ghost use Rattle.link_script.specs.Script.Words as spec;
ghost use Rattle.link_script.specs.Script.Reading.{script, line_said};
ghost use Rattle.link_script.specs.Script.Answers.{IsBegun, IsTextOf, standing_in, text_said};
ghost use Rattle.link_script.specs.Script.Answers.{said_by};
ghost use Rattle.link_script.specs.Script.Left.{IsNext};
ghost use Rattle.link_script.specs.Script.Obeying.{IsLineObeyed, IsNextObeyed, IsObeyed};
ghost use Rattle.link_script.specs.Script.Obeying.{IsSaidObeyed};

use super::arguments::{location_of, statement};
use super::keyword::keyword_of;
use super::line_error::LineError;
use super::lines::{FirstLine, Lines};
use super::obeys::{LastStatement, Obeys};
use super::standing::Standing;
use super::statement::{Keyword, Script, ScriptError, ScriptFault, Statement};
use super::words::{KeyedLine, Words};
use plain_data::Items;
use std::alloc::{AllocError, Global};
use std::marker::Model;

/// Reads a script statement by statement. Contracts see it as what is left of the script: the
/// statements to come, and the fault behind them.
#[derive(Drop)]
pub struct ScriptReader<'a> {
    alloc: Global,
    /// The lines that are left.
    left: Lines<'a>,
    /// The number of the first of them, from 1.
    number: u64,
    /// What stands before it.
    here: Standing,
}

impl<'a> Model for ScriptReader<'a> {
    ghost use Rattle.link_script.specs.declared.script.statement.Script.{Script};

    ghost Value = { Script };

    ghost use Rattle.link_script.specs.Script.Left.{left_of, IsCounted};

    ghost view = { left_of };

    ghost invariant = { IsCounted };
}

impl<'a> ScriptReader<'a> {
    /// A reader of a whole script, which takes no memory.
    pub fn new(alloc: Global, bytes: &'a [u8]) -> ScriptReader<'a>
        ensures { result ≡ script bytes.now }
    {
        ScriptReader {
            alloc,
            left: Lines::new(bytes),
            number: 1,
            here: Standing::new(alloc),
        }
    }

    /// Reads the next statement, or none where the script ends without a fault.
    ///
    /// # Errors
    /// `Fault` where the next line that says something has a fault, or where the script ends in an
    /// open block, and `OutOfMemory` where memory was refused. The reader is then as it was.
    pub fn next(&mut self) -> Result<Option<Statement>, ScriptError>
        ensures { IsNext self.old result self.new }
    {
        let mut last = LastStatement { said: None };
        match self.obey_next(&mut last) {
            Ok(_) => Ok(last.said),
            Err(error) => Err(error),
        }
    }

    /// Obeys the statements that are left, each as it is read. The fault behind them is told, or
    /// memory was refused, to the reader or to what obeys.
    ///
    /// # Errors
    /// `Fault` with the fault behind the statements, and `OutOfMemory` where memory was refused.
    pub fn obey<O: Obeys>(&mut self, to: &mut O) -> Result<(), ScriptError>
        ensures { IsObeyed O.obeys self.old to.old result to.new }
    {
        while self.obey_next(to)? {}
        Ok(())
    }

    /// Obeys the next statement, and tells whether there is one.
    #[inline]
    fn obey_next<O: Obeys>(&mut self, to: &mut O) -> Result<bool, ScriptError>
        ensures { IsNextObeyed O.obeys self.old to.old result self.new to.new }
    {
        while let Some(line) = self.left.first() {
            match obey_line(self.alloc, &mut self.here, line, to) {
                Ok(obeyed) => {
                    self.left = line.rest;
                    self.number += 1;
                    if obeyed {
                        return Ok(true);
                    }
                }
                Err(error) => return Err(error.in_line(self.number)),
            }
        }
        if self.here.is_open() {
            return Err(ScriptError::Fault(self.number, ScriptFault::MissingEnd));
        }
        Ok(false)
    }
}

/// Whether a line that begins with a word is a comment.
fn begins_comment(word: &str) -> bool
    ensures { (words : List (List ℕ)) → result ≡ spec.says_nothing (word.now ∷ words) }
{
    matches!(word.as_bytes(), [] | [b'#', ..])
}

/// A line of text that says something, as its keyword and the words behind it.
fn keyed_line<'a>(here: &Standing, line: &'a str) -> Result<Option<KeyedLine<'a>>, ScriptFault>
    ensures { IsBegun (text_said (standing_in here.now) line.now) result }
{
    let mut words = Words::new(line);
    let Some(first) = words.next() else {
        return Ok(None);
    };
    if begins_comment(first) {
        return Ok(None);
    }
    let keyword = keyword_of(first).ok_or(ScriptFault::UnknownWord)?;
    if !here.may_stand(keyword) {
        return Err(ScriptFault::Misplaced);
    }
    Ok(Some(KeyedLine {
        line,
        keyword,
        words,
    }))
}

/// Obeys what a line says that begins with a keyword.
fn obey_keyed<O: Obeys>(alloc: Global, keyed: KeyedLine<'_>, to: &mut O) -> Result<(), LineError>
    ensures { IsSaidObeyed O.obeys (said_by keyed.entry) to.old result to.new }
{
    match keyed.keyword {
        Keyword::At => to.locate(location_of(alloc, keyed.words)?)?,
        _ => to.state(statement(alloc, keyed)?)?,
    }
    Ok(())
}

/// Obeys what a line of text says, and tells whether it says a statement.
fn obey_text<O: Obeys>(
    alloc: Global,
    here: &mut Standing,
    line: &str,
    to: &mut O,
) -> Result<bool, LineError>
    ensures { IsLineObeyed O.obeys (text_said (standing_in here.old) line.now)
        (standing_in here.old) to.old result (standing_in here.new) to.new }
{
    let Some(keyed) = keyed_line(here, line)? else {
        return Ok(false);
    };
    let keyword = keyed.keyword;
    obey_keyed(alloc, keyed, to)?;
    here.follow(keyword)?;
    Ok(true)
}

/// Obeys what a line says, and tells whether it says a statement.
fn obey_line<O: Obeys>(
    alloc: Global,
    here: &mut Standing,
    line: FirstLine<'_>,
    to: &mut O,
) -> Result<bool, LineError>
    requires { IsTextOf line.text line.bytes.now }
    ensures { IsLineObeyed O.obeys (line_said (standing_in here.old) line.entry.bytes.now)
        (standing_in here.old) to.old result (standing_in here.new) to.new }
{
    match line.text {
        Some(text) => obey_text(alloc, here, text, to),
        None => Err(LineError::Fault(ScriptFault::BadText)),
    }
}

/// What the lines of a script say.
///
/// # Errors
/// `AllocError` where memory was refused.
pub fn read_script(alloc: Global, bytes: &[u8]) -> Result<Script, AllocError>
    ensures { IfOk result (λ s. s ≡ script bytes.now) }
{
    let mut statements = Items::new(alloc);
    match ScriptReader::new(alloc, bytes).obey(&mut statements) {
        Ok(()) => Ok(Script {
            statements,
            fault: None,
        }),
        Err(ScriptError::Fault(line, fault)) => Ok(Script {
            statements,
            fault: Some((line, fault)),
        }),
        Err(ScriptError::OutOfMemory) => Err(AllocError),
    }
}
