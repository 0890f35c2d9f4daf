use super::said::{SaidExtension, SaidField, SaidLocation, SaidMethod, SaidValue};
use plain_data::{Items, Text};
use std::alloc::AllocError;
use std::fmt;

/// The word that begins a statement.
#[derive(Clone, Copy, PartialEq)]
pub enum Keyword {
    File,
    Package,
    Syntax,
    Import,
    Public,
    Weak,
    At,
    Service,
    Message,
    Enum,
    Extend,
    Field,
    Oneof,
    Reserved,
    Extensions,
    Value,
    Alias,
    Method,
    Json,
    Packed,
    Default,
    End,
    Link,
    Find,
    Walk,
    Refs,
    Ext,
    Relink,
}

/// What an open block declares.
#[derive(Clone, Copy, PartialEq)]
pub enum Block {
    File,
    Message,
    Enum,
    Service,
}

/// What one line says.
#[derive(Drop)]
pub enum Statement {
    File(Option<Text>),
    Package(Option<Text>),
    Syntax(Option<Text>),
    Import(Text),
    Public(i32),
    Weak(i32),
    At(SaidLocation),
    Service(Option<Text>),
    Message(Option<Text>),
    Enum(Option<Text>),
    Extend(SaidExtension),
    Field(SaidField),
    Oneof(Option<Text>),
    Reserved(Option<i32>, Option<i32>),
    Extensions(Option<i32>, Option<i32>),
    Value(SaidValue),
    Alias,
    Method(SaidMethod),
    Json(Option<Text>),
    Packed(bool),
    Default(Text),
    End,
    Link,
    Find(Text),
    Walk,
    Refs(Text),
    Ext(Text, i32),
    Relink,
}

/// What is wrong with a line, in the order in which a line is looked at.
#[derive(Clone, Copy, PartialEq, Debug)]
pub enum ScriptFault {
    /// The line's bytes are no UTF-8.
    BadText,
    /// The first word begins no statement.
    UnknownWord,
    /// The statement may not stand here.
    Misplaced,
    /// It has too few words, or too many.
    WrongCount,
    /// A word should be a number or numbers, and is not.
    BadNumber,
    /// A word should be a label, a type, a truth value or a given text, and is not.
    BadWord,
    /// The script ends in an open block.
    MissingEnd,
}

impl fmt::Display for ScriptFault {
    ghost use Rattle.std.specs.Prelude.{Some};
    ghost use Rattle.link_script.specs.Script.Faults.{fault_words};

    ghost output = { λ fault. Some (fault_words fault) };

    fn fmt<W: fmt::Write>(&self, f: &mut fmt::Formatter<W>) -> fmt::Result {
        f.write_str(match self {
            ScriptFault::BadText => "bad text",
            ScriptFault::UnknownWord => "unknown word",
            ScriptFault::Misplaced => "misplaced",
            ScriptFault::WrongCount => "wrong count of words",
            ScriptFault::BadNumber => "bad number",
            ScriptFault::BadWord => "bad word",
            ScriptFault::MissingEnd => "missing end",
        })
    }
}

/// Why no further statement of a script is told.
#[derive(Clone, Copy, PartialEq, Debug)]
pub enum ScriptError {
    /// A line, whose number counts from 1, has a fault, or the script ends before it.
    Fault(u64, ScriptFault),
    /// Memory was refused.
    OutOfMemory,
}

impl From<AllocError> for ScriptError {
    ghost use Rattle.std.specs.Prelude.{◌≡◌};
    ghost use Rattle.link_script.specs.declared.script.statement.ScriptError.TheVariants as stop;

    ghost from_gives = { λ _ error. error ≡ stop.OutOfMemory };

    fn from(_refused: AllocError) -> ScriptError {
        ScriptError::OutOfMemory
    }
}

/// The statements before the first fault, and that fault with its line, from 1.
#[derive(Drop)]
pub struct Script {
    pub statements: Items<Statement>,
    pub fault: Option<(u64, ScriptFault)>,
}
