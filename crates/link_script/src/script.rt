//! A script: what its lines say, up to the first fault.

mod arguments;
mod cuts;
mod keyword;
mod line_error;
mod lines;
mod obeys;
mod reading;
mod rest;
mod said;
mod standing;
mod statement;
mod values;
mod words;

pub use obeys::Obeys;
pub use reading::{ScriptReader, read_script};
pub use said::{SaidExtension, SaidField, SaidLocation, SaidMethod, SaidValue};
pub use statement::{Block, Keyword, Script, ScriptError, ScriptFault, Statement};
