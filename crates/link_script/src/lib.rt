//! The line script: what its lines say, and the records that its statements build.
#![tactic(auto)]

mod building;
mod records;
mod script;

pub use building::Open;
pub use records::{RecordBuilder, files_of};
pub use script::{
    Block, Keyword, Obeys, SaidExtension, SaidField, SaidLocation, SaidMethod, SaidValue, Script,
    ScriptError, ScriptFault, ScriptReader, Statement, read_script,
};
