//! What a script is read from and a report is written to: two traits, and each over memory and over
//! the library's readers and writers.
#![tactic(auto)]

mod device;
mod fuse;
mod memory_input;
mod memory_output;
mod reader_input;
mod writer_output;

pub use device::{ReportOutput, ScriptInput};
pub use memory_input::MemoryInput;
pub use memory_output::MemoryOutput;
pub use reader_input::ReaderInput;
pub use writer_output::WriterOutput;
