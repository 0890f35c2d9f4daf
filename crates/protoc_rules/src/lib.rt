//! What `protoc` refuses besides the rules of the linker, in the files of a pool; and how each such
//! fault is told: its text, its places and what to do.
#![tactic(auto)]

mod cycles;
mod enums;
mod extensions;
mod faults;
mod fields;
mod firsts;
mod imports;
mod known;
mod labels;
pub mod laws;
mod linked;
mod maps;
mod messages;
mod names;
mod oneofs;
mod packages;
mod proto3;
mod ranges;
mod reserved;
mod rules;
mod spans;
mod strict;
mod telling;
mod types;
mod values;
mod written;

pub use faults::{StrictFault, StrictKind};
pub use linked::Linked;
pub use strict::strict_faults;
pub use telling::tell_strict_faults;
pub use written::{WrittenTypes, written_types};
