//! Sets of files read from their bytes.
#![tactic(auto)]

mod context;
mod decoding;
mod enums;
mod error;
mod fields;
mod files;
mod flags;
mod merging;
mod messages;
mod options;
mod parts;
mod room;
mod services;
mod sources;
mod utf8;

pub use decoding::{LEVELS, decode, decode_file};
pub use error::DecodeError;
pub use flags::{Deprecated, is_map_entry, is_message_set, says_map_entry, says_message_set};
