//! Sets of files written in protobuf's canonical encoding, and the laws of what is written and read
//! again.
#![tactic(auto)]

mod encoding;
mod enums;
mod fields;
mod files;
mod front;
mod laws;
mod linked;
mod messages;
mod parts;
mod services;
mod sources;
mod wire;
mod written;

pub use encoding::{encode, encode_file, file_len};
pub use front::FrontBuffer;
pub use laws::{faults_lie_within, read_is_whole, written_is_read};
pub use linked::{encode_linked, linked_len};
pub use parts::put_text;
pub use wire::{put_bytes_field, put_number_field};
pub use written::canonical;
