//! What a pool has as a text, in the terms of protobuf: its items, what a name means, and its
//! declarations; and the faults of a batch with their places.
#![tactic(auto)]

mod enumeration;
mod extension;
mod faults;
mod field;
mod file;
mod head;
mod listed;
mod message;
mod named;
mod pool_text;
mod ranges;
mod reserved;
mod service;
mod values;
mod words;

pub use faults::faults_text;
pub use listed::write_list;
pub use named::describe_name;
pub use pool_text::describe;
