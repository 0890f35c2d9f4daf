//! The linker for C: a pool behind a handle of one pointer. No call requires anything. A caller
//! that passes what `protolink.h` asks for gets what the contract of the call says.
//!
//! A call answers a status (`status`). One that tells something writes it to a place of the caller.
//! One that hands out a text copies it to the front of a buffer and tells its length; a buffer that
//! is too short stays, and the length alone is told. Without an answer all places stay. A look-up
//! leaves the pool as it was.
#![tactic(auto)]

mod box_pointer;
mod boxes;
mod changes;
mod handle;
mod items;
mod lent;
mod members;
mod names;
mod part;
mod pools;
mod sources;
mod status;
mod told;
mod view;

pub use handle::Handle;
pub use view::View;

#[cfg(test)]
mod tests;
