//! Pools that are stored as sets of files, and loaded again.
#![tactic(auto)]

mod laws;
mod storing;

pub use laws::{linked_are_whole, linked_is_loaded, stored_is_loaded};
pub use storing::{LoadError, link, load, store};
