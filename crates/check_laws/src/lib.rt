//! The laws of the check of descriptor sets: what its answers mean of pools.
#![tactic(auto)]

mod laws;
#[cfg(test)]
mod tests;

pub use laws::{accepted_is_read, checked_is_loaded};
