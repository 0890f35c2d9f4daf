//! The tests of the records, of their bytes, and of the walk.
#![tactic(auto)]

#[cfg(test)]
mod tests;
