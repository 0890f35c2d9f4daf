//! The tests of the pool and of its parts, of scripts, of reports, and of devices.
#![tactic(auto)]

#[cfg(test)]
mod tests;
