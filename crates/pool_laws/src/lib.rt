//! The laws of pools.
#![tactic(auto)]

mod laws;

pub use laws::{
    dot_says_nothing, earlier_stays, prefixes, relink, reorder, seen_names_stand, split,
};
