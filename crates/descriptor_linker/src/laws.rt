//! The laws of pools. A call does nothing: its contract is the law, and is proved of all pools.

pub use pool_laws::{
    dot_says_nothing, earlier_stays, prefixes, relink, reorder, seen_names_stand, split,
};
