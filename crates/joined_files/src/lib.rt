//! The files of several sets as one batch: equal ones once, and what is told of those that differ
//! from the first of their name.
#![tactic(auto)]

mod differences;
mod joining;
mod laws;
mod telling;
mod unequal;
mod words;

pub use differences::{FilePart, difference};
pub use joining::{JoinedFiles, Joining};
pub use laws::{differences_are_exact, joined_apart_from_places};
pub use telling::{passed_words, tell_unequal};
pub use unequal::{SetFile, UnequalFile};
pub use words::{part_path, part_words};
