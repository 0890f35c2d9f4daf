//! The table of names: what each name means, which file has which name, and which names stay where
//! later files are taken away. A table is a tree, whose branches are the parts of names between
//! their dots, and in which a branch is found by the digits of a digest of its name.
#![tactic(auto)]

mod branches;
mod dots;
mod entered;
mod file_names;
mod hashed_names;
mod laws;
mod name_table;
mod nodes;
mod part_names;
mod part_texts;
mod parts;
mod scope;
mod scoped_names;
mod tree;
mod within;

pub use file_names::FileNames;
pub use hashed_names::HashedNames;
pub use laws::{earlier_names_stay, later_name_goes, names_are_first};
pub use name_table::NameTable;
pub use part_names::PartNames;
pub use parts::Parts;
pub use scope::Scope;
pub use scoped_names::ScopedNames;

/// The table of names that a pool has.
pub type PoolNames = PartNames;
