//! What the records declare: counts, the list of all declarations, and the walk that shows them;
//! where a declaration stands, and the faults that checks find of what they are shown.
#![tactic(auto)]

mod counts;
mod declaration;
mod faults;
mod laws;
mod place;
mod visitor;
mod walking;
mod words;

pub use counts::{CountKind, Counts};
pub use declaration::{Declaration, DeclarationKind};
pub use faults::Faults;
pub use laws::{declared_changed, declared_in_turn, declared_indexes, declared_paths};
pub use place::Place;
pub use visitor::Visitor;
pub use walking::{visit, visit_each, walk, walk_files};
pub use words::{alone, count_word, declared_word};
