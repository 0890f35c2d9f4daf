//! The first pass: the names of declarations, and what these break by themselves.
#![tactic(auto)]

mod camel_case;
mod enumeration;
mod key_digests;
mod laws;
mod names;
mod syntax;

pub use camel_case::check_camel_case_names;
pub use enumeration::check_enum_values;
pub use laws::declared_follow;
pub use names::NameVisitor;
pub use syntax::check_syntax;
