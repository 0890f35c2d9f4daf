//! Which files a file sees, and what a reference means.
#![tactic(auto)]

mod filter;
mod imports;
mod in_parts;
mod last_seen;
mod package_names;
mod parents;
mod resolution;
mod seen;
mod visibility;
mod visibility_laws;
mod wants;

pub use filter::ResolveNameFilter;
pub use imports::imported_files;
pub use in_parts::resolve_in_parts;
pub use package_names::PackageNames;
pub use parents::{CandidateParents, parents_count};
pub use resolution::{ResolveNameResult, resolve_name};
pub use visibility::{Sight, visible_from};
pub use visibility_laws::sees_is_tested;
