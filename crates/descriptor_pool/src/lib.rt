//! The pool of linked files, and how a batch is linked into it.
#![tactic(auto)]

mod build;
mod error;
mod exact;
mod pool;

pub use error::BuildError;
pub use pool::DescriptorPool;
