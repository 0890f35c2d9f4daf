//! Labels, which say where something stands in the files of a pool and in their source; the faults
//! of a batch, with the label and the text of each; and the error of a batch, which has them all.
#![tactic(auto)]

mod error;
mod exact;
mod fault;
mod files;
mod label;
mod labels;
mod spans;

pub use error::{AllFaults, DescriptorError};
pub use fault::{DescriptorErrorKind, Labelled};
pub use files::label_at;
pub use label::Label;
pub use labels::Labels;
