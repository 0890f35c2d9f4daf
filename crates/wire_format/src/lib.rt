//! Protobuf's wire format: bytes as a list of numbered values, or the first fault.
#![tactic(auto)]

mod fault;
mod fields;
mod groups;
mod laws;
mod packed;
mod tokens;
mod varints;

pub use fault::{WireFault, WireFaultKind};
pub use fields::next_field;
pub use laws::encoded_is_read;
pub use packed::next_number;
pub use tokens::{Field, Value};
pub use varints::varint;
