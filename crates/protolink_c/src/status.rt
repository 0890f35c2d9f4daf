//! How a call ended.

/// It did, or found, what was asked.
pub const DONE: u8 = 0;
/// Memory was refused.
pub const NO_MEMORY: u8 = 3;
/// The buffer is too short.
pub const SHORT: u8 = 4;
/// The pool does not have it.
pub const NOT_FOUND: u8 = 6;
