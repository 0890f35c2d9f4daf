//! Trials of the calls on default values.
use crate::told::{Told, answer, mark};
use field_rules::{EscapeFault, ValueFault, parse_simple_value, unescape_c_escape_string};
use plain_data::Items;
use pool_types::{DefaultValue, KindIndex};
use std::alloc::{AllocError, Global};

/// A text with an escape of each kind.
const ESCAPED: &str = "a\\001\\x7f\\n\\\"\\\\ and so much more that the bytes grow more than once";

/// What it stands for.
const PLAIN: &[u8] = b"a\x01\x7f\n\"\\ and so much more that the bytes grow more than once";

/// Reads a default value.
pub(crate) fn value(alloc: Global) -> Result<Told, AllocError> {
    let wanted = DefaultValue::Bytes(Items::from_slice(alloc, PLAIN)?);
    let opened = mark(alloc);
    let ending = parse_simple_value(alloc, KindIndex::Bytes, ESCAPED);
    let closed = mark(alloc);
    let is_right = match &ending {
        Ok(value) => *value == wanted,
        Err(fault) => *fault == ValueFault::OutOfMemory,
    };
    Told::new(opened, closed, answer(ending.is_ok()), is_right)
}

/// Reads a text with escapes.
pub(crate) fn escapes(alloc: Global) -> Result<Told, AllocError> {
    let opened = mark(alloc);
    let ending = unescape_c_escape_string(alloc, ESCAPED);
    let closed = mark(alloc);
    let is_right = match &ending {
        Ok(bytes) => bytes.as_slice() == PLAIN,
        Err(fault) => *fault == EscapeFault::OutOfMemory,
    };
    Told::new(opened, closed, answer(ending.is_ok()), is_right)
}
