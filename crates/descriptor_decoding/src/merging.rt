ghost use Rattle.std.specs.Prelude.{◌≡◌, ℕ};
ghost use Rattle.wire_format.specs.Tokens.{value_seen};
ghost use Rattle.descriptor_decoding.specs.Merging.{Merge, merged_from, Leaves};

use crate::context::Context;
use crate::error::DecodeError;
use std::alloc::Global;
use wire_format::{Field, next_field};

/// A message, as it is read field by field.
pub trait Message: Drop {
    /// A message with all parts absent or empty.
    ghost nothing: { Self };

    /// What a field makes of a message in which so many levels may lie.
    ghost merged: { ℕ → Merge Self };

    /// A message with all parts absent or empty, which takes no memory.
    fn empty(alloc: Global) -> Self
        ensures { result ≡ nothing };

    /// Reads a field into the message. What is after it tells how much room a list will need. After
    /// an `Err` nothing is known of the message.
    ///
    /// # Errors
    /// `Fault` with the first fault of the field's value, or `OutOfMemory`.
    fn merge_field(
        &mut self,
        context: Context,
        field: &Field<'_>,
        after: &[u8],
    ) -> Result<(), DecodeError>
        ensures { Leaves result self.new
            (merged context.levels field.now.number (value_seen field.now.value) self.old) };
}

/// Reads the fields of bytes, which end at offset `ends` of the input, into a message.
///
/// # Errors
/// `Fault` with the first fault of the bytes, or `OutOfMemory`.
pub fn merge<M: Message>(
    message: &mut M,
    context: Context,
    ends: usize,
    bytes: &[u8],
) -> Result<(), DecodeError>
    ensures { Leaves result message.new
        (merged_from context.levels (M.merged context.levels) ends bytes.now message.old) }
{
    let mut rest = bytes;
    while let Some((field, after)) = next_field(context.levels, ends, rest)? {
        message.merge_field(context, &field, after)?;
        rest = after;
    }
    Ok(())
}
