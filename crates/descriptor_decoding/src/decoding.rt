ghost use Rattle.std.specs.Prelude.{◌≡◌};
ghost use Rattle.descriptor_decoding.specs.Merging.{Gives};
ghost use Rattle.descriptor_decoding.specs.Decoding.{message_of, file_set_of, file_of};

use crate::context::Context;
use crate::error::DecodeError;
use crate::merging::{Message, merge};
use proto_types::{FileDescriptorProto, FileDescriptorSet};
use std::alloc::Global;

/// How many levels of messages and groups may lie in what is decoded.
pub const LEVELS: u32 = 100;

/// The set of files that bytes encode.
///
/// # Errors
/// `Fault` with the first fault of the bytes, and `OutOfMemory` where memory was refused before any
/// was met.
pub fn decode(alloc: Global, bytes: &[u8]) -> Result<FileDescriptorSet, DecodeError>
    ensures { Gives result (file_set_of bytes.now) }
{
    decode_message(alloc, bytes)
}

/// The file that bytes encode, as reflection servers and generated code hold it.
///
/// # Errors
/// Those of `decode`.
pub fn decode_file(alloc: Global, bytes: &[u8]) -> Result<FileDescriptorProto, DecodeError>
    ensures { Gives result (file_of bytes.now) }
{
    decode_message(alloc, bytes)
}

/// The message that bytes encode.
fn decode_message<M: Message>(alloc: Global, bytes: &[u8]) -> Result<M, DecodeError>
    ensures { Gives result (message_of M.merged M.nothing bytes.now) }
{
    let levels = LEVELS;
    let mut message = M::empty(alloc);
    merge(&mut message, Context { alloc, levels }, bytes.len(), bytes)?;
    Ok(message)
}
