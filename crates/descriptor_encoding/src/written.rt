ghost use Rattle.std.specs.Prelude.{◌≡◌, IfOk};
ghost use Rattle.descriptor_decoding.specs.Decoding.{file_set_of};
ghost use Rattle.descriptor_encoding.specs.Written.{Writes};

use crate::encoding::encode;
use crate::laws::{read_is_whole, written_is_read};
use descriptor_decoding::{DecodeError, decode};
use std::alloc::Global;

/// The canonical encoding of the set of files that bytes encode. It is read as the same set.
///
/// # Errors
/// `Fault` with the first fault of the bytes, or `OutOfMemory`.
pub fn canonical(alloc: Global, bytes: &[u8]) -> Result<Vec<u8>, DecodeError>
    ensures encoded { Writes (λ v. v.items) result (file_set_of bytes.now) }
    ensures same { IfOk result (λ v. file_set_of v.items ≡ file_set_of bytes.now) }
{
    read_is_whole();
    written_is_read();
    let set = decode(alloc, bytes)?;
    Ok(encode(alloc, &set)?)
}
