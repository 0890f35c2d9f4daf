ghost use Rattle.std.specs.Prelude.{◌≡◌, length, IfOk};
ghost use Rattle.descriptor_encoding.specs.Encoding.{set_encoding, file_encoding};

use crate::front::FrontBuffer;
use crate::parts::Encode;
use proto_types::{FileDescriptorProto, FileDescriptorSet};
use std::alloc::{AllocError, Global};

/// The canonical encoding of a set of files: fields in the order of their numbers, the shortest
/// varints, paths and spans packed, and options as their bytes.
///
/// # Errors
/// `AllocError` where memory was refused.
pub fn encode(alloc: Global, set: &FileDescriptorSet) -> Result<Vec<u8>, AllocError>
    ensures { IfOk result (λ v. v.items ≡ set_encoding set.now) }
{
    let mut out = FrontBuffer::new(alloc);
    set.put(&mut out)?;
    out.into_vec()
}

/// The canonical encoding of a file.
///
/// # Errors
/// `AllocError` where memory was refused.
pub fn encode_file(alloc: Global, file: &FileDescriptorProto) -> Result<Vec<u8>, AllocError>
    ensures { IfOk result (λ v. v.items ≡ file_encoding file.now) }
{
    let mut out = FrontBuffer::new(alloc);
    file.put(&mut out)?;
    out.into_vec()
}

/// How many bytes `encode_file` writes. It takes no memory.
///
/// # Errors
/// `AllocError` where they are more than a `usize` counts, so that no memory has room for them.
pub fn file_len(alloc: Global, file: &FileDescriptorProto) -> Result<usize, AllocError>
    ensures { IfOk result (λ n. n ≡ length (file_encoding file.now)) }
{
    let mut out = FrontBuffer::counting(alloc);
    file.put(&mut out)?;
    Ok(out.len())
}
