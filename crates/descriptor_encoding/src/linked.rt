//! The linked files of a pool, by the records that its items hold.

ghost use Rattle.std.specs.Prelude.{◌≡◌, length, IfOk};
ghost use Rattle.descriptor_encoding.specs.Encoding.{linked_encoding};
ghost use Rattle.descriptor_encoding.specs.Files.{file_listed};

use crate::front::FrontBuffer;
use crate::parts::{Encode, put_each};
use pool_types::FileDescriptorInner;
use std::alloc::{AllocError, Global};

impl Encode for FileDescriptorInner {
    ghost listed = { λ f. file_listed f.raw };

    fn put(&self, out: &mut FrontBuffer) -> Result<(), AllocError> {
        self.raw.put(out)
    }
}

/// The canonical encoding of the set of linked files, of which no record is copied.
///
/// # Errors
/// `AllocError` where memory was refused.
pub fn encode_linked(alloc: Global, files: &[FileDescriptorInner]) -> Result<Vec<u8>, AllocError>
    ensures { IfOk result (λ v. v.items ≡ linked_encoding files.now) }
{
    let mut out = FrontBuffer::new(alloc);
    put_each(&mut out, 1, files)?;
    out.into_vec()
}

/// How many bytes `encode_linked` writes. It takes no memory.
///
/// # Errors
/// `AllocError` where they are more than a `usize` counts, so that no memory has room for them.
#[tactic(auto, using(crate::proofs::Held::held_listed))]
pub fn linked_len(alloc: Global, files: &[FileDescriptorInner]) -> Result<usize, AllocError>
    ensures { IfOk result (λ n. n ≡ length (linked_encoding files.now)) }
{
    let mut out = FrontBuffer::counting(alloc);
    put_each(&mut out, 1, files)?;
    Ok(out.len())
}
