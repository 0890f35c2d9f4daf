//! What is linked, as bytes that a runtime of protobuf takes in.

ghost use Rattle.std.specs.Prelude.{◌≡◌, length, IfOk, slice_get};
ghost use Rattle.std.specs.Option.{option_map};
ghost use Rattle.pool_types.specs.Contents.{files_of};
ghost use Rattle.descriptor_encoding.specs.Encoding.{file_encoding, set_encoding};

use crate::answers::Answers;
use descriptor_encoding::{encode_file, encode_linked, file_len, linked_len};
use pool_types::FileDescriptor;
use std::alloc::{AllocError, Global};

impl Answers {
    /// The canonical encoding of the set of all linked files, in the order of linking.
    ///
    /// # Errors
    /// `AllocError` where memory was refused.
    pub fn linked(&self, alloc: Global) -> Result<Vec<u8>, AllocError>
        ensures { IfOk result (λ v. v.items
            ≡ set_encoding (record { file = files_of self.now.pool })) }
    {
        encode_linked(alloc, self.pool.files())
    }

    /// How many bytes `linked` writes. It takes no memory.
    ///
    /// # Errors
    /// `AllocError` where no memory has room for so many.
    pub fn linked_len(&self, alloc: Global) -> Result<usize, AllocError>
        ensures { IfOk result (λ len. len
            ≡ length (set_encoding (record { file = files_of self.now.pool }))) }
    {
        linked_len(alloc, self.pool.files())
    }

    /// The canonical encoding of the linked file with an index, or none past the end.
    ///
    /// # Errors
    /// `AllocError` where memory was refused.
    pub fn linked_file(&self, alloc: Global, index: u32) -> Result<Option<Vec<u8>>, AllocError>
        ensures { IfOk result (λ found. option_map (λ v. v.items) found
            ≡ option_map (λ f. file_encoding f.raw) (slice_get self.now.pool.files index)) }
    {
        match self.pool.file(FileDescriptor::new(index)) {
            Some(file) => Ok(Some(encode_file(alloc, &file.raw)?)),
            None => Ok(None),
        }
    }
    /// How many bytes `linked_file` writes, or none past the end. It takes no memory.
    ///
    /// # Errors
    /// `AllocError` where no memory has room for so many.
    pub fn linked_file_len(&self, alloc: Global, index: u32) -> Result<Option<usize>, AllocError>
        ensures { IfOk result (λ found. found ≡ option_map (λ f. length (file_encoding f.raw))
            (slice_get self.now.pool.files index)) }
    {
        let Some(file) = self.pool.file(FileDescriptor::new(index)) else {
            return Ok(None);
        };
        Ok(Some(file_len(alloc, &file.raw)?))
    }
}
