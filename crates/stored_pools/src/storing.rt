ghost use Rattle.std.specs.Prelude.{◌≡◌, IfOk};
ghost use Rattle.pool_types.specs.Contents.{files_of};
ghost use Rattle.stored_pools.specs.Loaded.{AreLinked, Loads, LoadsAgain};
ghost use Rattle.stored_pools.specs.Stored.{AreWhole, MakesPool, stored};

use crate::laws::stored_is_loaded;
use descriptor_decoding::{DecodeError, decode};
use descriptor_encoding::{encode_linked, written_is_read};
use descriptor_pool::{BuildError, DescriptorPool};
use proto_types::FileDescriptorSet;
use std::alloc::{AllocError, Global};

/// Why bytes are not loaded as a pool.
#[derive(Debug, Drop)]
pub enum LoadError {
    /// The bytes could not be decoded.
    Decode(DecodeError),
    /// Their files could not be linked at once.
    Build(BuildError),
}

/// The canonical encoding of the set of a pool's linked files, none of which is copied. Where they
/// are whole, it is loaded as an equal pool.
///
/// # Errors
/// `AllocError` where memory was refused.
pub fn store(alloc: Global, pool: &DescriptorPool) -> Result<Vec<u8>, AllocError>
    ensures encoded { IfOk result (λ v. v.items ≡ stored pool.now) }
    ensures loaded { AreWhole (files_of pool.now) → IfOk result (λ v. MakesPool v.items pool.now) }
{
    stored_is_loaded(pool);
    encode_linked(alloc, pool.files())
}

/// The pool of the files of a set, linked at once. Of the bytes that `store` wrote it is the pool
/// that was stored, where its linked files are whole, unless memory was refused.
///
/// # Errors
/// `Decode` with the first fault of the bytes, or where memory was refused; `Build` where their
/// files are too many, or break rules, with all faults of the first failing pass, or where memory
/// was refused.
pub fn load(alloc: Global, bytes: &[u8]) -> Result<DescriptorPool, LoadError>
    ensures loads { Loads bytes.now result }
    ensures again { LoadsAgain bytes.now result }
{
    written_is_read();
    link_decoded(alloc, bytes)
}

/// The pool of the files of the set that bytes are.
fn link_decoded(alloc: Global, bytes: &[u8]) -> Result<DescriptorPool, LoadError>
    ensures { Loads bytes.now result }
{
    match decode(alloc, bytes) {
        Ok(set) => match link(alloc, set) {
            Ok(pool) => Ok(pool),
            Err(error) => Err(LoadError::Build(error)),
        },
        Err(error) => Err(LoadError::Decode(error)),
    }
}

/// The pool of the files of a set, linked at once.
///
/// # Errors
/// `TooMany` and `Descriptor` where the files are too many, or break rules, with all faults of the
/// first failing pass; `OutOfMemory` where memory was refused.
pub fn link(alloc: Global, set: FileDescriptorSet) -> Result<DescriptorPool, BuildError>
    ensures { AreLinked set.file result }
{
    let mut pool = DescriptorPool::new(alloc);
    match pool.build_files(set.file.into_vec()) {
        Ok(()) => Ok(pool),
        Err(error) => Err(error),
    }
}
