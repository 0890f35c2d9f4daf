//! A call does nothing: its contract is the law, and is proved of all pools.
ghost use Rattle.stored_pools.specs.Stored.{LinkedAreWhole, LinkedIsLoaded, StoredIsLoaded};

use descriptor_encoding::written_is_read;
use descriptor_pool::DescriptorPool;
use pool_laws::relink;

/// What a pool is stored as is loaded as an equal pool, where its linked files are whole and the
/// bytes are fewer than 2^64: the bytes are read as the linked files, and these, linked at once
/// from nothing, break no rule, are not too many, and make the pool again.
pub fn stored_is_loaded(pool: &DescriptorPool)
    ensures { StoredIsLoaded pool.now }
{
    written_is_read();
    relink(pool);
}

/// Linking leaves whole files whole: where the files of a pool and those of a batch are, so are
/// those of the pool with the batch. What is decoded is whole, as `read_is_whole` says.
pub fn linked_are_whole(pool: &DescriptorPool)
    ensures { LinkedAreWhole pool.now }
{
    pool.made();
}

/// A batch of whole files that is linked from nothing makes a pool that is stored as bytes which
/// make an equal pool, where they are fewer than 2^64.
pub fn linked_is_loaded()
    ensures { LinkedIsLoaded }
{
    written_is_read();
}
