//! A call does nothing: its contract is the law, and is proved of all pools and files.
ghost use Rattle.pool_laws.specs.Laws.{DotSaysNothing, EarlierStays, PrefixesEntered, Relinks};
ghost use Rattle.pool_laws.specs.Laws.{SeenNamesStand, Splits};
ghost use Rattle.pool_laws.specs.Order.{Reorders};

use descriptor_pool::DescriptorPool;
use proto_types::FileDescriptorProto;

/// The linked files of a pool, linked at once from nothing, break no rule, are not too many, and
/// make an equal pool.
pub fn relink(pool: &DescriptorPool)
    ensures { Relinks pool.now }
{
    pool.made();
}

/// A batch that is linked leaves what the pool had: its files, enums, services and extensions are
/// those that come first, with the indexes that they had; so are its messages, save that further
/// extensions may stand behind those that a message lists; and each name means what it meant.
pub fn earlier_stays(pool: &DescriptorPool)
    ensures { EarlierStays pool.now }
{}

/// A pool has under a dot and a name what it has under the name, where that doesn't begin with a
/// dot.
pub fn dot_says_nothing(pool: &DescriptorPool)
    ensures { DotSaysNothing pool.now }
{}

/// Where no name that stands in a file is empty or has a dot, each text before a dot of a full name
/// that the file declares is the name of a package, a message or a service of that file.
pub fn prefixes(file: &FileDescriptorProto)
    ensures { PrefixesEntered file.now }
{}

/// Behind a pool, where no name that stands in its files and in the first of the new ones is empty
/// or has a dot: without the names of later files there is all that is seen where no later file is
/// seen, with what stands before the dots of it. So a reference finds what it found.
pub fn seen_names_stand(pool: &DescriptorPool)
    ensures { SeenNamesStand pool.now }
{
    pool.made();
}

/// A batch that is accepted may be linked in two parts, front and back, where no name that stands
/// in its new files and in those of the pool is empty or has a dot, and where the new files of the
/// front import only files of the pool and each other: each part is accepted in its turn, and the
/// pool is the one that the whole batch makes. Where the batch fits, so does each part.
pub fn split(pool: &DescriptorPool, front: &[FileDescriptorProto], back: &[FileDescriptorProto])
    ensures { Splits pool.now front.now back.now }
{
    pool.made();
}

/// A batch whose files are handed over in another order fits exactly if it did, and is accepted
/// exactly if it was. Where it is accepted, each file has the same linked record, the pools know
/// the same names, and each name means the same but for numbers: a definition of the same kind, at
/// the same path of the file of the same name; of a package only that it is one. Not promised is
/// that a refused batch is told the same faults, or which file a package is first defined in.
pub fn reorder(pool: &DescriptorPool, batch: &[FileDescriptorProto], other: &[FileDescriptorProto])
    ensures { Reorders pool.now batch.now other.now }
{
    pool.made();
}
