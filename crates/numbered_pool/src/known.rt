//! The files of a batch of whose names a pool has one, and what became of a batch.

ghost use Rattle.std.specs.Prelude.{◌≡◌, count_by, not};
ghost use Rattle.std.specs.Option.{option_copied};
ghost use Rattle.numbered_pool.specs.Known as spec;

use descriptor_pool::DescriptorPool;
use joined_files::difference;
use pool_types::FileDescriptorInner;
use proto_types::FileDescriptorProto;

/// What became of the files of a batch that was linked.
#[repr(C)]
#[derive(Clone, Copy)]
pub struct Added {
    /// How many were linked: the pool lacked their names.
    pub files: u64,
    /// How many were passed over: the pool had a file of their name.
    pub passed_over: u64,
    /// How many of those differ from the pool's linked file, apart from the places of their parts
    /// in a source.
    pub differing: u64,
}

/// No files.
pub(crate) const NOTHING_ADDED: Added = Added {
    files: 0,
    passed_over: 0,
    differing: 0,
};

/// The file of a pool that has the name of a file.
fn known_file<'p>(
    pool: &'p DescriptorPool,
    file: &FileDescriptorProto,
) -> Option<&'p FileDescriptorInner>
    ensures { option_copied result ≡ spec.known_file pool.now file.now }
{
    pool.file(pool.get_file_by_name(file.name())?)
}

/// Whether a pool has a file of the name of a file.
fn is_known(pool: &DescriptorPool, file: &FileDescriptorProto) -> bool
    ensures { result ≡ spec.is_known pool.now file.now }
{
    pool.get_file_by_name(file.name()).is_some()
}

/// Whether a file differs from the one of its name that a pool has, apart from their places.
fn differs(pool: &DescriptorPool, file: &FileDescriptorProto) -> bool
    ensures { result ≡ spec.differs pool.now file.now }
{
    match known_file(pool, file) {
        Some(known) => difference(&known.raw, file).is_some(),
        None => false,
    }
}

/// How many files of a batch have names that a pool lacks.
fn count_new(pool: &DescriptorPool, batch: &[FileDescriptorProto]) -> u64
    ensures { result ≡ count_by (λ f. not (spec.is_known pool.now f)) batch.now }
{
    let count = batch.iter().filter(|file| !is_known(pool, file)).count();
    count as u64
}

/// How many files of a batch have names that a pool has.
fn count_known(pool: &DescriptorPool, batch: &[FileDescriptorProto]) -> u64
    ensures { result ≡ count_by (spec.is_known pool.now) batch.now }
{
    let count = batch.iter().filter(|file| is_known(pool, file)).count();
    count as u64
}

/// How many files of a batch differ from those of their names that a pool has.
fn count_differing(pool: &DescriptorPool, batch: &[FileDescriptorProto]) -> u64
    ensures { result ≡ count_by (spec.differs pool.now) batch.now }
{
    let count = batch.iter().filter(|file| differs(pool, file)).count();
    count as u64
}

/// What becomes of the files of a batch that is linked into a pool.
pub(crate) fn added_by(pool: &DescriptorPool, batch: &[FileDescriptorProto]) -> Added
    ensures { result ≡ spec.added_by pool.now batch.now }
{
    Added {
        files: count_new(pool, batch),
        passed_over: count_known(pool, batch),
        differing: count_differing(pool, batch),
    }
}
