use pool_faults::DescriptorError;
use record_walk::CountKind;
use std::alloc::AllocError;

/// Why a batch isn't linked. The pool is then as it was.
#[derive(Debug, Drop)]
pub enum BuildError {
    /// The new files, or their sum with the pool, have too much of a kind.
    TooMany(CountKind),
    /// The new files break rules: all faults of the first failing pass, in order, or the first of
    /// them where no more were asked for.
    Descriptor(DescriptorError),
    /// Memory was refused.
    OutOfMemory,
}

impl From<AllocError> for BuildError {
    ghost use Rattle.std.specs.Prelude.{◌≡◌};
    ghost use Rattle.descriptor_pool.specs.declared.error.BuildError.TheVariants.{OutOfMemory};

    ghost from_gives = { λ _ error. error ≡ OutOfMemory };

    fn from(_error: AllocError) -> BuildError {
        BuildError::OutOfMemory
    }
}
