//! Whether a pool is what its linked files make.

ghost use Rattle.std.specs.Prelude.{◌≡◌, ◌++◌, IfOk, OnOk, string_bytes};
ghost use Rattle.descriptor_linker.specs.Report.Answers as spec;

use descriptor_pool::{BuildError, DescriptorPool};
use std::alloc::{AllocError, Global};

/// Whether the linked files of a pool, linked at once from empty, give an equal pool.
fn relinks(alloc: Global, pool: &DescriptorPool) -> Result<bool, AllocError>
    ensures { IfOk result (λ same. same ≡ spec.relinks pool.now) }
{
    let mut again = DescriptorPool::new(alloc);
    match again.build_files(pool.linked_files()?) {
        Ok(()) => Ok(again == *pool),
        Err(BuildError::TooMany(_kind)) => Ok(false),
        Err(BuildError::Descriptor(_error)) => Ok(false),
        Err(BuildError::OutOfMemory) => Err(AllocError),
    }
}

/// Tells whether the linked files of a pool, linked at once from empty, give an equal pool.
pub(super) fn write_relink(
    alloc: Global,
    report: &mut String,
    pool: &DescriptorPool,
) -> Result<(), AllocError>
    ensures { OnOk result (string_bytes report.new ≡ string_bytes report.old
        ++ spec.relink_answer pool.now) }
{
    if relinks(alloc, pool)? {
        writeln!(report, "same")
    } else {
        writeln!(report, "different")
    }
}
