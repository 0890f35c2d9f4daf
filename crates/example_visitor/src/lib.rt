//! An example: a visitor of one's own, which keeps the fields of messages, and what is proved of
//! it.
#![tactic(auto)]

ghost use Rattle.std.specs.Prelude.{◌≡◌, IsOk, IfOk};
ghost use Rattle.record_walk.specs.Declarations.{declarations};
ghost use Rattle.record_walk.specs.Fits.{counts_with};
ghost use Rattle.example_visitor.specs.FieldVisitor.{fields_in};

mod field_visitor;

pub use field_visitor::FieldVisitor;
use proto_types::FileDescriptorProto;
use record_walk::{Counts, visit};
use std::alloc::{AllocError, Global};

/// The fields of messages that files declare, in order, numbered on from the counts of a pool.
///
/// The counts of the files and the base together must fit, as `Counts::with_files` says.
///
/// # Errors
/// `AllocError` where memory was refused.
pub fn fields_of(
    alloc: Global,
    base: Counts,
    files: &[FileDescriptorProto],
) -> Result<FieldVisitor, AllocError>
    requires { IsOk (counts_with base files.now) }
    ensures { IfOk result (λ fields. fields ≡ fields_in (declarations base files.now)) }
{
    let mut visitor = FieldVisitor::new(alloc);
    visit(alloc, base, files, &mut visitor)?;
    Ok(visitor)
}
