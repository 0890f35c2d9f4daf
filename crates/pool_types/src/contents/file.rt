ghost use Rattle.std.specs.Prelude.{◌≡◌, IfOk};

use crate::Syntax;
use plain_data::{Duplicate, Items};
use proto_types::FileDescriptorProto;
use std::alloc::{AllocError, Global};
use std::collections::BTreeSet;
use std::fmt;

/// A file: its syntax, its linked record, and the files that it knows. Files are told by their
/// indexes, from 0 in the order of linking.
#[derive(PartialEq, Drop)]
pub struct FileDescriptorInner {
    /// The language's version in which it is written.
    pub syntax: Syntax,
    pub raw: FileDescriptorProto,
    /// The files that it imports, in the order of its imports.
    pub dependencies: Items<u32>,
    /// The files whose names it sees, itself too.
    pub transitive_dependencies: BTreeSet<u32>,
}

impl FileDescriptorInner {
    /// An equal file.
    ///
    /// # Errors
    /// `AllocError` where memory was refused.
    pub fn clone(&self, alloc: Global) -> Result<FileDescriptorInner, AllocError>
        ensures { IfOk result (λ copy. copy ≡ self.now) }
    {
        let dependencies = Items::from_slice(alloc, self.dependencies.as_slice())?;
        let transitive_dependencies = self.transitive_dependencies.clone()?;
        Ok(FileDescriptorInner {
            syntax: self.syntax,
            raw: self.raw.clone(alloc)?,
            dependencies,
            transitive_dependencies,
        })
    }
}

impl Duplicate for FileDescriptorInner {
    fn duplicate(&self, alloc: Global) -> Result<FileDescriptorInner, AllocError> {
        self.clone(alloc)
    }
}

/// The record is told by the name of the file alone.
impl fmt::Debug for FileDescriptorInner {
    fn fmt<W: fmt::Write>(&self, f: &mut fmt::Formatter<W>) -> fmt::Result {
        f.debug_struct("FileDescriptorInner")
            .field("syntax", &self.syntax)
            .field("name", &self.raw.name())
            .field("dependencies", &self.dependencies)
            .finish_non_exhaustive()
    }
}
