//! Whether two pools hold the same.

ghost use Rattle.std.specs.Prelude.{◌≡◌};
ghost use Rattle.pool_contents.specs.Same.{contents_eq, items_eq, names_eq, file_names_eq};
ghost use Rattle.pool_contents.specs.Inner.{contents_in};

use crate::inner::DescriptorPoolInner;
use name_tables::{FileNames, NameTable, PoolNames};

impl DescriptorPoolInner {
    /// Whether both hold the same items, and the same names with the same meanings.
    pub fn same(&self, other: &DescriptorPoolInner) -> bool
        ensures { result ≡ contents_eq (contents_in self.now) (contents_in other.now) }
    {
        self.same_items(other)
            && same_names(&self.names, &other.names)
            && same_file_names(&self.file_names, &other.file_names)
    }

    /// Whether both hold the same items of each kind, in the same order.
    fn same_items(&self, other: &DescriptorPoolInner) -> bool
        ensures { result ≡ items_eq (contents_in self.now) (contents_in other.now) }
    {
        self.files == other.files
            && self.messages == other.messages
            && self.enums == other.enums
            && self.services == other.services
            && self.extensions == other.extensions
    }
}

/// Whether the same names mean the same.
fn same_names(names: &PoolNames, others: &PoolNames) -> bool
    ensures { result ≡ names_eq names.now others.now }
{
    names.same(others)
}

/// Whether the same names are those of the same files.
fn same_file_names(names: &FileNames, others: &FileNames) -> bool
    ensures { result ≡ file_names_eq names.now others.now }
{
    names.same(others)
}
