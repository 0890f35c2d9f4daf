//! A copy of what a pool holds.

ghost use Rattle.std.specs.Prelude.{◌≡◌, IfOk};
ghost use Rattle.pool_contents.specs.Inner.{contents_in};

use crate::inner::DescriptorPoolInner;
use name_tables::NameTable;
use plain_data::duplicates;
use std::alloc::{AllocError, Global};

impl DescriptorPoolInner {
    /// An equal one, of copies.
    ///
    /// # Errors
    /// `AllocError` where memory was refused.
    pub fn clone(&self, alloc: Global) -> Result<DescriptorPoolInner, AllocError>
        ensures { IfOk result (λ copy. contents_in copy ≡ contents_in self.now) }
    {
        Ok(DescriptorPoolInner {
            files: duplicates(alloc, &self.files)?,
            messages: duplicates(alloc, &self.messages)?,
            enums: duplicates(alloc, &self.enums)?,
            services: duplicates(alloc, &self.services)?,
            extensions: duplicates(alloc, &self.extensions)?,
            names: self.names.clone()?,
            file_names: self.file_names.clone()?,
        })
    }
}
