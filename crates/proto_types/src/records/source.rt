ghost use Rattle.std.specs.Prelude.{◌≡◌, IfOk};
ghost use Rattle.proto_types.specs.Source.{no_source, no_location};

use plain_data::{Duplicate, Items, Numbers, Text, duplicate_option};
use std::alloc::{AllocError, Global};

/// Where the declarations of a file stand in its source.
#[derive(PartialEq, Drop)]
pub struct SourceCodeInfo {
    pub location: Items<Location>,
}

/// A declaration, by its path of field numbers and positions, and its lines and columns, which
/// count from 0.
#[derive(PartialEq, Drop)]
pub struct Location {
    pub path: Numbers,
    pub span: Numbers,
    pub leading_comments: Option<Text>,
    pub trailing_comments: Option<Text>,
    pub leading_detached_comments: Items<Text>,
}

impl SourceCodeInfo {
    /// No locations, which takes no memory.
    pub fn empty(alloc: Global) -> SourceCodeInfo
        ensures { result ≡ no_source }
    {
        SourceCodeInfo {
            location: Items::new(alloc),
        }
    }

    /// An equal record.
    ///
    /// # Errors
    /// `AllocError` where memory was refused.
    pub fn clone(&self, alloc: Global) -> Result<SourceCodeInfo, AllocError>
        ensures { IfOk result (λ copy. copy ≡ self.now) }
    {
        Ok(SourceCodeInfo {
            location: self.location.clone(alloc)?,
        })
    }
}

impl Duplicate for SourceCodeInfo {
    fn duplicate(&self, alloc: Global) -> Result<SourceCodeInfo, AllocError> {
        self.clone(alloc)
    }
}

impl Location {
    /// A location with all parts absent or empty, which takes no memory.
    pub fn empty(alloc: Global) -> Location
        ensures { result ≡ no_location }
    {
        Location {
            path: Numbers::new(alloc),
            span: Numbers::new(alloc),
            leading_comments: None,
            trailing_comments: None,
            leading_detached_comments: Items::new(alloc),
        }
    }

    /// An equal location.
    ///
    /// # Errors
    /// `AllocError` where memory was refused.
    pub fn clone(&self, alloc: Global) -> Result<Location, AllocError>
        ensures { IfOk result (λ copy. copy ≡ self.now) }
    {
        Ok(Location {
            path: self.path.clone(alloc)?,
            span: self.span.clone(alloc)?,
            leading_comments: duplicate_option(alloc, &self.leading_comments)?,
            trailing_comments: duplicate_option(alloc, &self.trailing_comments)?,
            leading_detached_comments: self.leading_detached_comments.clone(alloc)?,
        })
    }
}

impl Duplicate for Location {
    fn duplicate(&self, alloc: Global) -> Result<Location, AllocError> {
        self.clone(alloc)
    }
}
