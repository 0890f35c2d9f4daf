ghost use Rattle.std.specs.Prelude.{◌≡◌, IfOk};

use super::definition::Identity;
use crate::{Cardinality, DefaultValue, KindIndex};
use plain_data::{Duplicate, Text, duplicate_option};
use std::alloc::{AllocError, Global};

/// An extension: a field of a message that isn't declared in it.
#[derive(PartialEq, Debug, Drop)]
pub struct ExtensionDescriptorInner {
    pub id: Identity,
    /// The index of the message around it, where it is nested.
    pub parent: Option<u32>,
    pub number: u32,
    /// Its full name in square brackets.
    pub json_name: Text,
    /// The index of the message whose field it is.
    pub extendee: u32,
    pub kind: KindIndex,
    /// Whether its values are encoded as one run of bytes.
    pub is_packed: bool,
    pub cardinality: Cardinality,
    /// Its default value, where one was given.
    pub default: Option<DefaultValue>,
}

impl ExtensionDescriptorInner {
    /// An equal extension.
    ///
    /// # Errors
    /// `AllocError` where memory was refused.
    pub fn clone(&self, alloc: Global) -> Result<ExtensionDescriptorInner, AllocError>
        ensures { IfOk result (λ copy. copy ≡ self.now) }
    {
        Ok(ExtensionDescriptorInner {
            id: self.id.clone(alloc)?,
            parent: self.parent,
            number: self.number,
            json_name: self.json_name.clone(alloc)?,
            extendee: self.extendee,
            kind: self.kind,
            is_packed: self.is_packed,
            cardinality: self.cardinality,
            default: duplicate_option(alloc, &self.default)?,
        })
    }
}

impl Duplicate for ExtensionDescriptorInner {
    fn duplicate(&self, alloc: Global) -> Result<ExtensionDescriptorInner, AllocError> {
        self.clone(alloc)
    }
}
