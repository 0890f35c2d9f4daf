ghost use Rattle.std.specs.Prelude.{◌≡◌, IfOk};

use super::definition::Identity;
use crate::{Cardinality, DefaultValue, KindIndex};
use plain_data::{Duplicate, Text, duplicate_option};
use std::alloc::{AllocError, Global};

/// A field of a message.
#[derive(PartialEq, Debug, Drop)]
pub struct FieldDescriptorInner {
    pub id: Identity,
    pub number: u32,
    /// The JSON name, where one was given.
    pub json_name: Option<Text>,
    pub kind: KindIndex,
    /// The position of its oneof among those of the message, from 0.
    pub oneof: Option<u32>,
    /// Whether its values are encoded as one run of bytes.
    pub is_packed: bool,
    /// Whether a message tells that it is set.
    pub supports_presence: bool,
    pub cardinality: Cardinality,
    /// Its default value, where one was given.
    pub default: Option<DefaultValue>,
}

impl FieldDescriptorInner {
    /// An equal field.
    ///
    /// # Errors
    /// `AllocError` where memory was refused.
    pub fn clone(&self, alloc: Global) -> Result<FieldDescriptorInner, AllocError>
        ensures { IfOk result (λ copy. copy ≡ self.now) }
    {
        Ok(FieldDescriptorInner {
            id: self.id.clone(alloc)?,
            number: self.number,
            json_name: duplicate_option(alloc, &self.json_name)?,
            kind: self.kind,
            oneof: self.oneof,
            is_packed: self.is_packed,
            supports_presence: self.supports_presence,
            cardinality: self.cardinality,
            default: duplicate_option(alloc, &self.default)?,
        })
    }
}

impl Duplicate for FieldDescriptorInner {
    fn duplicate(&self, alloc: Global) -> Result<FieldDescriptorInner, AllocError> {
        self.clone(alloc)
    }
}
