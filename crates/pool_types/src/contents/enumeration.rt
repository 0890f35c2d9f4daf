ghost use Rattle.std.specs.Prelude.{◌≡◌, IfOk};

use super::definition::Identity;
use plain_data::{Duplicate, Items, TextMap};
use std::alloc::{AllocError, Global};

/// An enum, with its values in the order of their positions.
#[derive(PartialEq, Debug, Drop)]
pub struct EnumDescriptorInner {
    pub id: Identity,
    /// The index of the message around it, where it is nested.
    pub parent: Option<u32>,
    pub values: Items<EnumValueDescriptorInner>,
    /// The number of each value with its position, from 0: by number, and then by position.
    pub value_numbers: Items<(i32, u32)>,
    /// From the name of a value to its position, from 0; of two with one name, to that of the later
    /// one.
    pub value_names: TextMap,
    /// Whether two values may have one number.
    pub allow_alias: bool,
}

/// A value of an enum.
#[derive(PartialEq, Debug, Drop)]
pub struct EnumValueDescriptorInner {
    pub id: Identity,
    pub number: i32,
}

impl EnumDescriptorInner {
    /// An equal enum.
    ///
    /// # Errors
    /// `AllocError` where memory was refused.
    pub fn clone(&self, alloc: Global) -> Result<EnumDescriptorInner, AllocError>
        ensures { IfOk result (λ copy. copy ≡ self.now) }
    {
        let value_numbers = Items::from_slice(alloc, self.value_numbers.as_slice())?;
        let value_names = self.value_names.clone(alloc)?;
        let id = self.id.clone(alloc)?;
        Ok(EnumDescriptorInner {
            id,
            parent: self.parent,
            values: self.values.clone(alloc)?,
            value_numbers,
            value_names,
            allow_alias: self.allow_alias,
        })
    }
}

impl Duplicate for EnumDescriptorInner {
    fn duplicate(&self, alloc: Global) -> Result<EnumDescriptorInner, AllocError> {
        self.clone(alloc)
    }
}

impl EnumValueDescriptorInner {
    /// An equal value.
    ///
    /// # Errors
    /// `AllocError` where memory was refused.
    pub fn clone(&self, alloc: Global) -> Result<EnumValueDescriptorInner, AllocError>
        ensures { IfOk result (λ copy. copy ≡ self.now) }
    {
        Ok(EnumValueDescriptorInner {
            id: self.id.clone(alloc)?,
            number: self.number,
        })
    }
}

impl Duplicate for EnumValueDescriptorInner {
    fn duplicate(&self, alloc: Global) -> Result<EnumValueDescriptorInner, AllocError> {
        self.clone(alloc)
    }
}
