ghost use Rattle.std.specs.Prelude.{◌≡◌, IfOk};

use super::definition::Identity;
use super::field::FieldDescriptorInner;
use super::oneof::OneofDescriptorInner;
use plain_data::{Duplicate, Items, NumberMap, TextMap};
use std::alloc::{AllocError, Global};

/// A message, with its fields and its oneofs in the order of their positions.
#[derive(PartialEq, Debug, Drop)]
pub struct MessageDescriptorInner {
    pub id: Identity,
    /// The index of the message around it, where it is nested.
    pub parent: Option<u32>,
    /// The indexes of all extensions that extend it, in rising order.
    pub extensions: Items<u32>,
    /// From the number of an extension that extends it to its index.
    pub extension_numbers: NumberMap,
    pub fields: Items<FieldDescriptorInner>,
    /// From the number of a field to its position, from 0; of two with one number, to that of the
    /// later one.
    pub field_numbers: NumberMap,
    /// From the name of a field to its position, as above.
    pub field_names: TextMap,
    /// From the JSON name of a field that was given one to its position, as above.
    pub field_json_names: TextMap,
    pub oneofs: Items<OneofDescriptorInner>,
}

impl MessageDescriptorInner {
    /// An equal message.
    ///
    /// # Errors
    /// `AllocError` where memory was refused.
    pub fn clone(&self, alloc: Global) -> Result<MessageDescriptorInner, AllocError>
        ensures { IfOk result (λ copy. copy ≡ self.now) }
    {
        let extensions = Items::from_slice(alloc, self.extensions.as_slice())?;
        let extension_numbers = self.extension_numbers.clone(alloc)?;
        let field_numbers = self.field_numbers.clone(alloc)?;
        let field_names = self.field_names.clone(alloc)?;
        let field_json_names = self.field_json_names.clone(alloc)?;
        let id = self.id.clone(alloc)?;
        let oneofs = self.oneofs.clone(alloc)?;
        Ok(MessageDescriptorInner {
            id,
            parent: self.parent,
            extensions,
            extension_numbers,
            fields: self.fields.clone(alloc)?,
            field_numbers,
            field_names,
            field_json_names,
            oneofs,
        })
    }
}

impl Duplicate for MessageDescriptorInner {
    fn duplicate(&self, alloc: Global) -> Result<MessageDescriptorInner, AllocError> {
        self.clone(alloc)
    }
}
