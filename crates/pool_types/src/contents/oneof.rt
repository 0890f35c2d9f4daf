ghost use Rattle.std.specs.Prelude.{◌≡◌, IfOk};

use super::definition::Identity;
use plain_data::{Duplicate, Items};
use std::alloc::{AllocError, Global};

/// A oneof of a message.
#[derive(PartialEq, Debug, Drop)]
pub struct OneofDescriptorInner {
    pub id: Identity,
    /// The positions of its fields among those of the message, from 0, in rising order.
    pub fields: Items<u32>,
}

impl OneofDescriptorInner {
    /// An equal oneof.
    ///
    /// # Errors
    /// `AllocError` where memory was refused.
    pub fn clone(&self, alloc: Global) -> Result<OneofDescriptorInner, AllocError>
        ensures { IfOk result (λ copy. copy ≡ self.now) }
    {
        Ok(OneofDescriptorInner {
            id: self.id.clone(alloc)?,
            fields: Items::from_slice(alloc, self.fields.as_slice())?,
        })
    }
}

impl Duplicate for OneofDescriptorInner {
    fn duplicate(&self, alloc: Global) -> Result<OneofDescriptorInner, AllocError> {
        self.clone(alloc)
    }
}
