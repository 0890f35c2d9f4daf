//! The items that stand in a file or in a message.

ghost use Rattle.std.specs.Prelude.{◌≡◌, ◌<◌, ◌^◌, IfOk, length};
ghost use Rattle.std.specs.Option.{option_map};
ghost use Rattle.pool_types.specs.Members.{members};
ghost use Rattle.numbered_pool.specs.Lists as spec;

use crate::answers::Answers;
use crate::numbers::{Item, definition_kind};
use descriptor_pool::DescriptorPool;
use pool_types::{Declared, DefinitionKind, FileDescriptor, MessageDescriptor, Parent};
use std::alloc::{AllocError, Global};

/// The indexes of the items that stand in a file or in a message, in rising order.
fn indexes_in<T: Declared>(
    alloc: Global,
    items: &[T],
    around: Parent,
) -> Result<Vec<u32>, AllocError>
    requires { length items.now < 2 ^ 32 }
    ensures { IfOk result (λ v. v.items ≡ members (T.is_in around) items.now) }
{
    let mut indexes = Vec::new(alloc);
    for (index, item) in items.iter().enumerate() {
        if item.is_in(around) {
            indexes.push(index as u32)?;
        }
    }
    Ok(indexes)
}

/// The indexes of the items of a kind that stand in a file or in a message.
fn items_in(
    alloc: Global,
    pool: &DescriptorPool,
    around: Parent,
    kind: DefinitionKind,
) -> Result<Option<Vec<u32>>, AllocError>
    ensures { IfOk result (λ found. option_map (λ v. v.items) found
        ≡ spec.items_in pool.now around kind) }
{
    let _counts = pool.counts();
    match kind {
        DefinitionKind::Message(_) => Ok(Some(indexes_in(alloc, pool.messages(), around)?)),
        DefinitionKind::Service(_) => Ok(Some(indexes_in(alloc, pool.services(), around)?)),
        DefinitionKind::Enum(_) => Ok(Some(indexes_in(alloc, pool.enums(), around)?)),
        DefinitionKind::Extension(_) => Ok(Some(indexes_in(alloc, pool.extensions(), around)?)),
        _ => Ok(None),
    }
}

/// The indexes of the items of the kind with a number that stand in a file or in a message.
fn numbered_in(
    alloc: Global,
    pool: &DescriptorPool,
    around: Parent,
    kind: u32,
) -> Result<Option<Vec<u32>>, AllocError>
    ensures { IfOk result (λ found. option_map (λ v. v.items) found
        ≡ spec.numbered_in pool.now around kind) }
{
    let numbered = Item {
        kind,
        index: 0,
        position: 0,
    };
    match definition_kind(numbered) {
        Some(kind) => items_in(alloc, pool, around, kind),
        None => Ok(None),
    }
}

impl Answers {
    /// The indexes of the messages, the enums, the services or the extensions of a file that stand
    /// in no message, by the number of their kind, in rising order. There is no list where the
    /// index of the file is past the end, or things of the kind have no indexes. All items of the
    /// kind in the pool are gone through.
    ///
    /// # Errors
    /// `AllocError` where memory was refused.
    pub fn file_items(
        &self,
        alloc: Global,
        file: u32,
        kind: u32,
    ) -> Result<Option<Vec<u32>>, AllocError>
        ensures { IfOk result (λ found. option_map (λ v. v.items) found
            ≡ spec.file_items self.now.pool file kind) }
    {
        let file = FileDescriptor::new(file);
        match self.pool.file(file) {
            Some(_) => numbered_in(alloc, &self.pool, Parent::File(file), kind),
            None => Ok(None),
        }
    }

    /// The indexes of those that stand in a message, without those in one of its messages, as
    /// `file_items` tells them. No service stands in a message.
    ///
    /// # Errors
    /// `AllocError` where memory was refused.
    pub fn message_items(
        &self,
        alloc: Global,
        message: u32,
        kind: u32,
    ) -> Result<Option<Vec<u32>>, AllocError>
        ensures { IfOk result (λ found. option_map (λ v. v.items) found
            ≡ spec.message_items self.now.pool message kind) }
    {
        let message = MessageDescriptor::new(message);
        match self.pool.message(message) {
            Some(_) => numbered_in(alloc, &self.pool, Parent::Message(message), kind),
            None => Ok(None),
        }
    }
}
