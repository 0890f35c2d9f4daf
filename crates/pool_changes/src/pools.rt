//! What changes of all messages of a pool, so that bytes are read otherwise.

ghost use Rattle.std.specs.Prelude.{◌≡◌, ◌++◌, IfOk, OnOk, map};
ghost use Rattle.schema_changes.specs.Parts.{parts, parts_of};
ghost use Rattle.schema_changes.specs.Pools.{of_message, changes_with, message_named, wire_changes};

use crate::named::message_named;
use descriptor_pool::DescriptorPool;
use pool_types::MessageDescriptorInner;
use schema_changes::{Asked, MessageChange, Parts, WireChange};
use std::alloc::{AllocError, Global};

/// An old and a new pool that are compared.
#[derive(Clone, Copy)]
struct Pools<'a> {
    alloc: Global,
    old: &'a DescriptorPool,
    new: &'a DescriptorPool,
}

/// The items of a pool by which bytes are read.
pub fn parts_of(pool: &DescriptorPool) -> Parts<'_>
    ensures { parts result ≡ parts_of pool.now }
{
    Parts {
        files: pool.files(),
        messages: pool.messages(),
        enums: pool.enums(),
        extensions: pool.extensions(),
    }
}

/// Appends changes of the message with an index.
fn push_each(
    changes: &mut Vec<MessageChange>,
    message: u32,
    told: &[WireChange],
) -> Result<(), AllocError>
    ensures { OnOk result (changes.new.items ≡ changes.old.items
        ++ map (of_message message) told.now) }
{
    for change in told {
        changes.push(MessageChange {
            message,
            change: *change,
        })?;
    }
    Ok(())
}

impl Pools<'_> {
    /// Appends what the new message with its name changes of an old one, which has an index.
    fn tell_message(
        self,
        changes: &mut Vec<MessageChange>,
        asked: &mut Asked<'_>,
        index: u32,
        before: &MessageDescriptorInner,
    ) -> Result<(), AllocError>
        requires { asked.old ≡ record {
          older = parts_of self.old.now;
          newer = parts_of self.new.now;
        } }
        ensures asked { asked.new ≡ asked.old }
        ensures told { OnOk result (changes.new.items ≡ changes.old.items
            ++ changes_with self.entry.old.now self.entry.new.now index before.now
            (message_named self.entry.new.now before.now.id.full_name)) }
    {
        let name = before.id.full_name();
        let Some(after) = message_named(self.alloc, self.new, name)? else {
            return Ok(());
        };
        let mut told = Vec::new(self.alloc);
        asked.tell(&mut told, before, after)?;
        push_each(changes, index, told.as_slice())
    }
}

/// What a new pool changes of an old one, so that bytes are read otherwise: the changes of each
/// message of the old pool, in order, if the new one has a message of that name. A field may hold a
/// message under another name, where that keeps the fields of the old one.
///
/// # Errors
/// `AllocError` where memory was refused.
pub fn wire_changes(
    alloc: Global,
    old: &DescriptorPool,
    new: &DescriptorPool,
) -> Result<Vec<MessageChange>, AllocError>
    ensures { IfOk result (λ changes. changes.items ≡ wire_changes old.now new.now) }
{
    old.made();
    let pools = Pools { alloc, old, new };
    let mut asked = Asked::new(alloc, parts_of(old), parts_of(new));
    let mut changes = Vec::new(alloc);
    let messages = old.messages();
    for (index, message) in messages.iter().enumerate() {
        pools.tell_message(&mut changes, &mut asked, index as u32, message)?;
    }
    Ok(changes)
}
