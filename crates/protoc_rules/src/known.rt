//! What the options of the messages of a pool say, each read once.

ghost use Rattle.std.specs.Prelude.{◌≡◌, IfOk, map};
ghost use Rattle.protoc_rules.specs.Linked as spec;

use crate::Linked;
use crate::cycles::is_marked;
use descriptor_decoding::{says_map_entry, says_message_set};
use plain_data::Items;
use pool_types::MessageDescriptorInner;
use std::alloc::{AllocError, Global};

/// The items of a pool that rules look at, and what the options of its messages say.
#[derive(Clone, Copy)]
pub(crate) struct Known<'a> {
    pub items: Linked<'a>,
    /// Which messages are entries of maps.
    entries: &'a [bool],
    /// Which messages are message sets.
    sets: &'a [bool],
    ghost entries_are: { entries.now ≡ map (spec.is_entry (spec.linked items)) items.messages.now },
    ghost sets_are: { sets.now ≡ map (spec.is_set (spec.linked items)) items.messages.now },
}

impl<'a> Known<'a> {
    /// Whether the message with an index is an entry of a map.
    pub(crate) fn is_map_entry(self, index: u32) -> bool
        ensures { result ≡ spec.is_map_entry (spec.linked self.entry.items) index }
    {
        is_marked(self.entries, index)
    }

    /// Whether the message with an index is a message set.
    pub(crate) fn is_message_set(self, index: u32) -> bool
        ensures { result ≡ spec.is_message_set (spec.linked self.entry.items) index }
    {
        is_marked(self.sets, index)
    }
}

/// What the options of messages say.
#[derive(Drop)]
pub(crate) struct Flags {
    /// Which messages are entries of maps.
    entries: Items<bool>,
    /// Which messages are message sets.
    sets: Items<bool>,
}

impl<'a> Linked<'a> {
    /// Whether the linked record of a message says that it is an entry of a map, and whether that it is
    /// a message set.
    fn says(self, message: &MessageDescriptorInner) -> (bool, bool)
        ensures entry { result.0 ≡ spec.is_entry (spec.linked self.entry) message.now }
        ensures set { result.1 ≡ spec.is_set (spec.linked self.entry) message.now }
    {
        match self.message_record(&message.id) {
            Some(record) => (says_map_entry(record), says_message_set(record)),
            None => (false, false),
        }
    }

    /// What the options of the messages say.
    pub(crate) fn flags(self, alloc: Global) -> Result<Flags, AllocError>
        ensures entries { IfOk result (λ flags. flags.entries
            ≡ map (spec.is_entry (spec.linked self.entry)) self.entry.messages.now) }
        ensures sets { IfOk result (λ flags. flags.sets
            ≡ map (spec.is_set (spec.linked self.entry)) self.entry.messages.now) }
    {
        let messages = self.messages;
        let mut entries = Items::new(alloc);
        let mut sets = Items::new(alloc);
        entries.reserve_exact(messages.len())?;
        sets.reserve_exact(messages.len())?;
        for message in messages {
            let (entry, set) = self.says(message);
            entries.push(entry)?;
            sets.push(set)?;
        }
        Ok(Flags { entries, sets })
    }

    /// These items with what the options of their messages say.
    pub(crate) fn known(self, flags: &'a Flags) -> Known<'a>
        requires entries { flags.now.entries
            ≡ map (spec.is_entry (spec.linked self)) self.messages.now }
        requires sets { flags.now.sets
            ≡ map (spec.is_set (spec.linked self)) self.messages.now }
        ensures { result.items ≡ self.entry }
    {
        Known {
            items: self,
            entries: flags.entries.as_slice(),
            sets: flags.sets.as_slice(),
        }
    }
}
