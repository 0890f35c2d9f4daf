//! Entries of maps.

ghost use Rattle.std.specs.Prelude.{◌≡◌, false};
ghost use Rattle.std.specs.Option.{option_copied, option_map_or};
ghost use Rattle.descriptor_decoding.specs.Flags.{says_map_entry};
ghost use Rattle.schema_changes.specs.Parts.{parts};
ghost use Rattle.schema_changes.specs.Records.{message_record};
ghost use Rattle.schema_changes.specs.MapEntries.{is_map_entry, map_entry_at};
ghost use Rattle.schema_changes.specs.MapEntries.{plain_message_at};

use crate::Parts;
use descriptor_decoding::says_map_entry;
use pool_types::MessageDescriptorInner;

impl<'a> Parts<'a> {
    /// Whether the options of the record of a message say that it is an entry of a map.
    // Not inlined, since few messages have two fields.
    #[inline(never)]
    fn says_map_entry(self, message: &MessageDescriptorInner) -> bool
        ensures { result ≡ option_map_or says_map_entry
            (message_record (parts self.entry) message.now) false }
    {
        match self.message_record(message) {
            Some(record) => says_map_entry(record),
            None => false,
        }
    }

    /// Whether a message is an entry of a map: it has two fields, and the options of its record say
    /// so.
    #[inline(always)]
    #[tactic(auto, unfolding(crate::specs::MapEntries::is_map_entry))]
    pub fn is_map_entry(self, message: &MessageDescriptorInner) -> bool
        ensures { result ≡ is_map_entry (parts self.entry) message.now }
    {
        message.fields.as_slice().len() == 2 && self.says_map_entry(message)
    }

    /// The entry of a map that the message with an index is.
    #[inline(always)]
    #[tactic(auto, unfolding(crate::specs::MapEntries::map_entry_at))]
    pub fn map_entry_at(self, index: u32) -> Option<&'a MessageDescriptorInner>
        ensures { option_copied result ≡ map_entry_at (parts self.entry) index }
    {
        let message = self.messages.get(index as usize)?;
        if self.is_map_entry(message) {
            Some(message)
        } else {
            None
        }
    }

    /// The message with an index, unless it is an entry of a map.
    #[tactic(auto, unfolding(crate::specs::MapEntries::plain_message_at))]
    pub(crate) fn plain_message_at(self, index: u32) -> Option<&'a MessageDescriptorInner>
        ensures { option_copied result ≡ plain_message_at (parts self.entry) index }
    {
        let message = self.messages.get(index as usize)?;
        if self.is_map_entry(message) {
            None
        } else {
            Some(message)
        }
    }
}
