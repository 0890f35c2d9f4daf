//! Message sets, whose extensions are encoded otherwise.

ghost use Rattle.std.specs.Prelude.{◌≡◌, false};
ghost use Rattle.std.specs.Option.{option_map_or};
ghost use Rattle.descriptor_decoding.specs.Flags.{says_message_set};
ghost use Rattle.schema_changes.specs.MessageSets as spec;
ghost use Rattle.schema_changes.specs.Parts.{parts};
ghost use Rattle.schema_changes.specs.Records.{message_record};

use crate::Parts;
use descriptor_decoding::says_message_set;
use pool_types::MessageDescriptorInner;

impl Parts<'_> {
    /// Whether the options of the record of a message say that it is a message set.
    fn says_message_set(self, message: &MessageDescriptorInner) -> bool
        ensures { result ≡ option_map_or says_message_set
            (message_record (parts self.entry) message.now) false }
    {
        match self.message_record(message) {
            Some(record) => says_message_set(record),
            None => false,
        }
    }

    /// Whether a message is a message set: it has no fields, and the options of its record say so.
    #[tactic(auto, unfolding(crate::specs::MessageSets::is_message_set))]
    pub fn is_message_set(self, message: &MessageDescriptorInner) -> bool
        ensures { result ≡ spec.is_message_set (parts self.entry) message.now }
    {
        message.fields.as_slice().is_empty() && self.says_message_set(message)
    }
}
