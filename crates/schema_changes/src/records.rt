//! What the record of a message says of numbers for which it has no field.

ghost use Rattle.std.specs.Prelude.{◌≡◌, pos};
ghost use Rattle.std.specs.List.{list_any};
ghost use Rattle.std.specs.Option.{option_copied};
ghost use Rattle.field_rules.specs.Ranges.{reserves};
ghost use Rattle.schema_changes.specs.Parts.{parts};
ghost use Rattle.schema_changes.specs.Records.{message_record, reserved_of, is_kept_free};
ghost use Rattle.schema_changes.specs.Records.{covers, keeps_range};

use crate::Parts;
use pool_types::MessageDescriptorInner;
use proto_types::{DescriptorProto, ReservedRange};
use record_lists::find_message_proto;

/// Whether a reserved range of a message holds a number.
fn reserves(range: &ReservedRange, number: i64) -> bool
    ensures { result ≡ reserves number range.now }
{
    i64::from(range.start()) <= number && number < i64::from(range.end())
}

/// Whether one of some reserved ranges holds a number.
pub(crate) fn is_reserved(ranges: &[ReservedRange], number: i64) -> bool
    ensures { result ≡ list_any (reserves number) ranges.now }
{
    ranges.iter().any(|range| reserves(range, number))
}

/// Whether a second range holds each number of a first one.
fn covers(range: &ReservedRange, other: &ReservedRange) -> bool
    ensures { result ≡ covers range.now other.now }
{
    other.start() <= range.start() && range.end() <= other.end()
}

impl<'a> Parts<'a> {
    /// The linked record of a message.
    pub(crate) fn message_record(
        self,
        message: &MessageDescriptorInner,
    ) -> Option<&'a DescriptorProto>
        ensures { option_copied result ≡ message_record (parts self.entry) message.now }
    {
        let file = self.files.get(message.id.file as usize)?;
        find_message_proto(&file.raw, message.id.path())
    }

    /// The ranges of numbers that a message reserves.
    #[tactic(auto, unfolding(crate::specs::Records::reserved_of))]
    pub(crate) fn reserved(self, message: &MessageDescriptorInner) -> &'a [ReservedRange]
        ensures { result.now ≡ reserved_of (parts self.entry) message.now }
    {
        match self.message_record(message) {
            Some(record) => record.reserved_range.as_slice(),
            None => &[],
        }
    }

    /// Whether a message keeps a number free of fields: it is reserved.
    pub(crate) fn is_kept_free(self, message: &MessageDescriptorInner, number: u32) -> bool
        ensures { result ≡ is_kept_free (parts self.entry) message.now number }
    {
        is_reserved(self.reserved(message), i64::from(number))
    }

    /// Whether a message reserves each number of a range, in one range of its own.
    pub(crate) fn keeps_range(self, message: &MessageDescriptorInner, range: &ReservedRange) -> bool
        ensures { result ≡ keeps_range (parts self.entry) message.now range.now }
    {
        let ranges = self.reserved(message);
        ranges.iter().any(|other| covers(range, other))
    }
}
