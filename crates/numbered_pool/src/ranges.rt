//! What messages and enums reserve, and what messages leave to extensions.

ghost use Rattle.std.specs.Prelude.{◌≡◌};
ghost use Rattle.std.specs.Option.{option_copied};
ghost use Rattle.numbered_pool.specs.Ranges as spec;

use crate::answers::Answers;
use crate::numbers::NumberRange;
use descriptor_pool::DescriptorPool;
use pool_types::{EnumDescriptor, MessageDescriptor};
use proto_types::{DescriptorProto, EnumDescriptorProto};
use record_lists::{enum_record, message_record};

/// The record of the message with an index.
fn message_record_at(pool: &DescriptorPool, message: u32) -> Option<&DescriptorProto>
    ensures { option_copied result ≡ spec.message_record_at pool.now message }
{
    let message = pool.message(MessageDescriptor::new(message))?;
    message_record(pool.files(), &message.id)
}

/// The record of the enum with an index.
fn enum_record_at(pool: &DescriptorPool, enumeration: u32) -> Option<&EnumDescriptorProto>
    ensures { option_copied result ≡ spec.enum_record_at pool.now enumeration }
{
    let enumeration = pool.enum_(EnumDescriptor::new(enumeration))?;
    enum_record(pool.files(), &enumeration.id)
}

impl Answers {
    /// The range at a position among those that a message leaves to extensions, or none where
    /// either is past the end.
    pub fn extension_range(&self, message: u32, position: u32) -> Option<NumberRange>
        ensures { result ≡ spec.extension_range_at self.now.pool message position }
    {
        let ranges = &message_record_at(&self.pool, message)?.extension_range;
        let range = ranges.as_slice().get(position as usize)?;
        Some(NumberRange {
            start: range.start(),
            end: range.end(),
        })
    }

    /// The range at a position among those that a message reserves, or none where either is past
    /// the end.
    pub fn message_range(&self, message: u32, position: u32) -> Option<NumberRange>
        ensures { result ≡ spec.message_range_at self.now.pool message position }
    {
        let ranges = &message_record_at(&self.pool, message)?.reserved_range;
        let range = ranges.as_slice().get(position as usize)?;
        Some(NumberRange {
            start: range.start(),
            end: range.end(),
        })
    }

    /// The range at a position among those that an enum reserves, or none where either is past the
    /// end.
    pub fn enum_range(&self, enumeration: u32, position: u32) -> Option<NumberRange>
        ensures { result ≡ spec.enum_range_at self.now.pool enumeration position }
    {
        let ranges = &enum_record_at(&self.pool, enumeration)?.reserved_range;
        let range = ranges.as_slice().get(position as usize)?;
        Some(NumberRange {
            start: range.start(),
            end: range.end(),
        })
    }

    /// The name at a position among those that a message reserves, or none where either is past the
    /// end.
    pub fn message_reserved_name(&self, message: u32, position: u32) -> Option<&str>
        ensures { option_copied result ≡ spec.message_name_at self.now.pool message position }
    {
        let names = &message_record_at(&self.pool, message)?.reserved_name;
        Some(names.as_slice().get(position as usize)?.as_str())
    }

    /// The name at a position among those that an enum reserves, or none where either is past the
    /// end.
    pub fn enum_reserved_name(&self, enumeration: u32, position: u32) -> Option<&str>
        ensures { option_copied result ≡ spec.enum_name_at self.now.pool enumeration position }
    {
        let names = &enum_record_at(&self.pool, enumeration)?.reserved_name;
        Some(names.as_slice().get(position as usize)?.as_str())
    }
}
