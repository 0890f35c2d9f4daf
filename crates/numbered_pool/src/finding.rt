//! What a pool has under names and numbers.

ghost use Rattle.std.specs.Prelude.{◌≡◌, IfOk, IsNone, IsUtf8, MatchOption};
ghost use Rattle.std.specs.FinMap as finite;
ghost use Rattle.std.specs.Option.{option_copied, option_map};
ghost use Rattle.pool_types.specs.Extension.{extension_numbered};
ghost use Rattle.pool_contents.specs.LookUps.{definition_named};
ghost use Rattle.record_walk.specs.Counts.{counts_in};
ghost use Rattle.numbered_pool.specs.Items as spec;
ghost use Rattle.numbered_pool.specs.Numbers as numbers;

use crate::answers::Answers;
use crate::numbers::{Found, PoolCounts, found_item, part_position, pool_counts};
use pool_types::{
    Definition, DefinitionKind, EnumDescriptor, MessageDescriptor, ServiceDescriptor,
};
use proto_types::join;
use std::alloc::{AllocError, Global};
use std::str;

/// Bytes as a text, where they are one.
fn text_of(bytes: &[u8]) -> Option<&str>
    ensures { MatchOption result (¬ (IsUtf8 bytes.now))
        (λ text. (text.now ≡ bytes.now) × IsUtf8 bytes.now) }
{
    str::from_utf8(bytes).ok()
}

/// The position that stands first beside a number.
fn first_numbered(numbers: &[(i32, u32)], number: i32) -> Option<u32>
    ensures { result ≡ spec.first_numbered numbers.now number }
{
    Some(numbers.iter().find(|value| value.0 == number)?.1)
}

/// The position of a method, where a definition is a method of the service with an index.
fn method_of(service: u32, definition: &Definition) -> Option<u32>
    ensures { result ≡ spec.method_of service definition.now }
{
    match definition.kind {
        DefinitionKind::Method(holder) if holder == service => {
            Some(part_position(definition.path.as_slice()))
        }
        _ => None,
    }
}

impl Answers {
    /// How many of each kind the pool has.
    pub fn counts(&self) -> PoolCounts
        ensures { result ≡ numbers.pool_counts (counts_in self.now.pool) }
    {
        pool_counts(self.pool.counts())
    }

    /// What a full name means, which may have one leading dot; nothing where the pool has no such
    /// name, or the bytes are no text.
    pub fn find(&self, name: &[u8]) -> Option<Found>
        ensures text { IsUtf8 name.now → result
            ≡ option_map numbers.found_item (definition_named self.now.pool name.now) }
        ensures no_text { ¬ (IsUtf8 name.now) → IsNone result }
    {
        Some(found_item(self.pool.get_by_name(text_of(name)?)?))
    }

    /// The path of what a full name means, in the record of its file, and behind it the number of
    /// the name there. Nothing is found where `find` finds nothing.
    pub fn find_path(&self, name: &[u8]) -> Option<&[i32]>
        ensures text { IsUtf8 name.now → option_copied result
            ≡ option_map (λ d. d.path) (definition_named self.now.pool name.now) }
        ensures no_text { ¬ (IsUtf8 name.now) → IsNone result }
    {
        Some(self.pool.get_by_name(text_of(name)?)?.path.as_slice())
    }

    /// The index of the extension of a message that has a field number, or none where there is
    /// none, or the index of the message is past the end.
    pub fn extension_numbered(&self, message: u32, number: u32) -> Option<u32>
        ensures { result ≡ extension_numbered self.now.pool.extensions message number }
    {
        let message = MessageDescriptor::new(message);
        Some(self.pool.get_extension(message, number)?.index())
    }

    /// The position of the field of a message that has a field number, or none where there is none,
    /// or the index is past the end.
    pub fn field_numbered(&self, message: u32, number: u32) -> Option<u32>
        ensures { result ≡ spec.field_numbered self.now.pool message number }
    {
        let message = self.pool.message(MessageDescriptor::new(message))?;
        message.field_numbers.get(number)
    }

    /// The position of the field of a message that has a name, without its scope; none where there
    /// is none, the index is past the end, or the bytes are no text.
    pub fn field_named(&self, message: u32, name: &[u8]) -> Option<u32>
        ensures text { IsUtf8 name.now → result
            ≡ spec.field_named self.now.pool message name.now }
        ensures no_text { ¬ (IsUtf8 name.now) → IsNone result }
    {
        let name = text_of(name)?;
        let message = self.pool.message(MessageDescriptor::new(message))?;
        message.field_names.get(name)
    }

    /// The position of the field of a message that was given a JSON name; none where there is none,
    /// the index is past the end, or the bytes are no text.
    pub fn field_json_named(&self, message: u32, name: &[u8]) -> Option<u32>
        ensures text { IsUtf8 name.now → result
            ≡ spec.field_json_named self.now.pool message name.now }
        ensures no_text { ¬ (IsUtf8 name.now) → IsNone result }
    {
        let name = text_of(name)?;
        let message = self.pool.message(MessageDescriptor::new(message))?;
        message.field_json_names.get(name)
    }

    /// The position of the value of an enum that has a name, without its scope; none where there is
    /// none, the index is past the end, or the bytes are no text.
    pub fn value_named(&self, enumeration: u32, name: &[u8]) -> Option<u32>
        ensures text { IsUtf8 name.now → result
            ≡ spec.value_named self.now.pool enumeration name.now }
        ensures no_text { ¬ (IsUtf8 name.now) → IsNone result }
    {
        let name = text_of(name)?;
        let enumeration = self.pool.enum_(EnumDescriptor::new(enumeration))?;
        enumeration.value_names.get(name)
    }

    /// The index of the file that has a name; none where the pool has no such file, or the bytes
    /// are no text.
    pub fn file_named(&self, name: &[u8]) -> Option<u32>
        ensures text { IsUtf8 name.now → result ≡ finite.get self.now.pool.file_names name.now }
        ensures no_text { ¬ (IsUtf8 name.now) → IsNone result }
    {
        Some(self.pool.get_file_by_name(text_of(name)?)?.index())
    }

    /// The position of the first value of an enum that has a number; none where there is none, or
    /// the index is past the end.
    pub fn value_numbered(&self, enumeration: u32, number: i32) -> Option<u32>
        ensures { result ≡ spec.value_numbered self.now.pool enumeration number }
    {
        let enumeration = self.pool.enum_(EnumDescriptor::new(enumeration))?;
        first_numbered(enumeration.value_numbers.as_slice(), number)
    }

    /// The position of the method of a service that has a name, without its scope; none where there
    /// is none, the index is past the end, or the bytes are no text.
    ///
    /// # Errors
    /// `AllocError` where memory was refused.
    pub fn method_named(
        &self,
        alloc: Global,
        service: u32,
        name: &[u8],
    ) -> Result<Option<u32>, AllocError>
        ensures text { IsUtf8 name.now → IfOk result (λ found. found
            ≡ spec.method_named self.now.pool service name.now) }
        ensures no_text { ¬ (IsUtf8 name.now) → IfOk result (λ found. IsNone found) }
    {
        let Some(name) = text_of(name) else {
            return Ok(None);
        };
        let Some(found) = self.pool.service(ServiceDescriptor::new(service)) else {
            return Ok(None);
        };
        let full_name = join(alloc, found.id.full_name(), name)?;
        match self.pool.get_by_name(full_name.as_str()) {
            Some(definition) => Ok(method_of(service, definition)),
            None => Ok(None),
        }
    }
}
