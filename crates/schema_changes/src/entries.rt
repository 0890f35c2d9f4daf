//! The entries of a message: its fields, and the extensions of it.

ghost use Rattle.std.specs.Prelude.{◌≡◌};
ghost use Rattle.schema_changes.specs.Parts.{parts};
ghost use Rattle.schema_changes.specs.Entries.{field_entry, extension_entry, extension_at};
ghost use Rattle.schema_changes.specs.Entries.{extension_in, entry_numbered};

use crate::Parts;
use pool_types::{
    Cardinality, ExtensionDescriptorInner, FieldDescriptorInner, KindIndex, MessageDescriptorInner,
};

/// A field or an extension of a message, as far as bytes are read by it.
#[derive(Clone, Copy)]
pub struct Entry {
    /// The index of its file.
    pub file: u32,
    pub number: u32,
    pub kind: KindIndex,
    pub cardinality: Cardinality,
    /// The position of its oneof in the message.
    pub oneof: Option<u32>,
}

/// The entry of a field.
pub fn field_entry(field: &FieldDescriptorInner) -> Entry
    ensures { result ≡ field_entry field.now }
{
    Entry {
        file: field.id.file,
        number: field.number,
        kind: field.kind,
        cardinality: field.cardinality,
        oneof: field.oneof,
    }
}

/// The entry of an extension, which is in no oneof.
pub fn extension_entry(extension: &ExtensionDescriptorInner) -> Entry
    ensures { result ≡ extension_entry extension.now }
{
    Entry {
        file: extension.id.file,
        number: extension.number,
        kind: extension.kind,
        cardinality: extension.cardinality,
        oneof: None,
    }
}

impl Parts<'_> {
    /// The entry of the extension with an index, if there is one.
    fn extension_at(self, index: u32) -> Option<Entry>
        ensures { result ≡ extension_at (parts self.entry) index }
    {
        match self.extensions.get(index as usize) {
            Some(extension) => Some(extension_entry(extension)),
            None => None,
        }
    }

    /// The entry of an extension of a message with an index, unless a field has its number.
    pub(crate) fn extension_in(self, message: &MessageDescriptorInner, index: u32) -> Option<Entry>
        ensures { result ≡ extension_in (parts self.entry) message.now index }
    {
        let entry = self.extension_at(index)?;
        match message.get_field(entry.number) {
            Some(_) => None,
            None => Some(entry),
        }
    }

    /// The entry of a message with a number: a field, or else an extension.
    #[tactic(auto, unfolding(crate::specs::Entries::entry_numbered))]
    pub fn entry_numbered(self, message: &MessageDescriptorInner, number: u32) -> Option<Entry>
        ensures { result ≡ entry_numbered (parts self.entry) message.now number }
    {
        match message.get_field(number) {
            Some(field) => Some(field_entry(field)),
            None => self.extension_at(message.extension_numbers.get(number)?),
        }
    }
}
