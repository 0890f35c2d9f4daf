//! The items of a pool that rules look at.

ghost use Rattle.std.specs.Prelude.{◌≡◌, slice_get};
ghost use Rattle.std.specs.Option.{option_copied};
ghost use Rattle.protoc_rules.specs.Linked as spec;

use pool_types::{
    EnumDescriptorInner, ExtensionDescriptorInner, FileDescriptorInner, Identity, KindIndex,
    MessageDescriptorInner, ServiceDescriptorInner, Syntax,
};
use proto_types::{DescriptorProto, EnumDescriptorProto, FieldDescriptorProto};
use record_lists::{find_enum_proto, find_field_proto, find_message_proto};

/// The items of a pool that rules look at.
#[derive(Clone, Copy)]
pub struct Linked<'a> {
    pub files: &'a [FileDescriptorInner],
    pub messages: &'a [MessageDescriptorInner],
    pub enums: &'a [EnumDescriptorInner],
    pub services: &'a [ServiceDescriptorInner],
    pub extensions: &'a [ExtensionDescriptorInner],
}

/// A message of a pool, with its linked record.
#[derive(Clone, Copy)]
pub(crate) struct Recorded<'a> {
    pub message: &'a MessageDescriptorInner,
    pub record: &'a DescriptorProto,
}

impl<'a> Linked<'a> {
    /// Whether a file is one of proto3.
    pub(crate) fn in_proto3(self, file: u32) -> bool
        ensures { result ≡ spec.in_proto3 (spec.linked self.entry) file }
    {
        match self.files.get(file as usize) {
            Some(file) => matches!(file.syntax, Syntax::Proto3),
            None => false,
        }
    }

    /// The linked record of a field or an extension.
    pub(crate) fn field_record(self, id: &Identity) -> Option<&'a FieldDescriptorProto>
        ensures { option_copied result ≡ spec.field_record (spec.linked self.entry) id.now }
    {
        let file = self.files.get(id.file as usize)?;
        find_field_proto(&file.raw, id.path())
    }

    /// The linked record of a message.
    pub(crate) fn message_record(self, id: &Identity) -> Option<&'a DescriptorProto>
        ensures { option_copied result ≡ spec.message_record (spec.linked self.entry) id.now }
    {
        let file = self.files.get(id.file as usize)?;
        find_message_proto(&file.raw, id.path())
    }

    /// The linked record of an enum.
    pub(crate) fn enum_record(self, id: &Identity) -> Option<&'a EnumDescriptorProto>
        ensures { option_copied result ≡ spec.enum_record (spec.linked self.entry) id.now }
    {
        let file = self.files.get(id.file as usize)?;
        find_enum_proto(&file.raw, id.path())
    }

    /// Whether a kind is an enum of a file that is not of proto3.
    pub(crate) fn is_closed(self, kind: KindIndex) -> bool
        ensures { result ≡ spec.is_closed (spec.linked self.entry) kind }
    {
        let KindIndex::Enum(index) = kind else {
            return false;
        };
        match self.enums.get(index as usize) {
            Some(found) => !self.in_proto3(found.id.file),
            None => false,
        }
    }

    /// The message with an index.
    pub(crate) fn message_at(self, index: u32) -> Option<&'a MessageDescriptorInner>
        ensures { option_copied result ≡ slice_get self.entry.messages.now index }
    {
        self.messages.get(index as usize)
    }
}
