//! What a pool has at an index, and at a position there.

ghost use Rattle.std.specs.Prelude.{◌≡◌, IfSome, slice_get};
ghost use Rattle.std.specs.Option.{option_copied, option_map};
ghost use Rattle.field_rules.specs.NamesBegin.{BeginsAtBoundary};
ghost use Rattle.numbered_pool.specs.Items as spec;
ghost use Rattle.numbered_pool.specs.Numbers as numbers;

use crate::answers::Answers;
use crate::numbers::{
    EnumItem, ExtensionItem, FieldItem, FileItem, MessageItem, MethodItem, OneofItem, ServiceItem,
    ValueItem, enum_item, extension_item, field_item, file_item, message_item, method_item,
    oneof_item, service_item, value_item,
};
use descriptor_pool::DescriptorPool;
use pool_types::{
    EnumDescriptor, EnumValueDescriptor, EnumValueDescriptorInner, ExtensionDescriptor,
    FieldDescriptor, FieldDescriptorInner, FileDescriptor, MessageDescriptor, MethodDescriptor,
    MethodDescriptorInner, OneofDescriptor, OneofDescriptorInner, ServiceDescriptor,
};

/// The field at a position of a message.
pub(crate) fn field_at(
    pool: &DescriptorPool,
    message: u32,
    position: u32,
) -> Option<&FieldDescriptorInner>
    ensures item { option_copied result ≡ spec.field_at pool.now message position }
    ensures name { IfSome result (λ f. BeginsAtBoundary f.now.id) }
{
    pool.field(FieldDescriptor::new(MessageDescriptor::new(message), position))
}

/// The oneof at a position of a message.
pub(crate) fn oneof_at(
    pool: &DescriptorPool,
    message: u32,
    position: u32,
) -> Option<&OneofDescriptorInner>
    ensures item { option_copied result ≡ spec.oneof_at pool.now message position }
    ensures name { IfSome result (λ o. BeginsAtBoundary o.now.id) }
{
    pool.oneof(OneofDescriptor::new(MessageDescriptor::new(message), position))
}

/// The value at a position of an enum.
pub(crate) fn value_at(
    pool: &DescriptorPool,
    enumeration: u32,
    position: u32,
) -> Option<&EnumValueDescriptorInner>
    ensures item { option_copied result ≡ spec.value_at pool.now enumeration position }
    ensures name { IfSome result (λ v. BeginsAtBoundary v.now.id) }
{
    pool.value(EnumValueDescriptor::new(EnumDescriptor::new(enumeration), position))
}

/// The method at a position of a service.
pub(crate) fn method_at(
    pool: &DescriptorPool,
    service: u32,
    position: u32,
) -> Option<&MethodDescriptorInner>
    ensures item { option_copied result ≡ spec.method_at pool.now service position }
    ensures name { IfSome result (λ m. BeginsAtBoundary m.now.id) }
{
    pool.method(MethodDescriptor::new(ServiceDescriptor::new(service), position))
}

impl Answers {
    /// The file with an index, or none past the end.
    pub fn file(&self, index: u32) -> Option<FileItem>
        ensures { result ≡ option_map numbers.file_item (slice_get self.now.pool.files index) }
    {
        Some(file_item(self.pool.file(FileDescriptor::new(index))?))
    }

    /// The message with an index, or none past the end.
    pub fn message(&self, index: u32) -> Option<MessageItem>
        ensures { result
            ≡ option_map (numbers.message_item self.now.pool)
            (slice_get self.now.pool.messages index) }
    {
        Some(message_item(
            &self.pool,
            self.pool.message(MessageDescriptor::new(index))?,
        ))
    }

    /// The field at a position of a message, or none where either is past the end.
    pub fn field(&self, message: u32, position: u32) -> Option<FieldItem>
        ensures { result
            ≡ option_map (numbers.field_item self.now.pool)
            (spec.field_at self.now.pool message position) }
    {
        Some(field_item(&self.pool, field_at(&self.pool, message, position)?))
    }

    /// The oneof at a position of a message, or none where either is past the end.
    pub fn oneof(&self, message: u32, position: u32) -> Option<OneofItem>
        ensures { result ≡ spec.oneof_item self.now.pool message position }
    {
        let message = self.pool.message(MessageDescriptor::new(message))?;
        let oneof = message.oneofs.as_slice().get(position as usize)?;
        Some(oneof_item(&self.pool, message.fields.as_slice(), oneof))
    }

    /// The enum with an index, or none past the end.
    pub fn enumeration(&self, index: u32) -> Option<EnumItem>
        ensures { result ≡ option_map (numbers.enum_item self.now.pool)
            (slice_get self.now.pool.enums index) }
    {
        Some(enum_item(&self.pool, self.pool.enum_(EnumDescriptor::new(index))?))
    }

    /// The value at a position of an enum, or none where either is past the end.
    pub fn value(&self, enumeration: u32, position: u32) -> Option<ValueItem>
        ensures { result
            ≡ option_map (numbers.value_item self.now.pool)
            (spec.value_at self.now.pool enumeration position) }
    {
        Some(value_item(&self.pool, value_at(&self.pool, enumeration, position)?))
    }

    /// The service with an index, or none past the end.
    pub fn service(&self, index: u32) -> Option<ServiceItem>
        ensures { result
            ≡ option_map (numbers.service_item self.now.pool)
            (slice_get self.now.pool.services index) }
    {
        Some(service_item(
            &self.pool,
            self.pool.service(ServiceDescriptor::new(index))?,
        ))
    }

    /// The method at a position of a service, or none where either is past the end.
    pub fn method(&self, service: u32, position: u32) -> Option<MethodItem>
        ensures { result
            ≡ option_map (numbers.method_item self.now.pool)
            (spec.method_at self.now.pool service position) }
    {
        Some(method_item(&self.pool, method_at(&self.pool, service, position)?))
    }

    /// The extension with an index, or none past the end.
    pub fn extension(&self, index: u32) -> Option<ExtensionItem>
        ensures { result
            ≡ option_map (numbers.extension_item self.now.pool)
            (slice_get self.now.pool.extensions index) }
    {
        Some(extension_item(
            &self.pool,
            self.pool.extension(ExtensionDescriptor::new(index))?,
        ))
    }

    /// The index of the file that a file imports at a position, or none where either is past the
    /// end.
    pub fn import(&self, file: u32, position: u32) -> Option<u32>
        ensures { result ≡ spec.import_at self.now.pool file position }
    {
        let file = self.pool.file(FileDescriptor::new(file))?;
        file.dependencies.as_slice().get(position as usize).copied()
    }

    /// The index of an extension of a message, by the position in the rising list of all that
    /// extend it, or none where either is past the end.
    pub fn message_extension(&self, message: u32, position: u32) -> Option<u32>
        ensures { result ≡ spec.extension_at self.now.pool message position }
    {
        let message = self.pool.message(MessageDescriptor::new(message))?;
        message
            .extensions
            .as_slice()
            .get(position as usize)
            .copied()
    }

    /// The position in its message of a field of a oneof, by the position in the rising list of all
    /// that the oneof has, or none where any of the three is past the end.
    pub fn oneof_field(&self, message: u32, oneof: u32, position: u32) -> Option<u32>
        ensures { result ≡ spec.oneof_field_at self.now.pool message oneof position }
    {
        let oneof = oneof_at(&self.pool, message, oneof)?;
        oneof.fields.as_slice().get(position as usize).copied()
    }
}
