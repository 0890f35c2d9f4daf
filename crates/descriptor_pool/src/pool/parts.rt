//! What a pool has for the descriptors of parts: of fields, oneofs, values and methods.

ghost use Rattle.std.specs.Prelude.{◌≡◌, IfSome};
ghost use Rattle.std.specs.Option.{option_copied};
ghost use Rattle.field_rules.specs.NamesBegin.{BeginsAtBoundary};
ghost use Rattle.descriptor_pool.specs.Readers.{field_at, oneof_at, value_at, method_at};

use super::DescriptorPool;
use pool_types::{
    EnumValueDescriptor, EnumValueDescriptorInner, FieldDescriptor, FieldDescriptorInner,
    MethodDescriptor, MethodDescriptorInner, OneofDescriptor, OneofDescriptorInner,
};

impl DescriptorPool {
    /// The field of a descriptor, or none where its message or its position is past the end. Its
    /// name begins in the full name where a character begins.
    pub fn field(&self, field: FieldDescriptor) -> Option<&FieldDescriptorInner>
        ensures item { option_copied result ≡ field_at self.now field }
        ensures name { IfSome result (λ f. BeginsAtBoundary f.now.id) }
    {
        let message = self.message(field.parent())?;
        message.fields.as_slice().get(field.index() as usize)
    }

    /// The oneof of a descriptor, or none where its message or its position is past the end. Its
    /// name begins in the full name where a character begins.
    pub fn oneof(&self, oneof: OneofDescriptor) -> Option<&OneofDescriptorInner>
        ensures item { option_copied result ≡ oneof_at self.now oneof }
        ensures name { IfSome result (λ o. BeginsAtBoundary o.now.id) }
    {
        let message = self.message(oneof.parent())?;
        message.oneofs.as_slice().get(oneof.index() as usize)
    }

    /// The value of a descriptor, or none where its enum or its position is past the end. Its name
    /// begins in the full name where a character begins.
    pub fn value(&self, value: EnumValueDescriptor) -> Option<&EnumValueDescriptorInner>
        ensures item { option_copied result ≡ value_at self.now value }
        ensures name { IfSome result (λ v. BeginsAtBoundary v.now.id) }
    {
        let enumeration = self.enum_(value.parent())?;
        enumeration.values.as_slice().get(value.index() as usize)
    }

    /// The method of a descriptor, or none where its service or its position is past the end. Its
    /// name begins in the full name where a character begins.
    pub fn method(&self, method: MethodDescriptor) -> Option<&MethodDescriptorInner>
        ensures item { option_copied result ≡ method_at self.now method }
        ensures name { IfSome result (λ m. BeginsAtBoundary m.now.id) }
    {
        let service = self.service(method.parent())?;
        service.methods.as_slice().get(method.index() as usize)
    }
}
