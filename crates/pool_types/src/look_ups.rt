//! What is looked up in an item: a field, a value or a method.

ghost use Rattle.std.specs.Prelude.{◌≡◌, slice_get};
ghost use Rattle.std.specs.Option.{option_copied, option_and_then};
ghost use Rattle.std.specs.Str.{bytes_eq};
ghost use Rattle.pool_types.specs.LookUps.{declared_name, field_numbered, field_named};
ghost use Rattle.pool_types.specs.LookUps.{field_json_named, value_numbered, value_named};
ghost use Rattle.pool_types.specs.LookUps.{method_named};

use crate::contents::{
    EnumDescriptorInner, EnumValueDescriptorInner, FieldDescriptorInner, Identity,
    MessageDescriptorInner, MethodDescriptorInner, ServiceDescriptorInner,
};

impl MessageDescriptorInner {
    /// The field with a number, or none. Of two with one number, which no message of a pool has, it
    /// is the later one.
    pub fn get_field(&self, number: u32) -> Option<&FieldDescriptorInner>
        ensures { option_copied result ≡ field_numbered self.now number }
    {
        let position = self.field_numbers.get(number);
        entry(self.fields.as_slice(), position)
    }

    /// The field with a declared name, or none.
    pub fn get_field_by_name(&self, name: &str) -> Option<&FieldDescriptorInner>
        ensures { option_copied result ≡ field_named self.now name.now }
    {
        let position = self.field_names.get(name);
        entry(self.fields.as_slice(), position)
    }

    /// The field with a JSON name that it was given, or none. A field that was given none is not
    /// found.
    pub fn get_field_by_json_name(&self, name: &str) -> Option<&FieldDescriptorInner>
        ensures { option_copied result ≡ field_json_named self.now name.now }
    {
        let position = self.field_json_names.get(name);
        entry(self.fields.as_slice(), position)
    }
}

impl EnumDescriptorInner {
    /// The first value with a number, or none. It goes through the values.
    pub fn get_value(&self, number: i32) -> Option<&EnumValueDescriptorInner>
        ensures { option_copied result ≡ value_numbered self.now number }
    {
        let values = self.values.as_slice();
        values.iter().find(|value| value.number == number)
    }

    /// The value with a declared name, or none.
    pub fn get_value_by_name(&self, name: &str) -> Option<&EnumValueDescriptorInner>
        ensures { option_copied result ≡ value_named self.now name.now }
    {
        let position = self.value_names.get(name);
        entry(self.values.as_slice(), position)
    }
}

impl ServiceDescriptorInner {
    /// The first method with a declared name, or none. It goes through the methods.
    pub fn get_method_by_name(&self, name: &str) -> Option<&MethodDescriptorInner>
        ensures { option_copied result ≡ method_named self.now name.now }
    {
        let methods = self.methods.as_slice();
        methods.iter().find(|method| method.id.is_named(name))
    }
}

impl Identity {
    /// Whether it has a declared name.
    fn is_named(&self, name: &str) -> bool
        ensures { result ≡ bytes_eq (declared_name self.now) name.now }
    {
        let full_name = self.full_name.as_str().as_bytes();
        full_name.get(self.name_index..).unwrap_or(&[]) == name.as_bytes()
    }
}

/// The entry at a position, if there is one.
fn entry<T>(items: &[T], position: Option<u32>) -> Option<&T>
    ensures { option_copied result ≡ option_and_then (slice_get items.now) position }
{
    items.get(position? as usize)
}
