ghost use Rattle.std.specs.Prelude.{◌≡◌, ◌≤ℤ◌, pos, IfOk};
ghost use Rattle.proto_types.specs.Readers.{text_of, number_of, flag_of, label_of, type_of};
ghost use Rattle.proto_types.specs.Field.{no_field};

use super::options::{FieldOptions, Options};
use crate::text;
use plain_data::{Duplicate, Text, duplicate_option};
use std::alloc::{AllocError, Global};

/// A field of a message, or an extension.
#[derive(PartialEq, Drop)]
pub struct FieldDescriptorProto {
    pub name: Option<Text>,
    /// The name of the message that an extension extends.
    pub extendee: Option<Text>,
    pub number: Option<i32>,
    pub label: Option<i32>,
    pub type_: Option<i32>,
    pub type_name: Option<Text>,
    pub default_value: Option<Text>,
    pub options: Option<Options<FieldOptions>>,
    /// The position of its oneof in its message, from 0.
    pub oneof_index: Option<i32>,
    pub json_name: Option<Text>,
    pub proto3_optional: Option<bool>,
}

/// How often a field stands in a message, by descriptor.proto's numbers.
#[derive(Clone, Copy, PartialEq, Debug)]
pub enum FieldLabel {
    Optional = 1,
    Required = 2,
    Repeated = 3,
}

/// The type of a field as it is written, by descriptor.proto's numbers.
#[derive(Clone, Copy, PartialEq, Debug)]
pub enum FieldType {
    Double = 1,
    Float = 2,
    Int64 = 3,
    Uint64 = 4,
    Int32 = 5,
    Fixed64 = 6,
    Fixed32 = 7,
    Bool = 8,
    String = 9,
    Group = 10,
    Message = 11,
    Bytes = 12,
    Uint32 = 13,
    Enum = 14,
    Sfixed32 = 15,
    Sfixed64 = 16,
    Sint32 = 17,
    Sint64 = 18,
}

impl FieldLabel {
    ghost use Rattle.std.specs.Prelude.{Some};

    /// The label's number in descriptor.proto, from 1 to 3, which a field's record has.
    pub fn number(self) -> i32
        ensures reads { label_of (Some result) ≡ self }
        ensures known { (pos 1 ≤ℤ result) × (result ≤ℤ pos 3) }
    {
        self as i32
    }
}

impl FieldType {
    ghost use Rattle.std.specs.Prelude.{Some};

    /// The type's number in descriptor.proto, from 1 to 18, which a field's record has.
    pub fn number(self) -> i32
        ensures reads { type_of (Some result) ≡ self }
        ensures known { (pos 1 ≤ℤ result) × (result ≤ℤ pos 18) }
    {
        match self {
            FieldType::Double => 1,
            FieldType::Float => 2,
            FieldType::Int64 => 3,
            FieldType::Uint64 => 4,
            FieldType::Int32 => 5,
            FieldType::Fixed64 => 6,
            FieldType::Fixed32 => 7,
            FieldType::Bool => 8,
            FieldType::String => 9,
            FieldType::Group => 10,
            FieldType::Message => 11,
            FieldType::Bytes => 12,
            FieldType::Uint32 => 13,
            FieldType::Enum => 14,
            FieldType::Sfixed32 => 15,
            FieldType::Sfixed64 => 16,
            FieldType::Sint32 => 17,
            FieldType::Sint64 => 18,
        }
    }
}

impl FieldDescriptorProto {
    /// A field with all parts absent, which takes no memory.
    pub fn empty(_alloc: Global) -> FieldDescriptorProto
        ensures { result ≡ no_field }
    {
        FieldDescriptorProto {
            name: None,
            extendee: None,
            number: None,
            label: None,
            type_: None,
            type_name: None,
            default_value: None,
            options: None,
            oneof_index: None,
            json_name: None,
            proto3_optional: None,
        }
    }

    /// The field's name; where it is missing, the empty text.
    pub fn name(&self) -> &str
        ensures { result.now ≡ text_of self.now.name }
    {
        text::or_empty(&self.name)
    }

    /// The field's number; where it is missing, 0.
    pub fn number(&self) -> i32
        ensures { result ≡ number_of self.now.number }
    {
        self.number.unwrap_or(0)
    }

    /// The label by descriptor.proto's numbers; where it is missing or unknown, optional.
    pub fn label(&self) -> FieldLabel
        ensures { result ≡ label_of self.now.label }
    {
        match self.label {
            Some(2) => FieldLabel::Required,
            Some(3) => FieldLabel::Repeated,
            _ => FieldLabel::Optional,
        }
    }

    /// The written type by descriptor.proto's numbers; where it is missing or unknown, double.
    pub fn field_type(&self) -> FieldType
        ensures { result ≡ type_of self.now.type_ }
    {
        match self.type_ {
            Some(2) => FieldType::Float,
            Some(3) => FieldType::Int64,
            Some(4) => FieldType::Uint64,
            Some(5) => FieldType::Int32,
            Some(6) => FieldType::Fixed64,
            Some(7) => FieldType::Fixed32,
            Some(8) => FieldType::Bool,
            Some(9) => FieldType::String,
            Some(10) => FieldType::Group,
            Some(11) => FieldType::Message,
            Some(12) => FieldType::Bytes,
            Some(13) => FieldType::Uint32,
            Some(14) => FieldType::Enum,
            Some(15) => FieldType::Sfixed32,
            Some(16) => FieldType::Sfixed64,
            Some(17) => FieldType::Sint32,
            Some(18) => FieldType::Sint64,
            _ => FieldType::Double,
        }
    }

    /// The name of the message or enum that is the field's type; where it is missing, the empty
    /// text.
    pub fn type_name(&self) -> &str
        ensures { result.now ≡ text_of self.now.type_name }
    {
        text::or_empty(&self.type_name)
    }

    /// The name of the message that an extension extends; where it is missing, the empty text.
    pub fn extendee(&self) -> &str
        ensures { result.now ≡ text_of self.now.extendee }
    {
        text::or_empty(&self.extendee)
    }

    /// The name in JSON; where it is missing, the empty text.
    pub fn json_name(&self) -> &str
        ensures { result.now ≡ text_of self.now.json_name }
    {
        text::or_empty(&self.json_name)
    }

    /// Whether the field is optional by word in proto3; where it is missing, false.
    pub fn proto3_optional(&self) -> bool
        ensures { result ≡ flag_of self.now.proto3_optional }
    {
        self.proto3_optional.unwrap_or(false)
    }

    /// An equal field.
    ///
    /// # Errors
    /// `AllocError` where memory was refused.
    pub fn clone(&self, alloc: Global) -> Result<FieldDescriptorProto, AllocError>
        ensures { IfOk result (λ copy. copy ≡ self.now) }
    {
        Ok(FieldDescriptorProto {
            name: duplicate_option(alloc, &self.name)?,
            extendee: duplicate_option(alloc, &self.extendee)?,
            number: self.number,
            label: self.label,
            type_: self.type_,
            type_name: duplicate_option(alloc, &self.type_name)?,
            default_value: duplicate_option(alloc, &self.default_value)?,
            options: duplicate_option(alloc, &self.options)?,
            oneof_index: self.oneof_index,
            json_name: duplicate_option(alloc, &self.json_name)?,
            proto3_optional: self.proto3_optional,
        })
    }
}

impl Duplicate for FieldDescriptorProto {
    fn duplicate(&self, alloc: Global) -> Result<FieldDescriptorProto, AllocError> {
        self.clone(alloc)
    }
}
