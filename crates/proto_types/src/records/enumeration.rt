ghost use Rattle.std.specs.Prelude.{◌≡◌, IfOk};
ghost use Rattle.proto_types.specs.Enumeration.{no_enum, no_enum_range, no_value};
ghost use Rattle.proto_types.specs.Readers.{text_of, number_of};

use super::options::{EnumOptions, Options, Unread};
use crate::text;
use plain_data::{Duplicate, Items, Text, duplicate_option};
use std::alloc::{AllocError, Global};

/// An enum type.
#[derive(PartialEq, Drop)]
pub struct EnumDescriptorProto {
    pub name: Option<Text>,
    pub value: Items<EnumValueDescriptorProto>,
    pub options: Option<Options<EnumOptions>>,
    pub reserved_range: Items<EnumReservedRange>,
    pub reserved_name: Items<Text>,
}

/// Numbers that no value may have, from `start` through `end`.
#[derive(PartialEq, Drop)]
pub struct EnumReservedRange {
    pub start: Option<i32>,
    pub end: Option<i32>,
}

/// A value of an enum.
#[derive(PartialEq, Drop)]
pub struct EnumValueDescriptorProto {
    pub name: Option<Text>,
    pub number: Option<i32>,
    pub options: Option<Options<Unread>>,
}

impl EnumDescriptorProto {
    /// An enum with all parts absent or empty, which takes no memory.
    pub fn empty(alloc: Global) -> EnumDescriptorProto
        ensures { result ≡ no_enum }
    {
        EnumDescriptorProto {
            name: None,
            value: Items::new(alloc),
            options: None,
            reserved_range: Items::new(alloc),
            reserved_name: Items::new(alloc),
        }
    }

    /// The enum's name; where it is missing, the empty text.
    pub fn name(&self) -> &str
        ensures { result.now ≡ text_of self.now.name }
    {
        text::or_empty(&self.name)
    }

    /// An equal enum.
    ///
    /// # Errors
    /// `AllocError` where memory was refused.
    pub fn clone(&self, alloc: Global) -> Result<EnumDescriptorProto, AllocError>
        ensures { IfOk result (λ copy. copy ≡ self.now) }
    {
        Ok(EnumDescriptorProto {
            name: duplicate_option(alloc, &self.name)?,
            value: self.value.clone(alloc)?,
            options: duplicate_option(alloc, &self.options)?,
            reserved_range: self.reserved_range.clone(alloc)?,
            reserved_name: self.reserved_name.clone(alloc)?,
        })
    }
}

impl EnumReservedRange {
    /// A range with all parts absent, which takes no memory.
    pub fn empty(_alloc: Global) -> EnumReservedRange
        ensures { result ≡ no_enum_range }
    {
        EnumReservedRange {
            start: None,
            end: None,
        }
    }

    /// The first number; where it is missing, 0.
    pub fn start(&self) -> i32
        ensures { result ≡ number_of self.now.start }
    {
        self.start.unwrap_or(0)
    }

    /// The last number; where it is missing, 0.
    pub fn end(&self) -> i32
        ensures { result ≡ number_of self.now.«end» }
    {
        self.end.unwrap_or(0)
    }

    /// An equal range.
    ///
    /// # Errors
    /// `AllocError` where memory was refused.
    pub fn clone(&self, alloc: Global) -> Result<EnumReservedRange, AllocError>
        ensures { IfOk result (λ copy. copy ≡ self.now) }
    {
        Ok(EnumReservedRange {
            start: self.start,
            end: self.end,
        })
    }
}

impl EnumValueDescriptorProto {
    /// A value with all parts absent, which takes no memory.
    pub fn empty(_alloc: Global) -> EnumValueDescriptorProto
        ensures { result ≡ no_value }
    {
        EnumValueDescriptorProto {
            name: None,
            number: None,
            options: None,
        }
    }

    /// The value's name; where it is missing, the empty text.
    pub fn name(&self) -> &str
        ensures { result.now ≡ text_of self.now.name }
    {
        text::or_empty(&self.name)
    }

    /// The value's number; where it is missing, 0.
    pub fn number(&self) -> i32
        ensures { result ≡ number_of self.now.number }
    {
        self.number.unwrap_or(0)
    }

    /// An equal value.
    ///
    /// # Errors
    /// `AllocError` where memory was refused.
    pub fn clone(&self, alloc: Global) -> Result<EnumValueDescriptorProto, AllocError>
        ensures { IfOk result (λ copy. copy ≡ self.now) }
    {
        Ok(EnumValueDescriptorProto {
            name: duplicate_option(alloc, &self.name)?,
            number: self.number,
            options: duplicate_option(alloc, &self.options)?,
        })
    }
}

impl Duplicate for EnumDescriptorProto {
    fn duplicate(&self, alloc: Global) -> Result<EnumDescriptorProto, AllocError> {
        self.clone(alloc)
    }
}

impl Duplicate for EnumReservedRange {
    fn duplicate(&self, alloc: Global) -> Result<EnumReservedRange, AllocError> {
        self.clone(alloc)
    }
}

impl Duplicate for EnumValueDescriptorProto {
    fn duplicate(&self, alloc: Global) -> Result<EnumValueDescriptorProto, AllocError> {
        self.clone(alloc)
    }
}
