ghost use Rattle.std.specs.Prelude.{◌≡◌, IfOk};
ghost use Rattle.proto_types.specs.Message.{no_message, no_extension_range, no_reserved_range};
ghost use Rattle.proto_types.specs.Message.{no_oneof};
ghost use Rattle.proto_types.specs.Readers.{text_of, number_of};

use crate::{EnumDescriptorProto, FieldDescriptorProto, Options, Unread, or_empty};
use plain_data::{Duplicate, Items, Text, duplicate_option};
use std::alloc::{AllocError, Global};

/// A message type.
#[derive(PartialEq, Drop)]
pub struct DescriptorProto {
    pub name: Option<Text>,
    pub field: Items<FieldDescriptorProto>,
    pub nested_type: Items<DescriptorProto>,
    pub enum_type: Items<EnumDescriptorProto>,
    pub extension_range: Items<ExtensionRange>,
    pub extension: Items<FieldDescriptorProto>,
    pub options: Option<Options<Unread>>,
    pub oneof_decl: Items<OneofDescriptorProto>,
    pub reserved_range: Items<ReservedRange>,
    pub reserved_name: Items<Text>,
}

/// Numbers that a message leaves to extensions, from `start` up to `end`, which is not one of them.
#[derive(PartialEq, Drop)]
pub struct ExtensionRange {
    pub start: Option<i32>,
    pub end: Option<i32>,
    pub options: Option<Options<Unread>>,
}

/// Numbers that no field may have, from `start` up to `end`, which is not one of them.
#[derive(PartialEq, Drop)]
pub struct ReservedRange {
    pub start: Option<i32>,
    pub end: Option<i32>,
}

/// A oneof of a message.
#[derive(PartialEq, Drop)]
pub struct OneofDescriptorProto {
    pub name: Option<Text>,
    pub options: Option<Options<Unread>>,
}

impl DescriptorProto {
    ghost use Rattle.proto_types.specs.declared.message.DescriptorProto.{out-DescriptorProto};
    ghost use Rattle.proto_types.specs.declared.message.DescriptorProto.{roll-DescriptorProto};

    /// A message with all parts absent or empty, which takes no memory.
    pub fn empty(alloc: Global) -> DescriptorProto
        ensures { result ≡ no_message }
    {
        DescriptorProto {
            name: None,
            field: Items::new(alloc),
            nested_type: Items::new(alloc),
            enum_type: Items::new(alloc),
            extension_range: Items::new(alloc),
            extension: Items::new(alloc),
            options: None,
            oneof_decl: Items::new(alloc),
            reserved_range: Items::new(alloc),
            reserved_name: Items::new(alloc),
        }
    }

    /// The message's name; where it is missing, the empty text.
    pub fn name(&self) -> &str
        ensures { result.now ≡ text_of (out-DescriptorProto self.now).name }
    {
        or_empty(&self.name)
    }

    /// An equal message.
    ///
    /// # Errors
    /// `AllocError` where memory was refused.
    pub fn clone(&self, alloc: Global) -> Result<DescriptorProto, AllocError>
        ensures { IfOk result (λ copy. copy ≡ self.now) }
    {
        let field = self.field.clone(alloc)?;
        let mut nested_type = Items::new(alloc);
        for message in self.nested_type.as_slice() {
            nested_type.push(message.clone(alloc)?)?;
        }
        let extension = self.extension.clone(alloc)?;
        self.with_parts(alloc, field, nested_type, extension)
    }

    /// An equal message, but for its fields, its nested messages and its extensions, which are
    /// these.
    ///
    /// # Errors
    /// `AllocError` where memory was refused.
    fn with_parts(
        &self,
        alloc: Global,
        field: Items<FieldDescriptorProto>,
        nested_type: Items<DescriptorProto>,
        extension: Items<FieldDescriptorProto>,
    ) -> Result<DescriptorProto, AllocError>
        ensures { IfOk result (λ m. m ≡ roll-DescriptorProto (record (out-DescriptorProto self.now)
            { field = field; nested_type = nested_type; extension = extension })) }
    {
        Ok(DescriptorProto {
            name: duplicate_option(alloc, &self.name)?,
            field,
            nested_type,
            enum_type: self.enum_type.clone(alloc)?,
            extension_range: self.extension_range.clone(alloc)?,
            extension,
            options: duplicate_option(alloc, &self.options)?,
            oneof_decl: self.oneof_decl.clone(alloc)?,
            reserved_range: self.reserved_range.clone(alloc)?,
            reserved_name: self.reserved_name.clone(alloc)?,
        })
    }
}

impl ExtensionRange {
    /// A range with all parts absent, which takes no memory.
    pub fn empty(_alloc: Global) -> ExtensionRange
        ensures { result ≡ no_extension_range }
    {
        ExtensionRange {
            start: None,
            end: None,
            options: None,
        }
    }

    /// The first number that extensions may have; where it is missing, 0.
    pub fn start(&self) -> i32
        ensures { result ≡ number_of self.now.start }
    {
        self.start.unwrap_or(0)
    }

    /// The number behind the last that extensions may have; where it is missing, 0.
    pub fn end(&self) -> i32
        ensures { result ≡ number_of self.now.«end» }
    {
        self.end.unwrap_or(0)
    }

    /// An equal range.
    ///
    /// # Errors
    /// `AllocError` where memory was refused.
    pub fn clone(&self, alloc: Global) -> Result<ExtensionRange, AllocError>
        ensures { IfOk result (λ copy. copy ≡ self.now) }
    {
        Ok(ExtensionRange {
            start: self.start,
            end: self.end,
            options: duplicate_option(alloc, &self.options)?,
        })
    }
}

impl ReservedRange {
    /// A range with all parts absent, which takes no memory.
    pub fn empty(_alloc: Global) -> ReservedRange
        ensures { result ≡ no_reserved_range }
    {
        ReservedRange {
            start: None,
            end: None,
        }
    }

    /// The first number that no field may have; where it is missing, 0.
    pub fn start(&self) -> i32
        ensures { result ≡ number_of self.now.start }
    {
        self.start.unwrap_or(0)
    }

    /// The number behind the last that no field may have; where it is missing, 0.
    pub fn end(&self) -> i32
        ensures { result ≡ number_of self.now.«end» }
    {
        self.end.unwrap_or(0)
    }

    /// An equal range.
    ///
    /// # Errors
    /// `AllocError` where memory was refused.
    pub fn clone(&self, alloc: Global) -> Result<ReservedRange, AllocError>
        ensures { IfOk result (λ copy. copy ≡ self.now) }
    {
        Ok(ReservedRange {
            start: self.start,
            end: self.end,
        })
    }
}

impl OneofDescriptorProto {
    /// A oneof with all parts absent, which takes no memory.
    pub fn empty(_alloc: Global) -> OneofDescriptorProto
        ensures { result ≡ no_oneof }
    {
        OneofDescriptorProto {
            name: None,
            options: None,
        }
    }

    /// The oneof's name; where it is missing, the empty text.
    pub fn name(&self) -> &str
        ensures { result.now ≡ text_of self.now.name }
    {
        or_empty(&self.name)
    }

    /// An equal oneof.
    ///
    /// # Errors
    /// `AllocError` where memory was refused.
    pub fn clone(&self, alloc: Global) -> Result<OneofDescriptorProto, AllocError>
        ensures { IfOk result (λ copy. copy ≡ self.now) }
    {
        Ok(OneofDescriptorProto {
            name: duplicate_option(alloc, &self.name)?,
            options: duplicate_option(alloc, &self.options)?,
        })
    }
}

impl Duplicate for DescriptorProto {
    fn duplicate(&self, alloc: Global) -> Result<DescriptorProto, AllocError> {
        self.clone(alloc)
    }
}

impl Duplicate for ExtensionRange {
    fn duplicate(&self, alloc: Global) -> Result<ExtensionRange, AllocError> {
        self.clone(alloc)
    }
}

impl Duplicate for ReservedRange {
    fn duplicate(&self, alloc: Global) -> Result<ReservedRange, AllocError> {
        self.clone(alloc)
    }
}

impl Duplicate for OneofDescriptorProto {
    fn duplicate(&self, alloc: Global) -> Result<OneofDescriptorProto, AllocError> {
        self.clone(alloc)
    }
}
