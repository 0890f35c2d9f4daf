//! The texts of what a pool has.

ghost use Rattle.std.specs.Prelude.{◌≡◌, IfOk, IfSome, slice_get};
ghost use Rattle.std.specs.Option.{option_and_then, option_copied, option_map};
ghost use Rattle.proto_types.specs.Readers.{text_of};
ghost use Rattle.field_rules.specs.NamesBegin.{BeginsAtBoundary};
ghost use Rattle.numbered_pool.specs.Defaults.{default_bytes};
ghost use Rattle.numbered_pool.specs.Items as spec;

use crate::answers::Answers;
use crate::items::{field_at, method_at, oneof_at, value_at};
use crate::numbers::{Item, definition_kind};
use descriptor_pool::DescriptorPool;
use pool_types::{
    DefaultValue, DefinitionKind, EnumDescriptor, ExtensionDescriptor, FileDescriptor, Identity,
    MessageDescriptor, ServiceDescriptor,
};
use std::alloc::{AllocError, Global};

/// Where something is declared, and its name, by its kind and its position. Packages have none.
fn identity_at(pool: &DescriptorPool, position: u32, kind: DefinitionKind) -> Option<&Identity>
    ensures identity { option_copied result ≡ spec.identity_at pool.now position kind }
    ensures name { IfSome result (λ id. BeginsAtBoundary id.now) }
{
    match kind {
        DefinitionKind::Package => None,
        DefinitionKind::Message(index) => Some(&pool.message(MessageDescriptor::new(index))?.id),
        DefinitionKind::Field(message) => Some(&field_at(pool, message, position)?.id),
        DefinitionKind::Oneof(message) => Some(&oneof_at(pool, message, position)?.id),
        DefinitionKind::Service(index) => Some(&pool.service(ServiceDescriptor::new(index))?.id),
        DefinitionKind::Method(service) => Some(&method_at(pool, service, position)?.id),
        DefinitionKind::Enum(index) => Some(&pool.enum_(EnumDescriptor::new(index))?.id),
        DefinitionKind::EnumValue(enumeration) => Some(&value_at(pool, enumeration, position)?.id),
        DefinitionKind::Extension(index) => {
            Some(&pool.extension(ExtensionDescriptor::new(index))?.id)
        }
    }
}

/// Where an item is declared, and its name.
pub(crate) fn identity(pool: &DescriptorPool, item: Item) -> Option<&Identity>
    ensures identity { option_copied result ≡ spec.identity_of pool.now item }
    ensures name { IfSome result (λ id. BeginsAtBoundary id.now) }
{
    identity_at(pool, item.position, definition_kind(item)?)
}

/// The JSON name of a field that was given one.
fn field_json_name(pool: &DescriptorPool, message: u32, position: u32) -> Option<&str>
    ensures { option_copied result
        ≡ option_and_then (λ f. f.json_name) (spec.field_at pool.now message position) }
{
    Some(
        field_at(pool, message, position)?
            .json_name
            .as_ref()?
            .as_str(),
    )
}

/// The JSON name of a field or an extension, by its kind and its position.
fn json_name_at(pool: &DescriptorPool, position: u32, kind: DefinitionKind) -> Option<&str>
    ensures { option_copied result ≡ spec.json_name_at pool.now position kind }
{
    match kind {
        DefinitionKind::Field(message) => field_json_name(pool, message, position),
        DefinitionKind::Extension(index) => Some(
            pool.extension(ExtensionDescriptor::new(index))?
                .json_name
                .as_str(),
        ),
        _ => None,
    }
}

/// The default value of a field or an extension, by its kind and its position.
fn default_at(pool: &DescriptorPool, position: u32, kind: DefinitionKind) -> Option<&DefaultValue>
    ensures { option_copied result ≡ spec.default_at pool.now position kind }
{
    match kind {
        DefinitionKind::Field(message) => field_at(pool, message, position)?.default.as_ref(),
        DefinitionKind::Extension(index) => {
            let extension = pool.extension(ExtensionDescriptor::new(index))?;
            extension.default.as_ref()
        }
        _ => None,
    }
}

/// The default value of a field or an extension.
fn default_value(pool: &DescriptorPool, item: Item) -> Option<&DefaultValue>
    ensures { option_copied result ≡ spec.default_of pool.now item }
{
    default_at(pool, item.position, definition_kind(item)?)
}

/// A default value as bytes.
fn default_bytes(alloc: Global, value: &DefaultValue) -> Result<Vec<u8>, AllocError>
    ensures { IfOk result (λ v. v.items ≡ default_bytes value.now) }
{
    match value {
        DefaultValue::I32(number) => Ok(format!(in alloc; "{number}")?.into_bytes()),
        DefaultValue::I64(number) => Ok(format!(in alloc; "{number}")?.into_bytes()),
        DefaultValue::U32(number) => Ok(format!(in alloc; "{number}")?.into_bytes()),
        DefaultValue::U64(number) => Ok(format!(in alloc; "{number}")?.into_bytes()),
        DefaultValue::Bool(truth) => Ok(format!(in alloc; "{truth}")?.into_bytes()),
        DefaultValue::String(text) => Vec::from_slice(alloc, text.as_str().as_bytes()),
        DefaultValue::Bytes(bytes) => Vec::from_slice(alloc, bytes.as_slice()),
        DefaultValue::EnumNumber(number) => Ok(format!(in alloc; "{number}")?.into_bytes()),
        DefaultValue::FloatText(text) => Vec::from_slice(alloc, text.as_str().as_bytes()),
    }
}

impl Answers {
    /// The name of the file with an index, or none past the end.
    pub fn file_name(&self, index: u32) -> Option<&str>
        ensures { option_copied result
            ≡ option_map (λ f. text_of f.raw.name) (slice_get self.now.pool.files index) }
    {
        Some(self.pool.file(FileDescriptor::new(index))?.raw.name())
    }

    /// The package of the file with an index, which is empty where there is none, or none past the
    /// end.
    pub fn file_package(&self, index: u32) -> Option<&str>
        ensures { option_copied result
            ≡ option_map (λ f. text_of f.raw.«package») (slice_get self.now.pool.files index) }
    {
        Some(self.pool.file(FileDescriptor::new(index))?.raw.package())
    }

    /// The full name of an item, without a leading dot, or none where the pool has no such item.
    pub fn full_name(&self, item: Item) -> Option<&str>
        ensures { option_copied result
            ≡ option_map (λ id. id.full_name) (spec.identity_of self.now.pool item) }
    {
        Some(identity(&self.pool, item)?.full_name())
    }

    /// The declared name of an item, without its scope, or none where the pool has no such item.
    pub fn name(&self, item: Item) -> Option<&str>
        ensures { option_copied result
            ≡ option_map spec.name_of (spec.identity_of self.now.pool item) }
    {
        Some(identity(&self.pool, item)?.name())
    }

    /// The JSON name of a field that was given one, or of an extension; none of any other item.
    pub fn json_name(&self, item: Item) -> Option<&str>
        ensures { option_copied result ≡ spec.json_name_of self.now.pool item }
    {
        json_name_at(&self.pool, item.position, definition_kind(item)?)
    }

    /// The default value of a field or an extension, where one was given, as bytes: a number in
    /// decimals, also of an enum's value; `true` or `false`; a text, bytes and a number with a
    /// fraction as they are.
    ///
    /// # Errors
    /// `AllocError` where memory was refused.
    pub fn default(&self, alloc: Global, item: Item) -> Result<Option<Vec<u8>>, AllocError>
        ensures { IfOk result (λ found. option_map (λ v. v.items) found
            ≡ option_map default_bytes (spec.default_of self.now.pool item)) }
    {
        match default_value(&self.pool, item) {
            Some(value) => Ok(Some(default_bytes(alloc, value)?)),
            None => Ok(None),
        }
    }
}
