//! A field or an extension of a message, as JSON and code that is made of the schema have it.

ghost use Rattle.std.specs.Prelude.{◌≡◌, IfOk, is_some, option_map, option_and_then, unwrap_or};
ghost use Rattle.std.specs.Prelude.{slice_get};
ghost use Rattle.std.specs.Option.{option_copied};
ghost use Rattle.schema_changes.specs.MapEntries.{map_entry_at};
ghost use Rattle.schema_changes.specs.Parts.{parts_of};
ghost use Rattle.pool_changes.specs.FieldParts as spec;
ghost use Rattle.pool_changes.specs.Removed.{field_record};
ghost use Rattle.pool_changes.specs.Sides.{side, there};

use crate::pools::parts_of;
use crate::removed::{field_record, is_synthetic};
use crate::sides::Side;
use crate::words::{enum_name, message_name};
use descriptor_pool::DescriptorPool;
use plain_data::Text;
use pool_types::{
    Cardinality, DefaultValue, EnumValueDescriptorInner, ExtensionDescriptorInner,
    FieldDescriptorInner, Identity, KindIndex, MessageDescriptorInner, OneofDescriptorInner,
};
use schema_changes::{Entry, extension_entry, field_entry};
use std::alloc::{AllocError, Global};

/// A field or an extension of a message.
#[derive(Clone, Copy)]
pub(crate) struct Part<'a> {
    pub id: &'a Identity,
    pub entry: Entry,
    /// The JSON name; where a field was given none, its full name.
    pub json_name: &'a str,
    /// Whether a message tells that it is set.
    pub has_presence: bool,
    /// The default value that it is given.
    pub default: &'a Option<DefaultValue>,
}

/// The JSON name of a field that was given one, or else its full name.
fn json_name(field: &FieldDescriptorInner) -> &str
    ensures { result.now ≡ unwrap_or field.now.json_name field.now.id.full_name }
{
    match &field.json_name {
        Some(name) => name.as_str(),
        None => field.id.full_name(),
    }
}

/// A field.
pub(crate) fn field_part(field: &FieldDescriptorInner) -> Part<'_>
    ensures { spec.part result ≡ spec.field_part field.now }
{
    Part {
        id: &field.id,
        entry: field_entry(field),
        json_name: json_name(field),
        has_presence: field.supports_presence,
        default: &field.default,
    }
}

/// An extension.
pub(crate) fn extension_part(extension: &ExtensionDescriptorInner) -> Part<'_>
    ensures { spec.part result ≡ spec.extension_part extension.now }
{
    Part {
        id: &extension.id,
        entry: extension_entry(extension),
        json_name: extension.json_name.as_str(),
        has_presence: true,
        default: &extension.default,
    }
}

/// The extension with an index.
pub(crate) fn extension_part_at(pool: &DescriptorPool, index: u32) -> Option<Part<'_>>
    ensures { option_map spec.part result ≡ spec.extension_part_at pool.now index }
{
    match pool.extensions().get(index as usize) {
        Some(extension) => Some(extension_part(extension)),
        None => None,
    }
}

/// The field of a message with a number, or else the extension.
#[inline(always)]
pub(crate) fn part_numbered<'a>(
    pool: &'a DescriptorPool,
    message: &'a MessageDescriptorInner,
    number: u32,
) -> Option<Part<'a>>
    ensures { option_map spec.part result ≡ spec.part_numbered pool.now message.now number }
{
    match message.get_field(number) {
        Some(field) => Some(field_part(field)),
        None => extension_part_at(pool, message.extension_numbers.get(number)?),
    }
}

/// Whether the message with an index is an entry of a map.
pub(crate) fn is_map_entry(pool: &DescriptorPool, index: u32) -> bool
    ensures { result ≡ is_some (map_entry_at (parts_of pool.now) index) }
{
    match parts_of(pool).map_entry_at(index) {
        Some(_) => true,
        None => false,
    }
}

/// Whether a cardinality is repeated, in words.
fn repeated_word(cardinality: Cardinality) -> &'static str
    ensures { result.now ≡ spec.repeated_word cardinality }
{
    match cardinality {
        Cardinality::Repeated => "list",
        _ => "one value",
    }
}

/// The word for a kind of messages, by whether they are entries of a map.
fn message_word(is_entry: bool) -> &'static str
    ensures { result.now ≡ spec.message_word is_entry }
{
    if is_entry { "map" } else { "message " }
}

/// The word for a kind, before the name of a message or of an enum.
fn type_word(pool: &DescriptorPool, kind: KindIndex) -> &'static str
    ensures { result.now ≡ spec.type_word pool.now kind }
{
    match kind {
        KindIndex::Message(index) => message_word(is_map_entry(pool, index)),
        KindIndex::Group(_) => "group ",
        KindIndex::Enum(_) => "enum ",
        _ => kind.name(),
    }
}

/// The name of a message; an entry of a map shows none.
fn type_message(pool: &DescriptorPool, index: u32) -> &str
    ensures { result.now ≡ spec.type_message pool.now index }
{
    if is_map_entry(pool, index) {
        ""
    } else {
        message_name(parts_of(pool), index)
    }
}

/// The name of the message or the enum of a kind.
pub(crate) fn type_name(pool: &DescriptorPool, kind: KindIndex) -> &str
    ensures { result.now ≡ spec.type_name pool.now kind }
{
    match kind {
        KindIndex::Message(index) => type_message(pool, index),
        KindIndex::Group(index) => message_name(parts_of(pool), index),
        KindIndex::Enum(index) => enum_name(parts_of(pool), index),
        _ => "",
    }
}

/// The word for the form that messages have in JSON, by whether they are entries of a map.
fn object_word(is_entry: bool) -> &'static str
    ensures { result.now ≡ spec.object_word is_entry }
{
    if is_entry {
        "object of keys and values"
    } else {
        "object "
    }
}

/// The word for the form that values of a kind have in JSON, before the name of a message or of an
/// enum.
pub(crate) fn json_word(pool: &DescriptorPool, kind: KindIndex) -> &'static str
    ensures { result.now ≡ spec.json_word pool.now kind }
{
    match kind {
        KindIndex::Bool => "true or false",
        KindIndex::String => "text",
        KindIndex::Bytes => "text in base64",
        KindIndex::Message(index) => object_word(is_map_entry(pool, index)),
        KindIndex::Group(_) => "object ",
        KindIndex::Enum(_) => "name of a value of ",
        _ => "number",
    }
}

/// How a message tells that a field is set, in words.
fn presence_word(cardinality: Cardinality, has_presence: bool) -> &'static str
    ensures { result.now ≡ spec.presence_word cardinality has_presence }
{
    match (cardinality, has_presence) {
        (Cardinality::Required, _) => "required",
        (Cardinality::Repeated, _) => "repeated",
        (Cardinality::Optional, true) => "explicit presence",
        (Cardinality::Optional, false) => "implicit presence",
    }
}

impl<'a> Part<'a> {
    /// Its form in JSON, as a side.
    pub(crate) fn form(self, pool: &'a DescriptorPool) -> Side<'a>
        ensures { side result ≡ spec.form_side pool.now (spec.part self.entry) }
    {
        let kind = self.entry.kind;
        Side::there(self.id, json_word(pool, kind), type_name(pool, kind))
    }

    /// Its JSON name, as a side.
    pub(crate) fn json(self) -> Side<'a>
        ensures { side result ≡ spec.json_side (spec.part self.entry) }
    {
        Side::there(self.id, "JSON name ", self.json_name)
    }

    /// Whether it is repeated, as a side.
    pub(crate) fn repeated(self) -> Side<'a>
        ensures { side result ≡ spec.repeated_side (spec.part self.entry) }
    {
        Side::there(self.id, repeated_word(self.entry.cardinality), "")
    }

    /// Its name, as a side.
    pub(crate) fn name(self) -> Side<'a>
        ensures { side result ≡ spec.name_side (spec.part self.entry) }
    {
        Side::there(self.id, "name ", self.id.full_name())
    }

    /// Its type, as a side.
    pub(crate) fn type_(self, pool: &'a DescriptorPool) -> Side<'a>
        ensures { side result ≡ spec.type_side pool.now (spec.part self.entry) }
    {
        let kind = self.entry.kind;
        Side::there(self.id, type_word(pool, kind), type_name(pool, kind))
    }

    /// How a message tells that it is set, as a side.
    pub(crate) fn presence(self) -> Side<'a>
        ensures { side result ≡ spec.presence_side (spec.part self.entry) }
    {
        let word = presence_word(self.entry.cardinality, self.has_presence);
        Side::there(self.id, word, "")
    }

    /// The text that its record gives for a default value.
    fn default_text(self, pool: &'a DescriptorPool) -> Option<&'a Text>
        ensures { option_copied result ≡ spec.default_text pool.now (spec.part self.entry) }
    {
        let record = field_record(pool, self.id)?;
        record.default_value.as_ref()
    }

    /// A default value by the text that its record gives, with the number of a value of an enum.
    fn default_shown(self, alloc: Global, text: &Text) -> Result<Text, AllocError>
        ensures { IfOk result (λ shown. shown
            ≡ spec.default_shown (spec.part self.entry).default text.now) }
    {
        match self.default {
            Some(DefaultValue::EnumNumber(number)) => value_shown(alloc, text, *number),
            _ => text.clone(alloc),
        }
    }

    /// What it is read as where it is missing: a word, and the value that is shown.
    pub(crate) fn read_as(
        self,
        alloc: Global,
        pool: &DescriptorPool,
    ) -> Result<(&'static str, Text), AllocError>
        ensures { IfOk result (λ shown. there (spec.part self.entry).id shown.0.now shown.1
            ≡ spec.default_side pool.now (spec.part self.entry)) }
    {
        if let Some(text) = self.default_text(pool) {
            return Ok(("default value ", self.default_shown(alloc, text)?));
        }
        match first_value(pool, self.entry.kind) {
            Some(value) => {
                let shown = value_shown(alloc, &value.id.full_name, value.number)?;
                Ok(("first value ", shown))
            }
            None => Ok(("no default value", Text::new(alloc))),
        }
    }

    /// The oneof that it is in, as a side.
    pub(crate) fn oneof(
        self,
        pool: &DescriptorPool,
        message: &'a MessageDescriptorInner,
    ) -> Side<'a>
        ensures { side result ≡ spec.oneof_side pool.now message.now (spec.part self.entry) }
    {
        match oneof_in(pool, message, self.entry.oneof) {
            Some(oneof) => Side::there(self.id, "part of ", oneof.id.full_name()),
            None => Side::there(self.id, "part of no oneof", ""),
        }
    }
}

/// A value of an enum, by its name and its number.
fn value_shown(alloc: Global, name: &Text, number: i32) -> Result<Text, AllocError>
    ensures { IfOk result (λ shown. shown ≡ spec.value_shown name.now number) }
{
    let name = name.as_str();
    Ok(Text::from_string(format!(in alloc; "{name} = {number}")?))
}

/// The first value of the enum with an index.
fn first_of_enum(pool: &DescriptorPool, index: u32) -> Option<&EnumValueDescriptorInner>
    ensures { option_copied result ≡ option_and_then (λ x. slice_get x.values 0)
        (slice_get pool.now.enums index) }
{
    let enumeration = pool.enums().get(index as usize)?;
    enumeration.values.as_slice().get(0)
}

/// The first value of the enum of a kind, if it is one.
#[inline(always)]
fn first_value(pool: &DescriptorPool, kind: KindIndex) -> Option<&EnumValueDescriptorInner>
    ensures { option_copied result ≡ spec.first_value pool.now kind }
{
    match kind {
        KindIndex::Enum(index) => first_of_enum(pool, index),
        _ => None,
    }
}

/// The number that a missing field is read as where no default value is given: that of the first
/// value of its enum, or 0.
#[inline(always)]
pub(crate) fn first_number(pool: &DescriptorPool, kind: KindIndex) -> i32
    ensures { result ≡ spec.first_number pool.now kind }
{
    match first_value(pool, kind) {
        Some(value) => value.number,
        None => 0,
    }
}

/// The oneof of a message at a position, unless it stands for the presence of a field alone.
pub(crate) fn oneof_at<'a>(
    pool: &DescriptorPool,
    message: &'a MessageDescriptorInner,
    position: u32,
) -> Option<&'a OneofDescriptorInner>
    ensures { option_copied result ≡ spec.oneof_at pool.now message.now position }
{
    let oneof = message.oneofs.as_slice().get(position as usize)?;
    if is_synthetic(pool, message, oneof) {
        None
    } else {
        Some(oneof)
    }
}

/// The oneof of a message at a position, if there is one.
pub(crate) fn oneof_in<'a>(
    pool: &DescriptorPool,
    message: &'a MessageDescriptorInner,
    position: Option<u32>,
) -> Option<&'a OneofDescriptorInner>
    ensures { option_copied result ≡ option_and_then (spec.oneof_at pool.now message.now) position }
{
    oneof_at(pool, message, position?)
}
