//! Words of the text of a pool.

ghost use Rattle.std.specs.Prelude.{◌≡◌, IfOk, string_bytes};
ghost use Rattle.pool_faults.specs.Fault.{path_text};
ghost use Rattle.verdict_texts.specs.Lines.{plain_text};
ghost use Rattle.pool_descriptions.specs.Words as spec;

use descriptor_pool::DescriptorPool;
use pool_types::{
    Cardinality, EnumDescriptor, FileDescriptor, Identity, KindIndex, MessageDescriptor, Syntax,
};
use record_lists::{field_parts, field_record};
use record_walk::alone;
use std::alloc::{AllocError, Global};
use verdict_texts::Plain;

/// A name as a word: two quotes where it is empty, and an escape for each character that a terminal
/// would obey or hide.
pub(super) fn name_word(name: &str) -> Plain<'_>
    ensures { plain_text result.0.now ≡ spec.name_word name.now }
{
    Plain(alone(name))
}

/// The name of a file, as a word.
pub(super) fn file_name(pool: &DescriptorPool, file: u32) -> Plain<'_>
    ensures { plain_text result.0.now ≡ spec.file_name pool.now file }
{
    match pool.file(FileDescriptor::new(file)) {
        Some(file) => name_word(file.raw.name()),
        None => name_word(""),
    }
}

/// The full name of a message, as a word.
pub(super) fn message_name(pool: &DescriptorPool, message: u32) -> Plain<'_>
    ensures { plain_text result.0.now ≡ spec.message_name pool.now message }
{
    match pool.message(MessageDescriptor::new(message)) {
        Some(message) => name_word(message.id.full_name()),
        None => name_word(""),
    }
}

/// The full name of an enum, as a word.
fn enum_name(pool: &DescriptorPool, enumeration: u32) -> Plain<'_>
    ensures { plain_text result.0.now ≡ spec.enum_name pool.now enumeration }
{
    match pool.enum_(EnumDescriptor::new(enumeration)) {
        Some(enumeration) => name_word(enumeration.id.full_name()),
        None => name_word(""),
    }
}

/// The word for a syntax.
pub(super) fn syntax_word(syntax: Syntax) -> &'static str
    ensures { result.now ≡ spec.syntax_word syntax }
{
    match syntax {
        Syntax::Proto2 => "proto2",
        Syntax::Proto3 => "proto3",
    }
}

/// The word for how often a field stands in a message.
fn cardinality_word(cardinality: Cardinality) -> &'static str
    ensures { result.now ≡ spec.cardinality_word cardinality }
{
    match cardinality {
        Cardinality::Optional => "optional",
        Cardinality::Required => "required",
        Cardinality::Repeated => "repeated",
    }
}

/// The words for whether a field is packed, and whether a message tells that it is set.
pub(super) fn flag_words(is_packed: bool, supports_presence: bool) -> &'static str
    ensures { result.now ≡ spec.flag_words is_packed supports_presence }
{
    match (is_packed, supports_presence) {
        (true, true) => " packed presence",
        (true, false) => " packed",
        (false, true) => " presence",
        (false, false) => "",
    }
}

/// Whether a field is a map.
pub(super) fn map_word(is_map: bool) -> &'static str
    ensures { result.now ≡ spec.map_word is_map }
{
    if is_map { " map" } else { "" }
}

/// That a part is deprecated, behind what is told of it.
pub(super) fn deprecated_word(is_deprecated: bool) -> &'static str
    ensures { result.now ≡ spec.deprecated_word is_deprecated }
{
    if is_deprecated { " deprecated" } else { "" }
}

/// That an item is deprecated.
pub(super) fn deprecated_line(is_deprecated: bool) -> &'static str
    ensures { result.now ≡ spec.deprecated_line is_deprecated }
{
    if is_deprecated { "  deprecated\n" } else { "" }
}

/// Whether a method takes or gives a stream of a message, before the message.
pub(super) fn stream_word(is_stream: bool) -> &'static str
    ensures { result.now ≡ spec.stream_word is_stream }
{
    if is_stream { "stream " } else { "" }
}

/// The kind of a field.
fn kind_words(alloc: Global, pool: &DescriptorPool, kind: KindIndex) -> Result<String, AllocError>
    ensures { IfOk result (λ s. string_bytes s ≡ spec.kind_words pool.now kind) }
{
    match kind {
        KindIndex::Message(message) => {
            let name = message_name(pool, message);
            format!(in alloc; "message {name}")
        }
        KindIndex::Group(message) => {
            let name = message_name(pool, message);
            format!(in alloc; "group {name}")
        }
        KindIndex::Enum(enumeration) => {
            let name = enum_name(pool, enumeration);
            format!(in alloc; "enum {name}")
        }
        _ => format!(in alloc; "{kind:?}"),
    }
}

/// How often a field stands in a message, and its kind.
pub(super) fn type_words(
    alloc: Global,
    pool: &DescriptorPool,
    cardinality: Cardinality,
    kind: KindIndex,
) -> Result<String, AllocError>
    ensures { IfOk result (λ s. string_bytes s ≡ spec.type_words pool.now cardinality kind) }
{
    let cardinality = cardinality_word(cardinality);
    let kind = kind_words(alloc, pool, kind)?;
    format!(in alloc; "{cardinality} {kind}")
}

/// The path of a declaration, and where its declared name begins.
pub(super) fn place_words(alloc: Global, id: &Identity) -> Result<String, AllocError>
    ensures { IfOk result (λ s. string_bytes s ≡ spec.place_words id.now) }
{
    let path = path_words(alloc, id.path())?;
    let index = index_words(alloc, id)?;
    format!(in alloc; "{path}{index}")
}

/// A path.
pub(super) fn path_words(alloc: Global, path: &[i32]) -> Result<String, AllocError>
    ensures { IfOk result (λ s. string_bytes s ≡ path_text path.now) }
{
    format!(in alloc; "{path:?}")
}

/// The byte at which the declared name begins, where it is not the last part of the full name.
fn index_words(alloc: Global, id: &Identity) -> Result<String, AllocError>
    ensures { IfOk result (λ s. string_bytes s ≡ spec.index_words id.now) }
{
    let index = id.name_index;
    if has_dot_from(id.full_name(), index) {
        format!(in alloc; " name_index {index}")
    } else {
        Ok(String::new(alloc))
    }
}

/// Whether a text has a dot from a byte on.
fn has_dot_from(text: &str, index: usize) -> bool
    ensures { result ≡ spec.has_dot_from text.now index }
{
    match text.as_bytes().get(index..) {
        Some(rest) => rest.contains(&b'.'),
        None => false,
    }
}

/// The number of the type that the linked record of a field or an extension has.
fn written_type(pool: &DescriptorPool, id: &Identity) -> Option<i32>
    ensures { result ≡ spec.written_type pool.now id.now }
{
    field_record(pool.files(), id)?.type_
}

/// A number of a type, where it is not the one that is written for the kind.
fn number_words(alloc: Global, kind: KindIndex, number: i32) -> Result<String, AllocError>
    ensures { IfOk result (λ s. string_bytes s ≡ spec.number_words kind number) }
{
    if number == i32::from(kind.type_number()) {
        Ok(String::new(alloc))
    } else {
        format!(in alloc; " type {number}")
    }
}

/// The number of the type that the linked record of a field or an extension has, where it is not
/// the one that is written for its kind.
fn written_words(
    alloc: Global,
    pool: &DescriptorPool,
    id: &Identity,
    kind: KindIndex,
) -> Result<String, AllocError>
    ensures { IfOk result (λ s. string_bytes s ≡ spec.written_words pool.now id.now kind) }
{
    match written_type(pool, id) {
        Some(number) => number_words(alloc, kind, number),
        None => format!(in alloc; " type none"),
    }
}

/// What is told of a field or an extension by its linked record.
pub(super) fn record_words(
    alloc: Global,
    pool: &DescriptorPool,
    id: &Identity,
    kind: KindIndex,
) -> Result<String, AllocError>
    ensures { IfOk result (λ s. string_bytes s ≡ spec.record_words pool.now id.now kind) }
{
    let written = written_words(alloc, pool, id, kind)?;
    let deprecated = deprecated_word(field_parts(pool.files(), id).is_deprecated);
    format!(in alloc; "{written}{deprecated}")
}
