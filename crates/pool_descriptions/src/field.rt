//! The fields of a message.

ghost use Rattle.std.specs.Prelude.{◌≡◌, ◌++◌, IfOk, OnOk, string_bytes};
ghost use Rattle.std.specs.Option.{option_copied};
ghost use Rattle.verdict_texts.specs.Lines.{plain_text};
ghost use Rattle.pool_descriptions.specs.Items as spec;

use crate::values::default_words;
use crate::words::{flag_words, map_word, name_word, place_words, record_words, type_words};
use descriptor_pool::DescriptorPool;
use plain_data::Text;
use pool_types::{FieldDescriptorInner, OneofDescriptorInner};
use record_lists::is_map;
use std::alloc::{AllocError, Global};
use verdict_texts::Plain;

/// A field: its kind, its name, its number, where it is declared, and what its options say.
#[tactic(auto, unfolding(crate::specs::Items::field_line))]
pub(super) fn field_line(
    alloc: Global,
    pool: &DescriptorPool,
    oneofs: &[OneofDescriptorInner],
    field: &FieldDescriptorInner,
) -> Result<String, AllocError>
    ensures { IfOk result (λ s. string_bytes s ≡ spec.field_line pool.now oneofs.now field.now) }
{
    let (name, number) = (name_word(field.id.full_name()), field.number);
    let kind = type_words(alloc, pool, field.cardinality, field.kind)?;
    let place = place_words(alloc, &field.id)?;
    let marks = mark_words(alloc, pool, oneofs, field)?;
    format!(in alloc; "  {kind} {name} = {number} {place}{marks}\n")
}

/// What is told of a field behind its number and its place.
fn mark_words(
    alloc: Global,
    pool: &DescriptorPool,
    oneofs: &[OneofDescriptorInner],
    field: &FieldDescriptorInner,
) -> Result<String, AllocError>
    ensures { IfOk result (λ s. string_bytes s ≡ spec.mark_words pool.now oneofs.now field.now) }
{
    let flags = flag_words(field.is_packed, field.supports_presence);
    let oneof = oneof_words(alloc, oneofs, field.oneof)?;
    let map = map_word(is_map(pool.files(), pool.messages(), field.cardinality, field.kind));
    let json_name = json_words(alloc, &field.json_name)?;
    let default = default_words(alloc, &field.default)?;
    let record = record_words(alloc, pool, &field.id, field.kind)?;
    format!(in alloc; "{oneof}{flags}{map}{json_name}{default}{record}")
}

/// The oneof of a field, where it has one.
fn oneof_words(
    alloc: Global,
    oneofs: &[OneofDescriptorInner],
    position: Option<u32>,
) -> Result<String, AllocError>
    ensures { IfOk result (λ s. string_bytes s ≡ spec.oneof_words oneofs.now position) }
{
    match position {
        Some(position) => {
            let name = oneof_name(oneofs, position);
            format!(in alloc; " oneof {name}")
        }
        None => Ok(String::new(alloc)),
    }
}

/// The full name of the oneof with a position, as a word.
fn oneof_name(oneofs: &[OneofDescriptorInner], position: u32) -> Plain<'_>
    ensures { plain_text result.0.now ≡ spec.oneof_name oneofs.now position }
{
    match oneofs.get(position as usize) {
        Some(oneof) => name_word(oneof.id.full_name()),
        None => name_word(""),
    }
}

/// The JSON name of a field, where one was given.
fn json_words(alloc: Global, name: &Option<Text>) -> Result<String, AllocError>
    ensures { IfOk result (λ s. string_bytes s ≡ spec.json_words name.now) }
{
    match name {
        Some(name) => {
            let name = name_word(name.as_str());
            format!(in alloc; " json_name {name}")
        }
        None => Ok(String::new(alloc)),
    }
}
