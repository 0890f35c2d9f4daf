//! The lines that items of several kinds begin with.

ghost use Rattle.std.specs.Prelude.{◌≡◌, ◌++◌, IfOk, OnOk, string_bytes};
ghost use Rattle.pool_descriptions.specs.Items as spec;

use crate::words::{file_name, message_name, name_word, place_words};
use descriptor_pool::DescriptorPool;
use pool_types::Identity;
use std::alloc::{AllocError, Global};
use std::fmt::Write;

/// The name of an item behind a word for its kind, and where it is declared.
pub(super) fn head_line(
    alloc: Global,
    word: &str,
    pool: &DescriptorPool,
    id: &Identity,
) -> Result<String, AllocError>
    ensures { IfOk result (λ s. string_bytes s ≡ spec.head_line word.now pool.now id.now) }
{
    let (name, file) = (name_word(id.full_name()), file_name(pool, id.file));
    let place = place_words(alloc, id)?;
    format!(in alloc; "{word} {name} {file} {place}\n")
}

/// Tells the message around an item, where it is nested.
pub(super) fn write_parent(
    text: &mut String,
    pool: &DescriptorPool,
    parent: Option<u32>,
) -> Result<(), AllocError>
    ensures { OnOk result (string_bytes text.new ≡ string_bytes text.old
        ++ spec.parent_line pool.now parent) }
{
    match parent {
        Some(message) => {
            let name = message_name(pool, message);
            writeln!(text, "  in {name}")
        }
        None => Ok(()),
    }
}
