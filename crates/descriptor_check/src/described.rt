//! What names mean in a pool.

ghost use Rattle.std.specs.Prelude.{◌≡◌, ◌++◌, IfOk, OnOk, string_bytes};
ghost use Rattle.std.specs.List.{flat_map};
ghost use Rattle.descriptor_check.specs.Described as spec;

use crate::complaints::write_complaint;
use descriptor_pool::DescriptorPool;
use plain_data::Text;
use pool_descriptions::describe_name;
use std::alloc::{AllocError, Global};

/// Writes what names mean in a pool, in order.
pub(crate) fn write_names(
    alloc: Global,
    text: &mut String,
    pool: &DescriptorPool,
    names: &[Text],
) -> Result<(), AllocError>
    ensures { OnOk result (string_bytes text.new ≡ string_bytes text.old
        ++ spec.described pool.now names.now) }
{
    for name in names {
        let lines = describe_name(alloc, pool, name.as_str())?;
        text.push_str(lines.as_str())?;
    }
    Ok(())
}

/// A line of complaint for each name that means nothing in a pool.
pub(crate) fn unknown_names(
    alloc: Global,
    pool: &DescriptorPool,
    names: &[Text],
) -> Result<String, AllocError>
    ensures { IfOk result (λ s. string_bytes s ≡ spec.unknown_names pool.now names.now) }
{
    let mut text = String::new(alloc);
    for name in names {
        write_unknown(alloc, &mut text, pool, name.as_str())?;
    }
    Ok(text)
}

/// Writes a line of complaint of a name that means nothing in a pool.
fn write_unknown(
    alloc: Global,
    text: &mut String,
    pool: &DescriptorPool,
    name: &str,
) -> Result<(), AllocError>
    ensures { OnOk result (string_bytes text.new ≡ string_bytes text.old
        ++ spec.unknown_line pool.now name.now) }
{
    let lines = describe_name(alloc, pool, name)?;
    if lines.is_empty() {
        return write_complaint(alloc, text, unknown_words(alloc, name)?.as_str());
    }
    Ok(())
}

/// What is wrong with a name that means nothing, and what to do.
fn unknown_words(alloc: Global, name: &str) -> Result<String, AllocError>
    ensures { IfOk result (λ s. string_bytes s ≡ spec.unknown_words name.now) }
{
    format!(in alloc;
        "--describe '{name}': nothing has this full name, and no file; --list shows the names"
    )
}
