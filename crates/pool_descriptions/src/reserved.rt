//! The names that messages and enums reserve.

ghost use Rattle.std.specs.Prelude.{◌≡◌, ◌++◌, OnOk, string_bytes};
ghost use Rattle.std.specs.List.{flat_map};
ghost use Rattle.pool_descriptions.specs.Items as spec;

use crate::words::name_word;
use descriptor_pool::DescriptorPool;
use plain_data::Text;
use pool_types::Identity;
use record_lists::{enum_record, message_record};
use std::alloc::AllocError;
use std::fmt::Write;

/// Tells the names that a message reserves.
pub(super) fn write_message_names(
    text: &mut String,
    pool: &DescriptorPool,
    id: &Identity,
) -> Result<(), AllocError>
    ensures { OnOk result (string_bytes text.new ≡ string_bytes text.old
        ++ spec.message_names pool.now id.now) }
{
    match message_record(pool.files(), id) {
        Some(message) => write_names(text, message.reserved_name.as_slice()),
        None => Ok(()),
    }
}

/// Tells the names that an enum reserves.
pub(super) fn write_enum_names(
    text: &mut String,
    pool: &DescriptorPool,
    id: &Identity,
) -> Result<(), AllocError>
    ensures { OnOk result (string_bytes text.new ≡ string_bytes text.old
        ++ spec.enum_names pool.now id.now) }
{
    match enum_record(pool.files(), id) {
        Some(enumeration) => write_names(text, enumeration.reserved_name.as_slice()),
        None => Ok(()),
    }
}

/// Tells names that are reserved.
fn write_names(text: &mut String, names: &[Text]) -> Result<(), AllocError>
    ensures { OnOk result (string_bytes text.new ≡ string_bytes text.old
        ++ flat_map spec.reserved_name_line names.now) }
{
    for name in names {
        write_reserved_name(text, name.as_str())?;
    }
    Ok(())
}

/// Tells a name that is reserved.
#[tactic(auto, unfolding(crate::specs::Items::reserved_name_line))]
fn write_reserved_name(text: &mut String, name: &str) -> Result<(), AllocError>
    ensures { OnOk result (string_bytes text.new ≡ string_bytes text.old
        ++ spec.reserved_name_line name.now) }
{
    let word = name_word(name);
    writeln!(text, "  reserved_name {word}")
}
