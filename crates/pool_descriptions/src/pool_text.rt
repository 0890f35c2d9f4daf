//! A pool as a text, in the terms of protobuf: lines for each file, message, enum, service and
//! extension, and for each of their parts.

ghost use Rattle.std.specs.Prelude.{◌≡◌, IfOk, string_bytes};
ghost use Rattle.pool_descriptions.specs.Items.{pool_text};

use crate::enumeration::write_enums;
use crate::extension::write_extensions;
use crate::file::write_files;
use crate::message::write_messages;
use crate::service::write_services;
use descriptor_pool::DescriptorPool;
use std::alloc::{AllocError, Global};

/// All that a pool has, as a text: its files, messages, enums, services and extensions, each kind
/// in the order of linking. A line names an item or a part of one by its full name, and what it
/// refers to as well, so it is the same whatever stands before it in the pool. An escape stands for
/// each character of a name or a default value that a terminal would obey or hide, also for a line
/// feed. The tables by which parts are looked up are not told: they lead to the parts (`MapsLead`
/// and `ValuesLead`, which `message` and `enum_` of a pool promise).
///
/// # Errors
/// `AllocError` where memory was refused.
pub fn describe(alloc: Global, pool: &DescriptorPool) -> Result<String, AllocError>
    ensures { IfOk result (λ text. string_bytes text ≡ pool_text pool.now) }
{
    let mut text = String::new(alloc);
    write_files(&mut text, pool)?;
    write_messages(&mut text, alloc, pool)?;
    write_enums(&mut text, alloc, pool)?;
    write_services(&mut text, alloc, pool)?;
    write_extensions(&mut text, alloc, pool)?;
    Ok(text)
}
