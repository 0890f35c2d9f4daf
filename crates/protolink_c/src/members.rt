//! What stands in files, messages and enums: lists of items, ranges of numbers and reserved names.
//! A call answers `NOT_FOUND` where the pool has no such thing, and then writes nothing.
ghost use Rattle.std.specs.Prelude.{◌≡◌, ◌≢◌};
ghost use Rattle.numbered_pool.specs.Lists as lists;
ghost use Rattle.numbered_pool.specs.Ranges as ranges;
ghost use Rattle.protolink_c.specs.Shown.{pool_in};
ghost use Rattle.protolink_c.specs.Told.{handed_out_if, written};

use crate::lent::lend;
use crate::status::{NO_MEMORY, NOT_FOUND};
use crate::told::{hand_out, write};
use crate::view::View;
use numbered_pool::NumberRange;
use std::alloc::Global;

/// Hands out the indexes of the items of a kind that stand in a file and in no message.
#[unsafe(no_mangle)]
pub extern "C" fn protolink_file_items(
    alloc: Global,
    pool: &mut View,
    file: u32,
    kind: u32,
    indexes: &mut [u32],
    length: &mut usize,
) -> u8
    ensures same { pool.new.shown ≡ pool.old.shown }
    ensures told { result ≢ 3 →
        handed_out_if (lists.file_items (pool_in pool.old.shown) file kind) indexes.old length.old
        ≡ (indexes.new, (length.new, result)) }
    ensures no_memory { result ≡ 3 → (indexes.new ≡ indexes.old) × (length.new ≡ length.old) }
{
    let lent = lend(alloc, pool);
    let status = match lent.answers().file_items(alloc, file, kind) {
        Ok(Some(list)) => hand_out(list.as_slice(), indexes, length),
        Ok(None) => NOT_FOUND,
        Err(_) => NO_MEMORY,
    };
    *pool = lent.back();
    status
}

/// Hands out the indexes of the items of a kind that stand in a message, and in none of its
/// messages.
#[unsafe(no_mangle)]
pub extern "C" fn protolink_message_items(
    alloc: Global,
    pool: &mut View,
    message: u32,
    kind: u32,
    indexes: &mut [u32],
    length: &mut usize,
) -> u8
    ensures same { pool.new.shown ≡ pool.old.shown }
    ensures told { result ≢ 3 →
        handed_out_if (lists.message_items (pool_in pool.old.shown) message kind) indexes.old
        length.old
        ≡ (indexes.new, (length.new, result)) }
    ensures no_memory { result ≡ 3 → (indexes.new ≡ indexes.old) × (length.new ≡ length.old) }
{
    let lent = lend(alloc, pool);
    let status = match lent.answers().message_items(alloc, message, kind) {
        Ok(Some(list)) => hand_out(list.as_slice(), indexes, length),
        Ok(None) => NOT_FOUND,
        Err(_) => NO_MEMORY,
    };
    *pool = lent.back();
    status
}

/// Tells the range at a position among those that a message leaves to extensions.
#[unsafe(no_mangle)]
pub extern "C" fn protolink_message_extension_range(
    alloc: Global,
    pool: &mut View,
    message: u32,
    position: u32,
    range: &mut NumberRange,
) -> u8
    ensures same { pool.new.shown ≡ pool.old.shown }
    ensures told { written
        (ranges.extension_range_at (pool_in pool.old.shown) message position) range.old
        ≡ (range.new, result) }
{
    let lent = lend(alloc, pool);
    let status = write(lent.answers().extension_range(message, position), range);
    *pool = lent.back();
    status
}

/// Tells the range at a position among those that a message reserves.
#[unsafe(no_mangle)]
pub extern "C" fn protolink_message_reserved_range(
    alloc: Global,
    pool: &mut View,
    message: u32,
    position: u32,
    range: &mut NumberRange,
) -> u8
    ensures same { pool.new.shown ≡ pool.old.shown }
    ensures told { written
        (ranges.message_range_at (pool_in pool.old.shown) message position) range.old
        ≡ (range.new, result) }
{
    let lent = lend(alloc, pool);
    let status = write(lent.answers().message_range(message, position), range);
    *pool = lent.back();
    status
}

/// Tells the range at a position among those that an enum reserves.
#[unsafe(no_mangle)]
pub extern "C" fn protolink_enum_reserved_range(
    alloc: Global,
    pool: &mut View,
    enumeration: u32,
    position: u32,
    range: &mut NumberRange,
) -> u8
    ensures same { pool.new.shown ≡ pool.old.shown }
    ensures told { written
        (ranges.enum_range_at (pool_in pool.old.shown) enumeration position) range.old
        ≡ (range.new, result) }
{
    let lent = lend(alloc, pool);
    let status = write(lent.answers().enum_range(enumeration, position), range);
    *pool = lent.back();
    status
}

/// Hands out the name at a position among those that a message reserves.
#[unsafe(no_mangle)]
pub extern "C" fn protolink_message_reserved_name(
    alloc: Global,
    pool: &mut View,
    message: u32,
    position: u32,
    buffer: &mut [u8],
    length: &mut usize,
) -> u8
    ensures same { pool.new.shown ≡ pool.old.shown }
    ensures told { handed_out_if
        (ranges.message_name_at (pool_in pool.old.shown) message position) buffer.old length.old
        ≡ (buffer.new, (length.new, result)) }
{
    let lent = lend(alloc, pool);
    let status = match lent.answers().message_reserved_name(message, position) {
        Some(text) => hand_out(text.as_bytes(), buffer, length),
        None => NOT_FOUND,
    };
    *pool = lent.back();
    status
}

/// Hands out the name at a position among those that an enum reserves.
#[unsafe(no_mangle)]
pub extern "C" fn protolink_enum_reserved_name(
    alloc: Global,
    pool: &mut View,
    enumeration: u32,
    position: u32,
    buffer: &mut [u8],
    length: &mut usize,
) -> u8
    ensures same { pool.new.shown ≡ pool.old.shown }
    ensures told { handed_out_if
        (ranges.enum_name_at (pool_in pool.old.shown) enumeration position) buffer.old length.old
        ≡ (buffer.new, (length.new, result)) }
{
    let lent = lend(alloc, pool);
    let status = match lent.answers().enum_reserved_name(enumeration, position) {
        Some(text) => hand_out(text.as_bytes(), buffer, length),
        None => NOT_FOUND,
    };
    *pool = lent.back();
    status
}
