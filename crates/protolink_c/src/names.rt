//! The names of what a pool has, and its parts by their names. A call answers `NOT_FOUND` where the
//! pool has no such thing, or the bytes of a name are no text, and then writes nothing.
ghost use Rattle.std.specs.Prelude.{◌≡◌, ◌≢◌, IsUtf8, None, slice_get};
ghost use Rattle.std.specs.FinMap as finite;
ghost use Rattle.std.specs.Option.{option_map};
ghost use Rattle.proto_types.specs.Readers.{text_of};
ghost use Rattle.numbered_pool.specs.Defaults.{default_bytes};
ghost use Rattle.numbered_pool.specs.Items as spec;
ghost use Rattle.protolink_c.specs.Shown.{pool_in};
ghost use Rattle.protolink_c.specs.Told.{handed_out_if, written};

use crate::lent::lend;
use crate::status::{NO_MEMORY, NOT_FOUND};
use crate::told::{hand_out, write};
use crate::view::View;
use numbered_pool::Item;
use std::alloc::Global;

/// Tells the position of the field of a message that has a name.
#[unsafe(no_mangle)]
pub extern "C" fn protolink_field_by_name(
    alloc: Global,
    pool: &mut View,
    message: u32,
    name: &[u8],
    position: &mut u32,
) -> u8
    ensures same { pool.new.shown ≡ pool.old.shown }
    ensures text { IsUtf8 name.now →
        written (spec.field_named (pool_in pool.old.shown) message name.now) position.old
        ≡ (position.new, result) }
    ensures no_text { ¬ (IsUtf8 name.now) → written None position.old ≡ (position.new, result) }
{
    let lent = lend(alloc, pool);
    let status = write(lent.answers().field_named(message, name), position);
    *pool = lent.back();
    status
}

/// Tells the position of the field of a message that was given a JSON name.
#[unsafe(no_mangle)]
pub extern "C" fn protolink_field_by_json_name(
    alloc: Global,
    pool: &mut View,
    message: u32,
    name: &[u8],
    position: &mut u32,
) -> u8
    ensures same { pool.new.shown ≡ pool.old.shown }
    ensures text { IsUtf8 name.now →
        written (spec.field_json_named (pool_in pool.old.shown) message name.now) position.old
        ≡ (position.new, result) }
    ensures no_text { ¬ (IsUtf8 name.now) → written None position.old ≡ (position.new, result) }
{
    let lent = lend(alloc, pool);
    let status = write(lent.answers().field_json_named(message, name), position);
    *pool = lent.back();
    status
}

/// Tells the position of the field of a message that has a number.
#[unsafe(no_mangle)]
pub extern "C" fn protolink_field_by_number(
    alloc: Global,
    pool: &mut View,
    message: u32,
    number: u32,
    position: &mut u32,
) -> u8
    ensures same { pool.new.shown ≡ pool.old.shown }
    ensures told { written
        (spec.field_numbered (pool_in pool.old.shown) message number) position.old
        ≡ (position.new, result) }
{
    let lent = lend(alloc, pool);
    let status = write(lent.answers().field_numbered(message, number), position);
    *pool = lent.back();
    status
}

/// Tells the position of the value of an enum that has a name.
#[unsafe(no_mangle)]
pub extern "C" fn protolink_enum_value_by_name(
    alloc: Global,
    pool: &mut View,
    enumeration: u32,
    name: &[u8],
    position: &mut u32,
) -> u8
    ensures same { pool.new.shown ≡ pool.old.shown }
    ensures text { IsUtf8 name.now →
        written (spec.value_named (pool_in pool.old.shown) enumeration name.now) position.old
        ≡ (position.new, result) }
    ensures no_text { ¬ (IsUtf8 name.now) → written None position.old ≡ (position.new, result) }
{
    let lent = lend(alloc, pool);
    let status = write(lent.answers().value_named(enumeration, name), position);
    *pool = lent.back();
    status
}

/// Tells the index of the file that has a name.
#[unsafe(no_mangle)]
pub extern "C" fn protolink_file_by_name(
    alloc: Global,
    pool: &mut View,
    name: &[u8],
    file: &mut u32,
) -> u8
    ensures same { pool.new.shown ≡ pool.old.shown }
    ensures text { IsUtf8 name.now →
        written (finite.get (pool_in pool.old.shown).file_names name.now) file.old
        ≡ (file.new, result) }
    ensures no_text { ¬ (IsUtf8 name.now) → written None file.old ≡ (file.new, result) }
{
    let lent = lend(alloc, pool);
    let status = write(lent.answers().file_named(name), file);
    *pool = lent.back();
    status
}

/// Tells the position of the first value of an enum that has a number.
#[unsafe(no_mangle)]
pub extern "C" fn protolink_enum_value_by_number(
    alloc: Global,
    pool: &mut View,
    enumeration: u32,
    number: i32,
    position: &mut u32,
) -> u8
    ensures same { pool.new.shown ≡ pool.old.shown }
    ensures told { written
        (spec.value_numbered (pool_in pool.old.shown) enumeration number) position.old
        ≡ (position.new, result) }
{
    let lent = lend(alloc, pool);
    let status = write(lent.answers().value_numbered(enumeration, number), position);
    *pool = lent.back();
    status
}

/// Tells the position of the method of a service that has a name.
#[unsafe(no_mangle)]
pub extern "C" fn protolink_method_by_name(
    alloc: Global,
    pool: &mut View,
    service: u32,
    name: &[u8],
    position: &mut u32,
) -> u8
    ensures same { pool.new.shown ≡ pool.old.shown }
    ensures text { IsUtf8 name.now → result ≢ 3 →
        written (spec.method_named (pool_in pool.old.shown) service name.now) position.old
        ≡ (position.new, result) }
    ensures no_text { ¬ (IsUtf8 name.now) → result ≢ 3 →
        written None position.old ≡ (position.new, result) }
    ensures no_memory { result ≡ 3 → position.new ≡ position.old }
{
    let lent = lend(alloc, pool);
    let status = match lent.answers().method_named(alloc, service, name) {
        Ok(found) => write(found, position),
        Err(_) => NO_MEMORY,
    };
    *pool = lent.back();
    status
}

/// Hands out the name of a file.
#[unsafe(no_mangle)]
pub extern "C" fn protolink_file_name(
    alloc: Global,
    pool: &mut View,
    file: u32,
    buffer: &mut [u8],
    length: &mut usize,
) -> u8
    ensures same { pool.new.shown ≡ pool.old.shown }
    ensures told { handed_out_if (option_map (λ f. text_of f.raw.name)
        (slice_get (pool_in pool.old.shown).files file)) buffer.old length.old
        ≡ (buffer.new, (length.new, result)) }
{
    let lent = lend(alloc, pool);
    let status = match lent.answers().file_name(file) {
        Some(text) => hand_out(text.as_bytes(), buffer, length),
        None => NOT_FOUND,
    };
    *pool = lent.back();
    status
}

/// Hands out the package of a file, which is empty where it has none.
#[unsafe(no_mangle)]
pub extern "C" fn protolink_file_package(
    alloc: Global,
    pool: &mut View,
    file: u32,
    buffer: &mut [u8],
    length: &mut usize,
) -> u8
    ensures same { pool.new.shown ≡ pool.old.shown }
    ensures told { handed_out_if (option_map (λ f. text_of f.raw.«package»)
        (slice_get (pool_in pool.old.shown).files file)) buffer.old length.old
        ≡ (buffer.new, (length.new, result)) }
{
    let lent = lend(alloc, pool);
    let status = match lent.answers().file_package(file) {
        Some(text) => hand_out(text.as_bytes(), buffer, length),
        None => NOT_FOUND,
    };
    *pool = lent.back();
    status
}

/// Hands out the name of an item as it is declared, without its scope.
#[unsafe(no_mangle)]
pub extern "C" fn protolink_name(
    alloc: Global,
    pool: &mut View,
    item: &Item,
    buffer: &mut [u8],
    length: &mut usize,
) -> u8
    ensures same { pool.new.shown ≡ pool.old.shown }
    ensures told { handed_out_if (option_map spec.name_of
        (spec.identity_of (pool_in pool.old.shown) item.now)) buffer.old length.old
        ≡ (buffer.new, (length.new, result)) }
{
    let lent = lend(alloc, pool);
    let status = match lent.answers().name(*item) {
        Some(text) => hand_out(text.as_bytes(), buffer, length),
        None => NOT_FOUND,
    };
    *pool = lent.back();
    status
}

/// Hands out the full name of an item, without a leading dot.
#[unsafe(no_mangle)]
pub extern "C" fn protolink_full_name(
    alloc: Global,
    pool: &mut View,
    item: &Item,
    buffer: &mut [u8],
    length: &mut usize,
) -> u8
    ensures same { pool.new.shown ≡ pool.old.shown }
    ensures told { handed_out_if (option_map (λ id. id.full_name)
        (spec.identity_of (pool_in pool.old.shown) item.now)) buffer.old length.old
        ≡ (buffer.new, (length.new, result)) }
{
    let lent = lend(alloc, pool);
    let status = match lent.answers().full_name(*item) {
        Some(text) => hand_out(text.as_bytes(), buffer, length),
        None => NOT_FOUND,
    };
    *pool = lent.back();
    status
}

/// Hands out the JSON name of a field that was given one, or of an extension.
#[unsafe(no_mangle)]
pub extern "C" fn protolink_json_name(
    alloc: Global,
    pool: &mut View,
    item: &Item,
    buffer: &mut [u8],
    length: &mut usize,
) -> u8
    ensures same { pool.new.shown ≡ pool.old.shown }
    ensures told { handed_out_if
        (spec.json_name_of (pool_in pool.old.shown) item.now) buffer.old length.old
        ≡ (buffer.new, (length.new, result)) }
{
    let lent = lend(alloc, pool);
    let status = match lent.answers().json_name(*item) {
        Some(text) => hand_out(text.as_bytes(), buffer, length),
        None => NOT_FOUND,
    };
    *pool = lent.back();
    status
}

/// Hands out the default value of a field or an extension to which one was given, as bytes.
#[unsafe(no_mangle)]
pub extern "C" fn protolink_default(
    alloc: Global,
    pool: &mut View,
    item: &Item,
    buffer: &mut [u8],
    length: &mut usize,
) -> u8
    ensures same { pool.new.shown ≡ pool.old.shown }
    ensures told { result ≢ 3 →
        handed_out_if (option_map default_bytes
        (spec.default_of (pool_in pool.old.shown) item.now)) buffer.old length.old
        ≡ (buffer.new, (length.new, result)) }
    ensures no_memory { result ≡ 3 → (buffer.new ≡ buffer.old) × (length.new ≡ length.old) }
{
    let lent = lend(alloc, pool);
    let status = match lent.answers().default(alloc, *item) {
        Ok(Some(bytes)) => hand_out(bytes.as_slice(), buffer, length),
        Ok(None) => NOT_FOUND,
        Err(_) => NO_MEMORY,
    };
    *pool = lent.back();
    status
}
