//! What a pool has at an index, and at a position there. Each call answers `DONE`, or `NOT_FOUND`
//! where the pool has no such thing, and then writes nothing.
ghost use Rattle.std.specs.Prelude.{◌≡◌, slice_get};
ghost use Rattle.std.specs.Option.{option_map};
ghost use Rattle.numbered_pool.specs.Items as spec;
ghost use Rattle.numbered_pool.specs.Numbers as numbers;
ghost use Rattle.protolink_c.specs.Shown.{pool_in};
ghost use Rattle.protolink_c.specs.Told.{written};

use crate::lent::lend;
use crate::told::write;
use crate::view::View;
use numbered_pool::{
    EnumItem, ExtensionItem, FieldItem, FileItem, MessageItem, MethodItem, OneofItem, ServiceItem,
    ValueItem,
};
use std::alloc::Global;

/// Tells a file, by its index.
#[unsafe(no_mangle)]
pub extern "C" fn protolink_file(
    alloc: Global,
    pool: &mut View,
    file: u32,
    info: &mut FileItem,
) -> u8
    ensures same { pool.new.shown ≡ pool.old.shown }
    ensures told { written (option_map numbers.file_item
        (slice_get (pool_in pool.old.shown).files file)) info.old
        ≡ (info.new, result) }
{
    let lent = lend(alloc, pool);
    let status = write(lent.answers().file(file), info);
    *pool = lent.back();
    status
}

/// Tells a message, by its index.
#[unsafe(no_mangle)]
pub extern "C" fn protolink_message(
    alloc: Global,
    pool: &mut View,
    message: u32,
    info: &mut MessageItem,
) -> u8
    ensures same { pool.new.shown ≡ pool.old.shown }
    ensures told { written (option_map (numbers.message_item (pool_in pool.old.shown))
        (slice_get (pool_in pool.old.shown).messages message)) info.old
        ≡ (info.new, result) }
{
    let lent = lend(alloc, pool);
    let status = write(lent.answers().message(message), info);
    *pool = lent.back();
    status
}

/// Tells a field, by its message and its position there.
#[unsafe(no_mangle)]
pub extern "C" fn protolink_field(
    alloc: Global,
    pool: &mut View,
    message: u32,
    position: u32,
    info: &mut FieldItem,
) -> u8
    ensures same { pool.new.shown ≡ pool.old.shown }
    ensures told { written (option_map (numbers.field_item (pool_in pool.old.shown))
        (spec.field_at (pool_in pool.old.shown) message position)) info.old
        ≡ (info.new, result) }
{
    let lent = lend(alloc, pool);
    let status = write(lent.answers().field(message, position), info);
    *pool = lent.back();
    status
}

/// Tells a oneof, by its message and its position there.
#[unsafe(no_mangle)]
pub extern "C" fn protolink_oneof(
    alloc: Global,
    pool: &mut View,
    message: u32,
    position: u32,
    info: &mut OneofItem,
) -> u8
    ensures same { pool.new.shown ≡ pool.old.shown }
    ensures told { written (spec.oneof_item (pool_in pool.old.shown) message position) info.old
        ≡ (info.new, result) }
{
    let lent = lend(alloc, pool);
    let status = write(lent.answers().oneof(message, position), info);
    *pool = lent.back();
    status
}

/// Tells an enum, by its index.
#[unsafe(no_mangle)]
pub extern "C" fn protolink_enum(
    alloc: Global,
    pool: &mut View,
    enumeration: u32,
    info: &mut EnumItem,
) -> u8
    ensures same { pool.new.shown ≡ pool.old.shown }
    ensures told { written (option_map (numbers.enum_item (pool_in pool.old.shown))
        (slice_get (pool_in pool.old.shown).enums enumeration)) info.old
        ≡ (info.new, result) }
{
    let lent = lend(alloc, pool);
    let status = write(lent.answers().enumeration(enumeration), info);
    *pool = lent.back();
    status
}

/// Tells a value, by its enum and its position there.
#[unsafe(no_mangle)]
pub extern "C" fn protolink_enum_value(
    alloc: Global,
    pool: &mut View,
    enumeration: u32,
    position: u32,
    info: &mut ValueItem,
) -> u8
    ensures same { pool.new.shown ≡ pool.old.shown }
    ensures told { written (option_map (numbers.value_item (pool_in pool.old.shown))
        (spec.value_at (pool_in pool.old.shown) enumeration position)) info.old
        ≡ (info.new, result) }
{
    let lent = lend(alloc, pool);
    let status = write(lent.answers().value(enumeration, position), info);
    *pool = lent.back();
    status
}

/// Tells a service, by its index.
#[unsafe(no_mangle)]
pub extern "C" fn protolink_service(
    alloc: Global,
    pool: &mut View,
    service: u32,
    info: &mut ServiceItem,
) -> u8
    ensures same { pool.new.shown ≡ pool.old.shown }
    ensures told { written (option_map (numbers.service_item (pool_in pool.old.shown))
        (slice_get (pool_in pool.old.shown).services service)) info.old
        ≡ (info.new, result) }
{
    let lent = lend(alloc, pool);
    let status = write(lent.answers().service(service), info);
    *pool = lent.back();
    status
}

/// Tells a method, by its service and its position there.
#[unsafe(no_mangle)]
pub extern "C" fn protolink_method(
    alloc: Global,
    pool: &mut View,
    service: u32,
    position: u32,
    info: &mut MethodItem,
) -> u8
    ensures same { pool.new.shown ≡ pool.old.shown }
    ensures told { written (option_map (numbers.method_item (pool_in pool.old.shown))
        (spec.method_at (pool_in pool.old.shown) service position)) info.old
        ≡ (info.new, result) }
{
    let lent = lend(alloc, pool);
    let status = write(lent.answers().method(service, position), info);
    *pool = lent.back();
    status
}

/// Tells an extension, by its index.
#[unsafe(no_mangle)]
pub extern "C" fn protolink_extension(
    alloc: Global,
    pool: &mut View,
    extension: u32,
    info: &mut ExtensionItem,
) -> u8
    ensures same { pool.new.shown ≡ pool.old.shown }
    ensures told { written (option_map (numbers.extension_item (pool_in pool.old.shown))
        (slice_get (pool_in pool.old.shown).extensions extension)) info.old
        ≡ (info.new, result) }
{
    let lent = lend(alloc, pool);
    let status = write(lent.answers().extension(extension), info);
    *pool = lent.back();
    status
}

/// Tells the index of the file that a file imports at a position.
#[unsafe(no_mangle)]
pub extern "C" fn protolink_file_import(
    alloc: Global,
    pool: &mut View,
    file: u32,
    position: u32,
    imported: &mut u32,
) -> u8
    ensures same { pool.new.shown ≡ pool.old.shown }
    ensures told { written (spec.import_at (pool_in pool.old.shown) file position) imported.old
        ≡ (imported.new, result) }
{
    let lent = lend(alloc, pool);
    let status = write(lent.answers().import(file, position), imported);
    *pool = lent.back();
    status
}

/// Tells the index of the extension that stands at a position among those of a message.
#[unsafe(no_mangle)]
pub extern "C" fn protolink_message_extension(
    alloc: Global,
    pool: &mut View,
    message: u32,
    position: u32,
    extension: &mut u32,
) -> u8
    ensures same { pool.new.shown ≡ pool.old.shown }
    ensures told { written
        (spec.extension_at (pool_in pool.old.shown) message position) extension.old
        ≡ (extension.new, result) }
{
    let lent = lend(alloc, pool);
    let status = write(
        lent.answers().message_extension(message, position),
        extension,
    );
    *pool = lent.back();
    status
}

/// Tells the position in its message of the field that a oneof has at a position.
#[unsafe(no_mangle)]
pub extern "C" fn protolink_oneof_field(
    alloc: Global,
    pool: &mut View,
    message: u32,
    oneof: u32,
    position: u32,
    field: &mut u32,
) -> u8
    ensures same { pool.new.shown ≡ pool.old.shown }
    ensures told { written
        (spec.oneof_field_at (pool_in pool.old.shown) message oneof position) field.old
        ≡ (field.new, result) }
{
    let lent = lend(alloc, pool);
    let status = write(lent.answers().oneof_field(message, oneof, position), field);
    *pool = lent.back();
    status
}
