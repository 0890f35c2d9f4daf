//! The options of files and items, and what the source of a file says of its items. A call answers
//! `NOT_FOUND` where there is no such thing, and then writes nothing.
ghost use Rattle.std.specs.Prelude.{◌≡◌};
ghost use Rattle.numbered_pool.specs.Sources as spec;
ghost use Rattle.protolink_c.specs.Shown.{pool_in};
ghost use Rattle.protolink_c.specs.Told.{handed_out_if};

use crate::lent::lend;
use crate::status::NOT_FOUND;
use crate::told::hand_out;
use crate::view::View;
use numbered_pool::Item;
use std::alloc::Global;

/// Hands out the options of a file, as bytes; there are none where it has no options.
#[unsafe(no_mangle)]
pub extern "C" fn protolink_file_options(
    alloc: Global,
    pool: &mut View,
    file: u32,
    buffer: &mut [u8],
    length: &mut usize,
) -> u8
    ensures same { pool.new.shown ≡ pool.old.shown }
    ensures told { handed_out_if
        (spec.file_options (pool_in pool.old.shown) file) buffer.old length.old
        ≡ (buffer.new, (length.new, result)) }
{
    let lent = lend(alloc, pool);
    let status = match lent.answers().file_options(file) {
        Some(bytes) => hand_out(bytes, buffer, length),
        None => NOT_FOUND,
    };
    *pool = lent.back();
    status
}

/// Hands out the options of an item, as bytes; there are none where it has no options.
#[unsafe(no_mangle)]
pub extern "C" fn protolink_options(
    alloc: Global,
    pool: &mut View,
    item: &Item,
    buffer: &mut [u8],
    length: &mut usize,
) -> u8
    ensures same { pool.new.shown ≡ pool.old.shown }
    ensures told { handed_out_if
        (spec.item_options (pool_in pool.old.shown) item.now) buffer.old length.old
        ≡ (buffer.new, (length.new, result)) }
{
    let lent = lend(alloc, pool);
    let status = match lent.answers().options(*item) {
        Some(bytes) => hand_out(bytes, buffer, length),
        None => NOT_FOUND,
    };
    *pool = lent.back();
    status
}

/// Hands out the path of an item in the record of its file.
#[unsafe(no_mangle)]
pub extern "C" fn protolink_path(
    alloc: Global,
    pool: &mut View,
    item: &Item,
    path: &mut [i32],
    length: &mut usize,
) -> u8
    ensures same { pool.new.shown ≡ pool.old.shown }
    ensures told { handed_out_if
        (spec.item_path (pool_in pool.old.shown) item.now) path.old length.old
        ≡ (path.new, (length.new, result)) }
{
    let lent = lend(alloc, pool);
    let status = match lent.answers().path(*item) {
        Some(numbers) => hand_out(numbers, path, length),
        None => NOT_FOUND,
    };
    *pool = lent.back();
    status
}

/// Hands out the numbers of the place of an item in the source of its file.
#[unsafe(no_mangle)]
pub extern "C" fn protolink_span(
    alloc: Global,
    pool: &mut View,
    item: &Item,
    span: &mut [i32],
    length: &mut usize,
) -> u8
    ensures same { pool.new.shown ≡ pool.old.shown }
    ensures told { handed_out_if
        (spec.item_span (pool_in pool.old.shown) item.now) span.old length.old
        ≡ (span.new, (length.new, result)) }
{
    let lent = lend(alloc, pool);
    let status = match lent.answers().span(*item) {
        Some(numbers) => hand_out(numbers, span, length),
        None => NOT_FOUND,
    };
    *pool = lent.back();
    status
}

/// Hands out the comment right before an item.
#[unsafe(no_mangle)]
pub extern "C" fn protolink_leading_comments(
    alloc: Global,
    pool: &mut View,
    item: &Item,
    buffer: &mut [u8],
    length: &mut usize,
) -> u8
    ensures same { pool.new.shown ≡ pool.old.shown }
    ensures told { handed_out_if
        (spec.leading_comments (pool_in pool.old.shown) item.now) buffer.old length.old
        ≡ (buffer.new, (length.new, result)) }
{
    let lent = lend(alloc, pool);
    let status = match lent.answers().leading_comments(*item) {
        Some(text) => hand_out(text.as_bytes(), buffer, length),
        None => NOT_FOUND,
    };
    *pool = lent.back();
    status
}

/// Hands out the comment right behind an item.
#[unsafe(no_mangle)]
pub extern "C" fn protolink_trailing_comments(
    alloc: Global,
    pool: &mut View,
    item: &Item,
    buffer: &mut [u8],
    length: &mut usize,
) -> u8
    ensures same { pool.new.shown ≡ pool.old.shown }
    ensures told { handed_out_if
        (spec.trailing_comments (pool_in pool.old.shown) item.now) buffer.old length.old
        ≡ (buffer.new, (length.new, result)) }
{
    let lent = lend(alloc, pool);
    let status = match lent.answers().trailing_comments(*item) {
        Some(text) => hand_out(text.as_bytes(), buffer, length),
        None => NOT_FOUND,
    };
    *pool = lent.back();
    status
}

/// Hands out the comment at a position among those that stand before an item by themselves.
#[unsafe(no_mangle)]
pub extern "C" fn protolink_detached_comments(
    alloc: Global,
    pool: &mut View,
    item: &Item,
    position: u32,
    buffer: &mut [u8],
    length: &mut usize,
) -> u8
    ensures same { pool.new.shown ≡ pool.old.shown }
    ensures told { handed_out_if
        (spec.detached_comments (pool_in pool.old.shown) item.now position) buffer.old length.old
        ≡ (buffer.new, (length.new, result)) }
{
    let lent = lend(alloc, pool);
    let status = match lent.answers().detached_comments(*item, position) {
        Some(text) => hand_out(text.as_bytes(), buffer, length),
        None => NOT_FOUND,
    };
    *pool = lent.back();
    status
}
