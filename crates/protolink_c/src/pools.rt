//! Pools: files are linked into them and handed out, and names are looked up.
ghost use Rattle.std.specs.Prelude.{◌≡◌, ◌≢◌, IsUtf8, None, slice_get};
ghost use Rattle.std.specs.Option.{option_map};
ghost use Rattle.descriptor_encoding.specs.Encoding.{file_encoding, set_encoding};
ghost use Rattle.pool_contents.specs.LookUps.{definition_named};
ghost use Rattle.numbered_pool.specs.Added.{unreported};
ghost use Rattle.numbered_pool.specs.Numbers as numbers;
ghost use Rattle.numbered_pool.specs.Reading.{each_read, file_read, script_read, set_read};
ghost use Rattle.pool_types.specs.Contents.{files_of};
ghost use Rattle.pool_types.specs.Extension.{extension_numbered};
ghost use Rattle.record_walk.specs.Counts.{counts_in};
ghost use Rattle.protolink_c.specs.Added.{IsAdded};
ghost use Rattle.protolink_c.specs.Seen.{read_in};
ghost use Rattle.protolink_c.specs.Shown.{added_in, answers_of, limited, pool_in, report_in};
ghost use Rattle.protolink_c.specs.Told.{handed_out, handed_out_if, located, written};

use crate::boxes::{boxed_copy, closed, opened};
use crate::handle::Handle;
use crate::lent::lend;
use crate::status::{DONE, NO_MEMORY, NOT_FOUND, SHORT};
use crate::told::{hand_out, locate, write};
use crate::view::View;
use numbered_pool::{Added, Answers, Item, PoolCounts, Status};
use std::alloc::Global;

/// 0.3.0, as the programs have it.
const VERSION: u32 = 3000;

/// The version of the library: a thousand thousands for the first number, a thousand for the
/// second, one for the third.
#[unsafe(no_mangle)]
pub extern "C" fn protolink_version() -> u32
    ensures { result ≡ 3000 }
{
    VERSION
}

/// Links the files of an encoded `FileDescriptorSet`, in one batch. After any status but `DONE` the
/// pool has what it had.
#[unsafe(no_mangle)]
pub extern "C" fn protolink_pool_add_set(alloc: Global, pool: &mut Handle, bytes: &[u8]) -> u8
    ensures { IsAdded (set_read bytes.now)
        (answers_of pool.old.shown) (answers_of pool.new.shown) result }
{
    let Some(mut answers) = opened(alloc, pool.take()) else {
        return NO_MEMORY;
    };
    let status = answers.add_set(alloc, bytes);
    closed(alloc, pool, answers, status)
}

/// Links the file of an encoded `FileDescriptorProto`. After any status but `DONE` the pool has
/// what it had.
#[unsafe(no_mangle)]
pub extern "C" fn protolink_pool_add_file(alloc: Global, pool: &mut Handle, bytes: &[u8]) -> u8
    ensures { IsAdded (file_read bytes.now)
        (answers_of pool.old.shown) (answers_of pool.new.shown) result }
{
    let Some(mut answers) = opened(alloc, pool.take()) else {
        return NO_MEMORY;
    };
    let status = answers.add_file(alloc, bytes);
    closed(alloc, pool, answers, status)
}

/// Links the files of several encoded `FileDescriptorProto`s, in any order, in one batch. They
/// stand behind one another in the bytes, by their lengths.
#[unsafe(no_mangle)]
pub extern "C" fn protolink_pool_add_files(
    alloc: Global,
    pool: &mut Handle,
    bytes: &[u8],
    lens: &[usize],
) -> u8
    ensures { IsAdded (each_read bytes.now lens.now)
        (answers_of pool.old.shown) (answers_of pool.new.shown) result }
{
    let Some(mut answers) = opened(alloc, pool.take()) else {
        return NO_MEMORY;
    };
    let status = answers.add_files(alloc, bytes, lens);
    closed(alloc, pool, answers, status)
}

/// Links the files that a script declares, in one batch. Its commands are passed over. After any
/// status but `DONE` the pool has what it had.
#[unsafe(no_mangle)]
pub extern "C" fn protolink_pool_add_script(alloc: Global, pool: &mut Handle, script: &[u8]) -> u8
    ensures { IsAdded (script_read script.now)
        (answers_of pool.old.shown) (answers_of pool.new.shown) result }
{
    let Some(mut answers) = opened(alloc, pool.take()) else {
        return NO_MEMORY;
    };
    let status = answers.add_script(alloc, script);
    closed(alloc, pool, answers, status)
}

/// Sets how many faults the reports tell at most of calls from now on that add files. The pool and
/// its reports stay.
#[unsafe(no_mangle)]
pub extern "C" fn protolink_pool_limit_faults(alloc: Global, pool: &mut Handle, most: usize) -> u8
    ensures limited { result ≡ 0 →
        answers_of pool.new.shown ≡ limited most (answers_of pool.old.shown) }
    ensures no_memory { result ≢ 0 → (result ≡ 3) × (pool.new.shown ≡ pool.old.shown) }
{
    let Some(mut answers) = opened(alloc, pool.take()) else {
        return NO_MEMORY;
    };
    answers.max_faults = most;
    closed(alloc, pool, answers, Status::Done)
}

/// Tells what became of the files of the last call that was to add some, where it did; else that
/// there were none.
#[unsafe(no_mangle)]
pub extern "C" fn protolink_pool_added(alloc: Global, pool: &mut View, added: &mut Added)
    ensures same { pool.new.shown ≡ pool.old.shown }
    ensures told { added.new ≡ added_in pool.old.shown }
{
    let lent = lend(alloc, pool);
    *added = lent.answers().added;
    *pool = lent.back();
}

/// Hands out the report of the last call that was to add files, in lines.
#[unsafe(no_mangle)]
pub extern "C" fn protolink_pool_report(
    alloc: Global,
    pool: &mut View,
    buffer: &mut [u8],
    length: &mut usize,
) -> u8
    ensures same { pool.new.shown ≡ pool.old.shown }
    ensures told { handed_out (report_in pool.old.shown).lines buffer.old
        ≡ (buffer.new, (length.new, result)) }
{
    let lent = lend(alloc, pool);
    let status = hand_out(
        lent.answers().report.lines.as_str().as_bytes(),
        buffer,
        length,
    );
    *pool = lent.back();
    status
}

/// Hands out the report of the last call that was to add files, as an object of JSON on one line.
#[unsafe(no_mangle)]
pub extern "C" fn protolink_pool_report_json(
    alloc: Global,
    pool: &mut View,
    buffer: &mut [u8],
    length: &mut usize,
) -> u8
    ensures same { pool.new.shown ≡ pool.old.shown }
    ensures told { handed_out (report_in pool.old.shown).json buffer.old
        ≡ (buffer.new, (length.new, result)) }
{
    let lent = lend(alloc, pool);
    let status = hand_out(
        lent.answers().report.json.as_str().as_bytes(),
        buffer,
        length,
    );
    *pool = lent.back();
    status
}

/// Hands out all linked files, as the canonical encoding of one set, in the order of linking.
#[unsafe(no_mangle)]
pub extern "C" fn protolink_pool_linked(
    alloc: Global,
    pool: &mut View,
    buffer: &mut [u8],
    length: &mut usize,
) -> u8
    ensures same { pool.new.shown ≡ pool.old.shown }
    ensures told { result ≢ 3 →
        handed_out (set_encoding (record { file = files_of (pool_in pool.old.shown) })) buffer.old
        ≡ (buffer.new, (length.new, result)) }
    ensures no_memory { result ≡ 3 → (buffer.new ≡ buffer.old) × (length.new ≡ length.old) }
{
    let lent = lend(alloc, pool);
    let status = hand_out_linked(alloc, lent.answers(), buffer, length);
    *pool = lent.back();
    status
}

/// Copies the encoding of all linked files to the front of a buffer, if it fits, and tells its
/// length. Nothing is encoded where it does not fit.
fn hand_out_linked(alloc: Global, answers: &Answers, buffer: &mut [u8], length: &mut usize) -> u8
    ensures told { result ≢ 3 →
        handed_out (set_encoding (record { file = files_of answers.now.pool })) buffer.old
        ≡ (buffer.new, (length.new, result)) }
    ensures no_memory { result ≡ 3 → (buffer.new ≡ buffer.old) × (length.new ≡ length.old) }
{
    let Ok(len) = answers.linked_len(alloc) else {
        return NO_MEMORY;
    };
    if len > buffer.len() {
        *length = len;
        return SHORT;
    }
    match answers.linked(alloc) {
        Ok(bytes) => hand_out(bytes.as_slice(), buffer, length),
        Err(_) => NO_MEMORY,
    }
}

/// Hands out the canonical encoding of one linked file, by its index.
#[unsafe(no_mangle)]
pub extern "C" fn protolink_pool_linked_file(
    alloc: Global,
    pool: &mut View,
    file: u32,
    buffer: &mut [u8],
    length: &mut usize,
) -> u8
    ensures same { pool.new.shown ≡ pool.old.shown }
    ensures told { result ≢ 3 →
        handed_out_if (option_map (λ f. file_encoding f.raw)
        (slice_get (pool_in pool.old.shown).files file)) buffer.old length.old
        ≡ (buffer.new, (length.new, result)) }
    ensures no_memory { result ≡ 3 → (buffer.new ≡ buffer.old) × (length.new ≡ length.old) }
{
    let lent = lend(alloc, pool);
    let status = hand_out_file(alloc, lent.answers(), file, buffer, length);
    *pool = lent.back();
    status
}

/// Copies the encoding of a linked file to the front of a buffer, if it fits, and tells its length.
/// Nothing is encoded where it does not fit.
fn hand_out_file(
    alloc: Global,
    answers: &Answers,
    file: u32,
    buffer: &mut [u8],
    length: &mut usize,
) -> u8
    ensures told { result ≢ 3 →
        handed_out_if (option_map (λ f. file_encoding f.raw)
        (slice_get answers.now.pool.files file)) buffer.old length.old
        ≡ (buffer.new, (length.new, result)) }
    ensures no_memory { result ≡ 3 → (buffer.new ≡ buffer.old) × (length.new ≡ length.old) }
{
    match answers.linked_file_len(alloc, file) {
        Ok(Some(len)) if len > buffer.len() => {
            *length = len;
            return SHORT;
        }
        Ok(_) => {}
        Err(_) => return NO_MEMORY,
    }
    match answers.linked_file(alloc, file) {
        Ok(Some(bytes)) => hand_out(bytes.as_slice(), buffer, length),
        Ok(None) => NOT_FOUND,
        Err(_) => NO_MEMORY,
    }
}

/// Tells what a full name means, and the file in which it is declared. The name may have one
/// leading dot.
#[unsafe(no_mangle)]
pub extern "C" fn protolink_pool_find(
    alloc: Global,
    pool: &mut View,
    name: &[u8],
    item: &mut Item,
    file: &mut u32,
) -> u8
    ensures same { pool.new.shown ≡ pool.old.shown }
    ensures text { IsUtf8 name.now →
        located (option_map numbers.found_item
        (definition_named (pool_in pool.old.shown) name.now)) item.old file.old
        ≡ (item.new, (file.new, result)) }
    ensures no_text { ¬ (IsUtf8 name.now) → located None item.old file.old
        ≡ (item.new, (file.new, result)) }
{
    let lent = lend(alloc, pool);
    let status = locate(lent.answers().find(name), item, file);
    *pool = lent.back();
    status
}

/// Hands out the path of the name that a full name means, in the record of its file.
#[unsafe(no_mangle)]
pub extern "C" fn protolink_pool_find_path(
    alloc: Global,
    pool: &mut View,
    name: &[u8],
    path: &mut [i32],
    length: &mut usize,
) -> u8
    ensures same { pool.new.shown ≡ pool.old.shown }
    ensures text { IsUtf8 name.now →
        handed_out_if (option_map (λ d. d.path)
        (definition_named (pool_in pool.old.shown) name.now)) path.old length.old
        ≡ (path.new, (length.new, result)) }
    ensures no_text { ¬ (IsUtf8 name.now) → handed_out_if None path.old length.old
        ≡ (path.new, (length.new, result)) }
{
    let lent = lend(alloc, pool);
    let status = hand_out_path(lent.answers(), name, path, length);
    *pool = lent.back();
    status
}

/// Copies the path of what a full name means to the front of a buffer, and tells its length.
fn hand_out_path(answers: &Answers, name: &[u8], path: &mut [i32], length: &mut usize) -> u8
    ensures text { IsUtf8 name.now →
        handed_out_if (option_map (λ d. d.path)
        (definition_named answers.now.pool name.now)) path.old length.old
        ≡ (path.new, (length.new, result)) }
    ensures no_text { ¬ (IsUtf8 name.now) → handed_out_if None path.old length.old
        ≡ (path.new, (length.new, result)) }
{
    match answers.find_path(name) {
        Some(numbers) => hand_out(numbers, path, length),
        None => NOT_FOUND,
    }
}

/// Tells how many of each kind a pool has.
#[unsafe(no_mangle)]
pub extern "C" fn protolink_pool_counts(alloc: Global, pool: &mut View, counts: &mut PoolCounts)
    ensures same { pool.new.shown ≡ pool.old.shown }
    ensures told { counts.new ≡ numbers.pool_counts (counts_in (pool_in pool.old.shown)) }
{
    let lent = lend(alloc, pool);
    *counts = lent.answers().counts();
    *pool = lent.back();
}

/// Tells the index of the extension of a message that has a number.
#[unsafe(no_mangle)]
pub extern "C" fn protolink_pool_extension(
    alloc: Global,
    pool: &mut View,
    message: u32,
    number: u32,
    extension: &mut u32,
) -> u8
    ensures same { pool.new.shown ≡ pool.old.shown }
    ensures told { written (extension_numbered
        (pool_in pool.old.shown).extensions message number) extension.old
        ≡ (extension.new, result) }
{
    let lent = lend(alloc, pool);
    let status = write(
        lent.answers().extension_numbered(message, number),
        extension,
    );
    *pool = lent.back();
    status
}

/// Makes `copy` a pool with equal contents, the same limit of faults and an empty report, which
/// shares nothing with the first. What it had is freed; where memory was refused, it is empty.
#[unsafe(no_mangle)]
pub extern "C" fn protolink_pool_clone(alloc: Global, pool: &mut View, copy: &mut Handle) -> u8
    ensures same { pool.new.shown ≡ pool.old.shown }
    ensures copied { result ≡ 0 →
        answers_of copy.new.shown ≡ unreported (answers_of (read_in pool.old.shown)) }
    ensures no_memory { result ≢ 0 → (result ≡ 3) × (copy.new.shown ≡ None) }
{
    copy.put(alloc, Handle::empty());
    let Some(part) = pool.take().into_part() else {
        return DONE;
    };
    let copied = boxed_copy(alloc, part.get());
    *pool = View::of_part(part);
    let Some(copied) = copied else {
        return NO_MEMORY;
    };
    copy.put(alloc, Handle::of_box(copied));
    DONE
}

/// Frees what a pool owns. It is an empty pool then.
#[unsafe(no_mangle)]
pub extern "C" fn protolink_pool_clear(alloc: Global, pool: &mut Handle)
    ensures { pool.new.shown ≡ None }
{
    pool.put(alloc, Handle::empty());
}
