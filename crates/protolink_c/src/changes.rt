//! What a pool changes of an older one.
ghost use Rattle.std.specs.Prelude.{◌≡◌, ◌≢◌};
ghost use Rattle.numbered_pool.specs.Changes.{changes_json};
ghost use Rattle.protolink_c.specs.Shown.{answers_in};
ghost use Rattle.protolink_c.specs.Told.{handed_out_if};

use crate::lent::lend;
use crate::status::{NO_MEMORY, NOT_FOUND};
use crate::told::hand_out;
use crate::view::View;
use numbered_pool::Asked;
use std::alloc::Global;

/// Hands out what a pool changes of an older one, as an object of JSON on one line, at the level
/// with a number: 0 wire, 1 json, 2 source; and for the compatibility with a number: 0 backward,
/// 1 forward, 2 full, which is both directions in this order.
#[unsafe(no_mangle)]
pub extern "C" fn protolink_pool_changes(
    alloc: Global,
    pool: &mut View,
    older: &mut View,
    level: u32,
    compatibility: u32,
    buffer: &mut [u8],
    length: &mut usize,
) -> u8
    ensures same { pool.new.shown ≡ pool.old.shown }
    ensures same_older { older.new.shown ≡ older.old.shown }
    ensures told { result ≢ 3 →
        handed_out_if (changes_json
        (answers_in pool.old.shown) (answers_in older.old.shown)
        (record { level = level; compatibility = compatibility })) buffer.old length.old
        ≡ (buffer.new, (length.new, result)) }
    ensures no_memory { result ≡ 3 → (buffer.new ≡ buffer.old) × (length.new ≡ length.old) }
{
    let lent = lend(alloc, pool);
    let lent_older = lend(alloc, older);
    let asked = Asked {
        level,
        compatibility,
    };
    let changes = lent.answers().changes(alloc, lent_older.answers(), asked);
    *pool = lent.back();
    *older = lent_older.back();
    match changes {
        Ok(Some(text)) => hand_out(text.as_bytes(), buffer, length),
        Ok(None) => NOT_FOUND,
        Err(_) => NO_MEMORY,
    }
}
