//! What a call leaves at the places of its caller.
ghost use Rattle.std.specs.Prelude.{◌≡◌};
ghost use Rattle.protolink_c.specs.Told.{handed_out, located, written};

use crate::status::{DONE, NOT_FOUND, SHORT};
use numbered_pool::{Found, Item};

/// Writes what was found.
pub fn write<T: Copy>(found: Option<T>, place: &mut T) -> u8
    ensures { written found place.old ≡ (place.new, result) }
{
    match found {
        Some(found) => {
            *place = found;
            DONE
        }
        None => NOT_FOUND,
    }
}

/// Writes what item was found, and its file.
pub fn locate(found: Option<Found>, item: &mut Item, file: &mut u32) -> u8
    ensures { located found item.old file.old ≡ (item.new, (file.new, result)) }
{
    match found {
        Some(found) => {
            *item = found.item;
            *file = found.file;
            DONE
        }
        None => NOT_FOUND,
    }
}

/// Copies a text to the front of a buffer, if it fits, and tells its length.
pub fn hand_out<T: Copy>(text: &[T], buffer: &mut [T], length: &mut usize) -> u8
    ensures { handed_out text.now buffer.old ≡ (buffer.new, (length.new, result)) }
{
    *length = text.len();
    if text.len() > buffer.len() {
        return SHORT;
    }
    buffer[..text.len()].copy_from_slice(text);
    DONE
}
