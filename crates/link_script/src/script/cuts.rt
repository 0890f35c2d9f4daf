//! Texts that are cut at a byte, or compared. Words and numbers are short: a search by single bytes
//! takes fewer steps there than one that is made for long texts. Lines are searched for in blocks.

ghost use Rattle.std.specs.Prelude.{◌≡◌, ◌+◌, ◌<◌, ◌≤◌, ◌==◌, length, take, drop, slice_index};
ghost use Rattle.std.specs.Prelude.{MatchOption};
ghost use Rattle.std.specs.List.{position, position_or_len, before_first, after_first};
ghost use Rattle.std.specs.Str.{bytes_eq};

use std::simd::prelude::*;

/// Where a byte stands first, if it does.
pub(super) fn first_place(bytes: &[u8], wanted: u8) -> Option<usize>
    ensures { result ≡ position (λ c. c == wanted) bytes.now }
{
    bytes.iter().position(|byte| *byte == wanted)
}

/// How many bytes are looked at at a time where many are.
const BLOCK: usize = 16;

/// Where a byte stands first in a block from a place on, or else the length of the block.
fn place_in_block(bytes: &[u8], from: usize, wanted: u8) -> usize
    requires { from + BLOCK ≤ length bytes.now }
    ensures { result ≡ position_or_len (λ c. c == wanted) (take BLOCK (drop from bytes.now)) }
{
    let block = u8x16::from_slice(&bytes[from..]);
    let found = block.simd_eq(u8x16::splat(wanted)).to_bitmask();
    if found == 0 {
        BLOCK
    } else {
        found.trailing_zeros() as usize
    }
}

/// Where a byte stands first, if it does, as it is searched for in longer bytes.
pub(super) fn first_far_place(bytes: &[u8], wanted: u8) -> Option<usize>
    ensures { result ≡ position (λ c. c == wanted) bytes.now }
{
    let mut passed = 0;
    while bytes.len() - passed >= BLOCK {
        let place = place_in_block(bytes, passed, wanted);
        if place < BLOCK {
            return Some(passed + place);
        }
        passed += BLOCK;
    }
    Some(passed + first_place(&bytes[passed..], wanted)?)
}

/// What stands before the first of an ASCII character in a text, and what stands behind it.
pub(super) fn cut_at(text: &str, character: u8) -> Option<(&str, &str)>
    requires { character < 128 }
    ensures { MatchOption result (position_or_len (λ c. c == character) text.now ≡ length text.now)
        (λ cut. (cut.0.now ≡ before_first (λ c. c == character) text.now)
        × (cut.1.now ≡ after_first (λ c. c == character) text.now)
        × (position_or_len (λ c. c == character) text.now < length text.now)) }
{
    let place = first_place(text.as_bytes(), character)?;
    Some(parted(text, place))
}

/// What stands before an ASCII character in a text, and what stands behind it.
pub(super) fn parted(text: &str, place: usize) -> (&str, &str)
    requires place { place < length text.now }
    requires ascii { slice_index text.now place < 128 }
    ensures { (result.0.now ≡ take place text.now) × (result.1.now ≡ drop (place + 1) text.now) }
{
    (&text[..place], &text[place + 1..])
}

/// Whether two texts are the same. Most differ in their lengths or in their last bytes, which are
/// compared first.
pub(super) fn is_same(word: &str, name: &str) -> bool
    ensures { result ≡ bytes_eq word.now name.now }
{
    word.len() == name.len() && word.as_bytes().last() == name.as_bytes().last() && word == name
}
