//! Texts in bytes.

ghost use Rattle.std.specs.Prelude.{◌≡◌, ◌+◌, ◌<◌, ◌≤◌, ℕ, length, slice_index, true, false};
ghost use Rattle.std.specs.Prelude.{IsTrue, MatchOption};
ghost use Rattle.std.specs.Str.{IsAscii, is_utf8};

use std::str;

/// The text that bytes are, if they are UTF-8. Most are ASCII, which is seen in fewer steps.
pub fn read_utf8(bytes: &[u8]) -> Option<&str>
    ensures { MatchOption result (is_utf8 bytes.now ≡ false) (λ text. (text.now ≡ bytes.now)
        × (is_utf8 bytes.now ≡ true)) }
{
    if is_ascii(bytes) {
        return Some(unsafe { str::from_utf8_unchecked(bytes) });
    }
    match str::from_utf8(bytes) {
        Ok(text) => Some(text),
        Err(_) => None,
    }
}

/// Whether all bytes are ASCII. Eight are tested at once, and the last eight again with those
/// before them.
fn is_ascii(bytes: &[u8]) -> bool
    ensures { IsTrue result → IsAscii bytes.now }
{
    let len = bytes.len();
    if len < 8 {
        return are_few_ascii(bytes);
    }
    let mut at = 0;
    while at < len - 8 {
        if !are_eight_ascii(bytes, at) {
            return false;
        }
        at += 8;
    }
    are_eight_ascii(bytes, len - 8)
}

/// Whether fewer than eight bytes are ASCII.
fn are_few_ascii(bytes: &[u8]) -> bool
    requires { length bytes.now < 8 }
    ensures { IsTrue result → IsAscii bytes.now }
{
    let len = bytes.len();
    if len < 4 {
        return bytes.iter().all(|byte| *byte < 128);
    }
    if !are_four_ascii(bytes, 0) {
        return false;
    }
    are_four_ascii(bytes, len - 4)
}

/// Whether the eight bytes from a position on are ASCII: none has its high bit.
#[inline(always)]
fn are_eight_ascii(bytes: &[u8], at: usize) -> bool
    requires { at + 8 ≤ length bytes.now }
    ensures { IsTrue result → (i : ℕ) → at ≤ i → i < at + 8 → slice_index bytes.now i < 128 }
{
    let word = u64::from_le_bytes([
        bytes[at],
        bytes[at + 1],
        bytes[at + 2],
        bytes[at + 3],
        bytes[at + 4],
        bytes[at + 5],
        bytes[at + 6],
        bytes[at + 7],
    ]);
    word & 0x8080_8080_8080_8080 == 0
}

/// Whether the four bytes from a position on are ASCII.
#[inline(always)]
fn are_four_ascii(bytes: &[u8], at: usize) -> bool
    requires { at + 4 ≤ length bytes.now }
    ensures { IsTrue result → (i : ℕ) → at ≤ i → i < at + 4 → slice_index bytes.now i < 128 }
{
    let word = u32::from_le_bytes([bytes[at], bytes[at + 1], bytes[at + 2], bytes[at + 3]]);
    word & 0x8080_8080 == 0
}
