//! Whether a name has a dot.

ghost use Rattle.std.specs.Prelude.{◌≡◌, ◌≢◌, ◌+◌, ◌<◌, ◌≤◌, ℕ, length, slice_index, false, IsTrue};

/// Whether no byte is a dot. Eight bytes are looked at at once, and the last eight again with those
/// before them.
pub(crate) fn has_no_dot(bytes: &[u8]) -> bool
    ensures { IsTrue result → (i : ℕ) → i < length bytes.now → slice_index bytes.now i ≢ 46 }
{
    let len = bytes.len();
    if len < 8 {
        return few_have_no_dot(bytes);
    }
    let mut at = 0;
    while at < len - 8 {
        if eight_have_dot(bytes, at) {
            return false;
        }
        at += 8;
    }
    !eight_have_dot(bytes, len - 8)
}

/// Whether none of fewer than eight bytes is a dot.
fn few_have_no_dot(bytes: &[u8]) -> bool
    requires { length bytes.now < 8 }
    ensures { IsTrue result → (i : ℕ) → i < length bytes.now → slice_index bytes.now i ≢ 46 }
{
    let len = bytes.len();
    if len < 4 {
        return bytes.iter().all(|byte| *byte != b'.');
    }
    if four_have_dot(bytes, 0) {
        return false;
    }
    !four_have_dot(bytes, len - 4)
}

/// Whether one of the eight bytes from a position on is a dot.
// Each is looked at, so that all are compared by one instruction.
#[inline(always)]
fn eight_have_dot(bytes: &[u8], at: usize) -> bool
    requires { at + 8 ≤ length bytes.now }
    ensures { result ≡ false → (i : ℕ) → at ≤ i → i < at + 8 → slice_index bytes.now i ≢ 46 }
{
    four_have_dot(bytes, at) | four_have_dot(bytes, at + 4)
}

/// Whether one of the four bytes from a position on is a dot.
#[inline(always)]
fn four_have_dot(bytes: &[u8], at: usize) -> bool
    requires { at + 4 ≤ length bytes.now }
    ensures { result ≡ false → (i : ℕ) → at ≤ i → i < at + 4 → slice_index bytes.now i ≢ 46 }
{
    (bytes[at] == b'.')
        | (bytes[at + 1] == b'.')
        | (bytes[at + 2] == b'.')
        | (bytes[at + 3] == b'.')
}
