ghost use Rattle.std.specs.Prelude.{◌≡◌, ◌<◌, ◌≤◌, ◌↔◌, length, nat_eq, IsTrue, MatchOption};
ghost use Rattle.std.specs.List.{IsDistinct};
ghost use Rattle.std.specs.List.Sorted.{IsNonDecreasing, IsPermutation, IsStrictlyIncreasing};
ghost use Rattle.plain_data.specs.Digests.{both_ends, digest_after, digest_of, taken_in};
ghost use Rattle.plain_data.specs.Digests.{with_ending};

/// A number by which texts are told apart at first sight, for a text that stands behind others with
/// such a number: its length, and eight bytes at a time, of which the last eight are taken in once
/// more. A text that has fewer is taken in as `with_ending` says.
pub fn digest_after(front: u64, text: &[u8]) -> u64
    ensures { result ≡ digest_after front text.now }
{
    let mut digest = front ^ text.len() as u64;
    let mut rest = text;
    while let Some((word, behind)) = rest.split_first_chunk::<8>() {
        digest = taken_in(digest, u64::from_le_bytes(*word));
        rest = behind;
    }
    with_ending(digest, text)
}

/// Half of such a number, of a text behind no other.
pub(crate) fn digest(text: &[u8]) -> u32
    ensures { result ≡ digest_of text.now }
{
    (digest_after(0, text) / 0x1_0000_0000) as u32
}

/// A digest with the last eight bytes of a text; of a text that has fewer, with the first and the
/// last four at once, or with each of three at most.
fn with_ending(digest: u64, text: &[u8]) -> u64
    ensures { result ≡ with_ending digest text.now }
{
    if let Some(word) = text.last_chunk::<8>() {
        return taken_in(digest, u64::from_le_bytes(*word));
    }
    if let Some(ends) = both_ends(text) {
        return taken_in(digest, ends);
    }
    let mut digest = digest;
    for byte in text {
        digest = taken_in(digest, *byte as u64);
    }
    digest
}

/// The first four bytes of a text, and its last four above them, as one number; none of a text that
/// has fewer.
fn both_ends(text: &[u8]) -> Option<u64>
    ensures { MatchOption result (length text.now < 4)
        (λ ends. (4 ≤ length text.now) × (ends ≡ both_ends text.now)) }
{
    let first = u32::from_le_bytes(*text.first_chunk::<4>()?);
    let last = u32::from_le_bytes(*text.last_chunk::<4>()?);
    Some(last as u64 * 0x1_0000_0000 + first as u64)
}

/// A digest with one number more.
fn taken_in(digest: u64, number: u64) -> u64
    ensures { result ≡ taken_in digest number }
{
    let product = (digest ^ number).wrapping_mul(11400714819323198485);
    product ^ product / 0x1_0000_0000
}

/// Puts numbers in order, and answers whether no two are the same.
pub fn are_distinct(numbers: &mut [u64]) -> bool
    ensures distinct { IsTrue result ↔ IsDistinct nat_eq numbers.old }
    ensures moved { IsPermutation numbers.old numbers.new }
    ensures order { IsNonDecreasing numbers.new }
{
    numbers.sort_unstable();
    is_rising(numbers)
}

/// Whether each number is less than the next.
fn is_rising(numbers: &[u64]) -> bool
    ensures { IsTrue result ↔ IsStrictlyIncreasing numbers.now }
{
    for next in 1..numbers.len() {
        if numbers[next - 1] >= numbers[next] {
            return false;
        }
    }
    true
}
