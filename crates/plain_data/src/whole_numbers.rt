//! Whole numbers, as they are written.

ghost use Rattle.std.specs.Prelude.{◌≡◌};
ghost use Rattle.plain_data.specs.WholeNumbers.{whole_signed};

/// The whole number of 32 bits with a sign that a text writes: one or more ASCII digits, behind an
/// optional `+` or `-`. None where it writes none, or one out of range.
pub fn parse_int32(text: &str) -> Option<i32>
    ensures { result ≡ whole_signed 32 text.now }
{
    text.parse::<i32>().ok()
}
