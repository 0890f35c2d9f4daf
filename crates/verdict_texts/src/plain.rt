//! Texts without characters that a terminal would obey or hide.

ghost use Rattle.std.specs.Prelude.{◌≡◌, ◌%◌, Some};
ghost use Rattle.std.specs.Char.{digit_char};
ghost use Rattle.std.specs.Fmt.{DisplaysOnOk};
ghost use Rattle.verdict_texts.specs.Lines.{plain_char, plain_text};

use crate::hidden::is_hidden;
use std::fmt;

/// A text in which an escape stands for each character that a terminal would obey or hide, a line
/// feed among them.
#[derive(Clone, Copy)]
pub struct Plain<'t>(pub &'t str);

impl fmt::Display for Plain<'_> {
    ghost output = { λ plain. Some (plain_text plain.0.now) };

    fn fmt<W: fmt::Write>(&self, f: &mut fmt::Formatter<W>) -> fmt::Result {
        fmt_text(f, self.0)
    }
}

/// Writes a text, each character as it is or as an escape.
fn fmt_text<W: fmt::Write>(f: &mut fmt::Formatter<W>, text: &str) -> fmt::Result
    ensures { DisplaysOnOk W.write_str_gives f.old result (Some (plain_text text.now)) f.new }
{
    for c in text.chars() {
        fmt_char(f, c)?;
    }
    Ok(())
}

/// Writes a character as it is, or as an escape.
fn fmt_char<W: fmt::Write>(f: &mut fmt::Formatter<W>, c: char) -> fmt::Result
    ensures { DisplaysOnOk W.write_str_gives f.old result (Some (plain_char c)) f.new }
{
    if is_hidden(c) {
        let escape = Escape(u32::from(c));
        write!(f, "{escape}")
    } else {
        write!(f, "{c}")
    }
}

/// The escape of a character, by its number.
#[derive(Clone, Copy)]
pub(crate) struct Escape(pub u32);

impl fmt::Display for Escape {
    ghost use Rattle.verdict_texts.specs.Lines.{escape_of};

    ghost output = { λ escape. Some (escape_of escape.0) };

    fn fmt<W: fmt::Write>(&self, f: &mut fmt::Formatter<W>) -> fmt::Result {
        let code = self.0;
        let (high, low) = (FourDigits(code / 0x1_0000), FourDigits(code));
        if code < 0x1_0000 {
            write!(f, "\\u{low}")
        } else {
            write!(f, "\\U{high}{low}")
        }
    }
}

/// The last four hexadecimal digits of a number.
#[derive(Clone, Copy)]
struct FourDigits(u32);

impl fmt::Display for FourDigits {
    ghost use Rattle.verdict_texts.specs.Lines.{four_digits};

    ghost output = { λ digits. Some (four_digits digits.0) };

    fn fmt<W: fmt::Write>(&self, f: &mut fmt::Formatter<W>) -> fmt::Result {
        let number = self.0;
        let (first, second) = (hex_digit(number / 4096), hex_digit(number / 256));
        let (third, fourth) = (hex_digit(number / 16), hex_digit(number));
        write!(f, "{first}{second}{third}{fourth}")
    }
}

/// The last hexadecimal digit of a number.
fn hex_digit(value: u32) -> char
    ensures { result ≡ digit_char (value % 16) }
{
    match char::from_digit(value % 16, 16) {
        Some(digit) => digit,
        None => '0',
    }
}
