//! Lines for people.

ghost use Rattle.std.specs.Prelude.{◌≡◌, ◌++◌, OnOk, string_bytes};
ghost use Rattle.verdict_texts.specs.Lines as spec;

use crate::Plain;
use std::alloc::AllocError;
use std::fmt::Write;

/// Writes a text as a line, with its end. What a terminal would obey or hide is written as an
/// escape, so that the line has one line feed, its last character.
///
/// # Errors
/// `AllocError` where memory was refused.
#[tactic(auto, unfolding(crate::specs::Lines::line))]
pub fn write_line(text: &mut String, line: &str) -> Result<(), AllocError>
    ensures { OnOk result (string_bytes text.new ≡ string_bytes text.old ++ spec.line line.now) }
{
    let line = Plain(line);
    writeln!(text, "{line}")
}
