//! The lines of a script, which is tested as a whole for being a text.

ghost use Rattle.std.specs.Prelude.{◌≡◌, ◌<◌, [], length, MatchOption};
ghost use Rattle.link_script.specs.Script.Words.{lines};
ghost use Rattle.link_script.specs.Script.Answers.{bytes_left, IsFirstLine, IsTextOf};

use super::cuts::{first_far_place, parted};

/// The lines that are left of a script.
#[derive(Clone, Copy)]
pub(crate) enum Lines<'a> {
    /// Those of a text.
    Text(&'a str),
    /// Those of bytes that are no text as a whole.
    Bytes(&'a [u8]),
}

/// A line, as a text if it is one, and the lines behind it.
#[derive(Clone, Copy)]
pub(crate) struct FirstLine<'a> {
    pub(super) bytes: &'a [u8],
    pub(super) text: Option<&'a str>,
    pub(super) rest: Lines<'a>,
}

impl<'a> Lines<'a> {
    /// The lines of a script.
    pub(super) fn new(script: &'a [u8]) -> Lines<'a>
        ensures { bytes_left result ≡ script.now }
    {
        match std::str::from_utf8(script) {
            Ok(text) => Lines::Text(text),
            Err(_) => Lines::Bytes(script),
        }
    }

    /// The first line, if there is one.
    pub(super) fn first(self) -> Option<FirstLine<'a>>
        ensures { MatchOption result (lines (bytes_left self.entry) ≡ [])
            (IsFirstLine (bytes_left self.entry)) }
    {
        match self {
            Lines::Text(text) => first_of_text(text),
            Lines::Bytes(bytes) => first_of_bytes(bytes),
        }
    }
}

fn first_of_text(text: &str) -> Option<FirstLine<'_>>
    ensures { MatchOption result (lines text.now ≡ []) (IsFirstLine text.now) }
{
    if text.is_empty() {
        return None;
    }
    match first_far_place(text.as_bytes(), b'\n') {
        Some(end) => {
            let (line, rest) = parted(text, end);
            Some(line_of_text(line, rest))
        }
        None => Some(line_of_text(text, "")),
    }
}

/// A line of a text, and what stands behind its line feed.
fn line_of_text<'a>(line: &'a str, rest: &'a str) -> FirstLine<'a>
    ensures bytes { result.bytes.now ≡ line.now }
    ensures text { IsTextOf result.text result.bytes.now }
    ensures rest { bytes_left result.rest ≡ rest.now }
{
    FirstLine {
        bytes: line.as_bytes(),
        text: Some(line),
        rest: Lines::Text(rest),
    }
}

fn first_of_bytes(bytes: &[u8]) -> Option<FirstLine<'_>>
    ensures { MatchOption result (lines bytes.now ≡ []) (IsFirstLine bytes.now) }
{
    if bytes.is_empty() {
        return None;
    }
    match first_far_place(bytes, b'\n') {
        Some(end) => Some(line_of_bytes(&bytes[..end], &bytes[end + 1..])),
        None => Some(line_of_bytes(bytes, &[])),
    }
}

/// A line of bytes, and what stands behind its line feed.
fn line_of_bytes<'a>(line: &'a [u8], rest: &'a [u8]) -> FirstLine<'a>
    ensures bytes { result.bytes.now ≡ line.now }
    ensures text { IsTextOf result.text result.bytes.now }
    ensures rest { bytes_left result.rest ≡ rest.now }
{
    FirstLine {
        bytes: line,
        text: std::str::from_utf8(line).ok(),
        rest: Lines::Bytes(rest),
    }
}
