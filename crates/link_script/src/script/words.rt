//! The words of a line.

ghost use Rattle.std.specs.Prelude.{◌≡◌, [], ◌∷◌, MatchOption};
ghost use Rattle.link_script.specs.Script.Words as spec;

use super::cuts::cut_at;
use super::rest::behind_spaces;
use super::statement::Keyword;

/// The words that are left to be read of a line, which are parted by runs of spaces.
#[derive(Drop)]
pub(super) struct Words<'a> {
    rest: &'a str,
}

/// A line that begins with a keyword.
#[derive(Drop)]
pub(super) struct KeyedLine<'a> {
    pub(super) line: &'a str,
    pub(super) keyword: Keyword,
    /// The words behind the keyword.
    pub(super) words: Words<'a>,
}

impl<'a> Words<'a> {
    ghost use Rattle.link_script.specs.Script.Answers.{words_left};

    /// The words of a line.
    pub(super) fn new(line: &'a str) -> Words<'a>
        ensures { words_left result ≡ spec.words line.now }
    {
        Words { rest: line }
    }

    /// Reads the next word, if there is one.
    pub(super) fn next(&mut self) -> Option<&'a str>
        ensures { MatchOption result (words_left self.old ≡ []) (λ word. words_left self.old
            ≡ word.now ∷ words_left self.new) }
    {
        let text = behind_spaces(self.rest);
        if text.is_empty() {
            return None;
        }
        let (word, rest) = cut_at(text, b' ').unwrap_or((text, ""));
        self.rest = rest;
        Some(word)
    }
}
