ghost use Rattle.std.specs.Prelude.{◌≡◌, ◌==◌, ◌∷◌, [], IsTrue, position};
ghost use Rattle.std.specs.Iterator.{YieldsFirstRef, item_count};
ghost use Rattle.name_tables.specs.Parts.{parts, parts_left};

use crate::dots::has_no_dot;
use std::marker::Model;

/// The parts of a name, between its dots, from the first to the last. A name without a dot is one
/// part, and so is the empty name. Contracts see it as the list of those that are left.
///
/// It takes no memory.
#[derive(Drop)]
pub struct Parts<'a> {
    left: Option<&'a str>,
}

impl<'a> Model for Parts<'a> {
    ghost use Rattle.std.specs.Prelude.{List, ℕ};
    ghost use Rattle.name_tables.specs.Parts.{parts_left};

    ghost Value = { List (List ℕ) };

    ghost view = { λ parts. parts_left parts.left };
}

impl<'a> Parts<'a> {
    /// The parts of a name: one more than it has dots.
    pub fn new(name: &'a str) -> Parts<'a>
        ensures { result ≡ parts name.now }
    {
        Parts { left: Some(name) }
    }
}

impl<'a> Iterator for Parts<'a> {
    type Item = &'a str;

    ghost next_gives = { YieldsFirstRef (λ parts. parts) };

    ghost remaining = { item_count (λ parts. parts) };

    fn next(&mut self) -> Option<&'a str> {
        let (part, rest) = first_and_rest(self.left?);
        self.left = rest;
        Some(part)
    }
}

/// The first part of a name, and what is left behind its dot.
fn first_and_rest(name: &str) -> (&str, Option<&str>)
    ensures { parts name.now ≡ result.0.now ∷ parts_left result.1 }
{
    match first_dot(name.as_bytes()) {
        Some(dot) => (&name[..dot], Some(&name[dot + 1..])),
        None => (name, None),
    }
}

/// Where the first dot of a name stands, if it has one.
fn first_dot(name: &[u8]) -> Option<usize>
    ensures { result ≡ position (λ byte. byte == 46) name.now }
{
    name.iter().position(|byte| *byte == b'.')
}

/// Whether a name has no dot.
pub(crate) fn is_part(name: &str) -> bool
    ensures { IsTrue result → parts name.now ≡ name.now ∷ [] }
{
    has_no_dot(name.as_bytes())
}
