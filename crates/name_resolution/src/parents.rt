ghost use Rattle.std.specs.Prelude.{◌≡◌, ◌∷◌};
ghost use Rattle.std.specs.Iterator.{YieldsFirstRef, item_count};
ghost use Rattle.name_resolution.specs.Parents.{outer, parents_left, ParentsCount};

use std::marker::Model;

/// The scopes in which a name is looked for, from the innermost out: a scope, the text before each
/// of its dots from the last dot to the first, and the empty text. That comes twice where the scope
/// is empty or begins with a dot. Contracts see it as the list of those that are left.
///
/// It takes no memory.
#[derive(Drop)]
pub struct CandidateParents<'a> {
    left: Left<'a>,
}

/// Which of the scopes are left.
#[derive(Clone, Copy)]
enum Left<'a> {
    /// A scope, and those around it.
    Parents(&'a str),
    /// The empty text alone.
    Empty,
    Nothing,
}

impl<'a> Model for CandidateParents<'a> {
    ghost use Rattle.std.specs.Prelude.{List, ℕ};
    ghost use Rattle.name_resolution.specs.Parents.{parents_left};

    ghost Value = { List (List ℕ) };

    ghost view = { λ parents. parents_left parents.left };
}

impl<'a> CandidateParents<'a> {
    /// A scope, and those around it: two more than the scope has dots.
    pub fn new(scope: &'a str) -> CandidateParents<'a>
        ensures { result ≡ outer scope.now }
    {
        CandidateParents {
            left: Left::Parents(scope),
        }
    }
}

impl<'a> Iterator for CandidateParents<'a> {
    type Item = &'a str;

    ghost next_gives = { YieldsFirstRef (λ parents. parents) };

    ghost remaining = { item_count (λ parents. parents) };

    fn next(&mut self) -> Option<&'a str> {
        match self.left {
            Left::Parents(parent) => {
                self.left = around(parent);
                Some(parent)
            }
            Left::Empty => {
                self.left = Left::Nothing;
                Some("")
            }
            Left::Nothing => None,
        }
    }
}

/// What is left behind a scope.
fn around(scope: &str) -> Left<'_>
    ensures { outer scope.now ≡ scope.now ∷ parents_left result }
{
    match scope.rsplit_once('.') {
        Some((parent, _)) => Left::Parents(parent),
        None => Left::Empty,
    }
}

/// The law that a scope has two candidates more than it has dots. A call does nothing: its contract
/// is the law, and is proved of all scopes.
pub fn parents_count()
    ensures { ParentsCount }
{}
