//! Answers to what was asked of two kinds, so that each is found once.

ghost use Rattle.std.specs.Prelude.{◌≡◌, [], ◌∷◌, ◌++◌, IfSome, OnErr, OnOk};
ghost use Rattle.std.specs.List.{Contains};

use plain_data::same;
use pool_types::KindIndex;
use std::alloc::{AllocError, Global};
use std::collections::BTreeMap;

/// What was asked of an old and a new kind, and the answer.
#[derive(Clone, Copy)]
pub(crate) struct Answer {
    pub old: KindIndex,
    pub new: KindIndex,
    pub is_kept: bool,
}

/// Answers, and where each of them stands.
#[derive(Drop)]
pub(crate) struct Answers {
    pub answers: Vec<Answer>,
    /// The positions, by the rows of both kinds. Nothing is said of them here: what they lead to is
    /// looked at.
    positions: BTreeMap<(u32, u32), usize>,
}

/// The row of a kind. Kinds that are asked of have rows of their own.
fn row_of(kind: KindIndex) -> u32 {
    match kind {
        KindIndex::Message(index) | KindIndex::Group(index) | KindIndex::Enum(index) => index,
        _ => u32::MAX - u32::from(kind.type_number()),
    }
}

impl Answers {
    /// No answers, which take no memory.
    pub(crate) fn new(alloc: Global) -> Answers
        ensures { result.answers.items ≡ [] }
    {
        Answers {
            answers: Vec::new(alloc),
            positions: BTreeMap::new(alloc),
        }
    }

    /// The answer to what was asked of two kinds, if it was asked.
    pub(crate) fn get(&self, old: KindIndex, new: KindIndex) -> Option<bool>
        ensures { IfSome result (λ is_kept. Contains self.now.answers.items
            (record { old = old; new = new; is_kept = is_kept })) }
    {
        let position = self.positions.get(&(row_of(old), row_of(new)))?;
        let answer = self.answers.as_slice().get(*position)?;
        if same(&answer.old, &old) && same(&answer.new, &new) {
            Some(answer.is_kept)
        } else {
            None
        }
    }

    /// Puts an answer behind the others.
    ///
    /// # Errors
    /// `AllocError` where memory was refused. The answers are then as they were.
    pub(crate) fn put(&mut self, answer: Answer) -> Result<(), AllocError>
        ensures ok { OnOk result (self.new.answers.items ≡ self.old.answers.items ++ answer ∷ []) }
        ensures err { OnErr result (self.new.answers.items ≡ self.old.answers.items) }
    {
        let rows = (row_of(answer.old), row_of(answer.new));
        self.positions.insert(rows, self.answers.len())?;
        self.answers.push(answer)?;
        Ok(())
    }
}
