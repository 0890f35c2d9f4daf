//! What a pool changes of an older one.

ghost use Rattle.std.specs.Prelude.{◌≡◌, IfOk, string_bytes};
ghost use Rattle.std.specs.Option.{option_map};
ghost use Rattle.numbered_pool.specs.Changes as spec;

use crate::answers::Answers;
use pool_changes::{Comparison, Compatibility, Level, tell_changes, with_changes};
use std::alloc::{AllocError, Global};
use verdict_texts::accepted_json;

/// How a pool is to be compared with an older one, by numbers.
#[derive(Clone, Copy)]
pub struct Asked {
    /// The level: 0 wire, 1 json, 2 source.
    pub level: u32,
    /// Which pool is to read what the other writes: 0 backward, the new one what the older one
    /// writes; 1 forward, the older one what the new one writes; 2 full, each what the other
    /// writes.
    pub compatibility: u32,
}

/// How a pool is compared with an older one.
#[derive(Clone, Copy)]
struct Terms {
    level: Level,
    compatibility: Compatibility,
}

/// The level with a number: 0 wire, 1 json, 2 source.
fn level_numbered(number: u32) -> Option<Level>
    ensures { result ≡ spec.level_numbered number }
{
    let levels = [Level::Wire, Level::Json, Level::Source];
    levels.get(number as usize).copied()
}

/// The compatibility with a number: 0 backward, 1 forward, 2 full.
fn compatibility_numbered(number: u32) -> Option<Compatibility>
    ensures { result ≡ spec.compatibility_numbered number }
{
    let compatibilities = [
        Compatibility::Backward,
        Compatibility::Forward,
        Compatibility::Full,
    ];
    compatibilities.get(number as usize).copied()
}

/// The level and the compatibility with two numbers.
fn terms_numbered(asked: Asked) -> Option<Terms>
    ensures { result ≡ spec.terms_numbered asked }
{
    Some(Terms {
        level: level_numbered(asked.level)?,
        compatibility: compatibility_numbered(asked.compatibility)?,
    })
}

/// What a pool changes of an older one.
#[tactic(auto, unfolding(crate::specs::Changes::json_at))]
fn json_at(
    alloc: Global,
    new: &Answers,
    older: &Answers,
    terms: Terms,
) -> Result<String, AllocError>
    ensures { IfOk result (λ s. string_bytes s ≡ spec.json_at new.now older.now terms) }
{
    let comparison = Comparison {
        compatibility: terms.compatibility,
        level: terms.level,
        old: &older.pool,
        new: &new.pool,
    };
    let told = tell_changes(alloc, comparison, "the older pool", new.max_faults)?;
    let object = accepted_json(alloc, new.pool.counts())?;
    with_changes(alloc, told.as_slice(), object.as_str())
}

impl Answers {
    /// What the pool changes of an older one: backward, where a reader of its files reads
    /// otherwise, or not at all, what a writer of the older ones writes; forward, where a reader of
    /// the older ones does so with what a writer of its files writes. It is the object of JSON that
    /// `check_descriptors` has of an accepted batch against an older version, with the directions
    /// of the compatibility in order. It tells at most as many changes of each direction as reports
    /// tell faults. There is none where no level or no compatibility has the number.
    ///
    /// # Errors
    /// `AllocError` where memory was refused.
    pub fn changes(
        &self,
        alloc: Global,
        older: &Answers,
        asked: Asked,
    ) -> Result<Option<String>, AllocError>
        ensures { IfOk result (λ found. option_map string_bytes found
            ≡ spec.changes_json self.now older.now asked) }
    {
        match terms_numbered(asked) {
            Some(terms) => Ok(Some(json_at(alloc, self, older, terms)?)),
            None => Ok(None),
        }
    }
}
