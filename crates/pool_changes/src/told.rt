//! What a new version changes of an older one, as it is told.

ghost use Rattle.std.specs.Prelude.{◌≡◌, take, drop};
ghost use Rattle.pool_changes.specs.Texts as spec;

use crate::{Direction, Level};
use plain_data::{Items, Text};
use verdict_texts::ToldFault;

/// What a new version changes of an older one in a direction, as it is told.
#[derive(Drop)]
pub struct ToldChanges {
    pub direction: Direction,
    /// The level at which they are compared.
    pub level: Level,
    /// The name of the older version.
    pub against: Text,
    /// The first of the changes: those at wire first, then those at json, and then those at source.
    pub told: Items<ToldFault>,
    /// How many changes there are at wire.
    pub wire: usize,
    /// How many changes there are at wire and at json.
    pub json: usize,
    /// How many changes there are.
    pub count: usize,
    /// How many changes there are at json, where the level leaves them out, or else 0.
    pub json_beyond: usize,
    /// How many changes there are at source, where the level leaves them out, or else 0.
    pub source_beyond: usize,
}

/// The first of some changes.
fn first_of(told: &[ToldFault], count: usize) -> &[ToldFault]
    ensures { result.now ≡ take count told.now }
{
    if count < told.len() {
        &told[..count]
    } else {
        told
    }
}

/// Some changes without the first of them.
fn behind(told: &[ToldFault], count: usize) -> &[ToldFault]
    ensures { result.now ≡ drop count told.now }
{
    if count < told.len() {
        &told[count..]
    } else {
        &[]
    }
}

impl ToldChanges {
    /// How many changes are not told.
    pub fn untold(&self) -> usize
        ensures { result ≡ spec.untold_changes self.now }
    {
        self.count.saturating_sub(self.told.as_slice().len())
    }

    /// The changes that are told and are at a level themselves.
    pub fn at(&self, level: Level) -> &[ToldFault]
        ensures { result.now ≡ spec.changes_of self.now level }
    {
        let told = self.told.as_slice();
        match level {
            Level::Wire => first_of(told, self.wire),
            Level::Json => behind(first_of(told, self.json), self.wire),
            Level::Source => behind(told, self.json),
        }
    }
}
