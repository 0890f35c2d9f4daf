//! What a new pool changes of an older one in each direction, as it is told.

ghost use Rattle.std.specs.Prelude.{◌≡◌, ◌++◌, IfOk, take};
ghost use Rattle.pool_changes.specs.Comparing as spec;
ghost use Rattle.pool_changes.specs.Sides.{versions};
ghost use Rattle.pool_changes.specs.declared.direction.Direction.TheVariants.{Backward};

use crate::by_level::{ByLevel, followed_by};
use crate::sides::Telling;
use crate::{Compatibility, Direction, Level, ToldChanges};
use descriptor_pool::DescriptorPool;
use plain_data::{Items, Text};
use std::alloc::{AllocError, Global};
use verdict_texts::ToldFault;

/// An older pool and a new one that are compared for a compatibility, at a level.
#[derive(Clone, Copy)]
pub struct Comparison<'a> {
    pub compatibility: Compatibility,
    pub level: Level,
    pub old: &'a DescriptorPool,
    pub new: &'a DescriptorPool,
}

/// The first of some changes.
fn first_told(told: Items<ToldFault>, most: usize) -> Items<ToldFault>
    ensures { result ≡ take most told }
{
    let mut told = told.into_vec();
    told.truncate(most);
    Items::from_vec(told)
}

/// Changes, and behind them those at json, if a level has them.
fn with_json(
    told: Items<ToldFault>,
    json: Items<ToldFault>,
    level: Level,
) -> Result<Items<ToldFault>, AllocError>
    ensures { IfOk result (λ all. all ≡ told ++ spec.json_in level json) }
{
    match level {
        Level::Wire => Ok(told),
        Level::Json | Level::Source => followed_by(told, json),
    }
}

/// Changes, and behind them those at source, if a level has them.
fn with_source(
    told: Items<ToldFault>,
    source: Items<ToldFault>,
    level: Level,
) -> Result<Items<ToldFault>, AllocError>
    ensures { IfOk result (λ all. all ≡ told ++ spec.source_in level source) }
{
    match level {
        Level::Wire | Level::Json => Ok(told),
        Level::Source => followed_by(told, source),
    }
}

/// How many changes at json a level leaves out, of so many.
fn json_beyond(level: Level, count: usize) -> usize
    ensures { result ≡ spec.json_beyond level count }
{
    match level {
        Level::Wire => count,
        Level::Json | Level::Source => 0,
    }
}

/// How many changes at source a level leaves out, of so many.
fn source_beyond(level: Level, count: usize) -> usize
    ensures { result ≡ spec.source_beyond level count }
{
    match level {
        Level::Wire | Level::Json => count,
        Level::Source => 0,
    }
}

/// Tells what a new version changes of an older one in a direction, by a name for that one: so many
/// of the changes at most, the first of them, how many there are, and how many more there are at the
/// levels that contain the one that is asked for.
fn tell_direction(
    telling: Telling<'_>,
    level: Level,
    against: &str,
    most: usize,
) -> Result<ToldChanges, AllocError>
    ensures { IfOk result (λ told. told
        ≡ spec.told_changes (versions telling.entry) level against.now most) }
{
    let Telling {
        alloc,
        direction,
        ..
    } = telling;
    let ByLevel { wire: told, behind } = telling.by_level()?;
    let json_beyond = json_beyond(level, behind.json.as_slice().len());
    let source_beyond = source_beyond(level, behind.source.as_slice().len());
    let wire = told.as_slice().len();
    let told = with_json(told, behind.json, level)?;
    let json = told.as_slice().len();
    let told = with_source(told, behind.source, level)?;
    let count = told.as_slice().len();
    let against = Text::from_str(alloc, against)?;
    Ok(ToldChanges {
        direction,
        level,
        against,
        told: first_told(told, most),
        wire,
        json,
        count,
        json_beyond,
        source_beyond,
    })
}

/// Tells what a new pool changes of an older one, by a name for that one, in each direction of the
/// compatibility, backward first. Of each direction it tells so many of the changes at most, the
/// first of them, how many there are, and how many more there are at the levels that contain the one
/// that is asked for.
///
/// # Errors
/// `AllocError` where memory was refused.
pub fn tell_changes(
    alloc: Global,
    comparison: Comparison<'_>,
    against: &str,
    most: usize,
) -> Result<Vec<ToldChanges>, AllocError>
    ensures { IfOk result (λ told. told.items ≡ spec.told_for comparison.entry.compatibility
        comparison.entry.old.now comparison.entry.new.now comparison.entry.level against.now
        most) }
{
    let Comparison {
        compatibility,
        level,
        old,
        new,
    } = comparison;
    let directions = compatibility.directions();
    let mut told = Vec::new(alloc);
    for direction in directions {
        let telling = Telling {
            alloc,
            direction: *direction,
            old,
            new,
        };
        told.push(tell_direction(telling, level, against, most)?)?;
    }
    Ok(told)
}

/// The changes of two pools at a level, a reader of the new one's schema and a writer of the old
/// one's: those at wire first, then those at json, and then those at source.
///
/// # Errors
/// `AllocError` where memory was refused.
pub fn changes(
    alloc: Global,
    old: &DescriptorPool,
    new: &DescriptorPool,
    level: Level,
) -> Result<Vec<ToldFault>, AllocError>
    ensures { IfOk result (λ changes. changes.items ≡ spec.changes level old.now new.now) }
{
    let telling = Telling {
        alloc,
        direction: Direction::Backward,
        old,
        new,
    };
    let ByLevel { wire: told, behind } = telling.by_level()?;
    let told = with_json(told, behind.json, level)?;
    Ok(with_source(told, behind.source, level)?.into_vec())
}
