//! A refused batch as it is told, and its lines for people.

ghost use Rattle.std.specs.Prelude.{◌≡◌, ◌++◌, ◌<◌, ◌^◌, false, IfOk, OnOk, string_bytes};
ghost use Rattle.std.specs.Prelude.{slice_get, take, map};
ghost use Rattle.std.specs.Option.{option_copied, option_map_or};
ghost use Rattle.std.specs.Str.{bytes_eq};
ghost use Rattle.verdict_texts.specs.PlainFaults as plain;
ghost use Rattle.verdict_texts.specs.Refused as spec;

use crate::grouped::{grouped, grouped_count};
use crate::places::no_room;
use crate::plain_faults::write_fault_lines;
use crate::telling::{ToldFault, tell_faults};
use plain_data::Items;
use pool_faults::DescriptorErrorKind;
use pool_types::FileDescriptorInner;
use proto_types::FileDescriptorProto;
use record_walk::{CountKind, count_word};
use std::alloc::{AllocError, Global};

/// A batch that a pool refused for its faults.
#[derive(Clone, Copy)]
pub struct RefusedBatch<'a> {
    /// The files of the pool.
    pub linked: &'a [FileDescriptorInner],
    /// The new files of the batch, as they were handed in.
    pub files: &'a [FileDescriptorProto],
    /// The first of its faults, or all.
    pub faults: &'a [DescriptorErrorKind],
    /// How many more it has.
    pub rest: usize,
}

/// A refused batch as it is told.
#[derive(Drop)]
pub struct ToldRefusal {
    /// The first of its faults.
    pub told: Items<ToldFault>,
    /// How many faults it has.
    pub count: usize,
}

/// The first of some faults.
fn first_faults(faults: &[DescriptorErrorKind], most: usize) -> &[DescriptorErrorKind]
    ensures { result.now ≡ take most faults.now }
{
    if most < faults.len() {
        &faults[..most]
    } else {
        faults
    }
}

/// Tells a refused batch: so many of its faults at most, the first of them, and how many it has.
///
/// # Errors
/// `AllocError` where memory was refused.
pub fn tell_refusal(
    alloc: Global,
    batch: &RefusedBatch,
    most: usize,
) -> Result<ToldRefusal, AllocError>
    ensures { IfOk result (λ told. told ≡ spec.told_refusal
        (map (λ f. f.raw) batch.now.linked.now) batch.now.files.now batch.now.faults.now
        batch.now.rest
        most) }
{
    let first = first_faults(batch.faults, most);
    let told = tell_faults(alloc, batch.linked, batch.files, first)?;
    match batch.faults.len().checked_add(batch.rest) {
        Some(count) => Ok(ToldRefusal { told, count }),
        None => Err(no_room(alloc)),
    }
}

impl ToldRefusal {
    /// How many of its faults are not told.
    pub fn untold(&self) -> usize
        ensures { result ≡ spec.untold self.now }
    {
        self.count.saturating_sub(self.told.as_slice().len())
    }
}

/// The lines of a fault.
fn fault_lines(alloc: Global, told: &ToldFault) -> Result<String, AllocError>
    ensures { IfOk result (λ s. string_bytes s ≡ plain.fault_lines told.now) }
{
    let mut text = String::new(alloc);
    write_fault_lines(alloc, &mut text, told)?;
    Ok(text)
}

/// Whether a fault, if there is one, has lines.
fn has_lines(alloc: Global, told: Option<&ToldFault>, lines: &str) -> Result<bool, AllocError>
    ensures { IfOk result (λ has. has ≡ option_map_or
        (λ f. bytes_eq lines.now (plain.fault_lines f)) (option_copied told.entry) false) }
{
    match told {
        Some(told) => {
            let own = fault_lines(alloc, told)?;
            Ok(lines == own.as_str())
        }
        None => Ok(false),
    }
}

/// The fault at a position, if there is one.
fn fault_at(told: &[ToldFault], position: usize) -> Option<&ToldFault>
    ensures { option_copied result ≡ slice_get told.now position }
{
    told.get(position)
}

/// How many faults behind one another have the same lines, if so many stand before the last.
fn repeats_line(alloc: Global, before: usize) -> Result<String, AllocError>
    requires { before < 2 ^ 63 }
    ensures { IfOk result (λ s. string_bytes s ≡ spec.repeats_line before) }
{
    if before == 0 {
        return Ok(String::new(alloc));
    }
    let count = grouped(alloc, before + 1)?;
    let count = count.as_str();
    format!(in alloc; "  note: {count} faults are told so\n")
}

/// Writes faults as lines: those that stand behind one another with the same lines once.
fn write_faults(alloc: Global, text: &mut String, told: &[ToldFault]) -> Result<(), AllocError>
    ensures { OnOk result (string_bytes text.new ≡ string_bytes text.old
        ++ spec.lines_of 0 told.now) }
{
    let mut before = 0;
    for position in 0..told.len() {
        let lines = fault_lines(alloc, &told[position])?;
        if has_lines(alloc, fault_at(told, position + 1), lines.as_str())? {
            before += 1;
        } else {
            text.push_str(lines.as_str())?;
            let repeats = repeats_line(alloc, before)?;
            text.push_str(repeats.as_str())?;
            before = 0;
        }
    }
    Ok(())
}

/// How many faults are not told.
fn more_line(alloc: Global, untold: usize) -> Result<String, AllocError>
    ensures { IfOk result (λ s. string_bytes s ≡ spec.more_line untold) }
{
    if untold == 0 {
        return Ok(String::new(alloc));
    }
    let more = grouped(alloc, untold)?;
    let more = more.as_str();
    format!(in alloc; "and {more} more\n")
}

/// How many faults there are.
fn refused_line(alloc: Global, count: usize) -> Result<String, AllocError>
    ensures { IfOk result (λ s. string_bytes s ≡ spec.refused_line count) }
{
    let faults = grouped_count(alloc, count, "fault", "faults")?;
    let faults = faults.as_str();
    format!(in alloc; "refused: {faults}\n")
}

/// The faults that are told, how many more there are, and how many there are, for people.
///
/// # Errors
/// `AllocError` where memory was refused.
pub fn refused_text(alloc: Global, refusal: &ToldRefusal) -> Result<String, AllocError>
    ensures { IfOk result (λ s. string_bytes s ≡ spec.refused_text refusal.now) }
{
    let mut text = String::new(alloc);
    write_faults(alloc, &mut text, refusal.told.as_slice())?;
    let more = more_line(alloc, refusal.untold())?;
    text.push_str(more.as_str())?;
    let count = refused_line(alloc, refusal.count)?;
    text.push_str(count.as_str())?;
    Ok(text)
}

/// The line that tells of what there is too much.
///
/// # Errors
/// `AllocError` where memory was refused.
pub fn too_many_text(alloc: Global, kind: CountKind) -> Result<String, AllocError>
    ensures { IfOk result (λ s. string_bytes s ≡ spec.too_many_text kind) }
{
    let word = count_word(kind);
    format!(in alloc; "refused: too many {word}\n")
}
