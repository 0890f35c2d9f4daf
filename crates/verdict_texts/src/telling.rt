//! A fault as it is told, made once of the records of its batch. Lines and JSON are printed of it.

ghost use Rattle.std.specs.Prelude.{◌≡◌, IfOk, IsTrue, map};
ghost use Rattle.std.specs.List.{list_any};
ghost use Rattle.std.specs.Option.{option_copied, option_map};
ghost use Rattle.plain_data.specs.Lists.{flat_map_after};
ghost use Rattle.verdict_texts.specs.FaultKinds.{is_of_reference, told_kind};
ghost use Rattle.verdict_texts.specs.Telling as spec;

use crate::elements::element_of;
use crate::fault_kinds::{FaultKind, fault_kind};
use crate::known::{Known, records};
use crate::notes::note;
use crate::places::{Places, Unplaced, left_behind, place_among, places_for};
use plain_data::{Items, Text};
use pool_faults::{DescriptorErrorKind, Label};
use pool_types::FileDescriptorInner;
use proto_types::FileDescriptorProto;
use std::alloc::{AllocError, Global};

/// A line and a column of a file, which count from 1.
#[derive(Clone, Copy, PartialEq, Debug)]
pub struct Position {
    pub line: i64,
    pub column: i64,
}

/// Where something stands.
#[derive(Drop)]
pub struct ToldPlace {
    /// The name of the file.
    pub file: Text,
    /// Where it begins, if the source is known.
    pub position: Option<Position>,
    /// Field numbers and positions, from the file on.
    pub path: Items<i32>,
    /// The full name of the innermost declaration around it, if there is one.
    pub element: Option<Text>,
}

/// The second place of a fault.
#[derive(Drop)]
pub struct ToldSecond {
    /// What stands before it, for people.
    pub words: Text,
    pub place: ToldPlace,
}

/// A fault as it is told.
#[derive(Drop)]
pub struct ToldFault {
    /// The name of its kind.
    pub code: Text,
    pub message: Text,
    /// Where it stands, if it shows a place.
    pub place: Option<ToldPlace>,
    pub second: Option<ToldSecond>,
    /// What to do, or where a name is declared that is not seen.
    pub note: Text,
}

/// Where a span begins.
fn position_of(span: [i32; 4]) -> Position
    ensures { result ≡ spec.position_of span }
{
    let [line, column, _, _] = span;
    Position {
        line: i64::from(line) + 1,
        column: i64::from(column) + 1,
    }
}

/// A label as it is told.
fn told_place(alloc: Global, known: &Known, label: &Label) -> Result<ToldPlace, AllocError>
    ensures { IfOk result (λ place. place ≡ spec.told_place known.now.0 label.now) }
{
    let file = Text::from_str(alloc, label.file())?;
    let position = label.span().map(position_of);
    let path = Items::from_slice(alloc, label.path())?;
    let element = element_of(alloc, known, label)?;
    Ok(ToldPlace {
        file,
        position,
        path,
        element,
    })
}

/// A label as it is told, if there is one.
fn told_if(
    alloc: Global,
    known: &Known,
    label: Option<&Label>,
) -> Result<Option<ToldPlace>, AllocError>
    ensures { IfOk result (λ place. place
        ≡ option_map (spec.told_place known.now.0) (option_copied label.entry)) }
{
    match label {
        Some(label) => Ok(Some(told_place(alloc, known, label)?)),
        None => Ok(None),
    }
}

/// The second place of a kind, if it has one.
fn told_second(
    alloc: Global,
    known: &Known,
    kind: FaultKind,
) -> Result<Option<ToldSecond>, AllocError>
    ensures { IfOk result (λ second. second
        ≡ option_map (spec.second_at known.now.0) (told_kind kind.entry).second) }
{
    let Some(second) = kind.second else {
        return Ok(None);
    };
    let words = Text::from_str(alloc, second.words)?;
    let place = told_place(alloc, known, second.label)?;
    Ok(Some(ToldSecond { words, place }))
}

/// A fault, and where it stands, as it is told.
fn told_fault(
    alloc: Global,
    known: &Known,
    fault: &DescriptorErrorKind,
    place: Option<&Label>,
) -> Result<ToldFault, AllocError>
    requires { IsTrue (is_of_reference fault.now) → IsTrue known.now.1 }
    ensures { IfOk result (λ told. told
        ≡ spec.told_fault known.now.0 fault.now (option_copied place.entry)) }
{
    let kind = fault_kind(fault);
    let code = Text::from_str(alloc, kind.code)?;
    let message = Text::from_string(format!(in alloc; "{fault}")?);
    let note = note(alloc, known, fault, place)?;
    let second = told_second(alloc, known, kind)?;
    let place = told_if(alloc, known, place)?;
    Ok(ToldFault {
        code,
        message,
        place,
        second,
        note,
    })
}

/// Faults from the first on, as they are told. One of a name of a file stands at the first place
/// with that name, and the k-th of an index at the k-th place of an index.
fn tell_each(
    alloc: Global,
    known: &Known,
    places: Places<'_>,
    faults: &[DescriptorErrorKind],
) -> Result<Items<ToldFault>, AllocError>
    requires { IsTrue (list_any is_of_reference faults.now) → IsTrue known.now.1 }
    ensures { IfOk result (λ told. told ≡ flat_map_after (spec.told_after known.now.0
        places.entry.names.now places.entry.indexes.now) faults.now) }
{
    let mut left = places;
    let mut told = Items::new(alloc);
    for fault in faults {
        let place = place_among(left, fault);
        let next = told_fault(alloc, known, fault, place)?;
        told.push(next)?;
        left.indexes = left_behind(left.indexes, fault);
    }
    Ok(told)
}

/// The first faults of a refused batch, as they are told, by the records of the files of the pool
/// and by those of the new files. A fault that shows no place stands in a new file.
///
/// # Errors
/// `AllocError` where memory was refused.
pub fn tell_faults(
    alloc: Global,
    linked: &[FileDescriptorInner],
    files: &[FileDescriptorProto],
    faults: &[DescriptorErrorKind],
) -> Result<Items<ToldFault>, AllocError>
    ensures { IfOk result (λ told. told
        ≡ spec.told_faults (map (λ f. f.raw) linked.now) files.now faults.now) }
{
    let records = records(alloc, linked, files)?;
    let known = Known::for_faults(alloc, records, faults)?;
    let names = places_for(alloc, files, faults, Unplaced::Name)?;
    let indexes = places_for(alloc, files, faults, Unplaced::Index)?;
    let places = Places {
        names: names.as_slice(),
        indexes: indexes.as_slice(),
    };
    tell_each(alloc, &known, places, faults)
}
