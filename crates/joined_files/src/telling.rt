//! Unequal files as they are told.

ghost use Rattle.std.specs.Prelude.{◌≡◌, IfOk, map, string_bytes, take};
ghost use Rattle.joined_files.specs.Telling as spec;

use crate::unequal::UnequalFile;
use plain_data::{Items, Text};
use std::alloc::{AllocError, Global};
use verdict_texts::{ToldFault, ToldPlace, ToldRefusal};

/// That two sets have unequal files of a name, and where these differ first.
fn unequal_words(alloc: Global, unequal: &UnequalFile) -> Result<String, AllocError>
    ensures { IfOk result (λ s. string_bytes s ≡ spec.unequal_words unequal.now) }
{
    let UnequalFile {
        first,
        further,
        part,
        ..
    } = unequal;
    let (first, further) = (first.as_str(), further.as_str());
    let part = part.as_str();
    format!(in alloc; "{first} and {further} have unequal copies: {part}")
}

/// Where an unequal file stands: at the first part that differs.
fn unequal_place(alloc: Global, unequal: &UnequalFile) -> Result<ToldPlace, AllocError>
    ensures { IfOk result (λ place. place ≡ spec.unequal_place unequal.now) }
{
    let file = unequal.name.clone(alloc)?;
    let path = Items::from_slice(alloc, unequal.path.as_slice())?;
    Ok(ToldPlace {
        file,
        position: None,
        path,
        element: None,
    })
}

/// An unequal file as a fault.
fn unequal_fault(alloc: Global, unequal: &UnequalFile) -> Result<ToldFault, AllocError>
    ensures { IfOk result (λ told. told ≡ spec.unequal_fault unequal.now) }
{
    let code = Text::from_str(alloc, "UnequalFile")?;
    let message = Text::from_string(unequal_words(alloc, unequal)?);
    let note = Text::from_str(alloc, "give one of them")?;
    let place = unequal_place(alloc, unequal)?;
    Ok(ToldFault {
        code,
        message,
        place: Some(place),
        second: None,
        note,
    })
}

/// Unequal files as faults, in order.
fn unequal_faults(alloc: Global, unequal: &[UnequalFile]) -> Result<Items<ToldFault>, AllocError>
    ensures { IfOk result (λ told. told ≡ map spec.unequal_fault unequal.now) }
{
    let mut told = Items::new(alloc);
    for file in unequal {
        told.push(unequal_fault(alloc, file)?)?;
    }
    Ok(told)
}

/// The first of some unequal files.
fn first_files(unequal: &[UnequalFile], most: usize) -> &[UnequalFile]
    ensures { result.now ≡ take most unequal.now }
{
    if most < unequal.len() {
        &unequal[..most]
    } else {
        unequal
    }
}

/// Tells a batch that has unequal files of one name as refused: so many of these files at most,
/// each as a fault, and how many there are.
///
/// # Errors
/// `AllocError` where memory was refused.
pub fn tell_unequal(
    alloc: Global,
    unequal: &[UnequalFile],
    most: usize,
) -> Result<ToldRefusal, AllocError>
    ensures { IfOk result (λ told. told ≡ spec.told_unequal unequal.now most) }
{
    Ok(ToldRefusal {
        told: unequal_faults(alloc, first_files(unequal, most))?,
        count: unequal.len(),
    })
}

/// That an unequal file is passed over.
///
/// # Errors
/// `AllocError` where memory was refused.
pub fn passed_words(alloc: Global, unequal: &UnequalFile) -> Result<String, AllocError>
    ensures { IfOk result (λ s. string_bytes s ≡ spec.passed_words unequal.now) }
{
    let UnequalFile {
        name,
        first,
        further,
        part,
        ..
    } = unequal;
    let (name, first) = (name.as_str(), first.as_str());
    let (further, part) = (further.as_str(), part.as_str());
    format!(in alloc; "{further}: {name} is passed over, since {first} has another: {part}")
}
