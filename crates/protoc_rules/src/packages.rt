//! What the package of a file may not be.

ghost use Rattle.std.specs.Prelude.{◌≡◌, ◌||◌, ◌++◌, IfOk, OnOk, map};
ghost use Rattle.protoc_rules.specs.Packages as spec;

use crate::faults::{Found, StrictKind};
use crate::names::is_identifier;
use pool_types::Identity;
use proto_types::tag::file::PACKAGE;
use std::alloc::{AllocError, Global};

/// How many parts a package has at most.
const MOST_PARTS: usize = 101;

/// The parts of a package, between its dots.
fn package_parts(alloc: Global, name: &str) -> Result<Vec<&str>, AllocError>
    ensures { IfOk result (λ parts. map (λ part. part.now) parts.items
        ≡ spec.package_parts name.now) }
{
    name.split('.').collect(alloc)
}

/// Whether a part is no identifier.
fn is_wrong(part: &str) -> bool
    ensures { result ≡ spec.is_wrong part.now }
{
    !is_identifier(part.as_bytes())
}

/// Whether one of two is true.
fn either(first: bool, second: bool) -> bool
    ensures { result ≡ (first || second) }
{
    first || second
}

/// Whether one of some parts is no identifier.
fn has_wrong_part(parts: &[&str]) -> bool
    ensures { result ≡ spec.has_wrong_part (map (λ part. part.now) parts.now) }
{
    let mut wrong = false;
    for part in parts {
        wrong = either(wrong, is_wrong(part));
    }
    wrong
}

/// Appends what the parts of a package may not be: other than identifiers, nor more than 101.
fn tell_parts(found: &mut Found, id: &Identity, parts: &[&str]) -> Result<(), AllocError>
    ensures { OnOk result (found.new ≡ found.old
        ++ spec.part_faults id.now (map (λ part. part.now) parts.now)) }
{
    let (wrong, deep) = (has_wrong_part(parts), parts.len() > MOST_PARTS);
    found.tell_if(wrong, StrictKind::InvalidPackage.of(id), PACKAGE)?;
    found.tell_if(deep, StrictKind::DeepPackage.of(id), PACKAGE)
}

/// Appends what the package of a file may not be; the empty one is none.
pub(crate) fn tell_package(found: &mut Found, id: &Identity, name: &str) -> Result<(), AllocError>
    ensures { OnOk result (found.new ≡ found.old ++ spec.package_faults id.now name.now) }
{
    if name.is_empty() {
        return Ok(());
    }
    let parts = package_parts(found.alloc(), name)?;
    tell_parts(found, id, parts.as_slice())
}
