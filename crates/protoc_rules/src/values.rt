//! Values of an enum of proto3 whose names are one without the enum's name.

ghost use Rattle.std.specs.Prelude.{◌≡◌, ◌++◌, IfOk, OnOk};
ghost use Rattle.protoc_rules.specs.Faults.{each_told};
ghost use Rattle.protoc_rules.specs.Values as spec;

use crate::faults::{Entry, Found, StrictKind, entry_at};
use crate::firsts::first_with;
use crate::maps::camel_case;
use crate::names::declared_name;
use plain_data::Items;
use pool_types::{EnumDescriptorInner, EnumValueDescriptorInner};
use proto_types::tag::enum_::VALUE;
use std::alloc::{AllocError, Global};
use std::collections::BTreeMap;

/// Whether two names are equal but for the case of ASCII's letters.
fn are_alike(first: &[u8], second: &[u8]) -> bool
    ensures { result ≡ spec.are_alike first.now second.now }
{
    first.eq_ignore_ascii_case(second)
}

/// Whether a name begins with a prefix, in any case of ASCII's letters, and has more behind it.
fn begins_with(prefix: &[u8], name: &[u8]) -> bool
    ensures { result ≡ spec.begins_with prefix.now name.now }
{
    prefix.len() < name.len() && are_alike(&name[..prefix.len()], prefix)
}

/// A name in camel case without a prefix, where it begins with that.
fn without_prefix(alloc: Global, prefix: &[u8], name: Vec<u8>) -> Result<Vec<u8>, AllocError>
    ensures { IfOk result (λ plain. plain.items ≡ spec.without_prefix prefix.now name.items) }
{
    if begins_with(prefix, name.as_slice()) {
        return camel_case(alloc, &name[prefix.len()..], true);
    }
    Ok(name)
}

/// The name of a value in camel case, where each letter that no underscore stands before is in
/// lower case, and without the letters of the enum's name.
fn plain_name(
    alloc: Global,
    prefix: &[u8],
    value: &EnumValueDescriptorInner,
) -> Result<Vec<u8>, AllocError>
    ensures { IfOk result (λ plain. plain.items ≡ spec.plain_name prefix.now value.now) }
{
    let lower = declared_name(&value.id).to_ascii_lowercase(alloc)?;
    let camel = camel_case(alloc, lower.as_slice(), true)?;
    without_prefix(alloc, prefix, camel)
}

/// The plain names of the values of an enum.
fn plain_names(
    alloc: Global,
    enumeration: &EnumDescriptorInner,
) -> Result<Items<Items<u8>>, AllocError>
    ensures { IfOk result (λ names. names ≡ spec.plain_names enumeration.now) }
{
    let prefix = camel_case(alloc, declared_name(&enumeration.id), false)?;
    let values = enumeration.values.as_slice();
    let mut names = Items::new(alloc);
    for value in values {
        names.push(Items::from_vec(plain_name(alloc, prefix.as_slice(), value)?))?;
    }
    Ok(names)
}

/// Whether the values with two positions have two numbers.
fn differ(values: &[EnumValueDescriptorInner], position: usize, earlier: usize) -> bool
    ensures { result ≡ spec.differ values.now position earlier }
{
    match (values.get(position), values.get(earlier)) {
        (Some(value), Some(earlier)) => value.number != earlier.number,
        _ => false,
    }
}

/// A position, where the value there has another number than one with a position.
fn if_differs(
    values: &[EnumValueDescriptorInner],
    position: usize,
    first: Option<usize>,
) -> Option<usize>
    ensures { result ≡ spec.if_differs values.now position first }
{
    match first {
        Some(first) if differ(values, position, first) => Some(first),
        _ => None,
    }
}

/// Appends that the value with a position has another number than the first value with its plain
/// name, if that is an earlier one.
fn tell_clash(
    found: &mut Found,
    enumeration: &EnumDescriptorInner,
    position: usize,
    first: Option<usize>,
) -> Result<(), AllocError>
    ensures { OnOk result (found.new
        ≡ found.old ++ spec.clash_with enumeration.now position first) }
{
    let first = if_differs(enumeration.values.as_slice(), position, first);
    let tag = VALUE;
    found.tell_pair(
        StrictKind::ClashingValues.of(&enumeration.id),
        Entry { tag, position },
        entry_at(tag, first),
    )
}

/// Appends which values have the plain names of earlier ones, by the plain names of all.
fn tell_clashes(
    found: &mut Found,
    enumeration: &EnumDescriptorInner,
    names: &[Items<u8>],
) -> Result<(), AllocError>
    ensures { OnOk result (found.new ≡ found.old
        ++ each_told (spec.clash_faults enumeration.now names.now) names.now) }
{
    let mut firsts = BTreeMap::new(found.alloc());
    for (position, name) in names.iter().enumerate() {
        let first = first_with(&mut firsts, name.as_slice(), position)?;
        tell_clash(found, enumeration, position, first)?;
    }
    Ok(())
}

/// Appends which values of an enum have the plain names of earlier ones.
pub(crate) fn tell_values(
    found: &mut Found,
    enumeration: &EnumDescriptorInner,
) -> Result<(), AllocError>
    ensures { OnOk result (found.new ≡ found.old ++ spec.value_faults enumeration.now) }
{
    let names = plain_names(found.alloc(), enumeration)?;
    tell_clashes(found, enumeration, names.as_slice())
}
