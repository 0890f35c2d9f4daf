//! Reserved names that are reserved twice, or that a declaration has.

ghost use Rattle.std.specs.Prelude.{◌≡◌, ◌++◌, OnOk, take, position as position_of};
ghost use Rattle.std.specs.Str.{bytes_eq};
ghost use Rattle.protoc_rules.specs.Reserved as spec;

use crate::faults::{Entry, Found, StrictKind, entry_at};
use crate::firsts::first_with;
use plain_data::{Text, TextMap};
use pool_types::Identity;
use std::alloc::AllocError;
use std::collections::BTreeMap;

/// The reserved names of a message or an enum, and the names that its fields or values have.
#[derive(Clone, Copy)]
pub(crate) struct ReservedNames<'a> {
    pub names: &'a [Text],
    /// The field number of the list of names.
    pub tag: i32,
    /// From the name of a field or a value to its position.
    pub members: &'a TextMap,
    /// The field number of the list of fields or values.
    pub member_tag: i32,
}

/// The field or the value with a name.
fn member_named(members: &TextMap, tag: i32, name: &Text) -> Option<Entry>
    ensures { result ≡ spec.member_named members.now tag name.now }
{
    match members.get(name.as_str()) {
        Some(position) => Some(Entry {
            tag,
            position: position as usize,
        }),
        None => None,
    }
}

/// Appends that a field or a value has a reserved name.
fn tell_used(
    found: &mut Found,
    id: &Identity,
    entry: Entry,
    member: Option<Entry>,
) -> Result<(), AllocError>
    ensures { OnOk result (found.new ≡ found.old ++ spec.used_faults id.now entry member) }
{
    match member {
        Some(member) => found.tell_entry(StrictKind::ReservedName.of(id), member, Some(entry)),
        None => Ok(()),
    }
}

/// A reserved name with its position, and the first position before that at which it is reserved
/// too, if there is such.
#[derive(Clone, Copy)]
struct Named<'a> {
    name: &'a Text,
    position: usize,
    first: Option<usize>,
}

/// Appends what a reserved name breaks: that it is reserved twice, and that a field or a value has
/// it.
fn tell_name(
    found: &mut Found,
    id: &Identity,
    reserved: ReservedNames<'_>,
    named: Named<'_>,
) -> Result<(), AllocError>
    requires { named.first
        ≡ position_of (bytes_eq named.name.now) (take named.position reserved.names.now) }
    ensures { OnOk result (found.new ≡ found.old
        ++ spec.name_faults id.now (spec.reserved_names reserved.entry) named.entry.position
        named.entry.name.now) }
{
    let (tag, position) = (reserved.tag, named.position);
    let entry = Entry { tag, position };
    let first = entry_at(tag, named.first);
    let member = member_named(reserved.members, reserved.member_tag, named.name);
    found.tell_pair(StrictKind::DuplicateReservedName.of(id), entry, first)?;
    tell_used(found, id, entry, member)
}

/// Appends what each reserved name breaks.
pub(crate) fn tell_reserved_names(
    found: &mut Found,
    id: &Identity,
    reserved: ReservedNames<'_>,
) -> Result<(), AllocError>
    ensures { OnOk result (found.new ≡ found.old
        ++ spec.reserved_name_faults id.now (spec.reserved_names reserved.entry)) }
{
    let names = reserved.names;
    let mut firsts = BTreeMap::new(found.alloc());
    for (position, name) in names.iter().enumerate() {
        let first = first_with(&mut firsts, name.as_str().as_bytes(), position)?;
        let named = Named {
            name,
            position,
            first,
        };
        tell_name(found, id, reserved, named)?;
    }
    Ok(())
}
