//! Which number of a closed enum a new kind lacks.

ghost use Rattle.std.specs.Prelude.{◌≡◌, find, not, option_map};
ghost use Rattle.schema_changes.specs.Kinds.{holds};
ghost use Rattle.schema_changes.specs.Lacking as spec;
ghost use Rattle.schema_changes.specs.Parts.{parts};

use crate::Parts;
use crate::kinds::{holds, is_plain};
use pool_types::{EnumValueDescriptorInner, KindIndex};

/// The number of the first of some values that is none of a kind.
fn first_lacking(
    items: Parts<'_>,
    kind: KindIndex,
    values: &[EnumValueDescriptorInner],
) -> Option<i32>
    ensures { result ≡ option_map (λ v. v.number)
        (find (λ v. not (holds (parts items.entry) kind v.number)) values.now) }
{
    let lacking = values
        .iter()
        .find(|value| !holds(&items, kind, value.number))?;
    Some(lacking.number)
}

/// The first number of an enum that a new kind lacks, if the enum is closed and the two are encoded
/// alike.
fn lacking_of(old: Parts<'_>, index: u32, new: Parts<'_>, new_kind: KindIndex) -> Option<i32>
    ensures { result ≡ spec.lacking_of (parts old.entry) index (parts new.entry) new_kind }
{
    if old.is_open(index) {
        None
    } else if is_plain(new_kind) {
        first_lacking(new, new_kind, old.values(index))
    } else {
        None
    }
}

/// The first number of a closed enum that a new kind lacks, where the two are encoded alike.
pub fn lacking_number(
    old: Parts<'_>,
    old_kind: KindIndex,
    new: Parts<'_>,
    new_kind: KindIndex,
) -> Option<i32>
    ensures { result ≡ spec.lacking (parts old.entry) old_kind (parts new.entry) new_kind }
{
    match old_kind {
        KindIndex::Enum(index) => lacking_of(old, index, new, new_kind),
        _ => None,
    }
}
