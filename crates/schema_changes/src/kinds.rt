//! Whether a new kind keeps an old one.

ghost use Rattle.std.specs.Prelude.{◌≡◌};
ghost use Rattle.std.specs.List.{list_all};
ghost use Rattle.pool_types.specs.declared.kinds.KindIndex.TheVariants as kind;
ghost use Rattle.schema_changes.specs.Parts.{parts, has_value, values_of};
ghost use Rattle.schema_changes.specs.Kinds.{holds, holds_all, is_plain};
ghost use Rattle.schema_changes.specs.Kinds.{keeps_numbers, keeps_check, entry_check};
ghost use Rattle.schema_changes.specs.Kinds.{messages_of, keeps_cardinality};

use crate::parts::{has_value_by, has_value_near};
use crate::{Entry, Parts};
use pool_types::{Cardinality, EnumValueDescriptorInner, KindIndex};

/// Whether an enum has a value with a number.
fn has_number(items: &Parts<'_>, index: u32, number: i32) -> bool
    ensures { result ≡ has_value (values_of (parts items.now) index) number }
{
    has_value_by(items.values(index), items.value_numbers(index), number)
}

/// Whether a number of 32 bits is one of a kind that is encoded as int32 is.
#[tactic(auto, unfolding(crate::specs::Kinds::holds))]
pub(crate) fn holds(items: &Parts<'_>, kind: KindIndex, number: i32) -> bool
    ensures { result ≡ holds (parts items.now) kind number }
{
    match kind {
        KindIndex::Int32 | KindIndex::Int64 => true,
        KindIndex::Uint32 | KindIndex::Uint64 => number >= 0,
        KindIndex::Bool => number == 0 || number == 1,
        KindIndex::Enum(index) => items.is_open(index) || has_number(items, index, number),
        _ => false,
    }
}

/// Whether each number of 32 bits is one of a kind that is encoded as int32 is.
#[tactic(auto, unfolding(crate::specs::Kinds::holds_all))]
fn holds_all(items: &Parts<'_>, kind: KindIndex) -> bool
    ensures { result ≡ holds_all (parts items.now) kind }
{
    match kind {
        KindIndex::Int32 | KindIndex::Int64 => true,
        KindIndex::Enum(index) => items.is_open(index),
        _ => false,
    }
}

/// Whether a kind is encoded as int32 is.
pub(crate) fn is_plain(kind: KindIndex) -> bool
    ensures { result ≡ is_plain kind }
{
    matches!(
        kind,
        KindIndex::Int32
            | KindIndex::Int64
            | KindIndex::Uint32
            | KindIndex::Uint64
            | KindIndex::Bool
            | KindIndex::Enum(_)
    )
}

/// Whether values, with a list of their numbers, have the numbers of others, of which most stand at
/// the same positions.
fn has_each(
    values: &[EnumValueDescriptorInner],
    numbers: &[(i32, u32)],
    others: &[EnumValueDescriptorInner],
) -> bool
    ensures { result ≡ list_all (λ v. has_value values.now v.number) others.now }
{
    for (position, other) in others.iter().enumerate() {
        if !has_value_near(values, numbers, position, other.number) {
            return false;
        }
    }
    true
}

/// Whether the numbers of values are numbers of an enum.
fn enum_holds_each(items: &Parts<'_>, index: u32, values: &[EnumValueDescriptorInner]) -> bool
    ensures { result
        ≡ list_all (λ v. holds (parts items.now) (kind.Enum index) v.number) values.now }
{
    items.is_open(index) || has_each(items.values(index), items.value_numbers(index), values)
}

/// Whether the numbers of values are numbers of a kind.
fn holds_each(items: &Parts<'_>, kind: KindIndex, values: &[EnumValueDescriptorInner]) -> bool
    ensures { result ≡ list_all (λ v. holds (parts items.now) kind v.number) values.now }
{
    match kind {
        KindIndex::Enum(index) => enum_holds_each(items, index, values),
        _ => values.iter().all(|value| holds(items, kind, value.number)),
    }
}

/// Whether each number of an old kind is one of a new kind, and is encoded alike.
#[tactic(auto, unfolding(crate::specs::Kinds::keeps_numbers))]
pub(crate) fn keeps_numbers(
    old: &Parts<'_>,
    old_kind: KindIndex,
    new: &Parts<'_>,
    new_kind: KindIndex,
) -> bool
    ensures { result ≡ keeps_numbers (parts old.now) old_kind (parts new.now) new_kind }
{
    match old_kind {
        KindIndex::Int32 => holds_all(new, new_kind),
        KindIndex::Enum(index) => {
            if old.is_open(index) {
                holds_all(new, new_kind)
            } else {
                is_plain(new_kind) && holds_each(new, new_kind, old.values(index))
            }
        }
        KindIndex::Bool => holds(new, new_kind, 0) && holds(new, new_kind, 1),
        KindIndex::Uint32 => matches!(
            new_kind,
            KindIndex::Uint32 | KindIndex::Uint64 | KindIndex::Int64
        ),
        KindIndex::Int64 => matches!(new_kind, KindIndex::Int64),
        KindIndex::Uint64 => matches!(new_kind, KindIndex::Uint64),
        KindIndex::Sint32 => matches!(new_kind, KindIndex::Sint32 | KindIndex::Sint64),
        KindIndex::Sint64 => matches!(new_kind, KindIndex::Sint64),
        KindIndex::Fixed32 => matches!(new_kind, KindIndex::Fixed32),
        KindIndex::Fixed64 => matches!(new_kind, KindIndex::Fixed64),
        KindIndex::Sfixed32 => matches!(new_kind, KindIndex::Sfixed32),
        KindIndex::Sfixed64 => matches!(new_kind, KindIndex::Sfixed64),
        KindIndex::Float => matches!(new_kind, KindIndex::Float),
        KindIndex::Double => matches!(new_kind, KindIndex::Double),
        KindIndex::String | KindIndex::Bytes | KindIndex::Message(_) | KindIndex::Group(_) => false,
    }
}

/// Whether the texts of an entry are checked to be UTF-8; none where its kind is none of texts or
/// bytes.
fn entry_check(items: &Parts<'_>, entry: &Entry) -> Option<bool>
    ensures { result ≡ entry_check (parts items.now) entry.now }
{
    match entry.kind {
        KindIndex::String => Some(items.in_proto3(entry.file)),
        KindIndex::Bytes => Some(false),
        _ => None,
    }
}

/// Whether texts that were not checked are not checked now.
fn keeps_check(old: Option<bool>, new: Option<bool>) -> bool
    ensures { result ≡ keeps_check old new }
{
    match (old, new) {
        (Some(old), Some(new)) => old || !new,
        _ => false,
    }
}

/// The two messages of an old and a new kind, where both are messages or both are groups.
pub fn messages_of(old: KindIndex, new: KindIndex) -> Option<(u32, u32)>
    ensures { result ≡ messages_of old new }
{
    match (old, new) {
        (KindIndex::Message(old), KindIndex::Message(new)) => Some((old, new)),
        (KindIndex::Group(old), KindIndex::Group(new)) => Some((old, new)),
        _ => None,
    }
}

/// Whether texts of an old entry that were not checked are not checked in a new one.
pub(crate) fn keeps_texts(old: &Parts<'_>, field: &Entry, new: &Parts<'_>, kept: &Entry) -> bool
    ensures { result ≡ keeps_check (entry_check (parts old.now) field.now)
        (entry_check (parts new.now) kept.now) }
{
    keeps_check(entry_check(old, field), entry_check(new, kept))
}

/// Whether a field of a kind may become repeated, or not repeated.
pub(crate) fn keeps_cardinality(kind: KindIndex, old: Cardinality, new: Cardinality) -> bool
    ensures { result ≡ keeps_cardinality kind old new }
{
    if old == Cardinality::Repeated {
        new == Cardinality::Repeated
    } else {
        !(kind.is_message() && new == Cardinality::Repeated)
    }
}
