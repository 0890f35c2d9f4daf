//! Whether nothing changes at json and at source of a field or an extension. That is so of most,
//! and is seen without both sides of each change.

ghost use Rattle.std.specs.Prelude.{◌≡◌, true, IsTrue, []};
ghost use Rattle.pool_types.specs.declared.kinds.KindIndex.TheVariants as kind;
ghost use Rattle.pool_changes.specs.FieldChanges as spec;
ghost use Rattle.pool_changes.specs.FieldParts.{part, json_side, name_side, repeated_side};
ghost use Rattle.pool_changes.specs.FieldParts.{presence_side, oneof_side, is_named};
ghost use Rattle.pool_changes.specs.Sides.{are_alike, versions, writer, reader};

use crate::fields::{Part, first_number, is_map_entry, oneof_in};
use crate::kept_fields::KeptPart;
use crate::pools::parts_of;
use crate::sides::Telling;
use crate::words::{enum_name, message_name};
use plain_data::same;
use pool_types::{Cardinality, KindIndex};

/// Whether a kind is that of a message or of an enum, which has a name.
fn is_named(kind: KindIndex) -> bool
    ensures { result ≡ is_named kind }
{
    matches!(
        kind,
        KindIndex::Message(_) | KindIndex::Group(_) | KindIndex::Enum(_)
    )
}

/// Whether two truth values are one.
pub(crate) fn is_one_truth(first: bool, second: bool) -> bool
    ensures { IsTrue result → first ≡ second }
{
    first == second
}

/// Whether the JSON names of two fields are one, and their names.
fn has_names_of(field: Part<'_>, kept: Part<'_>) -> bool
    ensures json { IsTrue result → are_alike (json_side (part field.entry))
        (json_side (part kept.entry)) ≡ true }
    ensures name { IsTrue result → are_alike (name_side (part field.entry))
        (name_side (part kept.entry)) ≡ true }
{
    field.json_name == kept.json_name && field.id.full_name == kept.id.full_name
}

/// Whether two fields may stand in a message as often, and it tells of both alike whether they are
/// set.
#[tactic(auto, using(crate::proofs::Same::repeated_alike, crate::proofs::Same::presence_alike))]
fn has_presence_of(field: Part<'_>, kept: Part<'_>) -> bool
    ensures repeated { IsTrue result → are_alike (repeated_side (part field.entry))
        (repeated_side (part kept.entry)) ≡ true }
    ensures presence { IsTrue result → are_alike (presence_side (part field.entry))
        (presence_side (part kept.entry)) ≡ true }
{
    same(&field.entry.cardinality, &kept.entry.cardinality)
        && is_one_truth(field.has_presence, kept.has_presence)
}

impl Telling<'_> {
    /// Whether two kinds without names are one.
    fn has_plain_kind_of(self, written: KindIndex, read: KindIndex) -> bool
        ensures formed { IsTrue result
            → spec.are_formed_alike (versions self.entry) written read ≡ true }
        ensures typed { IsTrue result
            → spec.are_typed_alike (versions self.entry) written read ≡ true }
    {
        !is_named(written) && same(&written, &read)
    }

    /// Whether two messages have one name, and either both or none are entries of maps.
    #[tactic(auto, using(crate::proofs::Same::message_formed, crate::proofs::Same::message_typed))]
    fn has_message_of(self, written: u32, read: u32) -> bool
        ensures formed { IsTrue result → spec.are_formed_alike (versions self.entry)
            (kind.Message written) (kind.Message read) ≡ true }
        ensures typed { IsTrue result → spec.are_typed_alike (versions self.entry)
            (kind.Message written) (kind.Message read) ≡ true }
    {
        let (writer, reader) = (self.writer(), self.reader());
        message_name(parts_of(writer), written) == message_name(parts_of(reader), read)
            && is_one_truth(is_map_entry(writer, written), is_map_entry(reader, read))
    }

    /// Whether values of two kinds have one form in JSON, and one type.
    fn has_kind_of(self, written: KindIndex, read: KindIndex) -> bool
        ensures formed { IsTrue result → spec.are_formed_alike (versions self.entry) written read
            ≡ true }
        ensures typed { IsTrue result → spec.are_typed_alike (versions self.entry) written read
            ≡ true }
    {
        let (writer, reader) = (parts_of(self.writer()), parts_of(self.reader()));
        match (written, read) {
            (KindIndex::Message(written), KindIndex::Message(read)) => {
                self.has_message_of(written, read)
            }
            (KindIndex::Group(written), KindIndex::Group(read)) => {
                message_name(writer, written) == message_name(reader, read)
            }
            (KindIndex::Enum(written), KindIndex::Enum(read)) => {
                enum_name(writer, written) == enum_name(reader, read)
            }
            _ => self.has_plain_kind_of(written, read),
        }
    }

    /// Whether two fields are in oneofs of one name, or in none.
    #[tactic(auto, using(crate::proofs::Same::oneof_both, crate::proofs::Same::oneof_neither))]
    fn has_oneof_of(self, pair: KeptPart<'_>) -> bool
        ensures { IsTrue result → are_alike
            (oneof_side (writer (versions self.entry)) pair.entry.messages.before.now
            (part pair.entry.before))
            (oneof_side (reader (versions self.entry)) pair.entry.messages.after.now
            (part pair.entry.after)) ≡ true }
    {
        let messages = pair.messages;
        let before = oneof_in(self.writer(), messages.before, pair.before.entry.oneof);
        let after = oneof_in(self.reader(), messages.after, pair.after.entry.oneof);
        match (before, after) {
            (Some(before), Some(after)) => before.id.full_name == after.id.full_name,
            (None, None) => true,
            _ => false,
        }
    }

    /// Whether two fields, of which none is given a default value, are read alike where they are
    /// missing.
    #[inline(always)]
    pub(crate) fn has_first_of(self, field: Part<'_>, kept: Part<'_>) -> bool
        ensures { result ≡ spec.have_first_alike (versions self.entry) (part field.entry)
            (part kept.entry) }
    {
        field.default.is_none()
            && kept.default.is_none()
            && (kept.entry.cardinality == Cardinality::Repeated
                || first_number(self.writer(), field.entry.kind)
                    == first_number(self.reader(), kept.entry.kind))
    }

    /// Whether nothing changes of a field or an extension at json and at source, as far as is told
    /// without both sides.
    #[tactic(auto, using(crate::proofs::Same::json_none, crate::proofs::Same::source_none))]
    pub(crate) fn is_untold(self, pair: KeptPart<'_>) -> bool
        ensures json { IsTrue result → spec.part_json (versions self.entry)
            pair.entry.messages.found.now (part pair.entry.before) (part pair.entry.after) ≡ [] }
        ensures source { IsTrue result → spec.part_source (versions self.entry)
            pair.entry.messages.before.now pair.entry.messages.after.now
            pair.entry.messages.found.now (part pair.entry.before) (part pair.entry.after) ≡ [] }
    {
        let (before, after) = (pair.before, pair.after);
        if !has_names_of(before, after) {
            return false;
        }
        if !has_presence_of(before, after) {
            return false;
        }
        if !self.has_kind_of(before.entry.kind, after.entry.kind) {
            return false;
        }
        if !self.has_oneof_of(pair) {
            return false;
        }
        self.has_first_of(before, after)
    }
}
