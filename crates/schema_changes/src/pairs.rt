//! Which messages of two pools are a pair, so that the new one reads what the old one writes.

ghost use Rattle.std.specs.Prelude.{◌≡◌, ◌&&◌, ◌==◌, length};
ghost use Rattle.std.specs.List.{list_all};
ghost use Rattle.schema_changes.specs.Changes.{compared};
ghost use Rattle.schema_changes.specs.Parts.{parts};
ghost use Rattle.schema_changes.specs.Entries.{entry_numbered, field_entry};
ghost use Rattle.schema_changes.specs.Kinds.{keeps_kind_by};
ghost use Rattle.schema_changes.specs.Pairs.{keeps_but_kind, keeps_entry, keeps_part, keeps_number};
ghost use Rattle.schema_changes.specs.Pairs.{keeps_parts};
ghost use Rattle.schema_changes.specs.Pairs.{are_alike, keeps_message, leaves_reserved};
ghost use Rattle.schema_changes.specs.Records.{keeps_range, reserved_of};
ghost use Rattle.schema_changes.specs.Pairs.{keeps_map, are_inner_pairs, are_paired, keeps_kind};

use crate::asked::Asked;
use crate::entries::field_entry;
use crate::kinds::{keeps_cardinality, messages_of};
use crate::oneofs::in_one;
use crate::records::is_reserved;
use crate::{Compared, Entry};
use pool_types::{Cardinality, FieldDescriptorInner, MessageDescriptorInner};
use proto_types::ReservedRange;

/// Whether a new field keeps an old one, but for its kind.
fn keeps_but_kind(field: &Entry, kept: &Entry) -> bool
    ensures { result ≡ keeps_but_kind field.now kept.now }
{
    keeps_cardinality(field.kind, field.cardinality, kept.cardinality)
        && (kept.cardinality != Cardinality::Required || field.cardinality == Cardinality::Required)
        && (kept.oneof.is_none() || in_one(field.oneof, kept.oneof))
}

impl Compared<'_> {
    /// Whether the new message has the number of an old field, or keeps it free.
    fn keeps_number(&self, field: &FieldDescriptorInner) -> bool
        ensures { result ≡ keeps_number (parts self.now.new) self.now.after.now field.now }
    {
        self.new_entry(field.number).is_some() || self.new.is_kept_free(self.after, field.number)
    }

    /// Whether the new message has the numbers of the old fields, or keeps them free.
    fn keeps_each_number(&self) -> bool
        ensures { result ≡ list_all (keeps_number (parts self.now.new) self.now.after.now)
            self.now.before.now.fields }
    {
        let fields = self.before.fields.as_slice();
        fields.iter().all(|field| self.keeps_number(field))
    }

    /// Whether the new message reserves what the old one did.
    fn keeps_each_range(&self) -> bool
        ensures { result ≡ list_all (keeps_range (parts self.now.new) self.now.after.now)
            (reserved_of (parts self.now.old) self.now.before.now) }
    {
        let ranges = self.old.reserved(self.before);
        ranges
            .iter()
            .all(|range| self.new.keeps_range(self.after, range))
    }

    /// Whether a new entry takes no number that the old message reserved, in some ranges.
    #[inline(always)]
    pub(crate) fn leaves(&self, reserved: &[ReservedRange], entry: &Entry) -> bool
        requires { reserved.now ≡ reserved_of (parts self.now.old) self.now.before.now }
        ensures { result ≡ leaves_reserved (parts self.now.old) self.now.before.now entry.now }
    {
        !is_reserved(reserved, i64::from(entry.number)) || self.old_entry(entry.number).is_some()
    }

    /// Whether a new entry takes no number that the old message reserved.
    pub(crate) fn leaves_reserved(&self, entry: &Entry) -> bool
        ensures { result ≡ leaves_reserved (parts self.now.old) self.now.before.now entry.now }
    {
        self.leaves(self.old.reserved(self.before), entry)
    }

    /// Whether nothing extends the two messages.
    fn is_unextended(&self) -> bool
        ensures { result ≡ (length self.now.before.now.extensions == 0
            && length self.now.after.now.extensions == 0) }
    {
        self.before.extensions.as_slice().is_empty() && self.after.extensions.as_slice().is_empty()
    }
}

/// An old and a new message of two pools of which something was asked.
#[derive(Clone, Copy)]
pub(crate) struct Pair<'a> {
    pub asked: &'a Asked<'a>,
    pub before: &'a MessageDescriptorInner,
    pub after: &'a MessageDescriptorInner,
}

impl<'a> Pair<'a> {
    /// The two messages, each with the items of its pool.
    fn sides(self) -> Compared<'a>
        ensures { compared result ≡ record {
          old = self.entry.asked.now.older;
          before = self.entry.before.now;
          new = self.entry.asked.now.newer;
          after = self.entry.after.now;
        } }
    {
        Compared {
            old: self.asked.old_parts(),
            before: self.before,
            new: self.asked.new_parts(),
            after: self.after,
        }
    }

    /// Whether a new entry takes no number that the old message reserved.
    fn leaves_reserved(self, kept: &Entry) -> bool
        ensures { result ≡ leaves_reserved self.entry.asked.now.older self.entry.before.now
            kept.now }
    {
        self.sides().leaves_reserved(kept)
    }

    /// Whether a new field keeps the old entry with its number, where messages are pairs by their
    /// names.
    fn keeps_named_entry(self, kept: &Entry) -> bool
        ensures { result ≡ keeps_entry
            (λ a b. are_alike self.entry.asked.now.older a self.entry.asked.now.newer b)
            self.entry.asked.now.older
            (entry_numbered self.entry.asked.now.older self.entry.before.now kept.now.number)
            self.entry.asked.now.newer kept.now }
    {
        match self.sides().old_entry(kept.number) {
            Some(field) => {
                self.asked.keeps_named_kind(&field, kept) && keeps_but_kind(&field, kept)
            }
            None => kept.cardinality != Cardinality::Required,
        }
    }

    /// Whether a new field keeps what the old message has of its number, where messages are pairs
    /// by their names.
    fn keeps_named_part(self, field: &FieldDescriptorInner) -> bool
        ensures { result ≡ keeps_part
            (λ a b. are_alike self.entry.asked.now.older a self.entry.asked.now.newer b)
            self.entry.asked.now.older self.entry.before.now self.entry.asked.now.newer
            (field_entry field.now) }
    {
        let kept = field_entry(field);
        self.keeps_named_entry(&kept) && self.leaves_reserved(&kept)
    }

    /// Whether the new fields keep what the old message has of their numbers, where messages are
    /// pairs by their names.
    fn keeps_named_parts(self) -> bool
        ensures { result ≡ list_all (λ g. keeps_part
            (λ a b. are_alike self.entry.asked.now.older a self.entry.asked.now.newer b)
            self.entry.asked.now.older self.entry.before.now self.entry.asked.now.newer
            (field_entry g)) self.entry.after.now.fields }
    {
        let fields = self.after.fields.as_slice();
        fields.iter().all(|field| self.keeps_named_part(field))
    }

    /// Whether the new message keeps the old one, where messages are pairs by their names.
    #[tactic(auto, unfolding(crate::specs::Pairs::keeps_parts))]
    fn is_kept_by_names(self) -> bool
        ensures { result ≡ keeps_parts
            (λ a b. are_alike self.entry.asked.now.older a self.entry.asked.now.newer b)
            self.entry.asked.now.older self.entry.before.now
            self.entry.asked.now.newer self.entry.after.now }
    {
        let sides = self.sides();
        sides.is_unextended()
            && self.keeps_named_parts()
            && sides.keeps_each_number()
            && sides.keeps_each_range()
    }

    /// Whether a new field keeps the old entry with its number, in two messages that may have other
    /// names.
    fn keeps_inner_entry(self, pair: (u32, u32), kept: &Entry) -> bool
        ensures { result ≡ keeps_entry
            (are_inner_pairs self.entry.asked.now.older pair.0 self.entry.asked.now.newer pair.1)
            self.entry.asked.now.older
            (entry_numbered self.entry.asked.now.older self.entry.before.now kept.now.number)
            self.entry.asked.now.newer kept.now }
    {
        match self.sides().old_entry(kept.number) {
            Some(field) => {
                self.asked.keeps_inner_kind(pair, &field, kept) && keeps_but_kind(&field, kept)
            }
            None => kept.cardinality != Cardinality::Required,
        }
    }

    /// Whether a new field keeps what the old message has of its number, in two messages that may
    /// have other names.
    fn keeps_inner_part(self, pair: (u32, u32), field: &FieldDescriptorInner) -> bool
        ensures { result ≡ keeps_part
            (are_inner_pairs self.entry.asked.now.older pair.0 self.entry.asked.now.newer pair.1)
            self.entry.asked.now.older self.entry.before.now self.entry.asked.now.newer
            (field_entry field.now) }
    {
        let kept = field_entry(field);
        self.keeps_inner_entry(pair, &kept) && self.leaves_reserved(&kept)
    }

    /// Whether the new fields keep what the old message has of their numbers, in two messages that
    /// may have other names.
    fn keeps_inner_parts(self, pair: (u32, u32)) -> bool
        ensures { result ≡ list_all (λ g. keeps_part
            (are_inner_pairs self.entry.asked.now.older pair.0 self.entry.asked.now.newer pair.1)
            self.entry.asked.now.older self.entry.before.now self.entry.asked.now.newer
            (field_entry g)) self.entry.after.now.fields }
    {
        let fields = self.after.fields.as_slice();
        fields
            .iter()
            .all(|field| self.keeps_inner_part(pair, field))
    }

    /// Whether the new message keeps the old one, which may have another name.
    #[tactic(auto, unfolding(crate::specs::Pairs::keeps_parts))]
    fn is_kept(self, pair: (u32, u32)) -> bool
        ensures { result ≡ keeps_parts
            (are_inner_pairs self.entry.asked.now.older pair.0 self.entry.asked.now.newer pair.1)
            self.entry.asked.now.older self.entry.before.now
            self.entry.asked.now.newer self.entry.after.now }
    {
        let sides = self.sides();
        sides.is_unextended()
            && self.keeps_inner_parts(pair)
            && sides.keeps_each_number()
            && sides.keeps_each_range()
    }
}

impl Asked<'_> {
    /// Whether two messages are alike: they have one full name, and both are entries of maps, or
    /// neither is.
    #[tactic(auto, unfolding(crate::specs::Pairs::are_alike))]
    pub(crate) fn is_alike(&self, index: u32, new_index: u32) -> bool
        ensures { result ≡ are_alike self.now.older index self.now.newer new_index }
    {
        let (old, new) = (self.old_parts(), self.new_parts());
        if !old.has_name_of(index, new, new_index) {
            return false;
        }
        let after = new.map_entry_at(new_index);
        match old.map_entry_at(index) {
            Some(_) => after.is_some(),
            None => after.is_none(),
        }
    }

    /// Whether the kind of a new field keeps that of an old one, where messages are pairs by their
    /// names.
    fn keeps_named_kind(&self, field: &Entry, kept: &Entry) -> bool
        ensures { result ≡ keeps_kind_by (λ a b. are_alike self.now.older a self.now.newer b)
            self.now.older field.now self.now.newer kept.now }
    {
        if self.keeps_scalar(field, kept) {
            return true;
        }
        match messages_of(field.kind, kept.kind) {
            Some((index, new_index)) => self.is_alike(index, new_index),
            None => false,
        }
    }

    /// Whether two messages are entries of maps, of which the new one keeps the old one, where that
    /// was not asked.
    #[tactic(auto, unfolding(crate::specs::Pairs::keeps_map))]
    pub(crate) fn finds_map(&self, index: u32, new_index: u32) -> bool
        ensures { result ≡ keeps_map self.now.older index self.now.newer new_index }
    {
        let before = self.old_parts().map_entry_at(index);
        match (before, self.new_parts().map_entry_at(new_index)) {
            (Some(before), Some(after)) => {
                let pair = Pair {
                    asked: self,
                    before,
                    after,
                };
                pair.is_kept_by_names()
            }
            _ => false,
        }
    }

    /// Whether two messages are entries of maps, of which the new one keeps the old one.
    pub(crate) fn keeps_map(&self, index: u32, new_index: u32) -> bool
        ensures { result ≡ keeps_map self.now.older index self.now.newer new_index }
    {
        match self.map_answer(index, new_index) {
            Some(is_kept) => is_kept,
            None => self.finds_map(index, new_index),
        }
    }

    /// Whether the kind of a new field keeps that of an old one, in two messages that may have
    /// other names.
    fn keeps_inner_kind(&self, pair: (u32, u32), field: &Entry, kept: &Entry) -> bool
        ensures { result ≡ keeps_kind_by
            (are_inner_pairs self.now.older pair.0 self.now.newer pair.1)
            self.now.older field.now self.now.newer kept.now }
    {
        if self.keeps_scalar(field, kept) {
            return true;
        }
        match messages_of(field.kind, kept.kind) {
            Some((index, new_index)) => {
                self.is_alike(index, new_index)
                    || self.keeps_map(index, new_index)
                    || (index == pair.0 && new_index == pair.1)
            }
            None => false,
        }
    }

    /// Whether the new one of two messages keeps the old one, which may have another name, where
    /// that was not asked.
    #[tactic(auto, unfolding(crate::specs::Pairs::keeps_message))]
    pub(crate) fn finds_message(&self, index: u32, new_index: u32) -> bool
        ensures { result ≡ keeps_message self.now.older index self.now.newer new_index }
    {
        let before = self.old_parts().plain_message_at(index);
        match (before, self.new_parts().plain_message_at(new_index)) {
            (Some(before), Some(after)) => {
                let pair = Pair {
                    asked: self,
                    before,
                    after,
                };
                pair.is_kept((index, new_index))
            }
            _ => false,
        }
    }
}
