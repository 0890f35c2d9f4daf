//! Two pools that are compared, with what was found of their kinds: each pair of kinds is looked at
//! once.

ghost use Rattle.std.specs.Prelude.{◌≡◌, IfOk, IfSome, ◌||◌};
ghost use Rattle.pool_types.specs.declared.kinds.KindIndex.TheVariants as kind;
ghost use Rattle.schema_changes.specs.Parts.{parts};
ghost use Rattle.schema_changes.specs.Kinds.{entry_check, keeps_check, keeps_numbers};
ghost use Rattle.schema_changes.specs.Pairs.{are_alike, are_paired, keeps_kind, keeps_map};
ghost use Rattle.schema_changes.specs.Pairs.{keeps_message};

use crate::answers::{Answer, Answers};
use crate::kinds::{keeps_numbers, keeps_texts, messages_of};
use crate::{Entry, Parts};
use pool_types::{FieldDescriptorInner, KindIndex, MessageDescriptorInner};
use std::alloc::{AllocError, Global};
use std::marker::Model;

/// An old and a new pool that are compared, with what was found of their kinds. Contracts see it as
/// the two pools.
#[derive(Drop)]
pub struct Asked<'a> {
    older: Parts<'a>,
    newer: Parts<'a>,
    /// Whether new kinds keep the numbers of old ones.
    numbers: Answers,
    /// Whether new messages, which are entries of maps, keep old ones.
    maps: Answers,
    /// Whether new messages, which are no entries of maps, keep old ones.
    messages: Answers,
}

impl<'a> Model for Asked<'a> {
    ghost use Rattle.schema_changes.specs.Both.{Both};

    ghost Value = { Both };

    ghost use Rattle.schema_changes.specs.BothCode.{both_code};

    ghost coded = { both_code };

    ghost use Rattle.schema_changes.specs.Parts.{parts};
    ghost use Rattle.schema_changes.specs.Asked.{AreRight};

    ghost view = { λ a. record { older = parts a.older; newer = parts a.newer } };

    ghost invariant = { λ a. AreRight (record { older = parts a.older; newer = parts a.newer })
        a.numbers.answers.items a.maps.answers.items a.messages.answers.items };
}

impl<'a> Asked<'a> {
    /// Two pools of which nothing was asked.
    pub fn new(alloc: Global, old: Parts<'a>, new: Parts<'a>) -> Asked<'a>
        ensures { result ≡ record { older = parts old.entry; newer = parts new.entry } }
    {
        Asked {
            older: old,
            newer: new,
            numbers: Answers::new(alloc),
            maps: Answers::new(alloc),
            messages: Answers::new(alloc),
        }
    }

    /// The items of the old pool.
    pub(crate) fn old_parts(&self) -> Parts<'a>
        ensures { parts result ≡ self.now.older }
    {
        self.older
    }

    /// The items of the new pool.
    pub(crate) fn new_parts(&self) -> Parts<'a>
        ensures { parts result ≡ self.now.newer }
    {
        self.newer
    }

    /// Whether a new kind keeps the numbers of an old one, if that was asked.
    fn numbers_answer(&self, old: KindIndex, new: KindIndex) -> Option<bool>
        ensures { IfSome result (λ is_kept. is_kept
            ≡ keeps_numbers self.now.older old self.now.newer new) }
    {
        if is_asked(self.older, old, new) {
            self.numbers.get(old, new)
        } else {
            None
        }
    }

    /// Whether a new kind keeps the numbers of an old one.
    fn keeps_numbers(&self, old: KindIndex, new: KindIndex) -> bool
        ensures { result ≡ keeps_numbers self.now.older old self.now.newer new }
    {
        match self.numbers_answer(old, new) {
            Some(is_kept) => is_kept,
            None => keeps_numbers(&self.older, old, &self.newer, new),
        }
    }

    /// Whether the kind of a new entry keeps that of an old one, where both have numbers or texts.
    pub(crate) fn keeps_scalar(&self, field: &Entry, kept: &Entry) -> bool
        ensures { result ≡ (keeps_numbers self.now.older field.now.kind self.now.newer kept.now.kind
            || keeps_check (entry_check self.now.older field.now)
            (entry_check self.now.newer kept.now)) }
    {
        self.keeps_numbers(field.kind, kept.kind)
            || keeps_texts(&self.older, field, &self.newer, kept)
    }

    /// Whether a new message, which is an entry of a map, keeps an old one, if that was asked.
    pub(crate) fn map_answer(&self, index: u32, new_index: u32) -> Option<bool>
        ensures { IfSome result (λ is_kept. is_kept
            ≡ keeps_map self.now.older index self.now.newer new_index) }
    {
        let (old, new) = (KindIndex::Message(index), KindIndex::Message(new_index));
        self.maps.get(old, new)
    }

    /// Whether a new message, which is no entry of a map, keeps an old one, if that was asked.
    fn message_answer(&self, index: u32, new_index: u32) -> Option<bool>
        ensures { IfSome result (λ is_kept. is_kept
            ≡ keeps_message self.now.older index self.now.newer new_index) }
    {
        let (old, new) = (KindIndex::Message(index), KindIndex::Message(new_index));
        self.messages.get(old, new)
    }

    /// Whether a new message, which is no entry of a map, keeps an old one.
    fn keeps_message(&self, index: u32, new_index: u32) -> bool
        ensures { result ≡ keeps_message self.now.older index self.now.newer new_index }
    {
        match self.message_answer(index, new_index) {
            Some(is_kept) => is_kept,
            None => self.finds_message(index, new_index),
        }
    }

    /// Asks whether a new kind keeps the numbers of an old one.
    fn ask_numbers(&mut self, old: KindIndex, new: KindIndex) -> Result<(), AllocError>
        ensures { self.new ≡ self.old }
    {
        if !is_asked(self.older, old, new) || self.numbers.get(old, new).is_some() {
            return Ok(());
        }
        let is_kept = keeps_numbers(&self.older, old, &self.newer, new);
        self.numbers.put(Answer { old, new, is_kept })
    }

    /// Asks whether a new field keeps the numbers of the entry of an old message with its number.
    fn ask_field(
        &mut self,
        before: &MessageDescriptorInner,
        field: &FieldDescriptorInner,
    ) -> Result<(), AllocError>
        ensures { self.new ≡ self.old }
    {
        match self.older.entry_numbered(before, field.number) {
            Some(entry) => self.ask_numbers(entry.kind, field.kind),
            None => Ok(()),
        }
    }

    /// Asks whether the fields of a new message keep the numbers of those of an old one.
    fn ask_fields(
        &mut self,
        before: &MessageDescriptorInner,
        after: &MessageDescriptorInner,
    ) -> Result<(), AllocError>
        ensures { self.new ≡ self.old }
    {
        for field in after.fields.as_slice() {
            self.ask_field(before, field)?;
        }
        Ok(())
    }

    /// Asks whether a new message, which is an entry of a map, keeps an old one.
    fn ask_map(&mut self, index: u32, new_index: u32) -> Result<(), AllocError>
        ensures { self.new ≡ self.old }
    {
        if self.map_answer(index, new_index).is_some() {
            return Ok(());
        }
        let before = self.older.map_entry_at(index);
        if let (Some(before), Some(after)) = (before, self.newer.map_entry_at(new_index)) {
            self.ask_fields(before, after)?;
        }
        let is_kept = self.finds_map(index, new_index);
        let (old, new) = (KindIndex::Message(index), KindIndex::Message(new_index));
        self.maps.put(Answer { old, new, is_kept })
    }

    /// Asks all that a new field keeps of the entry of an old message with its number but whether
    /// it keeps a message that is no entry of a map.
    fn ask_inner_field(
        &mut self,
        before: &MessageDescriptorInner,
        field: &FieldDescriptorInner,
    ) -> Result<(), AllocError>
        ensures { self.new ≡ self.old }
    {
        let Some(entry) = self.older.entry_numbered(before, field.number) else {
            return Ok(());
        };
        self.ask_numbers(entry.kind, field.kind)?;
        match messages_of(entry.kind, field.kind) {
            Some((index, new_index)) => self.ask_map(index, new_index),
            None => Ok(()),
        }
    }

    /// Asks the same of each field of a new message.
    fn ask_inner_fields(
        &mut self,
        before: &MessageDescriptorInner,
        after: &MessageDescriptorInner,
    ) -> Result<(), AllocError>
        ensures { self.new ≡ self.old }
    {
        for field in after.fields.as_slice() {
            self.ask_inner_field(before, field)?;
        }
        Ok(())
    }

    /// Asks whether a new message, which is no entry of a map, keeps an old one.
    fn ask_message(&mut self, index: u32, new_index: u32) -> Result<(), AllocError>
        ensures { self.new ≡ self.old }
    {
        if self.message_answer(index, new_index).is_some() {
            return Ok(());
        }
        let before = self.older.plain_message_at(index);
        if let (Some(before), Some(after)) = (before, self.newer.plain_message_at(new_index)) {
            self.ask_inner_fields(before, after)?;
        }
        let is_kept = self.finds_message(index, new_index);
        let (old, new) = (KindIndex::Message(index), KindIndex::Message(new_index));
        self.messages.put(Answer { old, new, is_kept })
    }

    /// Whether two messages are a pair: they are alike, or the new one keeps the old one.
    #[tactic(auto, unfolding(crate::specs::Pairs::are_paired))]
    fn pairs(&mut self, index: u32, new_index: u32) -> Result<bool, AllocError>
        ensures same { self.new ≡ self.old }
        ensures paired { IfOk result (λ is_paired. is_paired
            ≡ are_paired self.old.older index self.old.newer new_index) }
    {
        if self.is_alike(index, new_index) {
            return Ok(true);
        }
        self.ask_map(index, new_index)?;
        if self.keeps_map(index, new_index) {
            return Ok(true);
        }
        self.ask_message(index, new_index)?;
        Ok(self.keeps_message(index, new_index))
    }

    /// Whether the kind of a new entry keeps that of an old one.
    pub(crate) fn keeps_kind(&mut self, field: &Entry, kept: &Entry) -> Result<bool, AllocError>
        ensures same { self.new ≡ self.old }
        ensures kept { IfOk result (λ is_kept. is_kept
            ≡ keeps_kind self.old.older field.now self.old.newer kept.now) }
    {
        self.ask_numbers(field.kind, kept.kind)?;
        if self.keeps_scalar(field, kept) {
            return Ok(true);
        }
        match messages_of(field.kind, kept.kind) {
            Some((index, new_index)) => self.pairs(index, new_index),
            None => Ok(false),
        }
    }
}

/// Whether it is asked if a new kind keeps the numbers of an old one: to find that, numbers of
/// values are looked up.
fn is_asked(items: Parts<'_>, old: KindIndex, new: KindIndex) -> bool {
    match old {
        KindIndex::Enum(index) => !items.is_open(index),
        KindIndex::Bool => matches!(new, KindIndex::Enum(_)),
        _ => false,
    }
}
