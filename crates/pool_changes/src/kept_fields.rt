//! What changes at json and at source of a field or an extension that is kept by its number.

ghost use Rattle.std.specs.Prelude.{◌≡◌, ◌++◌, OnOk};
ghost use Rattle.std.specs.List.{list_all};
ghost use Rattle.pool_changes.specs.FieldChanges as spec;
ghost use Rattle.pool_changes.specs.FieldParts.{part};
ghost use Rattle.pool_changes.specs.Removed.{tells};
ghost use Rattle.pool_changes.specs.Sides.{versions};

use crate::fields::{Part, field_part, json_word, part_numbered, type_name};
use crate::kinds::ElementChange;
use crate::removed::{Kept, tells};
use crate::sides::{Side, Telling};
use plain_data::Items;
use pool_types::{Cardinality, FieldDescriptorInner, KindIndex, MessageDescriptorInner};
use schema_changes::{WireChangeKind, messages_of};
use std::alloc::AllocError;
use verdict_texts::ToldFault;

/// Whether a parser of JSON reads a number where a kind has names.
fn reads_number(written: KindIndex, read: KindIndex) -> bool
    ensures { result ≡ spec.reads_number written read }
{
    matches!((written, read), (KindIndex::Int32, KindIndex::Enum(_)))
}

/// Whether one of two is repeated, and the other is not.
fn one_repeats(field: Part<'_>, kept: Part<'_>) -> bool
    ensures { result ≡ spec.one_repeats (part field.entry) (part kept.entry) }
{
    if field.entry.cardinality == Cardinality::Repeated {
        kept.entry.cardinality != Cardinality::Repeated
    } else {
        kept.entry.cardinality == Cardinality::Repeated
    }
}

/// A field or an extension of the writer, the reader's with its number, and their messages.
#[derive(Clone, Copy)]
pub(crate) struct KeptPart<'a> {
    pub messages: Kept<'a>,
    pub before: Part<'a>,
    pub after: Part<'a>,
}

impl Telling<'_> {
    /// Whether one of a kind with its number is among the changes of the message at wire, and is
    /// told.
    fn is_told_at_wire(self, pair: &KeptPart<'_>, kind: WireChangeKind) -> bool
        ensures { result ≡ tells self.entry.direction pair.now.messages.found.now
            pair.now.before.entry.number kind }
    {
        let found = pair.messages.found;
        tells(self.direction, found, pair.before.entry.number, kind)
    }

    /// Whether values of two kinds have one form in JSON.
    fn is_formed_alike(self, written: KindIndex, read: KindIndex) -> bool
        ensures { result ≡ spec.are_formed_alike (versions self.entry) written read }
    {
        let (writer, reader) = (self.writer(), self.reader());
        json_word(writer, written) == json_word(reader, read)
            && type_name(writer, written) == type_name(reader, read)
    }

    /// Whether a parser of JSON reads values of a kind as those of another.
    fn keeps_values(self, written: KindIndex, read: KindIndex) -> bool
        ensures { result ≡ spec.keeps_values (versions self.entry) written read }
    {
        reads_number(written, read) || self.is_formed_alike(written, read)
    }

    /// Whether JSON has values of two kinds of fields of two messages in a form that the reader's
    /// reads: both may be the two messages themselves.
    fn keeps_inner_form(self, pair: (u32, u32), written: KindIndex, read: KindIndex) -> bool
        ensures { result
            ≡ spec.keeps_inner_form (versions self.entry) pair.0 pair.1 written read }
    {
        self.keeps_values(written, read)
            || match messages_of(written, read) {
                Some((written, read)) => written == pair.0 && read == pair.1,
                None => false,
            }
    }

    /// Whether JSON has a field of a message as one of another.
    fn is_shown_alike(self, pair: (u32, u32), field: Part<'_>, kept: Part<'_>) -> bool
        ensures { result ≡ spec.is_shown_alike (versions self.entry) pair.0 pair.1
            (part field.entry) (part kept.entry) }
    {
        field.json_name == kept.json_name
            && self.keeps_inner_form(pair, field.entry.kind, kept.entry.kind)
            && !one_repeats(field, kept)
    }

    /// Whether JSON has a field as the field of the reader's message with its number.
    fn is_shown_in(
        self,
        pair: (u32, u32),
        message: &MessageDescriptorInner,
        field: &FieldDescriptorInner,
    ) -> bool
        ensures { result ≡ spec.is_shown_in (versions self.entry) pair.0 pair.1 message.now
            field.now }
    {
        match part_numbered(self.reader(), message, field.number) {
            Some(kept) => self.is_shown_alike(pair, field_part(field), kept),
            None => false,
        }
    }

    /// Whether JSON has each field of a message as the reader's message has it.
    fn are_shown_in(
        self,
        pair: (u32, u32),
        before: &MessageDescriptorInner,
        after: &MessageDescriptorInner,
    ) -> bool
        ensures { result ≡ list_all
            (spec.is_shown_in (versions self.entry) pair.0 pair.1 after.now) before.now.fields }
    {
        let fields = before.fields.as_slice();
        fields
            .iter()
            .all(|field| self.is_shown_in(pair, after, field))
    }

    /// Whether JSON has two messages, by their indexes, alike, which may have other names.
    fn has_fields_alike(self, pair: (u32, u32)) -> bool
        ensures { result ≡ spec.have_fields_alike (versions self.entry) pair.0 pair.1 }
    {
        let before = self.writer().messages().get(pair.0 as usize);
        let after = self.reader().messages().get(pair.1 as usize);
        match (before, after) {
            (Some(before), Some(after)) => self.are_shown_in(pair, before, after),
            _ => false,
        }
    }

    /// Whether two kinds are those of messages that JSON has alike under other names.
    fn has_messages_alike(self, written: KindIndex, read: KindIndex) -> bool
        ensures { result ≡ spec.are_messages_alike (versions self.entry) written read }
    {
        let (writer, reader) = (self.writer(), self.reader());
        if json_word(writer, written) != json_word(reader, read) {
            return false;
        }
        match messages_of(written, read) {
            Some(pair) => self.has_fields_alike(pair),
            None => false,
        }
    }

    /// Whether JSON has a field in a form that the reader's reads.
    fn keeps_form(self, pair: &KeptPart<'_>) -> bool
        ensures { result ≡ spec.keeps_form (versions self.entry) (part pair.now.before)
            (part pair.now.after) }
    {
        let (written, read) = (pair.before.entry.kind, pair.after.entry.kind);
        self.keeps_values(written, read) || self.has_messages_alike(written, read)
    }

    /// Appends what changes of its form in JSON, if that is not told at wire.
    fn tell_form(self, told: &mut Items<ToldFault>, pair: &KeptPart<'_>) -> Result<(), AllocError>
        ensures { OnOk result (told.new ≡ told.old ++ spec.form_changes (versions self.entry)
            pair.now.messages.found.now (part pair.now.before) (part pair.now.after)) }
    {
        if self.is_told_at_wire(pair, WireChangeKind::Kind) || self.keeps_form(pair) {
            return Ok(());
        }
        let before = pair.before.form(self.writer());
        let after = pair.after.form(self.reader());
        self.tell_between(told, ElementChange::FieldJson.between(before, after))
    }

    /// Appends that it is repeated now, if that is not told at wire.
    fn tell_repeated(
        self,
        told: &mut Items<ToldFault>,
        pair: &KeptPart<'_>,
    ) -> Result<(), AllocError>
        ensures { OnOk result (told.new ≡ told.old ++ spec.repeated_changes
            (versions self.entry) pair.now.messages.found.now (part pair.now.before)
            (part pair.now.after)) }
    {
        if self.is_told_at_wire(pair, WireChangeKind::Cardinality) {
            return Ok(());
        }
        let (before, after) = (pair.before.repeated(), pair.after.repeated());
        self.tell_differing(told, ElementChange::FieldRepeated.between(before, after))
    }

    /// Appends what changes of it at json: its JSON name, its form, and whether it is repeated.
    // Not inlined, since little changes of most that is compared.
    #[inline(never)]
    pub(crate) fn tell_part_json(
        self,
        told: &mut Items<ToldFault>,
        pair: &KeptPart<'_>,
    ) -> Result<(), AllocError>
        ensures { OnOk result (told.new ≡ told.old ++ spec.part_json (versions self.entry)
            pair.now.messages.found.now (part pair.now.before) (part pair.now.after)) }
    {
        let (before, after) = (pair.before.json(), pair.after.json());
        self.tell_differing(told, ElementChange::FieldJsonName.between(before, after))?;
        self.tell_form(told, pair)?;
        self.tell_repeated(told, pair)
    }

    /// Appends what changes of its name, if the JSON name is the same.
    fn tell_name(self, told: &mut Items<ToldFault>, pair: &KeptPart<'_>) -> Result<(), AllocError>
        ensures { OnOk result (told.new ≡ told.old ++ spec.name_changes (versions self.entry)
            (part pair.now.before) (part pair.now.after)) }
    {
        if pair.before.json_name == pair.after.json_name {
            let (before, after) = (pair.before.name(), pair.after.name());
            self.tell_differing(told, ElementChange::FieldName.between(before, after))?;
        }
        Ok(())
    }

    /// Appends what changes of its type, if that is not told at wire or at json.
    fn tell_type(self, told: &mut Items<ToldFault>, pair: &KeptPart<'_>) -> Result<(), AllocError>
        ensures { OnOk result (told.new ≡ told.old ++ spec.type_changes (versions self.entry)
            pair.now.messages.found.now (part pair.now.before) (part pair.now.after)) }
    {
        if self.is_told_at_wire(pair, WireChangeKind::Kind) || !self.keeps_form(pair) {
            return Ok(());
        }
        let before = pair.before.type_(self.writer());
        let after = pair.after.type_(self.reader());
        self.tell_differing(told, ElementChange::FieldType.between(before, after))
    }

    /// Appends what changes of its presence, if that is not told at wire or at json.
    fn tell_presence(
        self,
        told: &mut Items<ToldFault>,
        pair: &KeptPart<'_>,
    ) -> Result<(), AllocError>
        ensures { OnOk result (told.new ≡ told.old ++ spec.presence_changes
            (versions self.entry) pair.now.messages.found.now (part pair.now.before)
            (part pair.now.after)) }
    {
        if self.is_told_at_wire(pair, WireChangeKind::Required)
            || one_repeats(pair.before, pair.after)
        {
            return Ok(());
        }
        let (before, after) = (pair.before.presence(), pair.after.presence());
        self.tell_differing(told, ElementChange::FieldPresence.between(before, after))
    }

    /// Appends which oneof it is in, if that is not told at wire.
    fn tell_moved(self, told: &mut Items<ToldFault>, pair: &KeptPart<'_>) -> Result<(), AllocError>
        ensures { OnOk result (told.new ≡ told.old ++ spec.oneof_moves (versions self.entry)
            pair.now.messages.before.now pair.now.messages.after.now
            pair.now.messages.found.now (part pair.now.before) (part pair.now.after)) }
    {
        if self.is_told_at_wire(pair, WireChangeKind::Oneof) {
            return Ok(());
        }
        let before = pair.before.oneof(self.writer(), pair.messages.before);
        let after = pair.after.oneof(self.reader(), pair.messages.after);
        self.tell_differing(told, ElementChange::FieldOneof.between(before, after))
    }

    /// Appends what changes of what it is read as where it is missing.
    fn tell_default(
        self,
        told: &mut Items<ToldFault>,
        pair: &KeptPart<'_>,
    ) -> Result<(), AllocError>
        ensures { OnOk result (told.new ≡ told.old ++ spec.default_changes
            (versions self.entry) (part pair.now.before) (part pair.now.after)) }
    {
        if self.has_first_of(pair.before, pair.after) {
            return Ok(());
        }
        let before = pair.before.read_as(self.alloc, self.writer())?;
        let after = pair.after.read_as(self.alloc, self.reader())?;
        let written = Side::there(pair.before.id, before.0, before.1.as_str());
        let read = Side::there(pair.after.id, after.0, after.1.as_str());
        self.tell_differing(told, ElementChange::FieldDefault.between(written, read))
    }

    /// Appends what changes of it at source: its name, its type, its presence, its oneof, and its
    /// default value.
    // Not inlined, since little changes of most that is compared.
    #[inline(never)]
    pub(crate) fn tell_part_source(
        self,
        told: &mut Items<ToldFault>,
        pair: &KeptPart<'_>,
    ) -> Result<(), AllocError>
        ensures { OnOk result (told.new ≡ told.old ++ spec.part_source (versions self.entry)
            pair.now.messages.before.now pair.now.messages.after.now
            pair.now.messages.found.now (part pair.now.before) (part pair.now.after)) }
    {
        self.tell_name(told, pair)?;
        self.tell_type(told, pair)?;
        self.tell_presence(told, pair)?;
        self.tell_moved(told, pair)?;
        self.tell_default(told, pair)
    }
}
