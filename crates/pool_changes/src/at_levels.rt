//! What changes at each level, in the order of the writer's items.

ghost use Rattle.std.specs.Prelude.{◌≡◌, ◌++◌, [], IfOk, IsTrue, None, OnOk, Some, option_map};
ghost use Rattle.std.specs.List.{flat_map};
ghost use Rattle.proto_types.specs.Readers.{text_of};
ghost use Rattle.schema_changes.specs.Changes.{compared};
ghost use Rattle.schema_changes.specs.MessageSets.{is_message_set};
ghost use Rattle.schema_changes.specs.Parts.{parts_of};
ghost use Rattle.schema_changes.specs.Pools.{message_named};
ghost use Rattle.pool_changes.specs.AtLevels as spec;
ghost use Rattle.pool_changes.specs.Comparing as comparing;
ghost use Rattle.pool_changes.specs.Members.{by_writer};
ghost use Rattle.pool_changes.specs.Removed.{enum_named, file_changes, file_named, oneof_changes};
ghost use Rattle.pool_changes.specs.FieldChanges.{part_json, part_source};
ghost use Rattle.pool_changes.specs.FieldParts.{extension_part_at, field_part, part};
ghost use Rattle.pool_changes.specs.Pools.{pools_of};
ghost use Rattle.pool_changes.specs.Sides.{both_of, reader, side, versions, writer};

use crate::Direction;
use crate::alike::is_one_truth;
use crate::by_level::{BehindWire, ByLevel};
use crate::fields::{Part, extension_part_at, field_part, part_numbered};
use crate::kept_fields::KeptPart;
use crate::kinds::ElementChange;
use crate::members::by_writer;
use crate::named::{enum_near, message_near};
use crate::pools::parts_of;
use crate::removed::{Kept, is_told};
use crate::sides::{Side, Telling};
use crate::telling::tell_change;
use descriptor_pool::DescriptorPool;
use plain_data::Items;
use pool_types::{EnumDescriptorInner, MessageDescriptorInner};
use schema_changes::{Asked, Compared, WireChange};
use std::alloc::AllocError;
use verdict_texts::ToldFault;

/// The words for whether an enum is open.
fn open_word(is_open: bool) -> &'static str
    ensures { result.now ≡ spec.open_word is_open }
{
    if is_open { "open" } else { "closed" }
}

/// Whether an enum is open, as a side.
fn open_side<'a>(pool: &DescriptorPool, enumeration: &'a EnumDescriptorInner) -> Side<'a>
    ensures { side result ≡ spec.open_side pool.now enumeration.now }
{
    let is_open = parts_of(pool).in_proto3(enumeration.id.file);
    Side::there(&enumeration.id, open_word(is_open), "")
}

/// The words for whether a message is a message set on the wire.
fn set_word(is_set: bool) -> &'static str
    ensures { result.now ≡ comparing.set_word is_set }
{
    if is_set {
        "message set"
    } else {
        "plain message"
    }
}

/// Whether a message is a message set on the wire.
fn is_set(pool: &DescriptorPool, message: &MessageDescriptorInner) -> bool
    ensures { result ≡ is_message_set (parts_of pool.now) message.now }
{
    parts_of(pool).is_message_set(message)
}

/// Whether a message is a message set on the wire, as a side.
fn set_side<'a>(pool: &DescriptorPool, message: &'a MessageDescriptorInner) -> Side<'a>
    ensures { side result ≡ comparing.set_side pool.now message.now }
{
    Side::there(&message.id, set_word(is_set(pool, message)), "")
}

impl<'a> Telling<'a> {
    /// A message of the writer and one of the reader.
    fn both_of(
        self,
        before: &'a MessageDescriptorInner,
        after: &'a MessageDescriptorInner,
    ) -> Compared<'a>
        ensures { compared result ≡ both_of (versions self.entry) before.now after.now }
    {
        Compared {
            old: parts_of(self.writer()),
            before,
            new: parts_of(self.reader()),
            after,
        }
    }

    /// The two versions, of whose kinds nothing was asked.
    fn asked(self) -> Asked<'a>
        ensures { result ≡ pools_of (versions self.entry) }
    {
        Asked::new(self.alloc, parts_of(self.writer()), parts_of(self.reader()))
    }

    /// Appends a change of a message as it is told, if it is told in the direction.
    fn tell_if(
        self,
        told: &mut Items<ToldFault>,
        sides: Compared<'_>,
        change: WireChange,
    ) -> Result<(), AllocError>
        ensures { OnOk result (told.new ≡ told.old
            ++ comparing.told_if (versions self.entry) (compared sides.entry) change) }
    {
        if is_told(self.direction, change.kind) {
            let sides = by_writer(self.direction, sides);
            told.push(tell_change(self.alloc, self.direction, sides, change)?)?;
        }
        Ok(())
    }

    /// Appends changes of a message as they are told.
    fn tell_each(
        self,
        told: &mut Items<ToldFault>,
        sides: Compared<'_>,
        found: &[WireChange],
    ) -> Result<(), AllocError>
        ensures { OnOk result (told.new ≡ told.old
            ++ flat_map (comparing.told_if (versions self.entry) (compared sides.entry))
            found.now) }
    {
        for change in found {
            self.tell_if(told, sides, *change)?;
        }
        Ok(())
    }

    /// Whether both or none of two messages are message sets.
    #[tactic(auto, using(crate::proofs::Same::set_none))]
    fn is_set_like(self, before: &MessageDescriptorInner, after: &MessageDescriptorInner) -> bool
        ensures { IsTrue result
            → comparing.set_changes (versions self.entry) before.now after.now ≡ [] }
    {
        is_one_truth(is_set(self.writer(), before), is_set(self.reader(), after))
    }

    /// Appends what changes where one of two messages is a message set, and the other is not.
    fn tell_set(
        self,
        told: &mut Items<ToldFault>,
        before: &MessageDescriptorInner,
        after: &MessageDescriptorInner,
    ) -> Result<(), AllocError>
        ensures { OnOk result (told.new ≡ told.old
            ++ comparing.set_changes (versions self.entry) before.now after.now) }
    {
        if self.is_set_like(before, after) {
            return Ok(());
        }
        let before = set_side(self.writer(), before);
        let after = set_side(self.reader(), after);
        self.tell_differing(told, ElementChange::MessageSet.between(before, after))
    }

    /// Appends what changes at wire of a message of the writer and the reader's with its name.
    fn tell_wire(
        self,
        told: &mut Items<ToldFault>,
        sides: Compared<'_>,
        pair: Kept<'_>,
    ) -> Result<(), AllocError>
        ensures { OnOk result (told.new ≡ told.old
            ++ (flat_map (comparing.told_if (versions self.entry) (compared sides.entry))
            pair.entry.found.now
            ++ comparing.set_changes (versions self.entry) pair.entry.before.now
            pair.entry.after.now)) }
    {
        self.tell_each(told, sides, pair.found)?;
        self.tell_set(told, pair.before, pair.after)
    }

    /// Appends what changes at json and at source of a field or an extension that the reader's
    /// message has too, where something may.
    // Not inlined, since little changes of most that is compared.
    #[inline(never)]
    fn tell_differing_entry(
        self,
        told: &mut BehindWire,
        pair: KeptPart<'_>,
    ) -> Result<(), AllocError>
        ensures json { OnOk result (told.new.json ≡ told.old.json ++ part_json
            (versions self.entry) pair.entry.messages.found.now (part pair.entry.before)
            (part pair.entry.after)) }
        ensures source { OnOk result (told.new.source ≡ told.old.source ++ part_source
            (versions self.entry) pair.entry.messages.before.now pair.entry.messages.after.now
            pair.entry.messages.found.now (part pair.entry.before) (part pair.entry.after)) }
    {
        self.tell_part_json(&mut told.json, &pair)?;
        self.tell_part_source(&mut told.source, &pair)
    }

    /// Appends what changes at json and at source of a field or an extension that the reader's
    /// message has too.
    fn tell_kept_entry(self, told: &mut BehindWire, pair: KeptPart<'_>) -> Result<(), AllocError>
        ensures json { OnOk result (told.new.json ≡ told.old.json ++ part_json
            (versions self.entry) pair.entry.messages.found.now (part pair.entry.before)
            (part pair.entry.after)) }
        ensures source { OnOk result (told.new.source ≡ told.old.source ++ part_source
            (versions self.entry) pair.entry.messages.before.now pair.entry.messages.after.now
            pair.entry.messages.found.now (part pair.entry.before) (part pair.entry.after)) }
    {
        if self.is_untold(pair) {
            return Ok(());
        }
        self.tell_differing_entry(told, pair)
    }

    /// Appends what changes at json and at source of a field or an extension, which is looked up by
    /// its number.
    fn tell_entry(
        self,
        told: &mut BehindWire,
        pair: Kept<'_>,
        field: Part<'_>,
    ) -> Result<(), AllocError>
        ensures json { OnOk result (told.new.json ≡ told.old.json ++ spec.numbered_json
            (versions self.entry) pair.entry.after.now pair.entry.found.now (part field.entry)) }
        ensures source { OnOk result (told.new.source ≡ told.old.source ++ spec.numbered_source
            (versions self.entry) pair.entry.before.now pair.entry.after.now
            pair.entry.found.now (part field.entry)) }
    {
        match part_numbered(self.reader(), pair.after, field.entry.number) {
            Some(kept) => {
                let kept = KeptPart {
                    messages: pair,
                    before: field,
                    after: kept,
                };
                self.tell_kept_entry(told, kept)
            }
            None => self.tell_field_removed(&mut told.json, pair, field),
        }
    }

    /// Appends what changes at json and at source of an extension, if there is one.
    fn tell_extension(
        self,
        told: &mut BehindWire,
        pair: Kept<'_>,
        extension: Option<Part<'_>>,
    ) -> Result<(), AllocError>
        ensures json { OnOk result (told.new.json ≡ told.old.json ++ spec.extension_json
            (versions self.entry) pair.entry.after.now pair.entry.found.now
            (option_map part extension.entry)) }
        ensures source { OnOk result (told.new.source ≡ told.old.source ++ spec.extension_source
            (versions self.entry) pair.entry.before.now pair.entry.after.now
            pair.entry.found.now (option_map part extension.entry)) }
    {
        match extension {
            Some(extension) => self.tell_entry(told, pair, extension),
            None => Ok(()),
        }
    }

    /// Appends what changes at json and at source of the fields of a message.
    fn tell_fields(self, told: &mut BehindWire, pair: Kept<'_>) -> Result<(), AllocError>
        ensures json { OnOk result (told.new.json ≡ told.old.json ++ flat_map
            (λ f. spec.numbered_json (versions self.entry) pair.entry.after.now
            pair.entry.found.now (field_part f)) pair.entry.before.now.fields) }
        ensures source { OnOk result (told.new.source ≡ told.old.source ++ flat_map
            (λ f. spec.numbered_source (versions self.entry) pair.entry.before.now
            pair.entry.after.now pair.entry.found.now (field_part f))
            pair.entry.before.now.fields) }
    {
        for field in pair.before.fields.as_slice() {
            self.tell_entry(told, pair, field_part(field))?;
        }
        Ok(())
    }

    /// Appends what changes at json and at source of the extensions of a message.
    fn tell_extensions(self, told: &mut BehindWire, pair: Kept<'_>) -> Result<(), AllocError>
        ensures json { OnOk result (told.new.json ≡ told.old.json ++ flat_map
            (λ i. spec.extension_json (versions self.entry) pair.entry.after.now
            pair.entry.found.now (extension_part_at (writer (versions self.entry)) i))
            pair.entry.before.now.extensions) }
        ensures source { OnOk result (told.new.source ≡ told.old.source ++ flat_map
            (λ i. spec.extension_source (versions self.entry) pair.entry.before.now
            pair.entry.after.now pair.entry.found.now
            (extension_part_at (writer (versions self.entry)) i))
            pair.entry.before.now.extensions) }
    {
        for index in pair.before.extensions.as_slice() {
            let extension = extension_part_at(self.writer(), *index);
            self.tell_extension(told, pair, extension)?;
        }
        Ok(())
    }

    /// Appends which oneofs of the writer's a reader's message lacks.
    fn tell_oneofs(self, told: &mut Items<ToldFault>, pair: Kept<'_>) -> Result<(), AllocError>
        ensures { OnOk result (told.new ≡ told.old ++ flat_map
            (oneof_changes (versions self.entry) pair.entry.before.now pair.entry.after.now)
            pair.entry.before.now.oneofs) }
    {
        let oneofs = pair.before.oneofs.as_slice();
        for (position, oneof) in oneofs.iter().enumerate() {
            self.tell_oneof(told, pair, position, oneof)?;
        }
        Ok(())
    }

    /// Appends what changes at json and at source of the fields, the extensions and the oneofs of a
    /// message.
    #[tactic(auto, unfolding(crate::specs::AtLevels::entries_json, crate::specs::AtLevels::parts_source))]
    fn tell_parts(self, told: &mut BehindWire, pair: Kept<'_>) -> Result<(), AllocError>
        ensures json { OnOk result (told.new.json ≡ told.old.json ++ spec.entries_json
            (versions self.entry) pair.entry.before.now pair.entry.after.now pair.entry.found.now) }
        ensures source { OnOk result (told.new.source ≡ told.old.source ++ spec.parts_source
            (versions self.entry) pair.entry.before.now pair.entry.after.now
            pair.entry.found.now) }
    {
        self.tell_fields(told, pair)?;
        self.tell_extensions(told, pair)?;
        self.tell_oneofs(&mut told.source, pair)
    }

    /// Appends what changes of a message of the writer and the reader's with its name, at each
    /// level.
    fn tell_kept_message(
        self,
        told: &mut ByLevel,
        asked: &mut Asked<'_>,
        before: &MessageDescriptorInner,
        after: &MessageDescriptorInner,
    ) -> Result<(), AllocError>
        requires { asked.old ≡ pools_of (versions self) }
        ensures asked { asked.new ≡ asked.old }
        ensures wire { OnOk result (told.new.wire ≡ told.old.wire
            ++ comparing.message_told (versions self.entry) before.now (Some after.now)) }
        ensures json { OnOk result (told.new.behind.json ≡ told.old.behind.json
            ++ spec.message_json (versions self.entry) before.now (Some after.now)) }
        ensures source { OnOk result (told.new.behind.source ≡ told.old.behind.source
            ++ spec.message_source (versions self.entry) before.now (Some after.now)) }
    {
        let sides = self.both_of(before, after);
        let mut found = Vec::new(self.alloc);
        asked.tell(&mut found, before, after)?;
        let pair = Kept {
            before,
            after,
            found: found.as_slice(),
        };
        self.tell_wire(&mut told.wire, sides, pair)?;
        self.tell_parts(&mut told.behind, pair)
    }

    /// Appends that the reader lacks a message: at wire, or at source where it is an older version.
    fn tell_lacked(
        self,
        told: &mut ByLevel,
        before: &MessageDescriptorInner,
    ) -> Result<(), AllocError>
        ensures wire { OnOk result (told.new.wire ≡ told.old.wire
            ++ comparing.message_told (versions self.entry) before.now None) }
        ensures json { OnOk result (told.new.behind.json ≡ told.old.behind.json
            ++ spec.message_json (versions self.entry) before.now None) }
        ensures source { OnOk result (told.new.behind.source ≡ told.old.behind.source
            ++ spec.message_source (versions self.entry) before.now None) }
    {
        match self.direction {
            Direction::Backward => self.tell_message_removed(&mut told.wire, before),
            Direction::Forward => self.tell_message_removed(&mut told.behind.source, before),
        }
    }

    /// Appends what changes of a message of the writer, which has an index, at each level.
    fn tell_message(
        self,
        told: &mut ByLevel,
        asked: &mut Asked<'_>,
        index: usize,
        before: &MessageDescriptorInner,
    ) -> Result<(), AllocError>
        requires { asked.old ≡ pools_of (versions self) }
        ensures asked { asked.new ≡ asked.old }
        ensures wire { OnOk result (told.new.wire ≡ told.old.wire
            ++ comparing.message_told (versions self.entry) before.now
            (message_named (reader (versions self.entry)) before.now.id.full_name)) }
        ensures json { OnOk result (told.new.behind.json ≡ told.old.behind.json
            ++ spec.message_json (versions self.entry) before.now
            (message_named (reader (versions self.entry)) before.now.id.full_name)) }
        ensures source { OnOk result (told.new.behind.source ≡ told.old.behind.source
            ++ spec.message_source (versions self.entry) before.now
            (message_named (reader (versions self.entry)) before.now.id.full_name)) }
    {
        match message_near(self.alloc, self.reader(), index, before.id.full_name())? {
            Some(after) => self.tell_kept_message(told, asked, before, after),
            None => self.tell_lacked(told, before),
        }
    }

    /// Appends what changes of all messages, at each level.
    fn tell_messages(self, told: &mut ByLevel) -> Result<(), AllocError>
        ensures wire { OnOk result (told.new.wire ≡ told.old.wire
            ++ comparing.messages_told (versions self.entry)) }
        ensures json { OnOk result (told.new.behind.json ≡ told.old.behind.json ++ flat_map
            (λ x. spec.message_json (versions self.entry) x
            (message_named (reader (versions self.entry)) x.id.full_name))
            (writer (versions self.entry)).messages) }
        ensures source { OnOk result (told.new.behind.source ≡ told.old.behind.source ++ flat_map
            (λ x. spec.message_source (versions self.entry) x
            (message_named (reader (versions self.entry)) x.id.full_name))
            (writer (versions self.entry)).messages) }
    {
        let mut asked = self.asked();
        let messages = self.writer().messages();
        for (index, message) in messages.iter().enumerate() {
            self.tell_message(told, &mut asked, index, message)?;
        }
        Ok(())
    }

    /// Appends what a reader's enum changes of the values of a writer's.
    fn tell_values(
        self,
        told: &mut Items<ToldFault>,
        before: &EnumDescriptorInner,
        after: &EnumDescriptorInner,
    ) -> Result<(), AllocError>
        ensures { OnOk result (told.new ≡ told.old
            ++ spec.enum_json (versions self.entry) before.now (Some after.now)) }
    {
        let values = before.values.as_slice();
        for (position, value) in values.iter().enumerate() {
            self.tell_value(told, after, position, value)?;
        }
        Ok(())
    }

    /// Appends what a reader's enum changes of a writer's with its name, at json and at source.
    fn tell_kept_enum(
        self,
        told: &mut BehindWire,
        before: &EnumDescriptorInner,
        after: &EnumDescriptorInner,
    ) -> Result<(), AllocError>
        ensures json { OnOk result (told.new.json ≡ told.old.json
            ++ spec.enum_json (versions self.entry) before.now (Some after.now)) }
        ensures source { OnOk result (told.new.source ≡ told.old.source
            ++ spec.enum_source (versions self.entry) before.now (Some after.now)) }
    {
        self.tell_values(&mut told.json, before, after)?;
        let before = open_side(self.writer(), before);
        let after = open_side(self.reader(), after);
        self.tell_differing(
            &mut told.source,
            ElementChange::EnumOpen.between(before, after),
        )
    }

    /// Appends what changes of an enum of the writer, which has an index, at json and at source.
    fn tell_enum(
        self,
        told: &mut BehindWire,
        index: usize,
        before: &EnumDescriptorInner,
    ) -> Result<(), AllocError>
        ensures json { OnOk result (told.new.json ≡ told.old.json
            ++ spec.enum_json (versions self.entry) before.now
            (enum_named (reader (versions self.entry)) before.now.id.full_name)) }
        ensures source { OnOk result (told.new.source ≡ told.old.source
            ++ spec.enum_source (versions self.entry) before.now
            (enum_named (reader (versions self.entry)) before.now.id.full_name)) }
    {
        match enum_near(self.alloc, self.reader(), index, before.id.full_name())? {
            Some(after) => self.tell_kept_enum(told, before, after),
            None => {
                let removed = self.removed(ElementChange::EnumRemoved, &before.id, "enum");
                self.tell_between(&mut told.source, removed)
            }
        }
    }

    /// Appends what changes of all enums, at json and at source.
    fn tell_enums(self, told: &mut BehindWire) -> Result<(), AllocError>
        ensures json { OnOk result (told.new.json ≡ told.old.json ++ flat_map
            (λ e. spec.enum_json (versions self.entry) e
            (enum_named (reader (versions self.entry)) e.id.full_name))
            (writer (versions self.entry)).enums) }
        ensures source { OnOk result (told.new.source ≡ told.old.source ++ flat_map
            (λ e. spec.enum_source (versions self.entry) e
            (enum_named (reader (versions self.entry)) e.id.full_name))
            (writer (versions self.entry)).enums) }
    {
        let enums = self.writer().enums();
        for (index, enumeration) in enums.iter().enumerate() {
            self.tell_enum(told, index, enumeration)?;
        }
        Ok(())
    }

    /// Appends what changes at source of all files.
    fn tell_files(self, told: &mut Items<ToldFault>) -> Result<(), AllocError>
        ensures { OnOk result (told.new ≡ told.old ++ flat_map
            (λ f. file_changes (versions self.entry) f
            (file_named (reader (versions self.entry)) (text_of f.raw.name)))
            (writer (versions self.entry)).files) }
    {
        for file in self.writer().files() {
            self.tell_file(told, file)?;
        }
        Ok(())
    }

    /// The changes, those of each level by themselves.
    pub(crate) fn by_level(self) -> Result<ByLevel, AllocError>
        ensures wire { IfOk result (λ told. told.wire ≡ comparing.at_wire (versions self.entry)) }
        ensures json { IfOk result (λ told. told.behind.json ≡ spec.at_json (versions self.entry)) }
        ensures source { IfOk result (λ told. told.behind.source
            ≡ spec.at_source (versions self.entry)) }
    {
        let mut told = ByLevel::new(self.alloc);
        self.tell_files(&mut told.behind.source)?;
        self.tell_messages(&mut told)?;
        self.tell_services(&mut told.wire)?;
        self.tell_enums(&mut told.behind)?;
        Ok(told)
    }
}
