//! What changes of a message, so that bytes are read otherwise.

ghost use Rattle.std.specs.Prelude.{◌≡◌, ◌++◌, OnOk};
ghost use Rattle.std.specs.List.{flat_map};
ghost use Rattle.schema_changes.specs.declared.change.WireChangeKind.TheVariants as change;
ghost use Rattle.schema_changes.specs.Parts.{parts};
ghost use Rattle.schema_changes.specs.Records.{is_kept_free, reserved_of};
ghost use Rattle.schema_changes.specs.Entries.{field_entry, extension_in};
ghost use Rattle.schema_changes.specs.Changes.{compared, unless, old_entry, new_entry};
ghost use Rattle.schema_changes.specs.Changes.{kept_changes, entry_changes, extension_changes};
ghost use Rattle.schema_changes.specs.Changes.{was_required, required_changes, taken_changes};
ghost use Rattle.schema_changes.specs.Changes.{added_changes, added_extension_changes};
ghost use Rattle.schema_changes.specs.Changes.{is_taken, range_changes, oneof_changes};
ghost use Rattle.schema_changes.specs.Asked.{pools_of};
ghost use Rattle.schema_changes.specs.Changes.{message_changes};

use crate::asked::Asked;
use crate::entries::field_entry;
use crate::kinds::keeps_cardinality;
use crate::{Entry, Parts, WireChange, WireChangeKind};
use field_rules::item_number;
use pool_types::{Cardinality, MessageDescriptorInner};
use proto_types::ReservedRange;
use std::alloc::AllocError;

/// An old and a new message that are compared, each with the items of its pool.
#[derive(Clone, Copy)]
pub struct Compared<'a> {
    pub old: Parts<'a>,
    pub before: &'a MessageDescriptorInner,
    pub new: Parts<'a>,
    pub after: &'a MessageDescriptorInner,
}

/// Appends a change, unless a test passes.
#[inline(always)]
pub(crate) fn push_unless(
    changes: &mut Vec<WireChange>,
    passes: bool,
    number: u32,
    kind: WireChangeKind,
) -> Result<(), AllocError>
    ensures { OnOk result (changes.new.items ≡ changes.old.items ++ unless passes number kind) }
{
    if !passes {
        changes.push(WireChange { number, kind })?;
    }
    Ok(())
}

/// Whether an old entry was required.
fn was_required(entry: Option<Entry>) -> bool
    ensures { result ≡ was_required entry }
{
    match entry {
        Some(entry) => entry.cardinality == Cardinality::Required,
        None => false,
    }
}

impl Compared<'_> {
    /// The old entry with a number.
    pub(crate) fn old_entry(&self, number: u32) -> Option<Entry>
        ensures { result ≡ old_entry (compared self.now) number }
    {
        self.old.entry_numbered(self.before, number)
    }

    /// The new entry with a number.
    pub(crate) fn new_entry(&self, number: u32) -> Option<Entry>
        ensures { result ≡ new_entry (compared self.now) number }
    {
        self.new.entry_numbered(self.after, number)
    }

    /// Appends what a new entry changes of the old one with its number.
    fn tell_kept(
        &self,
        changes: &mut Vec<WireChange>,
        asked: &mut Asked<'_>,
        entry: &Entry,
        kept: &Entry,
    ) -> Result<(), AllocError>
        requires { asked.old ≡ pools_of (compared self.now) }
        ensures asked { asked.new ≡ asked.old }
        ensures told { OnOk result (changes.new.items ≡ changes.old.items
            ++ kept_changes (compared self.now) entry.now (Some kept.now)) }
    {
        let kind = asked.keeps_kind(entry, kept)?;
        push_unless(changes, kind, entry.number, WireChangeKind::Kind)?;
        let cardinality = keeps_cardinality(entry.kind, entry.cardinality, kept.cardinality);
        push_unless(
            changes,
            cardinality,
            entry.number,
            WireChangeKind::Cardinality,
        )
    }

    /// Appends that the number of a removed entry is free for another one.
    fn tell_removed(&self, changes: &mut Vec<WireChange>, number: u32) -> Result<(), AllocError>
        ensures { OnOk result (changes.new.items ≡ changes.old.items
            ++ unless (is_kept_free (parts self.now.new) self.now.after.now number) number
            change.FreeNumber) }
    {
        let kept_free = self.new.is_kept_free(self.after, number);
        push_unless(changes, kept_free, number, WireChangeKind::FreeNumber)
    }

    /// Appends what the new entry with its number changes of an old one.
    fn tell_entry(
        &self,
        changes: &mut Vec<WireChange>,
        asked: &mut Asked<'_>,
        entry: &Entry,
    ) -> Result<(), AllocError>
        requires { asked.old ≡ pools_of (compared self.now) }
        ensures asked { asked.new ≡ asked.old }
        ensures told { OnOk result (changes.new.items ≡ changes.old.items
            ++ entry_changes (compared self.now) entry.now) }
    {
        match self.new_entry(entry.number) {
            Some(kept) => self.tell_kept(changes, asked, entry, &kept),
            None => self.tell_removed(changes, entry.number),
        }
    }

    /// Appends that a new entry is required, where the old one was not.
    #[inline(always)]
    fn tell_required(&self, changes: &mut Vec<WireChange>, entry: &Entry) -> Result<(), AllocError>
        ensures { OnOk result (changes.new.items ≡ changes.old.items
            ++ required_changes (compared self.now) entry.now) }
    {
        let passes = entry.cardinality != Cardinality::Required
            || was_required(self.old_entry(entry.number));
        push_unless(changes, passes, entry.number, WireChangeKind::Required)
    }

    /// Appends that a new entry takes a number that was reserved.
    #[inline(always)]
    fn tell_taken(
        &self,
        changes: &mut Vec<WireChange>,
        reserved: &[ReservedRange],
        entry: &Entry,
    ) -> Result<(), AllocError>
        requires { reserved.now ≡ reserved_of (parts self.now.old) self.now.before.now }
        ensures { OnOk result (changes.new.items ≡ changes.old.items
            ++ taken_changes (compared self.now) entry.now) }
    {
        let passes = self.leaves(reserved, entry);
        push_unless(changes, passes, entry.number, WireChangeKind::Unreserved)
    }

    /// Appends what a new entry changes besides what it keeps of the old one with its number.
    fn tell_added(
        &self,
        changes: &mut Vec<WireChange>,
        reserved: &[ReservedRange],
        entry: &Entry,
    ) -> Result<(), AllocError>
        requires { reserved.now ≡ reserved_of (parts self.now.old) self.now.before.now }
        ensures { OnOk result (changes.new.items ≡ changes.old.items
            ++ added_changes (compared self.now) entry.now) }
    {
        self.tell_required(changes, entry)?;
        self.tell_taken(changes, reserved, entry)
    }

    /// Appends what the new entries with their numbers change of the old fields.
    fn tell_fields(
        &self,
        changes: &mut Vec<WireChange>,
        asked: &mut Asked<'_>,
    ) -> Result<(), AllocError>
        requires { asked.old ≡ pools_of (compared self.now) }
        ensures asked { asked.new ≡ asked.old }
        ensures told { OnOk result (changes.new.items ≡ changes.old.items
            ++ flat_map (λ f. entry_changes (compared self.now) (field_entry f))
            self.now.before.now.fields) }
    {
        let fields = self.before.fields.as_slice();
        for field in fields {
            self.tell_entry(changes, asked, &field_entry(field))?;
        }
        Ok(())
    }

    /// Appends what the new entry with its number changes of an old extension, if there is one.
    fn tell_extension(
        &self,
        changes: &mut Vec<WireChange>,
        asked: &mut Asked<'_>,
        extension: Option<Entry>,
    ) -> Result<(), AllocError>
        requires { asked.old ≡ pools_of (compared self.now) }
        ensures asked { asked.new ≡ asked.old }
        ensures told { OnOk result (changes.new.items ≡ changes.old.items
            ++ extension_changes (compared self.now) extension) }
    {
        match extension {
            Some(entry) => self.tell_entry(changes, asked, &entry),
            None => Ok(()),
        }
    }

    /// Appends what the new entries with their numbers change of the old extensions.
    fn tell_extensions(
        &self,
        changes: &mut Vec<WireChange>,
        asked: &mut Asked<'_>,
    ) -> Result<(), AllocError>
        requires { asked.old ≡ pools_of (compared self.now) }
        ensures asked { asked.new ≡ asked.old }
        ensures told { OnOk result (changes.new.items ≡ changes.old.items
            ++ flat_map (λ i. extension_changes (compared self.now)
            (extension_in (parts self.now.old) self.now.before.now i))
            self.now.before.now.extensions) }
    {
        let extensions = self.before.extensions.as_slice();
        for index in extensions {
            let extension = self.old.extension_in(self.before, *index);
            self.tell_extension(changes, asked, extension)?;
        }
        Ok(())
    }

    /// Appends which old entries are in one new oneof now, and were not.
    fn tell_oneofs(&self, changes: &mut Vec<WireChange>) -> Result<(), AllocError>
        ensures { OnOk result (changes.new.items ≡ changes.old.items
            ++ flat_map (oneof_changes (compared self.now)) self.now.after.now.oneofs) }
    {
        let oneofs = self.after.oneofs.as_slice();
        for oneof in oneofs {
            self.tell_oneof(changes, oneof)?;
        }
        Ok(())
    }

    /// Appends what the new fields change besides.
    fn tell_added_fields(
        &self,
        changes: &mut Vec<WireChange>,
        reserved: &[ReservedRange],
    ) -> Result<(), AllocError>
        requires { reserved.now ≡ reserved_of (parts self.now.old) self.now.before.now }
        ensures { OnOk result (changes.new.items ≡ changes.old.items
            ++ flat_map (λ g. added_changes (compared self.now) (field_entry g))
            self.now.after.now.fields) }
    {
        let fields = self.after.fields.as_slice();
        for field in fields {
            self.tell_added(changes, reserved, &field_entry(field))?;
        }
        Ok(())
    }

    /// Appends what a new extension changes besides, if there is one.
    fn tell_added_extension(
        &self,
        changes: &mut Vec<WireChange>,
        reserved: &[ReservedRange],
        extension: Option<Entry>,
    ) -> Result<(), AllocError>
        requires { reserved.now ≡ reserved_of (parts self.now.old) self.now.before.now }
        ensures { OnOk result (changes.new.items ≡ changes.old.items
            ++ added_extension_changes (compared self.now) extension) }
    {
        match extension {
            Some(entry) => self.tell_added(changes, reserved, &entry),
            None => Ok(()),
        }
    }

    /// Appends what the new extensions change besides.
    fn tell_added_extensions(
        &self,
        changes: &mut Vec<WireChange>,
        reserved: &[ReservedRange],
    ) -> Result<(), AllocError>
        requires { reserved.now ≡ reserved_of (parts self.now.old) self.now.before.now }
        ensures { OnOk result (changes.new.items ≡ changes.old.items
            ++ flat_map (λ i. added_extension_changes (compared self.now)
            (extension_in (parts self.now.new) self.now.after.now i))
            self.now.after.now.extensions) }
    {
        let extensions = self.after.extensions.as_slice();
        for index in extensions {
            let extension = self.new.extension_in(self.after, *index);
            self.tell_added_extension(changes, reserved, extension)?;
        }
        Ok(())
    }

    /// Whether the new entry with a number takes one that was reserved, which is told of the entry.
    fn is_taken(&self, number: u32) -> bool
        ensures { result ≡ is_taken (compared self.now) number }
    {
        match self.new_entry(number) {
            Some(entry) => !self.leaves_reserved(&entry),
            None => false,
        }
    }

    /// Appends that a range of numbers was reserved, and isn't now.
    fn tell_range(
        &self,
        changes: &mut Vec<WireChange>,
        range: &ReservedRange,
    ) -> Result<(), AllocError>
        ensures { OnOk result (changes.new.items ≡ changes.old.items
            ++ range_changes (compared self.now) range.now) }
    {
        let number = item_number(range.start());
        let passes = self.new.keeps_range(self.after, range) || self.is_taken(number);
        push_unless(changes, passes, number, WireChangeKind::Unreserved)
    }

    /// Appends which of some ranges of numbers, which were reserved, aren't now.
    fn tell_ranges(
        &self,
        changes: &mut Vec<WireChange>,
        reserved: &[ReservedRange],
    ) -> Result<(), AllocError>
        ensures { OnOk result (changes.new.items ≡ changes.old.items
            ++ flat_map (range_changes (compared self.now)) reserved.now) }
    {
        for range in reserved {
            self.tell_range(changes, range)?;
        }
        Ok(())
    }

    /// Appends the changes of the two messages, in this order.
    fn tell(&self, changes: &mut Vec<WireChange>, asked: &mut Asked<'_>) -> Result<(), AllocError>
        requires { asked.old ≡ pools_of (compared self.now) }
        ensures asked { asked.new ≡ asked.old }
        ensures told { OnOk result (changes.new.items ≡ changes.old.items
            ++ message_changes (compared self.now)) }
    {
        self.tell_fields(changes, asked)?;
        self.tell_extensions(changes, asked)?;
        self.tell_oneofs(changes)?;
        let reserved = self.old.reserved(self.before);
        self.tell_added_fields(changes, reserved)?;
        self.tell_added_extensions(changes, reserved)?;
        self.tell_ranges(changes, reserved)
    }
}

impl Asked<'_> {
    /// Appends the changes of an old and a new message by which bytes are read otherwise: of each
    /// old field and extension, of each new oneof, of each new field and extension, and then of
    /// each range of numbers that was reserved.
    ///
    /// # Errors
    /// `AllocError` where memory was refused. What is appended then isn't said.
    pub fn tell(
        &mut self,
        changes: &mut Vec<WireChange>,
        before: &MessageDescriptorInner,
        after: &MessageDescriptorInner,
    ) -> Result<(), AllocError>
        ensures asked { self.new ≡ self.old }
        ensures told { OnOk result (changes.new.items ≡ changes.old.items
            ++ message_changes (record {
              old = self.old.older;
              before = before.now;
              new = self.old.newer;
              after = after.now;
            })) }
    {
        let sides = Compared {
            old: self.old_parts(),
            before,
            new: self.new_parts(),
            after,
        };
        sides.tell(changes, self)
    }
}
