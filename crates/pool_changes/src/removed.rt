//! What a reader lacks of what a writer has: files, messages, enums and their parts.

ghost use Rattle.std.specs.Prelude.{◌≡◌, ◌++◌, [], true, IsTrue, OnOk, Some};
ghost use Rattle.std.specs.List.{list_any};
ghost use Rattle.std.specs.Option.{option_copied};
ghost use Rattle.proto_types.specs.Readers.{text_of};
ghost use Rattle.pool_types.specs.LookUps.{value_numbered};
ghost use Rattle.pool_changes.specs.Removed as spec;
ghost use Rattle.pool_changes.specs.Sides.{differing, reader, side, versions, writer};
ghost use Rattle.pool_changes.specs.declared.kinds.ElementChange.TheVariants as element;

use crate::Direction;
use crate::fields::Part;
use crate::kinds::ElementChange;
use crate::outer::outer_field;
use crate::pools::parts_of;
use crate::sides::{Side, Telling, file_told};
use descriptor_pool::DescriptorPool;
use plain_data::{Items, same};
use pool_types::{
    EnumDescriptorInner, EnumValueDescriptorInner, FileDescriptorInner, Identity,
    MessageDescriptorInner, OneofDescriptorInner, Syntax,
};
use proto_types::FieldDescriptorProto;
use record_lists::find_field_proto;
use schema_changes::{WireChange, WireChangeKind};
use std::alloc::AllocError;
use verdict_texts::ToldFault;

/// A file of the writer, and the reader's with its name.
#[derive(Clone, Copy)]
pub(crate) struct KeptFile<'a> {
    pub before: &'a FileDescriptorInner,
    pub after: &'a FileDescriptorInner,
}

/// A message of the writer, the reader's with its name, and what changes of it at wire.
#[derive(Clone, Copy)]
pub(crate) struct Kept<'a> {
    pub before: &'a MessageDescriptorInner,
    pub after: &'a MessageDescriptorInner,
    pub found: &'a [WireChange],
}

/// Whether a kind of change is told in a direction: all are, but for an older reader that a number
/// is free or was reserved.
pub(crate) fn is_told(direction: Direction, kind: WireChangeKind) -> bool
    ensures { result ≡ spec.is_told direction kind }
{
    match kind {
        WireChangeKind::FreeNumber | WireChangeKind::Unreserved => direction == Direction::Backward,
        _ => true,
    }
}

/// Whether two kinds of changes are one.
fn same_kind(first: WireChangeKind, second: WireChangeKind) -> bool
    ensures { result ≡ spec.same_kind first second }
{
    matches!(
        (first, second),
        (WireChangeKind::Kind, WireChangeKind::Kind)
            | (WireChangeKind::Cardinality, WireChangeKind::Cardinality)
            | (WireChangeKind::Oneof, WireChangeKind::Oneof)
            | (WireChangeKind::Required, WireChangeKind::Required)
            | (WireChangeKind::FreeNumber, WireChangeKind::FreeNumber)
            | (WireChangeKind::Unreserved, WireChangeKind::Unreserved)
    )
}

/// Whether changes of a message at wire have one of a kind with a number, which is told.
pub(crate) fn tells(
    direction: Direction,
    found: &[WireChange],
    number: u32,
    kind: WireChangeKind,
) -> bool
    ensures { result ≡ spec.tells direction found.now number kind }
{
    found.iter().any(|change| {
        change.number == number && (same_kind(change.kind, kind) && is_told(direction, change.kind))
    })
}

/// Whether a value has the full name and the number of another.
fn is_value_like(value: &EnumValueDescriptorInner, other: &EnumValueDescriptorInner) -> bool
    ensures { result ≡ spec.is_value_like value.now other.now }
{
    other.number == value.number && other.id.full_name == value.id.full_name
}

/// Whether the value at a position has the full name and the number of another.
#[tactic(auto, using(schema_changes::proofs::Tests::passes_at))]
fn is_value_at(
    values: &[EnumValueDescriptorInner],
    position: usize,
    value: &EnumValueDescriptorInner,
) -> bool
    ensures { IsTrue result → list_any (spec.is_value_like value.now) values.now ≡ true }
{
    match values.get(position) {
        Some(other) => is_value_like(value, other),
        None => false,
    }
}

/// Whether one of some values has the full name and the number of another. Mostly that is the one
/// at its position.
fn has_value_like(
    values: &[EnumValueDescriptorInner],
    position: usize,
    value: &EnumValueDescriptorInner,
) -> bool
    ensures { result ≡ list_any (spec.is_value_like value.now) values.now }
{
    is_value_at(values, position, value) || values.iter().any(|other| is_value_like(value, other))
}

/// The name of a value, as a side.
fn value_side(value: &EnumValueDescriptorInner) -> Side<'_>
    ensures { side result ≡ spec.value_side value.now }
{
    Side::there(&value.id, "name ", value.id.full_name())
}

/// The linked record of a field or an extension.
pub(crate) fn field_record<'a>(
    pool: &'a DescriptorPool,
    id: &Identity,
) -> Option<&'a FieldDescriptorProto>
    ensures { option_copied result ≡ spec.field_record pool.now id.now }
{
    let file = pool.files().get(id.file as usize)?;
    match outer_field(&file.raw, id.path()) {
        Some(field) => Some(field),
        None => find_field_proto(&file.raw, id.path()),
    }
}

/// Whether the field of a message at a position is one of proto3 that is said to be optional.
fn is_optional_at(pool: &DescriptorPool, message: &MessageDescriptorInner, position: u32) -> bool
    ensures { result ≡ spec.is_optional_at pool.now message.now position }
{
    let Some(field) = message.fields.as_slice().get(position as usize) else {
        return false;
    };
    match field_record(pool, &field.id) {
        Some(record) => record.proto3_optional(),
        None => false,
    }
}

/// Whether a oneof stands for the presence of a field alone: it has that field alone, which is said
/// to be optional.
pub(crate) fn is_synthetic(
    pool: &DescriptorPool,
    message: &MessageDescriptorInner,
    oneof: &OneofDescriptorInner,
) -> bool
    ensures { result ≡ spec.is_synthetic pool.now message.now oneof.now }
{
    let positions = oneof.fields.as_slice();
    positions.len() == 1
        && positions
            .iter()
            .any(|position| is_optional_at(pool, message, *position))
}

/// Whether the oneof of a message at a position has a full name.
#[tactic(auto, using(schema_changes::proofs::Tests::passes_at))]
fn is_oneof_at(message: &MessageDescriptorInner, position: usize, name: &str) -> bool
    ensures { IsTrue result → spec.has_oneof message.now name.now ≡ true }
{
    match message.oneofs.as_slice().get(position) {
        Some(oneof) => oneof.id.full_name() == name,
        None => false,
    }
}

/// Whether a message has a oneof with a full name. Mostly that is the one at a position.
fn has_oneof(message: &MessageDescriptorInner, position: usize, name: &str) -> bool
    ensures { result ≡ spec.has_oneof message.now name.now }
{
    let oneofs = message.oneofs.as_slice();
    is_oneof_at(message, position, name) || oneofs.iter().any(|oneof| oneof.id.full_name() == name)
}

/// The word before the package of a file, which may be none.
fn package_word(name: &str) -> &'static str
    ensures { result.now ≡ spec.package_word name.now }
{
    if name.is_empty() {
        "no package"
    } else {
        "package "
    }
}

/// The package of a file, as a side.
fn package_side<'a>(pool: &DescriptorPool, file: &'a FileDescriptorInner) -> Side<'a>
    ensures { side result ≡ spec.package_side pool.now file.now }
{
    let name = file.raw.package();
    file_told(pool, file, package_word(name), name)
}

/// The word for the syntax of a file.
fn syntax_word(syntax: Syntax) -> &'static str
    ensures { result.now ≡ spec.syntax_word syntax }
{
    match syntax {
        Syntax::Proto2 => "proto2",
        Syntax::Proto3 => "proto3",
    }
}

/// The syntax of a file, as a side.
fn syntax_side<'a>(pool: &DescriptorPool, file: &'a FileDescriptorInner) -> Side<'a>
    ensures { side result ≡ spec.syntax_side pool.now file.now }
{
    file_told(pool, file, syntax_word(file.syntax), "")
}

/// The file of a pool with a name.
fn file_named<'a>(pool: &'a DescriptorPool, name: &str) -> Option<&'a FileDescriptorInner>
    ensures { option_copied result ≡ spec.file_named pool.now name.now }
{
    pool.file(pool.get_file_by_name(name)?)
}

impl Telling<'_> {
    /// Appends that a reader's message lacks a field or an extension with a number, if that is not
    /// among the changes of the message at wire.
    // Not inlined, since little changes of most that is compared.
    #[inline(never)]
    pub(crate) fn tell_field_removed(
        self,
        told: &mut Items<ToldFault>,
        pair: Kept<'_>,
        field: Part<'_>,
    ) -> Result<(), AllocError>
        ensures { OnOk result (told.new ≡ told.old ++ spec.field_removed (versions self.entry)
            pair.entry.after.now pair.entry.found.now field.entry.id.now
            field.entry.entry.number) }
    {
        let free = WireChangeKind::FreeNumber;
        if tells(self.direction, pair.found, field.entry.number, free) {
            return Ok(());
        }
        let before = Side::there(field.id, "field", "");
        let after = Side::around(&pair.after.id, "field");
        self.tell_between(told, ElementChange::FieldRemoved.between(before, after))
    }

    /// Appends that the name of a value has lost its number, by the first value that has it.
    // Not inlined, since little changes of most that is compared.
    #[inline(never)]
    fn tell_value_lost(
        self,
        told: &mut Items<ToldFault>,
        enumeration: &EnumDescriptorInner,
        value: &EnumValueDescriptorInner,
    ) -> Result<(), AllocError>
        ensures { OnOk result (told.new ≡ told.old ++ spec.value_lost
            (versions self.entry) enumeration.now value.now
            (value_numbered enumeration.now value.now.number)) }
    {
        match enumeration.get_value(value.number) {
            Some(other) => {
                let (before, after) = (value_side(value), value_side(other));
                self.tell_between(told, ElementChange::ValueName.between(before, after))
            }
            None => {
                let before = Side::there(&value.id, "value", "");
                let after = Side::around(&enumeration.id, "value");
                self.tell_between(told, ElementChange::ValueRemoved.between(before, after))
            }
        }
    }

    /// Appends what a reader's enum changes of a value, which has a position in the writer's.
    pub(crate) fn tell_value(
        self,
        told: &mut Items<ToldFault>,
        enumeration: &EnumDescriptorInner,
        position: usize,
        value: &EnumValueDescriptorInner,
    ) -> Result<(), AllocError>
        ensures { OnOk result (told.new ≡ told.old
            ++ spec.value_changes (versions self.entry) enumeration.now value.now) }
    {
        if has_value_like(enumeration.values.as_slice(), position, value) {
            return Ok(());
        }
        self.tell_value_lost(told, enumeration, value)
    }

    /// Whether two files are of one package.
    #[tactic(auto, using(crate::proofs::Same::package_none))]
    fn has_package_of(self, files: KeptFile<'_>) -> bool
        ensures { IsTrue result → differing (versions self.entry) element.FilePackage
            (spec.package_side (writer (versions self.entry)) files.entry.before.now)
            (spec.package_side (reader (versions self.entry)) files.entry.after.now) ≡ [] }
    {
        files.before.raw.package() == files.after.raw.package()
    }

    /// Appends what changes of the packages of two files.
    fn tell_package(
        self,
        told: &mut Items<ToldFault>,
        files: KeptFile<'_>,
    ) -> Result<(), AllocError>
        ensures { OnOk result (told.new ≡ told.old ++ differing (versions self.entry)
            element.FilePackage
            (spec.package_side (writer (versions self.entry)) files.entry.before.now)
            (spec.package_side (reader (versions self.entry)) files.entry.after.now)) }
    {
        if self.has_package_of(files) {
            return Ok(());
        }
        let before = package_side(self.writer(), files.before);
        let after = package_side(self.reader(), files.after);
        self.tell_differing(told, ElementChange::FilePackage.between(before, after))
    }

    /// Whether two files are of one syntax.
    #[tactic(auto, using(crate::proofs::Same::syntax_none))]
    fn has_syntax_of(self, files: KeptFile<'_>) -> bool
        ensures { IsTrue result → differing (versions self.entry) element.FileSyntax
            (spec.syntax_side (writer (versions self.entry)) files.entry.before.now)
            (spec.syntax_side (reader (versions self.entry)) files.entry.after.now) ≡ [] }
    {
        same(&files.before.syntax, &files.after.syntax)
    }

    /// Appends what changes of the syntaxes of two files.
    fn tell_syntax(self, told: &mut Items<ToldFault>, files: KeptFile<'_>) -> Result<(), AllocError>
        ensures { OnOk result (told.new ≡ told.old ++ differing (versions self.entry)
            element.FileSyntax
            (spec.syntax_side (writer (versions self.entry)) files.entry.before.now)
            (spec.syntax_side (reader (versions self.entry)) files.entry.after.now)) }
    {
        if self.has_syntax_of(files) {
            return Ok(());
        }
        let before = syntax_side(self.writer(), files.before);
        let after = syntax_side(self.reader(), files.after);
        self.tell_differing(told, ElementChange::FileSyntax.between(before, after))
    }

    /// Appends what a reader's file changes of a writer's with its name.
    fn tell_kept_file(
        self,
        told: &mut Items<ToldFault>,
        files: KeptFile<'_>,
    ) -> Result<(), AllocError>
        ensures { OnOk result (told.new ≡ told.old ++ spec.file_changes (versions self.entry)
            files.entry.before.now (Some files.entry.after.now)) }
    {
        self.tell_package(told, files)?;
        self.tell_syntax(told, files)?;
        self.tell_options(told, files)
    }

    /// Appends what the reader's file with its name changes of a writer's.
    pub(crate) fn tell_file(
        self,
        told: &mut Items<ToldFault>,
        file: &FileDescriptorInner,
    ) -> Result<(), AllocError>
        ensures { OnOk result (told.new ≡ told.old
            ++ spec.file_changes (versions self.entry) file.now
            (spec.file_named (reader (versions self.entry)) (text_of file.now.raw.name))) }
    {
        match file_named(self.reader(), file.raw.name()) {
            Some(kept) => {
                let files = KeptFile {
                    before: file,
                    after: kept,
                };
                self.tell_kept_file(told, files)
            }
            None => {
                let before = file_told(self.writer(), file, "file", "");
                let after = Side::in_file(None, "file");
                self.tell_between(told, ElementChange::FileRemoved.between(before, after))
            }
        }
    }

    /// Appends that the reader lacks a message, unless it is an entry of a map.
    // Not inlined, since little changes of most that is compared.
    #[inline(never)]
    pub(crate) fn tell_message_removed(
        self,
        told: &mut Items<ToldFault>,
        message: &MessageDescriptorInner,
    ) -> Result<(), AllocError>
        ensures { OnOk result (told.new ≡ told.old
            ++ spec.message_removed (versions self.entry) message.now) }
    {
        if parts_of(self.writer()).is_map_entry(message) {
            return Ok(());
        }
        let removed = self.removed(ElementChange::MessageRemoved, &message.id, "message");
        self.tell_between(told, removed)
    }

    /// Appends that a reader's message lacks a oneof, which has a position in the writer's, if it
    /// does.
    pub(crate) fn tell_oneof(
        self,
        told: &mut Items<ToldFault>,
        pair: Kept<'_>,
        position: usize,
        oneof: &OneofDescriptorInner,
    ) -> Result<(), AllocError>
        ensures { OnOk result (told.new ≡ told.old ++ spec.oneof_changes (versions self.entry)
            pair.entry.before.now pair.entry.after.now oneof.now) }
    {
        if has_oneof(pair.after, position, oneof.id.full_name())
            || is_synthetic(self.writer(), pair.before, oneof)
        {
            return Ok(());
        }
        let before = Side::there(&oneof.id, "oneof", "");
        let after = Side::around(&pair.after.id, "oneof");
        self.tell_between(told, ElementChange::OneofRemoved.between(before, after))
    }
}
