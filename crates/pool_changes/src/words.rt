//! What is told of each kind of change.

ghost use Rattle.std.specs.Prelude.{◌≡◌, IfOk, string_bytes};
ghost use Rattle.schema_changes.specs.Changes.{compared};
ghost use Rattle.schema_changes.specs.Parts.{parts};
ghost use Rattle.pool_changes.specs.Words as spec;

use crate::Direction;
use crate::members::{oneof_name, partner_name, shown_name};
use pool_types::{Cardinality, KindIndex};
use schema_changes::{Compared, Entry, Parts, WireChange, WireChangeKind, lacking_number};
use std::alloc::{AllocError, Global};

/// The name of a kind of change.
pub(crate) fn change_code(kind: WireChangeKind) -> &'static str
    ensures { result.now ≡ spec.change_code kind }
{
    match kind {
        WireChangeKind::Kind => "field-kind",
        WireChangeKind::Cardinality => "field-cardinality",
        WireChangeKind::Oneof => "field-oneof",
        WireChangeKind::Required => "field-required",
        WireChangeKind::FreeNumber => "number-free",
        WireChangeKind::Unreserved => "reserved-removed",
    }
}

/// The full name of the message with an index.
pub(crate) fn message_name<'a>(items: Parts<'a>, index: u32) -> &'a str
    ensures { result.now ≡ spec.message_name (parts items.entry) index }
{
    match items.messages.get(index as usize) {
        Some(message) => message.id.full_name(),
        None => "",
    }
}

/// The full name of the enum with an index.
pub(crate) fn enum_name<'a>(items: Parts<'a>, index: u32) -> &'a str
    ensures { result.now ≡ spec.enum_name (parts items.entry) index }
{
    match items.enums.get(index as usize) {
        Some(enumeration) => enumeration.id.full_name(),
        None => "",
    }
}

/// A string, by whether its file is one of proto3.
fn string_words(proto3: bool) -> &'static str
    ensures { result.now ≡ spec.string_words proto3 }
{
    if proto3 {
        "string of proto3"
    } else {
        "string of proto2"
    }
}

/// The word before the name of an enum, by whether it is open.
fn enum_word(is_open: bool) -> &'static str
    ensures { result.now ≡ spec.enum_word is_open }
{
    if is_open {
        "open enum "
    } else {
        "closed enum "
    }
}

/// The word before the name of a message, by whether it is an entry of a map.
fn message_word(is_entry: bool) -> &'static str
    ensures { result.now ≡ spec.message_word is_entry }
{
    if is_entry { "map entry " } else { "message " }
}

/// A kind of a field that stands in a file.
fn kind_in(
    alloc: Global,
    items: Parts<'_>,
    file: u32,
    kind: KindIndex,
) -> Result<String, AllocError>
    ensures { IfOk result (λ s. string_bytes s ≡ spec.kind_in (parts items.entry) file kind) }
{
    match kind {
        KindIndex::String => String::from_str(alloc, string_words(items.in_proto3(file))),
        KindIndex::Message(message) => {
            let word = message_word(items.map_entry_at(message).is_some());
            let name = message_name(items, message);
            format!(in alloc; "{word}{name}")
        }
        KindIndex::Group(message) => {
            let name = message_name(items, message);
            format!(in alloc; "group {name}")
        }
        KindIndex::Enum(enumeration) => {
            let word = enum_word(items.is_open(enumeration));
            let name = enum_name(items, enumeration);
            format!(in alloc; "{word}{name}")
        }
        _ => format!(in alloc; "{kind:?}"),
    }
}

/// The word for how often a field may stand in a message.
fn cardinality_word(cardinality: Cardinality) -> &'static str
    ensures { result.now ≡ spec.cardinality_word cardinality }
{
    match cardinality {
        Cardinality::Optional => "optional",
        Cardinality::Required => "required",
        Cardinality::Repeated => "repeated",
    }
}

/// Whether a kind of change is about the kinds of fields, and not about how often they may stand.
fn shows_kind(kind: WireChangeKind) -> bool
    ensures { result ≡ spec.shows_kind kind }
{
    matches!(kind, WireChangeKind::Kind | WireChangeKind::FreeNumber)
}

/// What a kind of change looks at in a field or an extension.
fn entry_words(
    alloc: Global,
    kind: WireChangeKind,
    items: Parts<'_>,
    entry: &Entry,
) -> Result<String, AllocError>
    ensures { IfOk result (λ s. string_bytes s
        ≡ spec.entry_words kind (parts items.entry) entry.now) }
{
    if shows_kind(kind) {
        kind_in(alloc, items, entry.file, entry.kind)
    } else {
        String::from_str(alloc, cardinality_word(entry.cardinality))
    }
}

/// What a kind of change looks at in a field or an extension, or that there is none.
fn side_words(
    alloc: Global,
    kind: WireChangeKind,
    items: Parts<'_>,
    entry: Option<Entry>,
) -> Result<String, AllocError>
    ensures { IfOk result (λ s. string_bytes s
        ≡ spec.side_words kind (parts items.entry) entry) }
{
    match entry {
        Some(entry) => entry_words(alloc, kind, items, &entry),
        None => String::from_str(alloc, "no field"),
    }
}

/// What took a number that was reserved: a field or an extension, if one did.
fn taken_words(alloc: Global, items: Parts<'_>, entry: Option<Entry>) -> Result<String, AllocError>
    ensures { IfOk result (λ s. string_bytes s ≡ spec.taken_words (parts items.entry) entry) }
{
    match entry {
        Some(entry) => kind_in(alloc, items, entry.file, entry.kind),
        None => String::from_str(alloc, "not reserved"),
    }
}

/// The first number of the writer's enum that the reader's kind lacks.
fn lacking_between(
    writer: Parts<'_>,
    written: Option<Entry>,
    reader: Parts<'_>,
    read: Option<Entry>,
) -> Option<i32>
    ensures { result ≡ spec.lacking_between (parts writer.entry) written (parts reader.entry) read }
{
    match (written, read) {
        (Some(written), Some(read)) => lacking_number(writer, written.kind, reader, read.kind),
        _ => None,
    }
}

/// Which number is lacking, if one is.
fn lacking_words(
    alloc: Global,
    direction: Direction,
    lacking: Option<i32>,
) -> Result<String, AllocError>
    ensures { IfOk result (λ s. string_bytes s ≡ spec.lacking_words direction lacking) }
{
    let Some(number) = lacking else {
        return Ok(String::new(alloc));
    };
    match direction {
        Direction::Backward => format!(in alloc; ", which lacks {number}"),
        Direction::Forward => format!(in alloc; "; the older one lacks {number}"),
    }
}

/// Both sides of a field that is in one oneof with another in the reader's version alone, by the
/// names of that field and of the oneof.
fn joined_words(
    alloc: Global,
    direction: Direction,
    partner: &str,
    oneof: &str,
) -> Result<String, AllocError>
    ensures { IfOk result (λ s. string_bytes s
        ≡ spec.joined_words direction partner.now oneof.now) }
{
    match direction {
        Direction::Backward => format!(in alloc;
            "independent of '{partner}' became exclusive with it in the oneof '{oneof}'"
        ),
        Direction::Forward => format!(in alloc;
            "exclusive with '{partner}' in the oneof '{oneof}' became independent of it"
        ),
    }
}

/// A change of the two versions of a message, in the direction in which it is told.
#[derive(Clone, Copy)]
pub(crate) struct DirectedChange<'a> {
    pub direction: Direction,
    pub sides: Compared<'a>,
    pub change: WireChange,
}

impl DirectedChange<'_> {
    /// The first number of the writer's enum that the reader's kind lacks, of the fields or
    /// extensions that have the number of the change.
    fn lacking_in(self) -> Option<i32>
        ensures { result ≡ spec.lacking_in self.entry.direction (compared self.entry.sides)
            self.entry.change.number }
    {
        let sides = self.sides;
        let old = sides.old.entry_numbered(sides.before, self.change.number);
        let new = sides.new.entry_numbered(sides.after, self.change.number);
        match self.direction {
            Direction::Backward => lacking_between(sides.old, old, sides.new, new),
            Direction::Forward => lacking_between(sides.new, new, sides.old, old),
        }
    }

    /// What is told behind both sides.
    fn behind_words(self, alloc: Global) -> Result<String, AllocError>
        ensures { IfOk result (λ s. string_bytes s ≡ spec.behind_words self.entry.direction
            (compared self.entry.sides) self.entry.change.kind self.entry.change.number) }
    {
        match self.change.kind {
            WireChangeKind::Kind => lacking_words(alloc, self.direction, self.lacking_in()),
            WireChangeKind::FreeNumber => {
                String::from_str(alloc, ", and its number is not reserved")
            }
            _ => Ok(String::new(alloc)),
        }
    }

    /// Both sides.
    fn both_words(self, alloc: Global) -> Result<String, AllocError>
        ensures { IfOk result (λ s. string_bytes s ≡ spec.both_words
            (compared self.entry.sides) self.entry.change.kind self.entry.change.number) }
    {
        let sides = self.sides;
        let WireChange { number, kind } = self.change;
        let old = sides.old.entry_numbered(sides.before, number);
        let old = side_words(alloc, kind, sides.old, old)?;
        let old = old.as_str();
        let new = sides.new.entry_numbered(sides.after, number);
        let new = side_words(alloc, kind, sides.new, new)?;
        let new = new.as_str();
        format!(in alloc; "{old} became {new}")
    }

    /// Both sides, and what is told behind them.
    fn sides_words(self, alloc: Global) -> Result<String, AllocError>
        ensures { IfOk result (λ s. string_bytes s ≡ spec.sides_words self.entry.direction
            (compared self.entry.sides) self.entry.change.kind self.entry.change.number) }
    {
        match self.change.kind {
            WireChangeKind::Oneof => {
                let partner = partner_name(self.direction, self.sides, self.change.number);
                let oneof = oneof_name(self.direction, self.sides, self.change.number);
                joined_words(alloc, self.direction, partner, oneof)
            }
            WireChangeKind::Unreserved => {
                let sides = self.sides;
                let taken = sides.new.entry_numbered(sides.after, self.change.number);
                let taken = taken_words(alloc, sides.new, taken)?;
                let taken = taken.as_str();
                format!(in alloc; "reserved became {taken}")
            }
            _ => {
                let both = self.both_words(alloc)?;
                let both = both.as_str();
                let behind = self.behind_words(alloc)?;
                let behind = behind.as_str();
                format!(in alloc; "{both}{behind}")
            }
        }
    }

    /// Its text: the full name and the number of what changes, and both sides.
    pub(crate) fn change_words(self, alloc: Global) -> Result<String, AllocError>
        ensures { IfOk result (λ s. string_bytes s ≡ spec.change_words self.entry.direction
            (compared self.entry.sides) self.entry.change.kind self.entry.change.number) }
    {
        let number = self.change.number;
        let name = shown_name(self.sides, number);
        let words = self.sides_words(alloc)?;
        let words = words.as_str();
        format!(in alloc; "'{name}' ({number}): {words}")
    }

    /// What to do about it.
    pub(crate) fn change_note(self, alloc: Global) -> Result<String, AllocError>
        ensures { IfOk result (λ s. string_bytes s ≡ spec.change_note self.entry.direction
            self.entry.change.kind self.entry.change.number) }
    {
        let WireChange { number, kind } = self.change;
        match kind {
            WireChangeKind::Kind | WireChangeKind::Cardinality => {
                format!(in alloc; "take a new number, and write 'reserved {number};'")
            }
            WireChangeKind::FreeNumber => format!(in alloc;
                "write 'reserved {number};', so that no later field takes the number"
            ),
            WireChangeKind::Oneof => String::from_str(alloc, oneof_note(self.direction)),
            WireChangeKind::Required => String::from_str(alloc, required_note(self.direction)),
            WireChangeKind::Unreserved => {
                String::from_str(alloc, "an older writer may have used it: keep it reserved")
            }
        }
    }
}

/// What to do about fields that come into one oneof.
fn oneof_note(direction: Direction) -> &'static str
    ensures { result.now ≡ spec.oneof_note direction }
{
    match direction {
        Direction::Backward => {
            "a writer may set two of these fields, and a reader keeps the last: leave it outside"
        }
        Direction::Forward => {
            "a writer may set two of these fields, and an older reader keeps the last: \
                leave it inside"
        }
    }
}

/// What to do about a required field.
fn required_note(direction: Direction) -> &'static str
    ensures { result.now ≡ spec.required_note direction }
{
    match direction {
        Direction::Backward => {
            "a reader refuses what an older writer leaves out: make it optional"
        }
        Direction::Forward => {
            "an older reader refuses what a writer leaves out: leave it required"
        }
    }
}
