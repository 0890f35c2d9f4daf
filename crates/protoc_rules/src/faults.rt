//! What breaks a rule of `protoc`, and what is found of it.

ghost use Rattle.std.specs.Prelude.{◌≡◌, [], ◌∷◌, ◌++◌, None, OnOk, IfOk, pos};
ghost use Rattle.std.specs.Option.{option_map};
ghost use Rattle.plain_data.specs.Lists.{only_if};
ghost use Rattle.protoc_rules.specs.Faults.{at_part, at_entry, entry_in, entry_at, pair_faults};

use plain_data::{Path, Text};
use pool_types::Identity;
use std::alloc::{AllocError, Global};
use std::marker::Model;

/// A rule that a declaration breaks.
#[derive(Clone, Copy, PartialEq, Debug)]
pub enum StrictKind {
    /// A file has no name.
    MissingFileName,
    /// A file imports itself or a file that does, directly or through other files.
    ImportCycle,
    /// A file imports one twice.
    DuplicateImport,
    /// A name is no identifier.
    InvalidName,
    /// A part of a package is no identifier.
    InvalidPackage,
    /// A package has more than 101 parts.
    DeepPackage,
    /// A message stands in 31 others.
    DeepMessage,
    /// A type of a number or a text has a type name.
    TypeNameOfScalar,
    /// A message is written, and the name means an enum.
    NotAMessageType,
    /// An enum is written, and the name means a message.
    NotAnEnumType,
    /// A field of proto3 is required.
    RequiredInProto3,
    /// A field of proto3 has a default.
    DefaultInProto3,
    /// A field of proto3 is a group.
    GroupInProto3,
    /// A field of proto3 has an enum of proto2 as its type.
    ClosedEnumInProto3,
    /// A repeated field has a default.
    RepeatedDefault,
    /// `packed` is set of what is no list of numbers.
    PackedField,
    /// `proto3_optional` is set in proto2.
    Proto3OptionalInProto2,
    /// `proto3_optional` is set of a field that has no oneof for itself.
    Proto3OptionalOneof,
    /// A field in a oneof is required or repeated.
    OneofFieldLabel,
    /// A field of a message names a message that it extends.
    FieldExtendee,
    /// The entry of a map is not made as one.
    MapEntry,
    /// The keys of a map are of a kind that keys are not of.
    MapKeyType,
    /// The values of a map are of an enum that does not begin with 0.
    MapEnumValue,
    /// A message set has a field.
    MessageSetField,
    /// An extension of a message set is no optional message.
    MessageSetExtension,
    /// An extension is required.
    RequiredExtension,
    /// An extension has an index of a oneof.
    ExtensionOneof,
    /// An extension has a JSON name that is not made of its name.
    ExtensionJsonName,
    /// An extension in proto3 extends another message than one of options.
    ExtensionInProto3,
    /// A oneof has no field.
    EmptyOneof,
    /// The fields of a oneof do not stand together.
    ScatteredOneof,
    /// A oneof stands behind one that is made for an optional field.
    LateOneof,
    /// Two values of an enum of proto3 have one name without the enum's.
    ClashingValues,
    /// A message of proto3 has extension ranges.
    ExtensionRangesInProto3,
    /// A message of proto3 is a message set.
    MessageSetInProto3,
    /// A range begins at 0 or below.
    RangeNotPositive,
    /// A range ends before it begins.
    EmptyRange,
    /// A range of extensions goes past the greatest number of a field.
    RangePastMaximum,
    /// Two ranges have a number in common.
    RangesOverlap,
    /// A name is reserved twice.
    DuplicateReservedName,
    /// A declaration has a reserved name.
    ReservedName,
}

/// A rule, and the declaration that breaks it.
#[derive(Clone, Copy)]
pub(crate) struct Broken<'a> {
    kind: StrictKind,
    id: &'a Identity,
}

impl StrictKind {
    /// This rule as a declaration breaks it.
    pub(crate) fn of(self, id: &Identity) -> Broken<'_>
        ensures kind { result.kind ≡ self }
        ensures id { result.id.now ≡ id.now }
    {
        Broken { kind: self, id }
    }
}

/// A broken rule, and where.
#[derive(Drop)]
pub struct StrictFault {
    pub kind: StrictKind,
    /// The index of its file, from 0 in the order of linking.
    pub file: u32,
    /// Field numbers and positions, from the file on.
    pub path: Path,
    /// The path in the same file of what it breaks the rule with, if there is such.
    pub second: Option<Path>,
    /// The full name of the declaration that breaks it, which a file does not have.
    pub element: Text,
}

/// An entry of a list of a declaration: the field number of the list, and the position, from 0.
#[derive(Clone, Copy)]
pub(crate) struct Entry {
    pub tag: i32,
    pub position: usize,
}

/// An entry with a position of a list, if there is one.
pub(crate) fn entry_at(tag: i32, position: Option<usize>) -> Option<Entry>
    ensures { result ≡ entry_at tag position }
{
    match position {
        Some(position) => Some(Entry { tag, position }),
        None => None,
    }
}

/// The faults that are found so far. Contracts see the list of them.
#[derive(Drop)]
pub(crate) struct Found {
    alloc: Global,
    faults: Vec<StrictFault>,
}

impl Model for Found {
    ghost use Rattle.std.specs.Prelude.{List};
    ghost use Rattle.protoc_rules.specs.declared.faults.StrictFault.{StrictFault};

    ghost Value = { List StrictFault };

    ghost view = { λ found. found.faults.items };
}

/// A position as a number of a path. One that is none asks for more room than can be granted.
fn path_number(alloc: Global, position: usize) -> Result<i32, AllocError>
    ensures { IfOk result (λ number. number ≡ pos position) }
{
    match i32::try_from(position) {
        Ok(number) => Ok(number),
        Err(_) => {
            String::new(alloc).reserve(usize::MAX)?;
            Err(AllocError)
        }
    }
}

/// The path of an entry of a declaration.
fn entry_path(alloc: Global, id: &Identity, entry: Entry) -> Result<Path, AllocError>
    ensures { IfOk result (λ path. path ≡ entry_in id.now entry) }
{
    let position = path_number(alloc, entry.position)?;
    Path::below(alloc, id.path(), entry.tag, position)
}

/// The path of an entry of a declaration, if there is one.
fn entry_path_if(
    alloc: Global,
    id: &Identity,
    entry: Option<Entry>,
) -> Result<Option<Path>, AllocError>
    ensures { IfOk result (λ path. path ≡ option_map (entry_in id.now) entry) }
{
    match entry {
        Some(entry) => Ok(Some(entry_path(alloc, id, entry)?)),
        None => Ok(None),
    }
}

impl Found {
    /// What memory is taken from.
    pub fn alloc(&self) -> Global {
        self.alloc
    }

    /// Nothing is found, which takes no memory.
    pub fn new(alloc: Global) -> Found
        ensures { result ≡ [] }
    {
        let faults = Vec::new(alloc);
        Found { alloc, faults }
    }

    /// The faults, in the order in which they were found.
    pub fn into_vec(self) -> Vec<StrictFault>
        ensures { result.items ≡ self }
    {
        let Found { faults, .. } = self;
        faults
    }

    /// Appends a fault at a part of a declaration.
    pub fn tell(&mut self, broken: Broken<'_>, tag: i32) -> Result<(), AllocError>
        ensures { OnOk result (self.new
            ≡ self.old ++ at_part broken.entry.kind broken.entry.id.now tag ∷ []) }
    {
        let Broken { kind, id } = broken;
        let path = Path::part(self.alloc, id.path(), tag)?;
        let element = id.full_name.clone(self.alloc)?;
        self.faults.push(StrictFault {
            kind,
            file: id.file,
            path,
            second: None,
            element,
        })?;
        Ok(())
    }

    /// Appends a fault at a part of a declaration, where a test holds.
    pub fn tell_if(&mut self, holds: bool, broken: Broken<'_>, tag: i32) -> Result<(), AllocError>
        ensures { OnOk result (self.new ≡ self.old
            ++ only_if holds (at_part broken.entry.kind broken.entry.id.now tag)) }
    {
        if holds {
            self.tell(broken, tag)?;
        }
        Ok(())
    }

    /// Appends a fault at an entry of a declaration, with a second one if there is such.
    pub fn tell_entry(
        &mut self,
        broken: Broken<'_>,
        entry: Entry,
        second: Option<Entry>,
    ) -> Result<(), AllocError>
        ensures { OnOk result (self.new ≡ self.old
            ++ at_entry broken.entry.kind broken.entry.id.now entry second ∷ []) }
    {
        let Broken { kind, id } = broken;
        let second = entry_path_if(self.alloc, id, second)?;
        let path = entry_path(self.alloc, id, entry)?;
        let element = id.full_name.clone(self.alloc)?;
        self.faults.push(StrictFault {
            kind,
            file: id.file,
            path,
            second,
            element,
        })?;
        Ok(())
    }

    /// Appends a fault at an entry of a declaration, where there is a second one.
    pub fn tell_pair(
        &mut self,
        broken: Broken<'_>,
        entry: Entry,
        second: Option<Entry>,
    ) -> Result<(), AllocError>
        ensures { OnOk result (self.new ≡ self.old
            ++ pair_faults broken.entry.kind broken.entry.id.now entry second) }
    {
        if second.is_some() {
            self.tell_entry(broken, entry, second)?;
        }
        Ok(())
    }

    /// Appends a fault at an entry of a declaration, where a test holds.
    pub fn tell_entry_if(
        &mut self,
        holds: bool,
        broken: Broken<'_>,
        entry: Entry,
    ) -> Result<(), AllocError>
        ensures { OnOk result (self.new ≡ self.old
            ++ only_if holds (at_entry broken.entry.kind broken.entry.id.now entry None)) }
    {
        if holds {
            self.tell_entry(broken, entry, None)?;
        }
        Ok(())
    }
}
