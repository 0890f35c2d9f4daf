//! Both sides of a change, and what is told of them.

ghost use Rattle.std.specs.Prelude.{◌≡◌, ◌++◌, [], ◌∷◌, IfOk, OnOk, string_bytes, slice_get};
ghost use Rattle.std.specs.Prelude.{option_map, option_and_then};
ghost use Rattle.std.specs.Option.{option_copied};
ghost use Rattle.pool_changes.specs.Sides as spec;

use crate::Direction;
use crate::kinds::ElementChange;
use crate::telling::position_if;
use descriptor_pool::DescriptorPool;
use plain_data::{Items, Text};
use pool_faults::Label;
use pool_types::{FileDescriptorInner, Identity};
use proto_types::FileDescriptorProto;
use std::alloc::{AllocError, Global};
use verdict_texts::{ToldFault, ToldPlace, ToldSecond};

/// One side of a change: where an element stands in a version, and what is told of it.
#[derive(Clone, Copy)]
pub(crate) struct Side<'a> {
    /// The index of its file, if the version has it.
    pub file: Option<u32>,
    /// Its path in the file, or that of what is around it where it isn't there.
    pub path: &'a [i32],
    /// Its full name, or the name of its file.
    pub shown: &'a str,
    /// Whether it is there.
    pub is_there: bool,
    /// What is told of it: a word, and a name behind it.
    pub word: &'static str,
    pub name: &'a str,
}

impl<'a> Side<'a> {
    /// An element that is there, with what is told of it.
    pub(crate) fn there(id: &'a Identity, word: &'static str, name: &'a str) -> Side<'a>
        ensures { spec.side result ≡ spec.there id.now word.now name.now }
    {
        Side {
            file: Some(id.file),
            path: id.path(),
            shown: id.full_name(),
            is_there: true,
            word,
            name,
        }
    }

    /// That there is no such element, with the word for it, in what is around it.
    pub(crate) fn around(id: &'a Identity, word: &'static str) -> Side<'a>
        ensures { spec.side result ≡ spec.around id.now word.now }
    {
        Side {
            file: Some(id.file),
            path: id.path(),
            shown: id.full_name(),
            is_there: false,
            word,
            name: "",
        }
    }

    /// That there is no such element, with the word for it, in a file.
    pub(crate) fn in_file(file: Option<u32>, word: &'static str) -> Side<'a>
        ensures { spec.side result ≡ spec.in_file file word.now }
    {
        Side {
            file,
            path: &[],
            shown: "",
            is_there: false,
            word,
            name: "",
        }
    }

    /// A file with its name, and what is told of it.
    pub(crate) fn of_file(
        file: Option<u32>,
        shown: &'a str,
        word: &'static str,
        name: &'a str,
    ) -> Side<'a>
        ensures { spec.side result ≡ spec.file_side file shown.now word.now name.now }
    {
        Side {
            file,
            path: &[],
            shown,
            is_there: true,
            word,
            name,
        }
    }

    /// What is told of it.
    fn text(self, alloc: Global) -> Result<String, AllocError>
        ensures { IfOk result (λ s. string_bytes s ≡ spec.side_text (spec.side self.entry)) }
    {
        let word = self.word;
        let name = self.name;
        if self.is_there {
            format!(in alloc; "{word}{name}")
        } else {
            format!(in alloc; "no {word}")
        }
    }

    /// The name that its place shows, if it isn't a file.
    fn element(self, alloc: Global) -> Result<Option<Text>, AllocError>
        ensures { IfOk result (λ name. name
            ≡ spec.element_shown self.entry.path.now self.entry.shown.now) }
    {
        match self.path {
            [] => Ok(None),
            _ => Ok(Some(Text::from_str(alloc, self.shown)?)),
        }
    }

    /// Where it stands in a file.
    fn place_within(
        self,
        alloc: Global,
        file: &FileDescriptorProto,
    ) -> Result<ToldPlace, AllocError>
        ensures { IfOk result (λ place. place
            ≡ spec.place_within (spec.side self.entry) file.now) }
    {
        let Label { file, path, span } = Label::in_record(alloc, file, self.path)?;
        let position = position_if(span);
        let element = self.element(alloc)?;
        Ok(ToldPlace {
            file,
            position,
            path,
            element,
        })
    }

    /// The record of its file, if its version has it.
    fn file_record(self, pool: &'a DescriptorPool) -> Option<&'a FileDescriptorProto>
        ensures { option_copied result ≡ option_map (λ f. f.raw)
            (option_and_then (slice_get pool.now.files) self.entry.file) }
    {
        let file = pool.files().get(self.file? as usize)?;
        Some(&file.raw)
    }

    /// Where it stands, if its version has a file for it.
    fn place(self, alloc: Global, pool: &DescriptorPool) -> Result<Option<ToldPlace>, AllocError>
        ensures { IfOk result (λ place. place
            ≡ spec.side_place pool.now (spec.side self.entry)) }
    {
        match self.file_record(pool) {
            Some(file) => Ok(Some(self.place_within(alloc, file)?)),
            None => Ok(None),
        }
    }

    /// The words before its place, where it is the old side.
    fn second_words(self) -> &'static str
        ensures { result.now ≡ spec.second_words self.entry.is_there }
    {
        if self.is_there {
            "it was declared at "
        } else {
            "what is around it was declared at "
        }
    }

    /// Where it stands, with words for that.
    fn second(self, alloc: Global, pool: &DescriptorPool) -> Result<Option<ToldSecond>, AllocError>
        ensures { IfOk result (λ second. second
            ≡ spec.side_second pool.now (spec.side self.entry)) }
    {
        match self.place(alloc, pool)? {
            Some(place) => {
                let words = Text::from_str(alloc, self.second_words())?;
                Ok(Some(ToldSecond { words, place }))
            }
            None => Ok(None),
        }
    }

    /// Whether the same is told of another side.
    pub(crate) fn is_like(self, other: Side<'_>) -> bool
        ensures { result ≡ spec.are_alike (spec.side self.entry) (spec.side other.entry) }
    {
        self.word == other.word && self.name == other.name
    }
}

/// A kind of change with both sides of it: the writer's, and the reader's.
#[derive(Clone, Copy)]
pub(crate) struct Difference<'a> {
    pub change: ElementChange,
    pub written: Side<'a>,
    pub read: Side<'a>,
}

impl ElementChange {
    /// It, with both sides.
    pub(crate) fn between<'a>(self, written: Side<'a>, read: Side<'a>) -> Difference<'a>
        ensures change { result.change ≡ self }
        ensures written { spec.side result.written ≡ spec.side written.entry }
        ensures read { spec.side result.read ≡ spec.side read.entry }
    {
        Difference {
            change: self,
            written,
            read,
        }
    }
}

/// A file of a pool as a side, with what is told of it.
pub(crate) fn file_told<'a>(
    pool: &DescriptorPool,
    file: &'a FileDescriptorInner,
    word: &'static str,
    name: &'a str,
) -> Side<'a>
    ensures { spec.side result ≡ spec.file_told pool.now file.now word.now name.now }
{
    let shown = file.raw.name();
    let index = match pool.get_file_by_name(shown) {
        Some(file) => Some(file.index()),
        None => None,
    };
    Side::of_file(index, shown, word, name)
}

/// The text of a change: the name of the element, and both sides.
fn sides_text(alloc: Global, old: Side<'_>, new: Side<'_>) -> Result<String, AllocError>
    ensures { IfOk result (λ s. string_bytes s
        ≡ spec.sides_text (spec.side old.entry) (spec.side new.entry)) }
{
    let shown = if new.is_there { new.shown } else { old.shown };
    let before = old.text(alloc)?;
    let before = before.as_str();
    let after = new.text(alloc)?;
    let after = after.as_str();
    format!(in alloc; "'{shown}': {before} became {after}")
}

/// An older and a new version that are compared in a direction.
#[derive(Clone, Copy)]
pub(crate) struct Telling<'a> {
    pub alloc: Global,
    pub direction: Direction,
    pub old: &'a DescriptorPool,
    pub new: &'a DescriptorPool,
}

impl<'a> Telling<'a> {
    /// The version that writes.
    pub(crate) fn writer(self) -> &'a DescriptorPool
        ensures { result.now ≡ spec.writer (spec.versions self.entry) }
    {
        match self.direction {
            Direction::Backward => self.old,
            Direction::Forward => self.new,
        }
    }

    /// The version that reads.
    pub(crate) fn reader(self) -> &'a DescriptorPool
        ensures { result.now ≡ spec.reader (spec.versions self.entry) }
    {
        match self.direction {
            Direction::Backward => self.new,
            Direction::Forward => self.old,
        }
    }

    /// The reader's file with the name of a writer's.
    #[tactic(auto, unfolding(crate::specs::Sides::file_like))]
    pub(crate) fn file_like(self, file: u32) -> Option<u32>
        ensures { result ≡ spec.file_like (spec.writer (spec.versions self.entry))
            (spec.reader (spec.versions self.entry)) file }
    {
        let file = self.writer().files().get(file as usize)?;
        let found = self.reader().get_file_by_name(file.raw.name())?;
        Some(found.index())
    }

    /// Where a change is shown: at its new side, or at its old one where the new version has no file
    /// for it.
    fn place_shown(self, old: Side<'_>, new: Side<'_>) -> Result<Option<ToldPlace>, AllocError>
        ensures { IfOk result (λ place. place ≡ spec.place_shown self.entry.old.now
            self.entry.new.now (spec.side old.entry) (spec.side new.entry)) }
    {
        match new.place(self.alloc, self.new)? {
            Some(place) => Ok(Some(place)),
            None => old.place(self.alloc, self.old),
        }
    }

    /// A change of the older and the new version by both sides.
    fn told_of(
        self,
        change: ElementChange,
        old: Side<'_>,
        new: Side<'_>,
    ) -> Result<ToldFault, AllocError>
        ensures { IfOk result (λ told. told ≡ spec.told_of self.entry.old.now self.entry.new.now
            change (spec.side old.entry) (spec.side new.entry)) }
    {
        let alloc = self.alloc;
        let code = Text::from_str(alloc, change.code())?;
        let message = Text::from_string(sides_text(alloc, old, new)?);
        let place = self.place_shown(old, new)?;
        let second = old.second(alloc, self.old)?;
        let note = Text::from_str(alloc, change.note())?;
        Ok(ToldFault {
            code,
            message,
            place,
            second,
            note,
        })
    }

    /// Appends a change by both sides.
    pub(crate) fn tell_between(
        self,
        told: &mut Items<ToldFault>,
        difference: Difference<'_>,
    ) -> Result<(), AllocError>
        ensures { OnOk result (told.new ≡ told.old ++ spec.told_between
            (spec.versions self.entry) difference.entry.change
            (spec.side difference.entry.written) (spec.side difference.entry.read) ∷ []) }
    {
        let Difference {
            change,
            written,
            read,
        } = difference;
        let (old, new) = match self.direction {
            Direction::Backward => (written, read),
            Direction::Forward => (read, written),
        };
        told.push(self.told_of(change, old, new)?)
    }

    /// Appends a change, if both sides are not told alike.
    pub(crate) fn tell_differing(
        self,
        told: &mut Items<ToldFault>,
        difference: Difference<'_>,
    ) -> Result<(), AllocError>
        ensures { OnOk result (told.new ≡ told.old ++ spec.differing
            (spec.versions self.entry) difference.entry.change
            (spec.side difference.entry.written) (spec.side difference.entry.read)) }
    {
        if difference.written.is_like(difference.read) {
            return Ok(());
        }
        self.tell_between(told, difference)
    }

    /// That the reader lacks a message, an enum or a service, with the word for it.
    pub(crate) fn removed<'b>(
        self,
        change: ElementChange,
        id: &'b Identity,
        word: &'static str,
    ) -> Difference<'b>
        ensures change { result.change ≡ change }
        ensures written { spec.side result.written ≡ spec.there id.now word.now [] }
        ensures read { spec.side result.read ≡ spec.in_file (spec.file_like
            (spec.writer (spec.versions self.entry)) (spec.reader (spec.versions self.entry))
            id.now.file) word.now }
    {
        let after = Side::in_file(self.file_like(id.file), word);
        change.between(Side::there(id, word, ""), after)
    }
}
