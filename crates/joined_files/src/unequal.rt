//! The files of sets, and those that differ from the first of their name.

ghost use Rattle.std.specs.Prelude.{◌≡◌, IfOk};
ghost use Rattle.joined_files.specs.Joining as spec;

use crate::differences::FilePart;
use crate::words::{part_path, part_words};
use plain_data::{Items, Text};
use proto_types::FileDescriptorProto;
use std::alloc::{AllocError, Global};

/// A file, and the name of the set that has it.
#[derive(Drop)]
pub struct SetFile {
    pub set: Text,
    pub file: FileDescriptorProto,
}

/// A file that differs from the first of its name.
#[derive(Drop)]
pub struct UnequalFile {
    /// The name of both.
    pub name: Text,
    /// The name of the set that has the first.
    pub first: Text,
    /// The name of the set that has the other.
    pub further: Text,
    /// The path of the first part at which they differ, from the file on.
    pub path: Items<i32>,
    /// That part, for people.
    pub part: Text,
}

/// A file that differs from the first of its name at a part.
pub(crate) fn unequal_file(
    alloc: Global,
    first: &SetFile,
    file: &SetFile,
    part: FilePart,
) -> Result<UnequalFile, AllocError>
    ensures { IfOk result (λ told. told ≡ spec.unequal_file first.now file.now part) }
{
    let name = Text::from_str(alloc, file.file.name())?;
    let holder = first.set.clone(alloc)?;
    let further = file.set.clone(alloc)?;
    let path = part_path(alloc, part)?;
    let part = part_words(alloc, &first.file, &file.file, part)?;
    let part = Text::from_string(part);
    Ok(UnequalFile {
        name,
        first: holder,
        further,
        path,
        part,
    })
}
