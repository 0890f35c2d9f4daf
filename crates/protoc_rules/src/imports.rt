//! What files may not be, and what they may not import.

ghost use Rattle.std.specs.Prelude.{◌≡◌, ◌++◌, OnOk, IfOk};
ghost use Rattle.protoc_rules.specs.Faults.{each_told};
ghost use Rattle.protoc_rules.specs.Imports as spec;

use crate::Linked;
use crate::cycles::{coming_back, is_marked};
use crate::faults::{Entry, Found, StrictKind, entry_at};
use crate::firsts::first_numbered;
use crate::packages::tell_package;
use plain_data::{Path, Text};
use pool_types::{FileDescriptorInner, Identity};
use proto_types::tag::file::{DEPENDENCY, NAME};
use std::alloc::{AllocError, Global};
use std::collections::BTreeMap;

/// A file as an item whose parts are told. An index past those of a pool asks for more room than
/// can be granted.
fn file_id(alloc: Global, index: usize) -> Result<Identity, AllocError>
    ensures { IfOk result (λ id. id ≡ spec.file_id index) }
{
    match u32::try_from(index) {
        Ok(file) => Ok(Identity {
            file,
            path: Path::from_slice(alloc, &[])?,
            full_name: Text::new(alloc),
            name_index: 0,
        }),
        Err(_) => {
            String::new(alloc).reserve(usize::MAX)?;
            Err(AllocError)
        }
    }
}

/// Appends that the import with a position is of the file that is imported at an earlier one, if
/// there is one.
fn tell_import(
    found: &mut Found,
    id: &Identity,
    position: usize,
    first: Option<usize>,
) -> Result<(), AllocError>
    ensures { OnOk result (found.new ≡ found.old ++ spec.import_with id.now position first) }
{
    let tag = DEPENDENCY;
    found.tell_pair(
        StrictKind::DuplicateImport.of(id),
        Entry { tag, position },
        entry_at(tag, first),
    )
}

/// Appends which imports of a file are of one that it imports before. Of fewer than two none is.
fn tell_imports(found: &mut Found, id: &Identity, imports: &[u32]) -> Result<(), AllocError>
    ensures { OnOk result (found.new
        ≡ found.old ++ each_told (spec.import_faults id.now imports.now) imports.now) }
{
    if imports.len() < 2 {
        return Ok(());
    }
    let mut firsts = BTreeMap::new(found.alloc());
    for (position, import) in imports.iter().enumerate() {
        let first = first_numbered(&mut firsts, *import, position)?;
        tell_import(found, id, position, first)?;
    }
    Ok(())
}

/// Appends what a file may not be: without a name, in a package that is none, with a chain of
/// imports that comes back, nor with an import twice.
fn tell_file(
    found: &mut Found,
    index: usize,
    file: &FileDescriptorInner,
    marks: &[bool],
) -> Result<(), AllocError>
    ensures { OnOk result (found.new
        ≡ found.old ++ spec.file_faults (spec.is_marked marks.now) index file.now) }
{
    let id = file_id(found.alloc(), index)?;
    let unnamed = file.raw.name().is_empty();
    let is_back = is_marked(marks, id.file);
    found.tell_if(unnamed, StrictKind::MissingFileName.of(&id), NAME)?;
    tell_package(found, &id, file.raw.package())?;
    found.tell_if(is_back, StrictKind::ImportCycle.of(&id), DEPENDENCY)?;
    tell_imports(found, &id, file.dependencies.as_slice())
}

/// Appends what some files may not be, where those are marked from which a chain of imports comes
/// back.
#[tactic(auto, using(crate::proofs::Told::told_next))]
fn tell_each_file(
    found: &mut Found,
    files: &[FileDescriptorInner],
    marks: &[bool],
) -> Result<(), AllocError>
    ensures { OnOk result (found.new
        ≡ found.old ++ each_told (spec.file_faults (spec.is_marked marks.now)) files.now) }
{
    for (index, file) in files.iter().enumerate() {
        tell_file(found, index, file, marks)?;
    }
    Ok(())
}

impl Linked<'_> {
    /// Appends what the files may not be.
    pub(crate) fn tell_files(self, found: &mut Found) -> Result<(), AllocError>
        ensures { OnOk result (found.new
            ≡ found.old ++ spec.files_faults self.entry.files.now) }
    {
        let marks = coming_back(found.alloc(), self.files)?;
        tell_each_file(found, self.files, marks.as_slice())
    }
}
