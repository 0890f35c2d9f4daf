ghost use Rattle.std.specs.Prelude.{◌≡◌, ◌<◌, ◌^◌, true, is_some, OnOk};
ghost use Rattle.std.specs.List.{flat_map};
ghost use Rattle.plain_data.specs.Lists.{at};
ghost use Rattle.record_walk.specs.Counts.{fits_list, lists_fit};
ghost use Rattle.record_walk.specs.Protos.{of_file};
ghost use Rattle.reference_pass.specs.Imports.{missing_file, missing_files, index_fault};
ghost use Rattle.reference_pass.specs.Imports.{import_faults};
ghost use Rattle.reference_pass.specs.Reading.{ReadingTells, setting_of};
ghost use Rattle.record_walk.specs.Faults.{Tells};

use crate::reading::Reading;
use plain_data::Text;
use pool_faults::DescriptorErrorKind;
use proto_types::{FileDescriptorProto, entry_path, tag};
use record_walk::Faults;
use std::alloc::{AllocError, Global};

/// Appends to `reading` one for each import of the file with an index that names no file, and then
/// one for each public and each weak index that is no place of the list of imports. The index
/// counts from 0 in the order of linking, and the lists of the file are short enough for a pool.
///
/// # Errors
/// `AllocError` where memory was refused.
pub fn check_imports(
    reading: &mut Reading,
    index: u32,
    file: &FileDescriptorProto,
) -> Result<(), AllocError>
    requires { lists_fit (of_file file.now) ≡ true }
    ensures { OnOk result (ReadingTells reading.old reading.new
        (import_faults (setting_of reading.old) index file.now)) }
{
    let imports = file.dependency.as_slice();
    check_names(reading, index, imports)?;
    check_indexes(
        &mut reading.faults,
        imports,
        file.public_dependency.as_slice(),
    )?;
    check_indexes(
        &mut reading.faults,
        imports,
        file.weak_dependency.as_slice(),
    )
}

fn check_names(reading: &mut Reading, index: u32, imports: &[Text]) -> Result<(), AllocError>
    requires { fits_list imports.now ≡ true }
    ensures { OnOk result (ReadingTells reading.old reading.new
        (missing_files (setting_of reading.old) index imports.now)) }
{
    for (position, name) in imports.iter().enumerate() {
        check_name(reading, index, position, name)?;
    }
    Ok(())
}

/// Appends to `reading` that of an import, by its place, which names no file.
fn check_name(
    reading: &mut Reading,
    index: u32,
    position: usize,
    name: &Text,
) -> Result<(), AllocError>
    requires { position < 2 ^ 31 }
    ensures { OnOk result (ReadingTells reading.old reading.new
        (missing_file (setting_of reading.old) index position name.now)) }
{
    if reading.file_names.get(name.as_str()).is_some() {
        return Ok(());
    }
    let alloc = reading.faults.alloc;
    let path = entry_path(alloc, &[], tag::file::DEPENDENCY, position)?;
    let found = reading.faults.label(index, &path)?;
    let name = name.clone(alloc)?;
    reading
        .faults
        .push(DescriptorErrorKind::FileNotFound { name, found })
}

/// Appends to `faults` one for each index that is no place of the imports.
fn check_indexes(faults: &mut Faults, imports: &[Text], indexes: &[i32]) -> Result<(), AllocError>
    ensures { OnOk result (Tells faults.old faults.new
        (flat_map (index_fault imports.now) indexes.now)) }
{
    for index in indexes {
        check_index(faults, imports, *index)?;
    }
    Ok(())
}

fn check_index(faults: &mut Faults, imports: &[Text], index: i32) -> Result<(), AllocError>
    ensures { OnOk result (Tells faults.old faults.new (index_fault imports.now index)) }
{
    if !is_place(imports, index) {
        faults.push(DescriptorErrorKind::InvalidImportIndex)?;
    }
    Ok(())
}

/// Whether an index is a place of the imports, from 0.
fn is_place(imports: &[Text], index: i32) -> bool
    ensures { result ≡ is_some (at imports.now index) }
{
    match usize::try_from(index) {
        Ok(index) => index < imports.len(),
        Err(_) => false,
    }
}
