ghost use Rattle.std.specs.Prelude.{◌≡◌, IfOk};
ghost use Rattle.std.specs.FinMap as finite;
ghost use Rattle.std.specs.List.{filter_map};
ghost use Rattle.std.specs.Option.{option_and_then, option_copied};
ghost use Rattle.plain_data.specs.Lists.{at};
ghost use Rattle.name_resolution.specs.Visibility.{public_imports_of};

use name_tables::FileNames;
use plain_data::{Items, Text};
use proto_types::FileDescriptorProto;
use std::alloc::{AllocError, Global};

/// The indexes of the files that imports name, in order; what names no file has none.
///
/// # Errors
/// `AllocError` where memory was refused.
pub fn imported_files(
    alloc: Global,
    file_names: &FileNames,
    imports: &[Text],
) -> Result<Items<u32>, AllocError>
    ensures { IfOk result (λ files. files ≡ filter_map (finite.get file_names.now) imports.now) }
{
    let mut files = Items::new(alloc);
    for name in imports {
        if let Some(file) = file_names.get(name.as_str()) {
            files.push(file)?;
        }
    }
    Ok(files)
}

/// The indexes of a file's public imports, in order; a place where no import stands, and an import
/// that names no file, have none.
///
/// # Errors
/// `AllocError` where memory was refused.
pub(crate) fn public_imports(
    alloc: Global,
    file_names: &FileNames,
    file: &FileDescriptorProto,
) -> Result<Items<u32>, AllocError>
    ensures { IfOk result (λ files. files
        ≡ public_imports_of (finite.get file_names.now) file.now) }
{
    let mut files = Items::new(alloc);
    for place in file.public_dependency.as_slice() {
        let names = file.dependency.as_slice();
        if let Some(import) = import_at(file_names, names, *place) {
            files.push(import)?;
        }
    }
    Ok(files)
}

/// The index of the file that the import at a place names, or none where no import stands, or it
/// names no file.
fn import_at(file_names: &FileNames, imports: &[Text], place: i32) -> Option<u32>
    ensures { result
        ≡ option_and_then (finite.get file_names.now) (at imports.now place) }
{
    let name = name_at(imports, place)?;
    file_names.get(name.as_str())
}

/// The name at a place, or none where there is none.
fn name_at(names: &[Text], place: i32) -> Option<&Text>
    ensures { option_copied result ≡ at names.now place }
{
    names.get(usize::try_from(place).ok()?)
}
