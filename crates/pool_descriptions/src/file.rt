//! The files of a pool.

ghost use Rattle.std.specs.Prelude.{◌≡◌, ◌++◌, OnOk, string_bytes};
ghost use Rattle.std.specs.List.{flat_map};
ghost use Rattle.pool_descriptions.specs.Items as spec;

use crate::words::{deprecated_line, file_name, name_word, syntax_word};
use descriptor_pool::DescriptorPool;
use pool_types::FileDescriptorInner;
use record_lists::is_deprecated;
use std::alloc::AllocError;
use std::collections::BTreeSet;
use std::fmt::Write;
use verdict_texts::Plain;

/// Tells all files of a pool.
pub(super) fn write_files(text: &mut String, pool: &DescriptorPool) -> Result<(), AllocError>
    ensures { OnOk result (string_bytes text.new ≡ string_bytes text.old
        ++ spec.files_text pool.now) }
{
    for file in pool.files() {
        write_file(text, pool, file)?;
    }
    Ok(())
}

/// Tells a file, what it imports and what it sees.
pub(super) fn write_file(
    text: &mut String,
    pool: &DescriptorPool,
    file: &FileDescriptorInner,
) -> Result<(), AllocError>
    ensures { OnOk result (string_bytes text.new ≡ string_bytes text.old
        ++ spec.file_text pool.now file.now) }
{
    write_head(text, file)?;
    text.push_str(deprecated_line(is_deprecated(&file.raw)))?;
    write_package(text, file.raw.package())?;
    write_imports(text, pool, file.dependencies.as_slice())?;
    write_seen(text, pool, &file.transitive_dependencies)
}

/// Tells the name and the syntax of a file.
fn write_head(text: &mut String, file: &FileDescriptorInner) -> Result<(), AllocError>
    ensures { OnOk result (string_bytes text.new ≡ string_bytes text.old
        ++ spec.file_head file.now) }
{
    let (name, syntax) = (name_word(file.raw.name()), syntax_word(file.syntax));
    writeln!(text, "file {name} {syntax}")
}

/// Tells a package, where it has a name.
fn write_package(text: &mut String, name: &str) -> Result<(), AllocError>
    ensures { OnOk result (string_bytes text.new ≡ string_bytes text.old
        ++ spec.package_line name.now) }
{
    if name.is_empty() {
        Ok(())
    } else {
        let name = Plain(name);
        writeln!(text, "  package {name}")
    }
}

/// Tells files that are imported.
fn write_imports(text: &mut String, pool: &DescriptorPool, files: &[u32]) -> Result<(), AllocError>
    ensures { OnOk result (string_bytes text.new ≡ string_bytes text.old
        ++ flat_map (spec.import_line pool.now) files.now) }
{
    for file in files {
        write_import(text, pool, *file)?;
    }
    Ok(())
}

/// Tells a file that is imported.
fn write_import(text: &mut String, pool: &DescriptorPool, file: u32) -> Result<(), AllocError>
    ensures { OnOk result (string_bytes text.new ≡ string_bytes text.old
        ++ spec.import_line pool.now file) }
{
    let name = file_name(pool, file);
    writeln!(text, "  import {name}")
}

/// Tells files whose names are seen.
fn write_seen(
    text: &mut String,
    pool: &DescriptorPool,
    files: &BTreeSet<u32>,
) -> Result<(), AllocError>
    ensures { OnOk result (string_bytes text.new ≡ string_bytes text.old
        ++ flat_map (spec.seen_line pool.now) files.now.keys) }
{
    for file in files {
        write_seen_file(text, pool, *file)?;
    }
    Ok(())
}

/// Tells a file whose names are seen.
fn write_seen_file(text: &mut String, pool: &DescriptorPool, file: u32) -> Result<(), AllocError>
    ensures { OnOk result (string_bytes text.new ≡ string_bytes text.old
        ++ spec.seen_line pool.now file) }
{
    let name = file_name(pool, file);
    writeln!(text, "  sees {name}")
}
