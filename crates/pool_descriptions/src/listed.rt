//! The declarations of a pool.

ghost use Rattle.std.specs.Prelude.{◌≡◌, ◌++◌, IsOk, OnOk, map, string_bytes};
ghost use Rattle.std.specs.List.{flat_map};
ghost use Rattle.record_walk.specs.Counts.{no_counts};
ghost use Rattle.record_walk.specs.Fits.{counts_with};
ghost use Rattle.pool_descriptions.specs.Listed as spec;

use descriptor_pool::DescriptorPool;
use pool_types::FileDescriptorInner;
use record_lists::Lister;
use record_walk::{Counts, Declaration, alone, declared_word, walk};
use std::alloc::{AllocError, Global};
use verdict_texts::write_line;

/// Writes each declaration of a pool as a line: its kind and its full name, in the order of the walk.
///
/// # Errors
/// `AllocError` where memory was refused. What is written then isn't said.
pub fn write_list(alloc: Global, text: &mut String, pool: &DescriptorPool) -> Result<(), AllocError>
    ensures { OnOk result (string_bytes text.new ≡ string_bytes text.old ++ spec.listed pool.now) }
{
    write_files(alloc, text, pool.files())
}

/// Writes each declaration of files as a line.
fn write_files(
    alloc: Global,
    text: &mut String,
    files: &[FileDescriptorInner],
) -> Result<(), AllocError>
    requires { IsOk (counts_with no_counts (map (λ f. f.raw) files.now)) }
    ensures { OnOk result (string_bytes text.new ≡ string_bytes text.old
        ++ spec.listed_files (map (λ f. f.raw) files.now)) }
{
    let base = Counts {
        files: 0,
        messages: 0,
        enums: 0,
        services: 0,
        extensions: 0,
    };
    let mut lister = Lister::new(alloc);
    walk(alloc, base, files, &mut lister)?;
    write_declarations(alloc, text, lister.declarations())
}

/// Writes declarations, each as a line.
fn write_declarations(
    alloc: Global,
    text: &mut String,
    list: &[Declaration],
) -> Result<(), AllocError>
    ensures { OnOk result (string_bytes text.new ≡ string_bytes text.old
        ++ flat_map spec.listed_line list.now) }
{
    for declaration in list {
        write_declaration(alloc, text, declaration)?;
    }
    Ok(())
}

/// Writes a declaration as a line: its kind and its full name.
fn write_declaration(
    alloc: Global,
    text: &mut String,
    declaration: &Declaration,
) -> Result<(), AllocError>
    ensures { OnOk result (string_bytes text.new ≡ string_bytes text.old
        ++ spec.listed_line declaration.now) }
{
    let kind = declared_word(declaration.kind);
    let name = alone(declaration.full_name.as_str());
    let words = format!(in alloc; "{kind} {name}")?;
    write_line(text, words.as_str())
}
