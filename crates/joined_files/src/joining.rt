//! The files of several sets as one batch.

ghost use Rattle.std.specs.Prelude.{◌≡◌, ◌∷◌, ◌++◌, None, Some, [], IfOk, OnOk, length, map};
ghost use Rattle.std.specs.FinMap as finite;
ghost use Rattle.std.specs.List.{find, position_from};
ghost use Rattle.joined_files.specs.Joining as spec;

use crate::differences::difference;
use crate::unequal::{SetFile, UnequalFile, unequal_file};
use name_tables::FileNames;
use plain_data::{Items, Text};
use proto_types::FileDescriptorProto;
use std::alloc::{AllocError, Global};
use std::marker::Model;

/// Files of sets that are joined to one batch. Of files of one name that are equal apart from the
/// places of their parts in a source one counts, which has places if one of them has; of others the
/// first counts.
#[derive(Drop)]
pub struct Joining {
    alloc: Global,
    files: Vec<SetFile>,
    names: FileNames,
    unequal: Vec<UnequalFile>,
}

impl Model for Joining {
    ghost use Rattle.joined_files.specs.Joining.{HaveNames, Joined, joined_code};
    ghost use Rattle.joined_files.specs.contracts.unequal.SetFile as file;
    ghost use Rattle.joined_files.specs.contracts.unequal.UnequalFile as told;

    ghost Value = { Joined };

    ghost coded = { joined_code file.the_row.coded told.the_row.coded };

    ghost view = { λ j. record { files = j.files.items; unequal = j.unequal.items } };

    ghost invariant = { λ j. HaveNames j.names j.files.items };
}

/// A batch, and what was left out of it.
#[derive(Drop)]
pub struct JoinedFiles {
    /// The batch, in which each name stands once.
    pub files: Items<FileDescriptorProto>,
    /// The files that differ from the first of their name, in order.
    pub unequal: Items<UnequalFile>,
}

impl Joining {
    ghost use Rattle.joined_files.specs.Joining.{files_joined, joined, none_joined, with_set};

    /// No files, which takes no memory.
    pub fn new(alloc: Global) -> Joining
        ensures { result ≡ none_joined }
    {
        Joining {
            alloc,
            files: Vec::new(alloc),
            names: FileNames::new(alloc),
            unequal: Vec::new(alloc),
        }
    }

    /// These files, and those of a further set with a name.
    ///
    /// # Errors
    /// `AllocError` where memory was refused.
    pub fn with_set(
        self,
        set: &str,
        files: Items<FileDescriptorProto>,
    ) -> Result<Joining, AllocError>
        ensures { IfOk result (λ joining. joining ≡ with_set self set.now files) }
    {
        let mut joining = self;
        for file in files.into_vec() {
            let set = Text::from_str(joining.alloc, set)?;
            joining = joining.with_file(SetFile { set, file })?;
        }
        Ok(joining)
    }

    /// These files, and a further one.
    ///
    /// # Errors
    /// `AllocError` where memory was refused.
    pub fn with_file(self, file: SetFile) -> Result<Joining, AllocError>
        ensures { IfOk result (λ joining. joining ≡ joined self file) }
    {
        let Joining {
            alloc,
            mut files,
            mut names,
            mut unequal,
        } = self;
        if let Some(told) = join_file(alloc, &mut files, &mut names, file)? {
            unequal.push(told)?;
        }
        Ok(Joining {
            alloc,
            files,
            names,
            unequal,
        })
    }

    /// The batch, and what was left out of it.
    ///
    /// # Errors
    /// `AllocError` where memory was refused.
    pub fn into_files(self) -> Result<JoinedFiles, AllocError>
        ensures { IfOk result (λ batch. batch ≡ files_joined self) }
    {
        let Joining {
            alloc,
            files,
            unequal,
            ..
        } = self;
        Ok(JoinedFiles {
            files: records(alloc, files)?,
            unequal: Items::from_vec(unequal),
        })
    }
}

/// The records of files.
fn records(alloc: Global, files: Vec<SetFile>) -> Result<Items<FileDescriptorProto>, AllocError>
    ensures { IfOk result (λ records. records ≡ map (λ f. f.file) files.items) }
{
    let mut records = Vec::with_capacity(alloc, files.len())?;
    for file in files {
        records.push(file.file)?;
    }
    Ok(Items::from_vec(records))
}

/// Joins a file to others, which have some names; tells of it if it differs from the first with its
/// name.
fn join_file(
    alloc: Global,
    files: &mut Vec<SetFile>,
    names: &mut FileNames,
    file: SetFile,
) -> Result<Option<UnequalFile>, AllocError>
    requires { spec.HaveNames names.old files.old.items }
    ensures files { OnOk result (files.new.items ≡ spec.join files.old.items file) }
    ensures names { OnOk result (spec.HaveNames names.new files.new.items) }
    ensures told { IfOk result (λ told. spec.listed told
        ≡ spec.unequal_to (find (spec.is_named (spec.name_in file)) files.old.items) file) }
{
    match names.get(file.file.name()) {
        Some(at) => join_named(alloc, files, at, file),
        None => {
            join_new(files, names, file)?;
            Ok(None)
        }
    }
}

/// Joins a file to others, of which the first with its name has a position; tells of it if the two
/// differ.
fn join_named(
    alloc: Global,
    files: &mut Vec<SetFile>,
    at: u32,
    file: SetFile,
) -> Result<Option<UnequalFile>, AllocError>
    requires { position_from (spec.is_named (spec.name_in file)) 0 files.old.items ≡ Some at }
    ensures files { OnOk result (files.new.items ≡ spec.join files.old.items file) }
    ensures told { IfOk result (λ told. spec.listed told
        ≡ spec.unequal_to (find (spec.is_named (spec.name_in file)) files.old.items) file) }
{
    let first = &mut files[at as usize];
    match difference(&first.file, &file.file) {
        Some(part) => Ok(Some(unequal_file(alloc, first, &file, part)?)),
        None => {
            keep_places(first, file);
            Ok(None)
        }
    }
}

/// Keeps of two files that are equal apart from their places the one that has some.
fn keep_places(first: &mut SetFile, file: SetFile)
    ensures { first.new ≡ spec.kept_by None first.old file }
{
    if first.file.source_code_info.is_none() {
        first.file = file.file;
    }
}

/// Puts a file behind others, of which none has its name.
fn join_new(
    files: &mut Vec<SetFile>,
    names: &mut FileNames,
    file: SetFile,
) -> Result<(), AllocError>
    requires { finite.get names.old (spec.name_in file) ≡ None }
    ensures files { OnOk result (files.new.items ≡ files.old.items ++ file ∷ []) }
    ensures names { OnOk result (names.new
        ≡ finite.insert names.old (spec.name_in file) (length files.old.items)) }
{
    // Where no number is left for the file, there is no room for it.
    let at = u32::try_from(files.len()).or(Err(AllocError))?;
    names.insert(file.file.name(), at)?;
    files.push(file)?;
    Ok(())
}
