//! What is known of files by names: the file of a name, and the file that declares one. No fault is
//! told by a walk over files.

ghost use Rattle.std.specs.Prelude.{◌≡◌, [], ◌∷◌, ◌++◌, ◌+◌, ◌<◌, is_some, length, map, slice_get};
ghost use Rattle.std.specs.Prelude.{take, IfOk, IfSome, IsTrue, OnOk};
ghost use Rattle.std.specs.List.{list_any};
ghost use Rattle.std.specs.Option.{option_and_then, option_copied};
ghost use Rattle.verdict_texts.specs.FaultKinds.{is_of_reference};
ghost use Rattle.verdict_texts.specs.Known as spec;
ghost use Rattle.record_walk.specs.Counts.{no_counts};
ghost use Rattle.record_walk.specs.Declarations.{declarations};
ghost use Rattle.verdict_texts.specs.Known.{type_names};
ghost use Rattle.verdict_texts.specs.Named.{AreDeclared, AreDeclaring, AreNamed, Enters};

use crate::declaring::{push_all, types_in_file};
use crate::fault_kinds::is_of_reference;
use crate::scopes::behind;
use name_tables::FileNames;
use plain_data::{Items, Text};
use pool_faults::DescriptorErrorKind;
use pool_types::FileDescriptorInner;
use proto_types::FileDescriptorProto;
use std::alloc::{AllocError, Global};
use std::marker::Model;

/// Files, which are found by their names, and by those of the messages and enums that they declare.
/// Contracts see the list of them, and whether these names are known.
#[derive(Drop)]
pub(crate) struct Known<'a> {
    files: Vec<&'a FileDescriptorProto>,
    named: NamedFiles,
    /// The names that they declare, if these are known.
    declared: Option<DeclaredTypes>,
}

impl<'a> Model for Known<'a> {
    ghost use Rattle.std.specs.Prelude.{Bool, List, is_some, map};
    ghost use Rattle.std.specs.Coded.{coded×, coded_bool, coded_list};
    ghost use Rattle.std.specs.Option.{IfSome};
    ghost use Rattle.proto_types.specs.contracts.file.FileDescriptorProto as file;
    ghost use Rattle.proto_types.specs.declared.file.FileDescriptorProto.{FileDescriptorProto};
    ghost use Rattle.verdict_texts.specs.Named.{AreDeclared, AreNamed};

    ghost Value = { List FileDescriptorProto × Bool };

    ghost coded = { coded× (coded_list file.the_row.coded) coded_bool };

    ghost view = { λ k. (map (λ f. f.now) k.files.items, is_some k.declared) };

    ghost invariant = { λ k. AreNamed k.named (map (λ f. f.now) k.files.items)
        × IfSome k.declared (λ types. AreDeclared types (map (λ f. f.now) k.files.items)) };
}

impl<'a> Known<'a> {
    /// What some faults ask of files: the names that they declare are known where one of the faults
    /// is of a reference.
    ///
    /// # Errors
    /// `AllocError` where memory was refused.
    pub fn for_faults(
        alloc: Global,
        files: Vec<&'a FileDescriptorProto>,
        faults: &[DescriptorErrorKind],
    ) -> Result<Known<'a>, AllocError>
        ensures files { IfOk result (λ known. known.0 ≡ map (λ f. f.now) files.entry.items) }
        ensures names { IfOk result
            (λ known. known.1 ≡ list_any is_of_reference faults.now) }
    {
        let named = named_files(alloc, files.as_slice())?;
        let declared = declared_for(alloc, files.as_slice(), faults)?;
        Ok(Known {
            files,
            named,
            declared,
        })
    }

    /// The file with a name: none where no file has it, or where several have it.
    pub fn only(&self, name: &str) -> Option<&'a FileDescriptorProto>
        ensures { option_copied result ≡ spec.only self.now.0 name.now }
    {
        only_of(&self.named, self.files.as_slice(), name)
    }

    /// The first file that declares a message or an enum of a full name.
    pub fn declaring(&self, name: &str) -> Option<&'a FileDescriptorProto>
        requires { IsTrue self.now.1 }
        ensures { option_copied result ≡ spec.declaring_file self.now.0 name.now }
    {
        match &self.declared {
            Some(types) => declaring_of(&types.first, self.files.as_slice(), name),
            None => None,
        }
    }

    /// The full names of the messages and enums that the files declare, in order.
    pub fn types(&self) -> &[Text]
        requires { IsTrue self.now.1 }
        ensures { result.now ≡ spec.types_of self.now.0 }
    {
        match &self.declared {
            Some(types) => types.names.as_slice(),
            None => &[],
        }
    }

    /// Whether the package of a file is a full name or stands in it.
    pub fn has_package(&self, name: &str) -> bool
        ensures { result ≡ list_any (spec.has_package name.now) self.now.0 }
    {
        has_package_in(self.files.as_slice(), name)
    }
}

/// Files by their names.
#[derive(Drop)]
pub(crate) struct NamedFiles {
    /// The position of the first file of each name.
    pub first: FileNames,
    /// The names that several files have, each with the position of the second.
    pub several: FileNames,
}

/// The names of messages and enums.
#[derive(Drop)]
pub(crate) struct DeclaredTypes {
    /// The position of the first file that declares each.
    pub first: FileNames,
    /// All of them, in the order in which files declare them.
    pub names: Items<Text>,
}

/// The records of the files of a pool, and behind them those of new files.
pub(crate) fn records<'a>(
    alloc: Global,
    linked: &'a [FileDescriptorInner],
    files: &'a [FileDescriptorProto],
) -> Result<Vec<&'a FileDescriptorProto>, AllocError>
    ensures { IfOk result (λ all. map (λ f. f.now) all.items
        ≡ map (λ f. f.raw) linked.now ++ files.now) }
{
    let mut records = linked_records(alloc, linked)?;
    for file in files {
        records.push(file)?;
    }
    Ok(records)
}

/// The records of the files of a pool.
fn linked_records(
    alloc: Global,
    linked: &[FileDescriptorInner],
) -> Result<Vec<&FileDescriptorProto>, AllocError>
    ensures { IfOk result (λ all. map (λ f. f.now) all.items ≡ map (λ f. f.raw) linked.now) }
{
    let mut records = Vec::new(alloc);
    for file in linked {
        records.push(&file.raw)?;
    }
    Ok(records)
}

/// The file with a position, if there is one.
fn file_at<'a>(
    files: &[&'a FileDescriptorProto],
    at: Option<u32>,
) -> Option<&'a FileDescriptorProto>
    ensures { option_copied result
        ≡ option_and_then (slice_get (map (λ f. f.now) files.now)) at }
{
    match at {
        Some(at) => files.get(at as usize).copied(),
        None => None,
    }
}

/// The only file with a name.
fn only_of<'a>(
    named: &NamedFiles,
    files: &[&'a FileDescriptorProto],
    name: &str,
) -> Option<&'a FileDescriptorProto>
    requires { AreNamed named.now (map (λ f. f.now) files.now) }
    ensures { option_copied result ≡ spec.only (map (λ f. f.now) files.now) name.now }
{
    if named.several.get(name).is_some() {
        return None;
    }
    file_at(files, named.first.get(name))
}

/// The first file that declares a name.
fn declaring_of<'a>(
    names: &FileNames,
    files: &[&'a FileDescriptorProto],
    name: &str,
) -> Option<&'a FileDescriptorProto>
    requires { AreDeclaring names.now (map (λ f. f.now) files.now) }
    ensures { option_copied result
        ≡ spec.declaring_file (map (λ f. f.now) files.now) name.now }
{
    file_at(files, names.get(name))
}

/// Whether the package of a file is a full name or stands in it.
fn has_package(file: &FileDescriptorProto, name: &str) -> bool
    ensures { result ≡ spec.has_package name.now file.now }
{
    let package = file.package();
    package == name || behind(name.as_bytes(), package.as_bytes()).is_some()
}

/// Whether the package of one of some files is a full name or stands in it.
fn has_package_in(files: &[&FileDescriptorProto], name: &str) -> bool
    ensures { result ≡ list_any (spec.has_package name.now) (map (λ f. f.now) files.now) }
{
    for file in files {
        if has_package(file, name) {
            return true;
        }
    }
    false
}

/// The number of a position.
fn number_of(position: usize) -> Result<u32, AllocError>
    ensures { IfOk result (λ number. number ≡ position) }
{
    u32::try_from(position).or(Err(AllocError))
}

/// Enters a name with a position, unless it has one.
fn enter(names: &mut FileNames, name: &str, at: u32) -> Result<(), AllocError>
    ensures { OnOk result (Enters names.old names.new at (name.now ∷ [])) }
{
    if names.get(name).is_some() {
        return Ok(());
    }
    names.insert(name, at)
}

/// Adds the file with a position to those before it.
fn add_file(
    named: &mut NamedFiles,
    files: &[&FileDescriptorProto],
    at: usize,
) -> Result<(), AllocError>
    requires within { at < length files.now }
    requires named { AreNamed named.old (map (λ f. f.now) (take at files.now)) }
    ensures { OnOk result (AreNamed named.new (map (λ f. f.now) (take (at + 1) files.now))) }
{
    let name = files[at].name();
    let number = number_of(at)?;
    if named.first.get(name).is_some() {
        enter(&mut named.several, name, number)
    } else {
        named.first.insert(name, number)
    }
}

/// Files by their names.
fn named_files(alloc: Global, files: &[&FileDescriptorProto]) -> Result<NamedFiles, AllocError>
    ensures { IfOk result (λ named. AreNamed named (map (λ f. f.now) files.now)) }
{
    let mut named = NamedFiles {
        first: FileNames::new(alloc),
        several: FileNames::new(alloc),
    };
    for at in 0..files.len() {
        add_file(&mut named, files, at)?;
    }
    Ok(named)
}

/// Enters names with a position, but for those that have one.
fn enter_all(names: &mut FileNames, entered: &[Text], at: u32) -> Result<(), AllocError>
    ensures { OnOk result (Enters names.old names.new at entered.now) }
{
    for name in entered {
        enter(names, name.as_str(), at)?;
    }
    Ok(())
}

/// Adds the names of the messages and enums of the file behind so many files.
fn add_declared(
    alloc: Global,
    types: &mut DeclaredTypes,
    file: &FileDescriptorProto,
    at: usize,
) -> Result<(), AllocError>
    ensures first { OnOk result (Enters types.old.first types.new.first at
        (type_names (declarations no_counts (file.now ∷ [])))) }
    ensures names { OnOk result (types.new.names ≡ types.old.names
        ++ type_names (declarations no_counts (file.now ∷ []))) }
{
    let own = types_in_file(alloc, file)?;
    enter_all(&mut types.first, own.as_slice(), number_of(at)?)?;
    push_all(&mut types.names, own)
}

/// The names of the messages and the enums of files, each with the position of the first file that
/// declares it.
fn declared_types(
    alloc: Global,
    files: &[&FileDescriptorProto],
) -> Result<DeclaredTypes, AllocError>
    ensures { IfOk result (λ types. AreDeclared types (map (λ f. f.now) files.now)) }
{
    let mut types = DeclaredTypes {
        first: FileNames::new(alloc),
        names: Items::new(alloc),
    };
    for (at, file) in files.iter().enumerate() {
        add_declared(alloc, &mut types, file, at)?;
    }
    Ok(types)
}

/// Whether one of some faults is of a reference.
fn has_references(faults: &[DescriptorErrorKind]) -> bool
    ensures { result ≡ list_any is_of_reference faults.now }
{
    faults.iter().any(|fault| is_of_reference(fault))
}

/// The names that files declare, where one of some faults is of a reference.
fn declared_for(
    alloc: Global,
    files: &[&FileDescriptorProto],
    faults: &[DescriptorErrorKind],
) -> Result<Option<DeclaredTypes>, AllocError>
    ensures known { IfOk result (λ types. is_some types ≡ list_any is_of_reference faults.now) }
    ensures types { IfOk result (λ types. IfSome types
        (λ types. AreDeclared types (map (λ f. f.now) files.now))) }
{
    if has_references(faults) {
        return Ok(Some(declared_types(alloc, files)?));
    }
    Ok(None)
}
