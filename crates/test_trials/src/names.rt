//! Trials of the calls on names, over both tables.
use crate::told::{Told, answer, mark};
use name_resolution::{ResolveNameFilter, ResolveNameResult, resolve_in_parts, resolve_name};
use name_tables::{HashedNames, NameTable, PartNames};
use plain_data::Path;
use pool_types::{Definition, DefinitionKind};
use std::alloc::{AllocError, Global};
use std::collections::BTreeSet;

/// The names that a table has before a trial.
const NAMES: [&str; 7] = [
    "p", "p.M", "p.M.own", "p.M.text", "p.M.more", "p.Kind", "p.NONE",
];

/// The name that is added, behind parts that the table lacks.
const ADDED: &str = "p.other.package.Other";

/// A table of names, by hashes.
fn hashed(alloc: Global) -> Result<HashedNames, AllocError> {
    let mut names = HashedNames::new(alloc);
    fill(alloc, &mut names)?;
    Ok(names)
}

/// A table of names, as a tree.
fn in_parts(alloc: Global) -> Result<PartNames, AllocError> {
    let mut names = PartNames::new(alloc);
    fill(alloc, &mut names)?;
    Ok(names)
}

fn fill<N: NameTable>(alloc: Global, names: &mut N) -> Result<(), AllocError> {
    for name in NAMES {
        add(names, name, definition(alloc)?)?;
    }
    Ok(())
}

/// Adds a name, unless it is there.
fn add<N: NameTable>(names: &mut N, name: &str, definition: Definition) -> Result<(), AllocError> {
    names.insert(name, definition)?;
    Ok(())
}

fn definition(alloc: Global) -> Result<Definition, AllocError> {
    Ok(Definition {
        file: 0,
        path: Path::from_slice(alloc, &[4, 0])?,
        kind: DefinitionKind::Message(0),
    })
}

pub(crate) fn copy_hashed(alloc: Global) -> Result<Told, AllocError> {
    copy(alloc, &hashed(alloc)?, &hashed(alloc)?)
}

pub(crate) fn copy_tree(alloc: Global) -> Result<Told, AllocError> {
    copy(alloc, &in_parts(alloc)?, &in_parts(alloc)?)
}

pub(crate) fn insert_hashed(alloc: Global) -> Result<Told, AllocError> {
    insert(alloc, hashed(alloc)?, &hashed(alloc)?, hashed(alloc)?)
}

pub(crate) fn insert_tree(alloc: Global) -> Result<Told, AllocError> {
    insert(alloc, in_parts(alloc)?, &in_parts(alloc)?, in_parts(alloc)?)
}

pub(crate) fn joined_hashed(alloc: Global) -> Result<Told, AllocError> {
    joined(alloc, &hashed(alloc)?, &hashed(alloc)?)
}

pub(crate) fn joined_tree(alloc: Global) -> Result<Told, AllocError> {
    joined(alloc, &in_parts(alloc)?, &in_parts(alloc)?)
}

pub(crate) fn resolve_hashed(alloc: Global) -> Result<Told, AllocError> {
    resolve(alloc, &hashed(alloc)?, &hashed(alloc)?)
}

pub(crate) fn resolve_tree(alloc: Global) -> Result<Told, AllocError> {
    resolve(alloc, &in_parts(alloc)?, &in_parts(alloc)?)
}

pub(crate) fn resolve_as_tree(alloc: Global) -> Result<Told, AllocError> {
    resolve_down(alloc, &in_parts(alloc)?, &in_parts(alloc)?)
}

/// Copies a table, which is equal to another.
fn copy<N: NameTable>(alloc: Global, names: &N, before: &N) -> Result<Told, AllocError> {
    let opened = mark(alloc);
    let copy = names.clone();
    let closed = mark(alloc);
    let is_same = copy.as_ref().ok().is_none_or(|copy| copy.same(names));
    let is_right = is_same && names.same(before);
    Told::new(opened, closed, answer(copy.is_ok()), is_right)
}

/// Adds a name to a table, which is equal to two others. The table should then be one to which it
/// was added before, and after a refusal what it was.
fn insert<N: NameTable>(
    alloc: Global,
    mut names: N,
    before: &N,
    mut ample: N,
) -> Result<Told, AllocError> {
    add(&mut ample, ADDED, definition(alloc)?)?;
    let added = definition(alloc)?;
    let opened = mark(alloc);
    let ending = add(&mut names, ADDED, added);
    let closed = mark(alloc);
    let wanted = if ending.is_ok() { &ample } else { before };
    let is_right = names.same(wanted) && !ample.same(before);
    Told::new(opened, closed, answer(ending.is_ok()), is_right)
}

/// Looks up a name inside a scope.
fn joined<N: NameTable>(alloc: Global, names: &N, before: &N) -> Result<Told, AllocError> {
    let opened = mark(alloc);
    let ending = names.get_joined(alloc, "p", "M.text");
    let closed = mark(alloc);
    let is_found = ending
        .as_ref()
        .ok()
        .is_none_or(|found| found.is_some_and(|def| def.file == 0));
    let is_right = is_found && names.same(before);
    Told::new(opened, closed, answer(ending.is_ok()), is_right)
}

/// Looks for the meaning of a name.
fn resolve<N: NameTable>(alloc: Global, names: &N, before: &N) -> Result<Told, AllocError> {
    let visible = first_file(alloc)?;
    let filter = ResolveNameFilter::FieldType;
    let opened = mark(alloc);
    let ending = resolve_name(alloc, &visible, names, "p.M.Inner", "Kind", filter);
    let closed = mark(alloc);
    let is_right = is_kind(&ending) && names.same(before);
    Told::new(opened, closed, answer(ending.is_ok()), is_right)
}

/// Looks for the meaning of a name by going down a tree.
fn resolve_down(alloc: Global, names: &PartNames, before: &PartNames) -> Result<Told, AllocError> {
    let visible = first_file(alloc)?;
    let filter = ResolveNameFilter::FieldType;
    let opened = mark(alloc);
    let ending = resolve_in_parts(alloc, &visible, names, "p.M.Inner", "Kind", filter);
    let closed = mark(alloc);
    let is_right = is_kind(&ending) && names.same(before);
    Told::new(opened, closed, answer(ending.is_ok()), is_right)
}

/// The first file alone.
fn first_file(alloc: Global) -> Result<BTreeSet<u32>, AllocError> {
    let mut visible = BTreeSet::new(alloc);
    visible.insert(0)?;
    Ok(visible)
}

/// Whether the name that is meant was found, or memory was refused.
fn is_kind(ending: &Result<ResolveNameResult, AllocError>) -> bool {
    match ending {
        Ok(ResolveNameResult::Found { name, .. }) => name.as_str() == "p.Kind",
        Ok(_) => false,
        Err(AllocError) => true,
    }
}
