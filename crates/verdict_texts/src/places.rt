//! Where the faults stand whose kinds have no label: a name of a file that another has, an index of
//! an import, and an index of a oneof.

ghost use Rattle.std.specs.Prelude.{◌≡◌, [], ◌∷◌, ◌++◌, ℤ, List, IfOk, OnOk, drop, find, map};
ghost use Rattle.std.specs.List.{list_any};
ghost use Rattle.std.specs.Option.{option_copied};
ghost use Rattle.std.specs.Str.{bytes_eq};
ghost use Rattle.plain_data.specs.Lists.{only_if};
ghost use Rattle.proto_types.specs.Paths.{entry_path};
ghost use Rattle.proto_types.specs.declared.tag.file.TheConstants as tags;
ghost use Rattle.pool_faults.specs.Labels.{label, label_in};
ghost use Rattle.verdict_texts.specs.Places as spec;
ghost use Rattle.verdict_texts.specs.declared.places.Unplaced.TheVariants.{Index};

use crate::elements::entry;
use plain_data::{Items, Path, Text, duplicate_option};
use pool_faults::{DescriptorErrorKind as Fault, Label, Labels};
use pool_types::{FileDescriptorInner, Syntax};
use proto_types::tag::{file, message};
use proto_types::{DescriptorProto, FieldDescriptorProto, FileDescriptorProto};
use std::alloc::{AllocError, Global};
use std::collections::BTreeSet;

/// A kind of fault that shows no label.
#[derive(Clone, Copy)]
pub(crate) enum Unplaced {
    /// A name of a file that another has.
    Name,
    /// An index that is no position: a public or weak one of the file's imports, or one of a field
    /// of the oneofs of its message.
    Index,
}

/// Want of memory where no number is left: it asks for more room than can be granted.
pub(crate) fn no_room(alloc: Global) -> AllocError {
    let _ = String::new(alloc).reserve(usize::MAX);
    AllocError
}

/// An entry of a list of a record.
#[derive(Clone, Copy)]
struct ListEntry<'a> {
    /// The path of the record.
    path: &'a [i32],
    /// The field number of the list.
    tag: i32,
    position: usize,
}

/// The path of an entry of a list.
fn path_of(alloc: Global, entry: ListEntry<'_>) -> Result<Path, AllocError>
    ensures { IfOk result (λ path. path
        ≡ entry_path entry.entry.path.now entry.entry.tag entry.entry.position) }
{
    match i32::try_from(entry.position) {
        Ok(position) => Path::below(alloc, entry.path, entry.tag, position),
        Err(_) => Err(no_room(alloc)),
    }
}

/// Adds the path of an entry of a list where it is wanted.
fn add_if(paths: &mut Vec<Path>, entry: ListEntry<'_>, is_wanted: bool) -> Result<(), AllocError>
    ensures { OnOk result (paths.new.items ≡ paths.old.items ++ only_if is_wanted
        (entry_path entry.entry.path.now entry.entry.tag entry.entry.position)) }
{
    if is_wanted {
        let path = path_of(*paths.allocator(), entry)?;
        paths.push(path)?;
    }
    Ok(())
}

/// Whether an index is no position of a list.
fn is_outside<T>(items: &Items<T>, index: i32) -> bool
    ensures { result ≡ spec.is_outside items.now index }
{
    entry(items, index).is_none()
}

/// Adds the paths of the indexes of a list that are no positions of a file's imports.
fn add_imports(
    paths: &mut Vec<Path>,
    imports: &Items<Text>,
    tag: i32,
    indexes: &[i32],
) -> Result<(), AllocError>
    ensures { OnOk result (paths.new.items ≡ paths.old.items
        ++ spec.outside_imports imports.now tag indexes.now) }
{
    for (position, index) in indexes.iter().enumerate() {
        let is_wanted = is_outside(imports, *index);
        let entry = ListEntry {
            path: &[],
            tag,
            position,
        };
        add_if(paths, entry, is_wanted)?;
    }
    Ok(())
}

/// Whether a field has a oneof index that is no position of the oneofs of its message.
fn names_no_oneof(message: &DescriptorProto, field: &FieldDescriptorProto) -> bool
    ensures { result ≡ spec.names_no_oneof message.now field.now }
{
    match field.oneof_index {
        Some(index) => is_outside(&message.oneof_decl, index),
        None => false,
    }
}

/// Adds the paths of the fields of the message at a path whose oneof index is no position.
fn add_fields(
    paths: &mut Vec<Path>,
    path: &[i32],
    message: &DescriptorProto,
) -> Result<(), AllocError>
    ensures { OnOk result (paths.new.items ≡ paths.old.items
        ++ spec.outside_oneofs message.now path.now) }
{
    for (position, field) in message.field.as_slice().iter().enumerate() {
        let is_wanted = names_no_oneof(message, field);
        let entry = ListEntry {
            path,
            tag: message::FIELD,
            position,
        };
        add_if(paths, entry, is_wanted)?;
    }
    Ok(())
}

/// Adds the paths of the indexes that are no positions in the message at a path, and in all in it.
#[cycle(message)]
fn add_message(
    paths: &mut Vec<Path>,
    path: &[i32],
    message: &DescriptorProto,
) -> Result<(), AllocError>
    ensures { OnOk result (paths.new.items ≡ paths.old.items
        ++ spec.message_indexes path.now message.now) }
{
    add_fields(paths, path, message)?;
    add_messages(paths, path, message::NESTED_TYPE, &message.nested_type)
}

/// Adds the paths of the indexes that are no positions in the messages of a list and below.
#[cycle(message)]
fn add_messages(
    paths: &mut Vec<Path>,
    path: &[i32],
    tag: i32,
    messages: &Items<DescriptorProto>,
) -> Result<(), AllocError>
    ensures { OnOk result (paths.new.items ≡ paths.old.items
        ++ spec.messages_indexes path.now tag messages.now) }
{
    for (position, message) in messages.as_slice().iter().enumerate() {
        let entry = ListEntry {
            path,
            tag,
            position,
        };
        let at = path_of(*paths.allocator(), entry)?;
        add_message(paths, at.as_slice(), message)?;
    }
    Ok(())
}

/// The paths of a file's indexes that are no positions.
fn index_paths(alloc: Global, file: &FileDescriptorProto) -> Result<Vec<Path>, AllocError>
    ensures { IfOk result (λ paths. paths.items ≡ spec.paths_of Index file.now) }
{
    let imports = &file.dependency;
    let mut paths = Vec::new(alloc);
    add_imports(
        &mut paths,
        imports,
        file::PUBLIC_DEPENDENCY,
        file.public_dependency.as_slice(),
    )?;
    add_imports(
        &mut paths,
        imports,
        file::WEAK_DEPENDENCY,
        file.weak_dependency.as_slice(),
    )?;
    add_messages(&mut paths, &[], file::MESSAGE_TYPE, &file.message_type)?;
    Ok(paths)
}

/// The path of the name of a file.
fn name_paths(alloc: Global) -> Result<Vec<Path>, AllocError>
    ensures { IfOk result (λ paths. paths.items ≡ (tags.NAME ∷ []) ∷ []) }
{
    let mut paths = Vec::new(alloc);
    paths.push(Path::from_slice(alloc, &[file::NAME])?)?;
    Ok(paths)
}

/// The paths of a file at which the faults of a kind can stand.
fn paths_of(
    alloc: Global,
    kind: Unplaced,
    file: &FileDescriptorProto,
) -> Result<Vec<Path>, AllocError>
    ensures { IfOk result (λ paths. paths.items ≡ spec.paths_of kind file.now) }
{
    match kind {
        Unplaced::Name => name_paths(alloc),
        Unplaced::Index => index_paths(alloc, file),
    }
}

/// What labels of a file are made of, in a list of its own.
fn located(
    alloc: Global,
    file: &FileDescriptorProto,
) -> Result<Vec<FileDescriptorInner>, AllocError>
    ensures { IfOk result (λ files. (path : List ℤ)
        → label_in (map (λ f. f.raw) files.items) 0 path ≡ label file.now path) }
{
    let mut raw = FileDescriptorProto::empty(alloc);
    raw.name = duplicate_option(alloc, &file.name)?;
    raw.source_code_info = duplicate_option(alloc, &file.source_code_info)?;
    let mut files = Vec::new(alloc);
    files.push(FileDescriptorInner {
        syntax: Syntax::Proto2,
        raw,
        dependencies: Items::new(alloc),
        transitive_dependencies: BTreeSet::new(alloc),
    })?;
    Ok(files)
}

/// Adds the labels of paths of a file, whose locations are gone through once.
fn add_labels(
    alloc: Global,
    labels: &mut Items<Label>,
    file: &FileDescriptorProto,
    paths: &[Path],
) -> Result<(), AllocError>
    ensures { OnOk result (labels.new ≡ labels.old ++ map (label file.now) paths.now) }
{
    if paths.is_empty() {
        return Ok(());
    }
    let files = located(alloc, file)?;
    let mut spans = Labels::new(alloc, &files);
    for path in paths {
        let label = spans.label(0, path.as_slice())?;
        labels.push(label)?;
    }
    Ok(())
}

/// Whether a fault is of a kind without a label.
fn is_of(kind: Unplaced, fault: &Fault) -> bool
    ensures { result ≡ spec.is_of kind fault.now }
{
    match kind {
        Unplaced::Name => matches!(fault, Fault::DuplicateFileName { .. }),
        Unplaced::Index => matches!(fault, Fault::InvalidImportIndex | Fault::InvalidOneofIndex),
    }
}

/// Whether one of some faults is of a kind without a label.
fn has(kind: Unplaced, faults: &[Fault]) -> bool
    ensures { result ≡ list_any (spec.is_of kind) faults.now }
{
    faults.iter().any(|fault| is_of(kind, fault))
}

/// The places in files at which faults of a kind can stand, in order.
fn places_of(
    alloc: Global,
    files: &[FileDescriptorProto],
    kind: Unplaced,
) -> Result<Items<Label>, AllocError>
    ensures { IfOk result (λ places. places ≡ spec.places_of kind files.now) }
{
    let mut places = Items::new(alloc);
    for file in files {
        let paths = paths_of(alloc, kind, file)?;
        add_labels(alloc, &mut places, file, &paths)?;
    }
    Ok(places)
}

/// The places in files at which faults of a kind can stand, in order, where one of some faults is
/// of it.
pub(crate) fn places_for(
    alloc: Global,
    files: &[FileDescriptorProto],
    faults: &[Fault],
    kind: Unplaced,
) -> Result<Items<Label>, AllocError>
    ensures { IfOk result (λ places. places ≡ spec.places_for files.now faults.now kind) }
{
    if has(kind, faults) {
        return places_of(alloc, files, kind);
    }
    Ok(Items::new(alloc))
}

/// The places at which faults without a label can stand, in order.
#[derive(Clone, Copy)]
pub(crate) struct Places<'a> {
    /// Those of names of files.
    pub names: &'a [Label],
    /// Those of indexes that no earlier fault has.
    pub indexes: &'a [Label],
}

/// The first label that names a file.
fn label_of<'a>(labels: &'a [Label], file: &str) -> Option<&'a Label>
    ensures { option_copied result ≡ find (λ l. bytes_eq l.file file.now) labels.now }
{
    labels.iter().find(|label| label.file() == file)
}

/// Where a fault stands.
pub(crate) fn place_among<'a>(places: Places<'a>, fault: &'a Fault) -> Option<&'a Label>
    ensures { option_copied result ≡ spec.place_among places.entry.names.now
        places.entry.indexes.now fault.now }
{
    match fault {
        Fault::DuplicateFileName { name } => label_of(places.names, name.as_str()),
        Fault::InvalidImportIndex | Fault::InvalidOneofIndex => places.indexes.first(),
        _ => fault.label(),
    }
}

/// The indexes that are left behind a fault.
pub(crate) fn left_behind<'a>(left: &'a [Label], fault: &Fault) -> &'a [Label]
    ensures { result.now ≡ drop (spec.one_if (spec.is_of Index fault.now)) left.now }
{
    let takes = is_of(Unplaced::Index, fault);
    match left {
        [_, rest @ ..] if takes => rest,
        _ => left,
    }
}
