//! What is told beside a fault.

ghost use Rattle.std.specs.Prelude.{◌≡◌, IfOk, IsTrue};
ghost use Rattle.std.specs.List.{list_any};
ghost use Rattle.std.specs.Option.{option_and_then, option_copied, option_or};
ghost use Rattle.std.specs.Str.{bytes_eq};
ghost use Rattle.verdict_texts.specs.FaultKinds.{is_of_reference};
ghost use Rattle.verdict_texts.specs.Indexes.{index_note};
ghost use Rattle.verdict_texts.specs.Notes as spec;

use crate::elements::full_name;
use crate::fault_kinds::fault_kind;
use crate::indexes::index_words;
use crate::known::Known;
use crate::scopes::{at_first_dot, at_last_dot, scope_of};
use crate::suggestions::suggested;
use name_resolution::CandidateParents;
use plain_data::Text;
use pool_faults::{DescriptorErrorKind, Label};
use proto_types::FileDescriptorProto;
use std::alloc::{AllocError, Global};

/// A name, and where it is written.
#[derive(Clone, Copy)]
struct WrittenName<'a> {
    name: &'a str,
    /// The name of the file.
    file: &'a str,
}

/// A name that is written at a place.
fn written_name<'a>(name: &'a Text, place: &'a Label) -> WrittenName<'a>
    ensures name { result.name.now ≡ name.now }
    ensures file { result.file.now ≡ place.now.file }
{
    WrittenName {
        name: name.as_str(),
        file: place.file(),
    }
}

/// Whether a file, if there is one, imports another.
fn is_imported(importing: Option<&FileDescriptorProto>, file: &str) -> bool
    ensures { result ≡ spec.is_imported (option_copied importing.entry) file.now }
{
    match importing {
        Some(importing) => imports(importing.dependency.as_slice(), file),
        None => false,
    }
}

/// Whether a file is one of some imports.
fn imports(imports: &[Text], file: &str) -> bool
    ensures { result ≡ list_any (λ own. bytes_eq own file.now) imports.now }
{
    imports.iter().any(|name| name.as_str() == file)
}

/// Whether a file is another one, or imported by it.
fn is_near(known: &Known, from: &str, file: &str) -> bool
    ensures { result ≡ spec.is_near known.now.0 from.now file.now }
{
    file == from || is_imported(known.only(from), file)
}

/// The name of the first file that declares a name, unless it is near.
fn far_file<'a>(known: &Known<'a>, from: &str, name: &str) -> Option<&'a str>
    requires { IsTrue known.now.1 }
    ensures { option_copied result ≡ spec.far_file known.now.0 from.now name.now }
{
    let file = known.declaring(name)?.name();
    if is_near(known, from, file) {
        None
    } else {
        Some(file)
    }
}

/// What is told of a name that is declared in a file that is not imported.
fn import_words(
    alloc: Global,
    known: &Known,
    written: WrittenName<'_>,
) -> Result<Option<Text>, AllocError>
    requires { IsTrue known.now.1 }
    ensures { IfOk result (λ words. words ≡ spec.import_note known.now.0
        written.entry.file.now written.entry.name.now) }
{
    let (from, name) = (written.file, written.name);
    match far_file(known, from, name) {
        Some(file) => {
            let words = format!(in alloc;
                "'{name}' is declared in '{file}', which '{from}' does not import"
            )?;
            Ok(Some(Text::from_string(words)))
        }
        None => Ok(None),
    }
}

/// The first name that a file declares, of those that a name could mean from a scope out.
fn meant(alloc: Global, known: &Known, scope: &str, name: &str) -> Result<Option<Text>, AllocError>
    requires { IsTrue known.now.1 }
    ensures { IfOk result (λ meant. meant ≡ spec.meant known.now.0 scope.now name.now) }
{
    for parent in CandidateParents::new(scope) {
        let meant = full_name(alloc, parent, name)?;
        if known.declaring(meant.as_str()).is_some() {
            return Ok(Some(meant));
        }
    }
    Ok(None)
}

/// That a file is not imported, unless it is near.
fn far_words(alloc: Global, known: &Known, from: &str, file: &str) -> Result<Text, AllocError>
    ensures { IfOk result (λ words. words ≡ spec.far_words known.now.0 from.now file.now) }
{
    if !is_near(known, from, file) {
        let words = format!(in alloc; ", which '{from}' does not import")?;
        return Ok(Text::from_string(words));
    }
    Text::from_str(alloc, "")
}

/// How to write a name so that it means what the first file that has it declares.
fn dotted_words(
    alloc: Global,
    known: &Known,
    from: &str,
    name: &str,
) -> Result<Option<Text>, AllocError>
    requires { IsTrue known.now.1 }
    ensures { IfOk result (λ words. words ≡ spec.dotted_note known.now.0 from.now name.now) }
{
    match known.declaring(name) {
        Some(file) => {
            let file = file.name();
            let far = far_words(alloc, known, from, file)?;
            let far = far.as_str();
            let words = format!(in alloc; "write '.{name}' to mean what '{file}' declares{far}")?;
            Ok(Some(Text::from_string(words)))
        }
        None => Ok(None),
    }
}

/// Which scope hides what a name means, and how to write it.
fn nearer_words(alloc: Global, scope: &str, name: &str, dotted: &str) -> Result<Text, AllocError>
    ensures { IfOk result (λ words. words ≡ spec.nearer_words scope.now name.now dotted.now) }
{
    let (first, _) = at_first_dot(name);
    let words = format!(in alloc; "'{scope}' has a nearer '{first}': {dotted}")?;
    Ok(Text::from_string(words))
}

/// What is told of a name that means something nearer, by the full name that it resolves to.
fn shadowed_words(
    alloc: Global,
    known: &Known,
    written: WrittenName<'_>,
    full_name: &str,
) -> Result<Option<Text>, AllocError>
    requires { IsTrue known.now.1 }
    ensures { IfOk result (λ words. words ≡ spec.shadowed_note known.now.0
        written.entry.file.now written.entry.name.now full_name.now) }
{
    let name = written.name;
    let Some(scope) = scope_of(full_name, name) else {
        return Ok(None);
    };
    let Some(meant) = meant(alloc, known, scope, name)? else {
        return Ok(None);
    };
    match dotted_words(alloc, known, written.file, meant.as_str())? {
        Some(dotted) => Ok(Some(nearer_words(alloc, scope, name, dotted.as_str())?)),
        None => Ok(None),
    }
}

/// How to write a name that nothing has, so that it means what it could mean.
fn suggestion_words(
    alloc: Global,
    known: &Known,
    written: WrittenName<'_>,
) -> Result<Option<Text>, AllocError>
    requires { IsTrue known.now.1 }
    ensures { IfOk result (λ words. words ≡ spec.suggestion_note known.now.0
        written.entry.file.now written.entry.name.now) }
{
    match suggested(known.types(), written.name) {
        Some(suggested) => dotted_words(alloc, known, written.file, suggested.as_str()),
        None => Ok(None),
    }
}

/// Whether a package, a message or an enum has a full name.
fn is_there(known: &Known, name: &str) -> bool
    requires { IsTrue known.now.1 }
    ensures { result ≡ spec.is_there known.now.0 name.now }
{
    known.has_package(name) || known.declaring(name).is_some()
}

/// That something is there, and that it has no part of a name.
fn lacking_words(alloc: Global, scope: &str, part: &str) -> Result<Text, AllocError>
    ensures { IfOk result (λ words. words ≡ spec.lacking_words scope.now part.now) }
{
    let words = format!(in alloc; "'{scope}' is there, and has no '{part}'")?;
    Ok(Text::from_string(words))
}

/// What is there of a full name that nothing has: all but its last part, or else its first part.
fn there_words(alloc: Global, known: &Known, name: &str) -> Result<Text, AllocError>
    requires { IsTrue known.now.1 }
    ensures { IfOk result (λ words. words ≡ spec.there_words known.now.0 name.now) }
{
    let (scope, last) = at_last_dot(name);
    if is_there(known, scope) {
        return lacking_words(alloc, scope, last);
    }
    let (first, rest) = at_first_dot(name);
    lacking_words(alloc, first, rest)
}

/// Words, and others behind a semicolon if there are some.
fn with_words(alloc: Global, words: Text, more: Option<Text>) -> Result<Text, AllocError>
    ensures { IfOk result (λ all. all ≡ spec.with_words words more) }
{
    match more {
        Some(more) => {
            let (words, more) = (words.as_str(), more.as_str());
            Ok(Text::from_string(format!(in alloc; "{words}; {more}")?))
        }
        None => Ok(words),
    }
}

/// What is told of a name that resolves to a full name which isn't defined: to itself, or to one in
/// a nearer scope.
#[tactic(auto, unfolding(crate::specs::Notes::undefined_note))]
fn undefined_words(
    alloc: Global,
    known: &Known,
    written: WrittenName<'_>,
    full_name: &str,
) -> Result<Option<Text>, AllocError>
    requires { IsTrue known.now.1 }
    ensures { IfOk result (λ words. words ≡ spec.undefined_note known.now.0
        written.entry.file.now written.entry.name.now full_name.now) }
{
    let name = written.name;
    if name != full_name {
        return shadowed_words(alloc, known, written, full_name);
    }
    let there = there_words(alloc, known, name)?;
    let suggestion = suggestion_words(alloc, known, written)?;
    Ok(Some(with_words(alloc, there, suggestion)?))
}

/// What is told of a name that nothing has: the file to import, or how to write it.
fn missing_words(
    alloc: Global,
    known: &Known,
    written: WrittenName<'_>,
) -> Result<Option<Text>, AllocError>
    requires { IsTrue known.now.1 }
    ensures { IfOk result (λ words. words ≡ option_or
        (spec.import_note known.now.0 written.entry.file.now written.entry.name.now)
        (spec.suggestion_note known.now.0 written.entry.file.now written.entry.name.now)) }
{
    match import_words(alloc, known, written)? {
        Some(words) => Ok(Some(words)),
        None => suggestion_words(alloc, known, written),
    }
}

/// What is told of the index at a place, if there is one.
fn index_words_at(
    alloc: Global,
    known: &Known,
    place: Option<&Label>,
) -> Result<Option<Text>, AllocError>
    ensures { IfOk result (λ words. words
        ≡ option_and_then (index_note known.now.0) (option_copied place.entry)) }
{
    match place {
        Some(label) => index_words(alloc, known, label),
        None => Ok(None),
    }
}

/// What a look at the files tells of a fault at a place.
fn looked_up(
    alloc: Global,
    known: &Known,
    fault: &DescriptorErrorKind,
    place: Option<&Label>,
) -> Result<Option<Text>, AllocError>
    requires { IsTrue (is_of_reference fault.now) → IsTrue known.now.1 }
    ensures { IfOk result (λ words. words
        ≡ spec.looked_up known.now.0 fault.now (option_copied place.entry)) }
{
    match fault {
        DescriptorErrorKind::NameNotFound { name, found } => {
            missing_words(alloc, known, written_name(name, found))
        }
        DescriptorErrorKind::NameShadowed {
            name,
            shadowed_name,
            found,
        } => {
            let written = written_name(name, found);
            undefined_words(alloc, known, written, shadowed_name.as_str())
        }
        DescriptorErrorKind::InvalidImportIndex | DescriptorErrorKind::InvalidOneofIndex => {
            index_words_at(alloc, known, place)
        }
        _ => Ok(None),
    }
}

/// What is told beside a fault at a place: where a name that is not seen is declared, how to write
/// one that nothing has, which index is no position, or else what to do.
pub(crate) fn note(
    alloc: Global,
    known: &Known,
    fault: &DescriptorErrorKind,
    place: Option<&Label>,
) -> Result<Text, AllocError>
    requires { IsTrue (is_of_reference fault.now) → IsTrue known.now.1 }
    ensures { IfOk result (λ text. text
        ≡ spec.note known.now.0 fault.now (option_copied place.entry)) }
{
    match looked_up(alloc, known, fault, place)? {
        Some(words) => Ok(words),
        None => Text::from_str(alloc, fault_kind(fault).remedy),
    }
}
