//! What a part of a file is called, and where it stands.

ghost use Rattle.std.specs.Prelude.{◌≡◌, ◌++◌, IfOk, string_bytes};
ghost use Rattle.std.specs.Option.{option_copied};
ghost use Rattle.joined_files.specs.Words as spec;
ghost use Rattle.joined_files.specs.declared.differences.FilePart.TheVariants.{Import, Message};
ghost use Rattle.joined_files.specs.declared.differences.FilePart.TheVariants.{Enum, Service};
ghost use Rattle.joined_files.specs.declared.differences.FilePart.TheVariants.{Extension};

use crate::differences::FilePart;
use plain_data::Items;
use proto_types::{FileDescriptorProto, tag};
use std::alloc::{AllocError, Global};

impl FilePart {
    /// The number of its field in descriptor.proto.
    fn tag(self) -> i32
        ensures { result ≡ spec.tag_of self }
    {
        match self {
            FilePart::Name => tag::file::NAME,
            FilePart::Package => tag::file::PACKAGE,
            FilePart::Import(_) => tag::file::DEPENDENCY,
            FilePart::Message(_) => tag::file::MESSAGE_TYPE,
            FilePart::Enum(_) => tag::file::ENUM_TYPE,
            FilePart::Service(_) => tag::file::SERVICE,
            FilePart::Extension(_) => tag::file::EXTENSION,
            FilePart::Options => tag::file::OPTIONS,
            FilePart::PublicImport(_) => tag::file::PUBLIC_DEPENDENCY,
            FilePart::WeakImport(_) => tag::file::WEAK_DEPENDENCY,
            FilePart::Syntax => tag::file::SYNTAX,
        }
    }

    /// Its position in its list, from 0, if it stands in one.
    fn position(self) -> Option<usize>
        ensures { result ≡ spec.position_of self }
    {
        match self {
            FilePart::Import(at)
            | FilePart::Message(at)
            | FilePart::Enum(at)
            | FilePart::Service(at)
            | FilePart::Extension(at)
            | FilePart::PublicImport(at)
            | FilePart::WeakImport(at) => Some(at),
            FilePart::Name | FilePart::Package | FilePart::Options | FilePart::Syntax => None,
        }
    }

    /// The word for it.
    fn word(self) -> &'static str
        ensures { result.now ≡ spec.word_of self }
    {
        match self {
            FilePart::Name => "name",
            FilePart::Package => "package",
            FilePart::Import(_) => "import",
            FilePart::Message(_) => "message",
            FilePart::Enum(_) => "enum",
            FilePart::Service(_) => "service",
            FilePart::Extension(_) => "extension",
            FilePart::Options => "options",
            FilePart::PublicImport(_) => "public import",
            FilePart::WeakImport(_) => "weak import",
            FilePart::Syntax => "syntax",
        }
    }
}

/// The entry with a position of a list, or else of another.
fn at_either<'a, T>(first: &'a [T], further: &'a [T], at: usize) -> Option<&'a T>
    ensures { option_copied result ≡ spec.at_either first.now further.now at }
{
    match first.get(at) {
        Some(entry) => Some(entry),
        None => further.get(at),
    }
}

/// The name of a part of two files, if it has one: that of the first, or else of the further.
fn name_of<'a>(
    first: &'a FileDescriptorProto,
    further: &'a FileDescriptorProto,
    part: FilePart,
) -> &'a str
    ensures { result.now ≡ spec.name_of first.now further.now part }
{
    match part {
        FilePart::Import(at) => import_name(first, further, at),
        FilePart::Message(at) => message_name(first, further, at),
        FilePart::Enum(at) => enum_name(first, further, at),
        FilePart::Service(at) => service_name(first, further, at),
        FilePart::Extension(at) => extension_name(first, further, at),
        FilePart::Name
        | FilePart::Package
        | FilePart::Options
        | FilePart::PublicImport(_)
        | FilePart::WeakImport(_)
        | FilePart::Syntax => "",
    }
}

fn import_name<'a>(
    first: &'a FileDescriptorProto,
    further: &'a FileDescriptorProto,
    at: usize,
) -> &'a str
    ensures { result.now ≡ spec.name_of first.now further.now (Import at) }
{
    match at_either(
        first.dependency.as_slice(),
        further.dependency.as_slice(),
        at,
    ) {
        Some(name) => name.as_str(),
        None => "",
    }
}

fn message_name<'a>(
    first: &'a FileDescriptorProto,
    further: &'a FileDescriptorProto,
    at: usize,
) -> &'a str
    ensures { result.now ≡ spec.name_of first.now further.now (Message at) }
{
    match at_either(
        first.message_type.as_slice(),
        further.message_type.as_slice(),
        at,
    ) {
        Some(message) => message.name(),
        None => "",
    }
}

fn enum_name<'a>(
    first: &'a FileDescriptorProto,
    further: &'a FileDescriptorProto,
    at: usize,
) -> &'a str
    ensures { result.now ≡ spec.name_of first.now further.now (Enum at) }
{
    match at_either(first.enum_type.as_slice(), further.enum_type.as_slice(), at) {
        Some(enumeration) => enumeration.name(),
        None => "",
    }
}

fn service_name<'a>(
    first: &'a FileDescriptorProto,
    further: &'a FileDescriptorProto,
    at: usize,
) -> &'a str
    ensures { result.now ≡ spec.name_of first.now further.now (Service at) }
{
    match at_either(first.service.as_slice(), further.service.as_slice(), at) {
        Some(service) => service.name(),
        None => "",
    }
}

fn extension_name<'a>(
    first: &'a FileDescriptorProto,
    further: &'a FileDescriptorProto,
    at: usize,
) -> &'a str
    ensures { result.now ≡ spec.name_of first.now further.now (Extension at) }
{
    match at_either(first.extension.as_slice(), further.extension.as_slice(), at) {
        Some(extension) => extension.name(),
        None => "",
    }
}

/// A name between quotes behind a blank, if there is one.
fn quoted(alloc: Global, name: &str) -> Result<String, AllocError>
    ensures { IfOk result (λ s. string_bytes s ≡ spec.quoted name.now) }
{
    if name.is_empty() {
        return Ok(String::new(alloc));
    }
    format!(in alloc; " '{name}'")
}

/// A part by its word, its position in a list, from 1, and its name.
fn words_with(
    alloc: Global,
    word: &str,
    position: Option<usize>,
    name: &str,
) -> Result<String, AllocError>
    ensures { IfOk result (λ s. string_bytes s ≡ spec.words_with word.now position name.now) }
{
    let Some(at) = position else {
        return String::from_str(alloc, word);
    };
    let number = at.checked_add(1).ok_or(AllocError)?;
    let name = quoted(alloc, name)?;
    let name = name.as_str();
    format!(in alloc; "{word} {number}{name}")
}

/// A part of two files, for people: its kind, and of an entry of a list the position, from 1, and
/// the name that it has in the first file, or else in the further.
///
/// # Errors
/// `AllocError` where memory was refused.
pub fn part_words(
    alloc: Global,
    first: &FileDescriptorProto,
    further: &FileDescriptorProto,
    part: FilePart,
) -> Result<String, AllocError>
    ensures { IfOk result (λ s. string_bytes s ≡ spec.part_words first.now further.now part) }
{
    words_with(
        alloc,
        part.word(),
        part.position(),
        name_of(first, further, part),
    )
}

/// The path of a part, from its file on: a field number, and the position of an entry, from 0.
///
/// # Errors
/// `AllocError` where memory was refused.
pub fn part_path(alloc: Global, part: FilePart) -> Result<Items<i32>, AllocError>
    ensures { IfOk result (λ path. path ≡ spec.part_path part) }
{
    let mut path = Items::new(alloc);
    path.push(part.tag())?;
    if let Some(at) = part.position() {
        // No list is so long that a path has no number for an entry.
        path.push(i32::try_from(at).or(Err(AllocError))?)?;
    }
    Ok(path)
}
