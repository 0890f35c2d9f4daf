//! The first part at which two files differ.

ghost use Rattle.std.specs.Prelude.{◌≡◌};
ghost use Rattle.joined_files.specs.Differences as spec;

use proto_types::FileDescriptorProto;

/// A part of a file; of a list the entry with a position, from 0.
#[derive(Clone, Copy, PartialEq, Debug)]
pub enum FilePart {
    Name,
    Package,
    Import(usize),
    Message(usize),
    Enum(usize),
    Service(usize),
    Extension(usize),
    Options,
    PublicImport(usize),
    WeakImport(usize),
    Syntax,
}

/// The first part at which two files differ apart from their places, in the order of the numbers of
/// descriptor.proto; `None` where they are equal apart from these.
#[tactic(auto, unfolding(crate::specs::Differences::difference))]
pub fn difference(first: &FileDescriptorProto, further: &FileDescriptorProto) -> Option<FilePart>
    ensures { result ≡ spec.difference first.now further.now }
{
    if let Some(part) = head_difference(first, further) {
        return Some(part);
    }
    if let Some(part) = declared_difference(first, further) {
        return Some(part);
    }
    tail_difference(first, further)
}

/// The first difference in what stands before the declarations.
fn head_difference(first: &FileDescriptorProto, further: &FileDescriptorProto) -> Option<FilePart>
    ensures { result ≡ spec.head_difference first.now further.now }
{
    if first.name != further.name {
        return Some(FilePart::Name);
    }
    if first.package != further.package {
        return Some(FilePart::Package);
    }
    let at = differs_at(first.dependency.as_slice(), further.dependency.as_slice())?;
    Some(FilePart::Import(at))
}

/// The first difference in the declarations.
fn declared_difference(
    first: &FileDescriptorProto,
    further: &FileDescriptorProto,
) -> Option<FilePart>
    ensures { result ≡ spec.declared_difference first.now further.now }
{
    if let Some(at) = differs_at(
        first.message_type.as_slice(),
        further.message_type.as_slice(),
    ) {
        return Some(FilePart::Message(at));
    }
    if let Some(at) = differs_at(first.enum_type.as_slice(), further.enum_type.as_slice()) {
        return Some(FilePart::Enum(at));
    }
    if let Some(at) = differs_at(first.service.as_slice(), further.service.as_slice()) {
        return Some(FilePart::Service(at));
    }
    let at = differs_at(first.extension.as_slice(), further.extension.as_slice())?;
    Some(FilePart::Extension(at))
}

/// The first difference in what stands behind the declarations, but for the places.
fn tail_difference(first: &FileDescriptorProto, further: &FileDescriptorProto) -> Option<FilePart>
    ensures { result ≡ spec.tail_difference first.now further.now }
{
    if first.options != further.options {
        return Some(FilePart::Options);
    }
    if let Some(at) = differs_at(
        first.public_dependency.as_slice(),
        further.public_dependency.as_slice(),
    ) {
        return Some(FilePart::PublicImport(at));
    }
    if let Some(at) = differs_at(
        first.weak_dependency.as_slice(),
        further.weak_dependency.as_slice(),
    ) {
        return Some(FilePart::WeakImport(at));
    }
    if first.syntax != further.syntax {
        return Some(FilePart::Syntax);
    }
    None
}

/// The position of the first entry at which two lists differ, or that one of them lacks.
fn differs_at<T: PartialEq>(first: &[T], further: &[T]) -> Option<usize>
    ensures { result ≡ spec.differs_from T.eq 0 first.now further.now }
{
    for (at, entry) in first.iter().enumerate() {
        match further.get(at) {
            Some(other) if entry == other => {}
            _ => return Some(at),
        }
    }
    match further.get(first.len()) {
        Some(_) => Some(first.len()),
        None => None,
    }
}
