//! Words for what the records declare, as texts and reports have them.

ghost use Rattle.std.specs.Prelude.{◌≡◌};
ghost use Rattle.record_walk.specs.Words as spec;

use crate::{CountKind, DeclarationKind};

/// A name as a word: two quotes where it is empty.
pub fn alone(name: &str) -> &str
    ensures { result.now ≡ spec.alone name.now }
{
    if name.is_empty() { "''" } else { name }
}

/// The word for what there is too much of, in the plural.
pub fn count_word(kind: CountKind) -> &'static str
    ensures { result.now ≡ spec.count_word kind }
{
    match kind {
        CountKind::ListTooLong => "lists",
        CountKind::Files => "files",
        CountKind::Messages => "messages",
        CountKind::Enums => "enums",
        CountKind::Services => "services",
        CountKind::Extensions => "extensions",
    }
}

/// The word for a kind of declaration.
pub fn declared_word(kind: DeclarationKind) -> &'static str
    ensures { result.now ≡ spec.declared_word kind }
{
    match kind {
        DeclarationKind::File => "file",
        DeclarationKind::Message => "message",
        DeclarationKind::Field => "field",
        DeclarationKind::Oneof => "oneof",
        DeclarationKind::Service => "service",
        DeclarationKind::Method => "method",
        DeclarationKind::Enum => "enum",
        DeclarationKind::EnumValue => "value",
        DeclarationKind::Extension => "extension",
    }
}
