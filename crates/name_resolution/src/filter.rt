ghost use Rattle.std.specs.Prelude.{◌≡◌};
ghost use Rattle.name_resolution.specs.Filter.{is_match};

use pool_types::DefinitionKind;
use std::fmt;

/// Which kinds of definition a reference wants.
#[derive(Clone, Copy)]
pub enum ResolveNameFilter {
    /// A message.
    Message,
    /// An extension.
    Extension,
    /// A message or an enum.
    FieldType,
}

impl ResolveNameFilter {
    /// Whether the kind is wanted.
    pub fn is_match(self, kind: &DefinitionKind) -> bool
        ensures { result ≡ is_match self kind.now }
    {
        match (self, kind) {
            (ResolveNameFilter::Message, DefinitionKind::Message(_)) => true,
            (ResolveNameFilter::Extension, DefinitionKind::Extension(_)) => true,
            (ResolveNameFilter::FieldType, DefinitionKind::Message(_)) => true,
            (ResolveNameFilter::FieldType, DefinitionKind::Enum(_)) => true,
            _ => false,
        }
    }
}

impl fmt::Display for ResolveNameFilter {
    ghost use Rattle.std.specs.Prelude.{Some};
    ghost use Rattle.name_resolution.specs.Filter.{filter_text};

    ghost output = { λ filter. Some (filter_text filter) };

    fn fmt<W: fmt::Write>(&self, f: &mut fmt::Formatter<W>) -> fmt::Result {
        match self {
            ResolveNameFilter::Message => write!(f, "a message type"),
            ResolveNameFilter::Extension => write!(f, "an extension"),
            ResolveNameFilter::FieldType => write!(f, "a message or enum type"),
        }
    }
}
