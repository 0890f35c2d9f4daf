ghost use Rattle.std.specs.Prelude.{◌≡◌};
ghost use Rattle.name_resolution.specs.Resolution.{resolution_in};
ghost use Rattle.reference_pass.specs.References.{message_found, message_index, index_or_max};

use name_resolution::ResolveNameResult;
use pool_types::{Definition, DefinitionKind};

/// The index of the message that was found, or the largest number where none was.
pub(crate) fn message_index_or_max(meaning: &ResolveNameResult) -> u32
    ensures { result ≡ index_or_max (message_found (resolution_in meaning.now)) }
{
    match meaning {
        ResolveNameResult::Found { def, .. } => index_or_max(def),
        _ => u32::MAX,
    }
}

/// The index of the message that a definition is, or the largest number where it is none.
pub(crate) fn index_or_max(def: &Definition) -> u32
    ensures { result ≡ index_or_max (message_index def.now.kind) }
{
    message_index(def.kind).unwrap_or(u32::MAX)
}

/// The index of a message.
fn message_index(kind: DefinitionKind) -> Option<u32>
    ensures { result ≡ message_index kind }
{
    match kind {
        DefinitionKind::Message(index) => Some(index),
        _ => None,
    }
}
