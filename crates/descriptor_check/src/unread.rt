//! What is told of an input that is no descriptor set.

ghost use Rattle.std.specs.Prelude.{◌≡◌, IfOk, string_bytes};
ghost use Rattle.descriptor_check.specs.Unread as spec;

use crate::batches::{Flaw, NotASet};
use std::alloc::{AllocError, Global};
use verdict_texts::bytes_words;

/// What is wrong with an input.
fn flaw_words(alloc: Global, flaw: Flaw) -> Result<String, AllocError>
    ensures { IfOk result (λ s. string_bytes s ≡ spec.flaw_words flaw) }
{
    match flaw {
        Flaw::Bytes(fault) => bytes_words(alloc, fault),
        Flaw::Foreign(guise, fault) => {
            let words = bytes_words(alloc, fault)?;
            let guise = guise.words();
            format!(in alloc; "{words}; it looks like {guise}")
        }
        Flaw::NoFiles => String::from_str(alloc, "there is no file in it"),
    }
}

/// An input that is no set, what is wrong, and what to give.
pub(crate) fn unread_words(alloc: Global, input: &NotASet) -> Result<String, AllocError>
    ensures { IfOk result (λ s. string_bytes s ≡ spec.unread_words input.now) }
{
    let name = input.name.as_str();
    let words = flaw_words(alloc, input.flaw)?;
    format!(in alloc; "{name}: {words}; give what `protoc --include_imports -o FILE` writes")
}
