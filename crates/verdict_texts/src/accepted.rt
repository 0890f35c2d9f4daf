//! How much an accepted batch declares.

ghost use Rattle.std.specs.Prelude.{◌≡◌, IfOk, string_bytes};
ghost use Rattle.verdict_texts.specs.Accepted as spec;

use record_walk::Counts;
use std::alloc::{AllocError, Global};

/// A number of things, with their words for one and for more.
fn counted(alloc: Global, number: u32, one: &str, many: &str) -> Result<String, AllocError>
    ensures { IfOk result (λ s. string_bytes s ≡ spec.counted number one.now many.now) }
{
    let word = if number == 1 { one } else { many };
    format!(in alloc; "{number} {word}")
}

/// How much there is of each kind, as a line for people.
///
/// # Errors
/// `AllocError` where memory was refused.
pub fn accepted_text(alloc: Global, counts: Counts) -> Result<String, AllocError>
    ensures { IfOk result (λ s. string_bytes s ≡ spec.accepted_text counts) }
{
    let files = counted(alloc, counts.files, "file", "files")?;
    let messages = counted(alloc, counts.messages, "message", "messages")?;
    let enums = counted(alloc, counts.enums, "enum", "enums")?;
    let services = counted(alloc, counts.services, "service", "services")?;
    let extensions = counted(alloc, counts.extensions, "extension", "extensions")?;
    format!(in alloc; "accepted: {files}, {messages}, {enums}, {services}, {extensions}\n")
}

/// How much there is of each kind, as an object of JSON.
pub(crate) fn json_counts(alloc: Global, counts: Counts) -> Result<String, AllocError>
    ensures { IfOk result (λ s. string_bytes s ≡ spec.json_counts counts) }
{
    let Counts {
        files,
        messages,
        enums,
        services,
        extensions,
    } = counts;
    format!(in alloc;
        "{{\"files\":{files},\"messages\":{messages},\"enums\":{enums},\
         \"services\":{services},\"extensions\":{extensions}}}"
    )
}
