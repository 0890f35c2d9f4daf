//! What is wrong with bytes, in words.

ghost use Rattle.std.specs.Prelude.{◌≡◌, IfOk, string_bytes};
ghost use Rattle.verdict_texts.specs.WireWords as spec;

use std::alloc::{AllocError, Global};
use wire_format::{WireFault, WireFaultKind};

/// What is wrong with bytes.
fn wire_words(kind: WireFaultKind) -> &'static str
    ensures { result.now ≡ spec.wire_words kind }
{
    match kind {
        WireFaultKind::Truncated => "a field is cut off",
        WireFaultKind::LongVarint => "a number has more than ten bytes",
        WireFaultKind::LargeTag => "a tag has more than five bytes or more than 32 bits",
        WireFaultKind::FieldNumberZero => "a field has the number 0",
        WireFaultKind::UnknownWireType => "a field has an unknown wire type",
        WireFaultKind::EndGroup => "a group ends that did not begin",
        WireFaultKind::NotUtf8 => "a text is not UTF-8",
        WireFaultKind::TooDeep => "messages nest too deep",
    }
}

/// The first fault of bytes, and where it is.
///
/// # Errors
/// `AllocError` where memory was refused.
pub fn bytes_words(alloc: Global, fault: WireFault) -> Result<String, AllocError>
    ensures { IfOk result (λ s. string_bytes s ≡ spec.bytes_words fault) }
{
    let at = fault.at;
    let words = wire_words(fault.kind);
    format!(in alloc; "byte {at}: {words}")
}
