//! Responses to protoc, as bytes.

ghost use Rattle.std.specs.Prelude.{◌≡◌, IfOk};
ghost use Rattle.protoc_gen_protolink.specs.Responses as spec;

use descriptor_encoding::{FrontBuffer, put_number_field, put_text};
use plain_data::Text;
use std::alloc::{AllocError, Global};

/// The feature that a plugin declares: it knows the optional fields of proto3.
const PROTO3_OPTIONAL: u64 = 1;

/// A `CodeGeneratorResponse` with an error or none, and without files.
///
/// # Errors
/// `AllocError` where memory was refused.
#[tactic(auto, using(descriptor_encoding::proofs::Appending::appended))]
pub fn response(alloc: Global, error: &Option<Text>) -> Result<Vec<u8>, AllocError>
    ensures { IfOk result (λ v. v.items ≡ spec.response error.now) }
{
    let mut out = FrontBuffer::new(alloc);
    put_number_field(&mut out, 2, PROTO3_OPTIONAL)?;
    put_text(&mut out, 1, error)?;
    out.into_vec()
}
