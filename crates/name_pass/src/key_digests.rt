ghost use Rattle.std.specs.Prelude.{◌≡◌, ◌≤◌, ℕ, ℤ, List, [], length, map, nat_eq, IsTrue, IfOk};
ghost use Rattle.std.specs.List.{IsDistinct};
ghost use Rattle.proto_types.specs.declared.file.FileDescriptorProto.{FileDescriptorProto};
ghost use Rattle.name_pass.specs.CamelCase.{camel_case_faults, camel_case_key};
ghost use Rattle.name_pass.specs.KeyDigests.{digest_at, digest_of, taken_in};

use plain_data::are_distinct;
use proto_types::FieldDescriptorProto;
use std::alloc::{AllocError, Global};

/// The digest of the empty key.
const FIRST_DIGEST: u64 = 14695981039346656037;

/// The most fields whose digests stand in an array.
const FEW: usize = 32;

/// Whether the keys of fields have digests that differ, so that no two of the fields have one key.
///
/// # Errors
/// `AllocError` where memory was refused.
#[tactic(auto, using(crate::proofs::Distinct::distinct))]
pub(crate) fn have_distinct_digests(
    alloc: Global,
    fields: &[FieldDescriptorProto],
) -> Result<bool, AllocError>
    ensures { IfOk result (λ distinct. IsTrue distinct
        → (files : List FileDescriptorProto) (file : ℕ) (path : List ℤ)
        → camel_case_faults files file path fields.now ≡ []) }
{
    if fields.len() <= FEW {
        Ok(few_are_distinct(fields))
    } else {
        many_are_distinct(alloc, fields)
    }
}

/// Whether the digests of the keys of a few fields differ, without a request for memory.
fn few_are_distinct(fields: &[FieldDescriptorProto]) -> bool
    requires { length fields.now ≤ 32 }
    ensures { IsTrue result → IsDistinct nat_eq (map digest_at fields.now) }
{
    let mut digests = [0; FEW];
    for (position, field) in fields.iter().enumerate() {
        digests[position] = key_digest(field.name());
    }
    are_distinct(&mut digests[..fields.len()])
}

/// Whether the digests of the keys of fields differ.
///
/// # Errors
/// `AllocError` where memory was refused.
fn many_are_distinct(alloc: Global, fields: &[FieldDescriptorProto]) -> Result<bool, AllocError>
    ensures { IfOk result (λ distinct. IsTrue distinct
        → IsDistinct nat_eq (map digest_at fields.now)) }
{
    let mut digests = Vec::with_capacity(alloc, fields.len())?;
    for field in fields {
        digests.push(key_digest(field.name()))?;
    }
    Ok(are_distinct(&mut digests))
}

/// The digest of what the name of a field is told apart by, which is that of the name itself.
fn key_digest(name: &str) -> u64
    ensures { result ≡ digest_of (camel_case_key name.now) }
{
    let mut digest = FIRST_DIGEST;
    for byte in name.as_bytes() {
        digest = taken_in(digest, *byte);
    }
    digest
}

/// A digest with one byte more. An underscore changes nothing, nor does the case of a letter.
fn taken_in(digest: u64, byte: u8) -> u64
    ensures { result ≡ taken_in digest byte }
{
    let digit = byte % 32;
    if digit == 31 {
        digest
    } else {
        (digest ^ digit as u64).wrapping_mul(1099511628211)
    }
}
