//! Requests of protoc, read of their bytes.

ghost use Rattle.std.specs.Prelude.{◌≡◌, OnOk};
ghost use Rattle.wire_format.specs.Tokens.{value_seen};
ghost use Rattle.descriptor_decoding.specs.Merging.{Gives, Leaves};
ghost use Rattle.descriptor_decoding.specs.Parts.{text_merged, text_of};
ghost use Rattle.protoc_gen_protolink.specs.Requests as spec;

use descriptor_decoding::{DecodeError, LEVELS};
use descriptor_encoding::{FrontBuffer, put_bytes_field};
use plain_data::{Items, Text};
use std::alloc::{AllocError, Global};
use wire_format::{Field, Value, WireFault, WireFaultKind, next_field};

/// A `CodeGeneratorRequest`: what it says to a plugin that makes no code.
#[derive(Drop)]
pub struct CodeRequest {
    /// What the user gave the plugin.
    pub parameter: Option<Text>,
    /// The files, as a descriptor set.
    pub set: Items<u8>,
}

/// The request that bytes encode.
///
/// # Errors
/// `Fault` with the first fault of the bytes, and `OutOfMemory` where memory was refused before any
/// was met.
pub fn read_request(alloc: Global, bytes: &[u8]) -> Result<CodeRequest, DecodeError>
    ensures { Gives result (spec.request_in bytes.now) }
{
    let mut request = CodeRequest {
        parameter: None,
        set: Items::new(alloc),
    };
    let mut rest = bytes;
    while let Some((field, after)) = next_field(LEVELS, bytes.len(), rest)? {
        merge_field(alloc, &mut request, &field)?;
        rest = after;
    }
    Ok(request)
}

/// Reads a field into a request.
#[tactic(auto, unfolding(crate::specs::Requests::request_merged))]
fn merge_field(
    alloc: Global,
    request: &mut CodeRequest,
    field: &Field<'_>,
) -> Result<(), DecodeError>
    ensures { Leaves result request.new
        (spec.request_merged field.now.number (value_seen field.now.value) request.old) }
{
    match field.number {
        2 => merge_parameter(alloc, &mut request.parameter, &field.value),
        15 => Ok(merge_file(alloc, &mut request.set, &field.value)?),
        _ => Ok(()),
    }
}

/// A text of these bytes, which end at offset `ends` of the request.
fn text(alloc: Global, ends: usize, bytes: &[u8]) -> Result<Text, DecodeError>
    ensures { Gives result (text_of ends bytes.now) }
{
    match str::from_utf8(bytes) {
        Ok(text) => Ok(Text::from_str(alloc, text)?),
        Err(_) => Err(DecodeError::Fault(WireFault::new(WireFaultKind::NotUtf8, ends, bytes))),
    }
}

/// Reads the parameter.
#[tactic(auto, unfolding(descriptor_decoding::specs::Parts::text_merged))]
fn merge_parameter(
    alloc: Global,
    parameter: &mut Option<Text>,
    value: &Value<'_>,
) -> Result<(), DecodeError>
    ensures { Leaves result parameter.new (text_merged (value_seen value.now) parameter.old) }
{
    if let Value::Len(bytes, ends) = value {
        *parameter = Some(text(alloc, *ends, bytes)?);
    }
    Ok(())
}

/// Puts a file behind those of a set.
fn merge_file(alloc: Global, set: &mut Items<u8>, value: &Value<'_>) -> Result<(), AllocError>
    ensures { OnOk result (set.new ≡ spec.set_merged (value_seen value.now) set.old) }
{
    if let Value::Len(bytes, _) = value {
        let mut file = FrontBuffer::new(alloc);
        put_bytes_field(&mut file, 1, bytes)?;
        set.extend_from_slice(file.into_vec()?.as_slice())?;
    }
    Ok(())
}
