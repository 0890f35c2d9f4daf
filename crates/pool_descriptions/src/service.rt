//! The services of a pool.

ghost use Rattle.std.specs.Prelude.{◌≡◌, ◌++◌, [], IfOk, OnOk, slice_get, string_bytes};
ghost use Rattle.std.specs.List.{flat_map};
ghost use Rattle.std.specs.Option.{option_map_or};
ghost use Rattle.pool_descriptions.specs.Items as spec;

use crate::head::head_line;
use crate::words::{
    deprecated_line, deprecated_word, message_name, name_word, place_words, stream_word,
};
use descriptor_pool::DescriptorPool;
use pool_types::{MethodDescriptorInner, ServiceDescriptor, ServiceDescriptorInner};
use record_lists::{MethodParts, is_service_deprecated, method_parts};
use std::alloc::{AllocError, Global};

/// Tells all services of a pool.
pub(super) fn write_services(
    text: &mut String,
    alloc: Global,
    pool: &DescriptorPool,
) -> Result<(), AllocError>
    ensures { OnOk result (string_bytes text.new ≡ string_bytes text.old
        ++ spec.services_text pool.now) }
{
    for service in pool.services() {
        write_service(text, alloc, pool, service)?;
    }
    Ok(())
}

/// Tells the service with an index, where there is one.
pub(super) fn write_service_at(
    text: &mut String,
    alloc: Global,
    pool: &DescriptorPool,
    index: u32,
) -> Result<(), AllocError>
    ensures { OnOk result (string_bytes text.new ≡ string_bytes text.old
        ++ option_map_or (spec.service_text pool.now) (slice_get pool.now.services index) []) }
{
    match pool.service(ServiceDescriptor::new(index)) {
        Some(service) => write_service(text, alloc, pool, service),
        None => Ok(()),
    }
}

/// Tells a service and its methods.
fn write_service(
    text: &mut String,
    alloc: Global,
    pool: &DescriptorPool,
    service: &ServiceDescriptorInner,
) -> Result<(), AllocError>
    ensures { OnOk result (string_bytes text.new ≡ string_bytes text.old
        ++ spec.service_text pool.now service.now) }
{
    let head = head_line(alloc, "service", pool, &service.id)?;
    text.push_str(head.as_str())?;
    text.push_str(deprecated_line(is_service_deprecated(pool.files(), &service.id)))?;
    write_methods(text, alloc, pool, service.methods.as_slice())
}

/// Tells methods.
fn write_methods(
    text: &mut String,
    alloc: Global,
    pool: &DescriptorPool,
    methods: &[MethodDescriptorInner],
) -> Result<(), AllocError>
    ensures { OnOk result (string_bytes text.new ≡ string_bytes text.old
        ++ flat_map (spec.method_line pool.now) methods.now) }
{
    for method in methods {
        write_method(text, alloc, pool, method)?;
    }
    Ok(())
}

/// The message that a method takes and the one that it gives, each as one or as a stream.
fn method_words(
    alloc: Global,
    pool: &DescriptorPool,
    method: &MethodDescriptorInner,
    parts: MethodParts,
) -> Result<String, AllocError>
    ensures { IfOk result (λ s. string_bytes s ≡ spec.method_words pool.now method.now parts) }
{
    let (input, output) = (
        message_name(pool, method.input),
        message_name(pool, method.output),
    );
    let (taken, given) = (
        stream_word(parts.client_streaming),
        stream_word(parts.server_streaming),
    );
    format!(in alloc; "({taken}{input}) returns ({given}{output})")
}

/// A method, by what its record says.
#[tactic(auto, unfolding(crate::specs::Items::method_line_by))]
fn method_line(
    alloc: Global,
    pool: &DescriptorPool,
    method: &MethodDescriptorInner,
    parts: MethodParts,
) -> Result<String, AllocError>
    ensures { IfOk result (λ s. string_bytes s ≡ spec.method_line_by pool.now method.now parts) }
{
    let name = name_word(method.id.full_name());
    let types = method_words(alloc, pool, method, parts)?;
    let place = place_words(alloc, &method.id)?;
    let deprecated = deprecated_word(parts.is_deprecated);
    format!(in alloc; "  rpc {name} {types} {place}{deprecated}\n")
}

/// Tells a method.
fn write_method(
    text: &mut String,
    alloc: Global,
    pool: &DescriptorPool,
    method: &MethodDescriptorInner,
) -> Result<(), AllocError>
    ensures { OnOk result (string_bytes text.new ≡ string_bytes text.old
        ++ spec.method_line pool.now method.now) }
{
    let parts = method_parts(pool.files(), &method.id);
    let line = method_line(alloc, pool, method, parts)?;
    text.push_str(line.as_str())
}
