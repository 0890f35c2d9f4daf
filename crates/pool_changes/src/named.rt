//! The message, the service or the enum of a pool that a full name means.

ghost use Rattle.std.specs.Prelude.{◌≡◌, Some, IfOk, IfSome};
ghost use Rattle.std.specs.FinMap as finite;
ghost use Rattle.std.specs.Option.{option_copied};
ghost use Rattle.pool_changes.specs.Removed as enums;
ghost use Rattle.pool_changes.specs.Services as services;
ghost use Rattle.schema_changes.specs.Pools.{message_meant, message_named};

use descriptor_pool::DescriptorPool;
use pool_types::{
    Definition, DefinitionKind, EnumDescriptor, EnumDescriptorInner, MessageDescriptor,
    MessageDescriptorInner, ServiceDescriptor, ServiceDescriptorInner,
};
use std::alloc::{AllocError, Global};

/// What a pool has under a full name that begins with a dot of its own.
fn dotted_definition<'a>(
    alloc: Global,
    pool: &'a DescriptorPool,
    name: &str,
) -> Result<Option<&'a Definition>, AllocError>
    ensures { IfOk result (λ found. option_copied found ≡ finite.get pool.now.names name.now) }
{
    let mut dotted = String::new(alloc);
    dotted.push('.')?;
    dotted.push_str(name)?;
    Ok(pool.get_by_name(dotted.as_str()))
}

/// What a pool has under a full name. Where that begins with a dot, one more is put before it,
/// since the pool takes one away.
fn definition_of<'a>(
    alloc: Global,
    pool: &'a DescriptorPool,
    name: &str,
) -> Result<Option<&'a Definition>, AllocError>
    ensures { IfOk result (λ found. option_copied found ≡ finite.get pool.now.names name.now) }
{
    match name.strip_prefix('.') {
        Some(_) => dotted_definition(alloc, pool, name),
        None => Ok(pool.get_by_name(name)),
    }
}

/// The message of a pool that a definition is.
fn message_meant(pool: &DescriptorPool, kind: DefinitionKind) -> Option<&MessageDescriptorInner>
    ensures { option_copied result ≡ message_meant pool.now kind }
{
    match kind {
        DefinitionKind::Message(index) => pool.message(MessageDescriptor::new(index)),
        _ => None,
    }
}

/// The service of a pool that a definition is.
fn service_meant(pool: &DescriptorPool, kind: DefinitionKind) -> Option<&ServiceDescriptorInner>
    ensures { option_copied result ≡ services.service_meant pool.now kind }
{
    match kind {
        DefinitionKind::Service(index) => pool.service(ServiceDescriptor::new(index)),
        _ => None,
    }
}

/// The service of a pool that a full name means.
#[tactic(auto, unfolding(crate::specs::Services::service_named))]
pub(crate) fn service_named<'a>(
    alloc: Global,
    pool: &'a DescriptorPool,
    name: &str,
) -> Result<Option<&'a ServiceDescriptorInner>, AllocError>
    ensures { IfOk result (λ found. option_copied found
        ≡ services.service_named pool.now name.now) }
{
    match definition_of(alloc, pool, name)? {
        Some(definition) => Ok(service_meant(pool, definition.kind)),
        None => Ok(None),
    }
}

/// The enum of a pool that a definition is.
fn enum_meant(pool: &DescriptorPool, kind: DefinitionKind) -> Option<&EnumDescriptorInner>
    ensures { option_copied result ≡ enums.enum_meant pool.now kind }
{
    match kind {
        DefinitionKind::Enum(index) => pool.enum_(EnumDescriptor::new(index)),
        _ => None,
    }
}

/// The enum of a pool with an index, if it has a full name. The name then means it.
#[tactic(auto, using(crate::proofs::Looking::enum_meant_at))]
fn enum_at<'a>(
    pool: &'a DescriptorPool,
    index: usize,
    name: &str,
) -> Option<&'a EnumDescriptorInner>
    ensures { IfSome result (λ e. enums.enum_named pool.now name.now ≡ Some e.now) }
{
    pool.made();
    let enumeration = pool.enums().get(index)?;
    if enumeration.id.full_name() == name {
        Some(enumeration)
    } else {
        None
    }
}

/// The enum of a pool that a full name means. That of most names has an index that is known.
///
/// # Errors
/// `AllocError` where memory was refused.
pub(crate) fn enum_near<'a>(
    alloc: Global,
    pool: &'a DescriptorPool,
    index: usize,
    name: &str,
) -> Result<Option<&'a EnumDescriptorInner>, AllocError>
    ensures { IfOk result (λ found. option_copied found ≡ enums.enum_named pool.now name.now) }
{
    match enum_at(pool, index, name) {
        Some(enumeration) => Ok(Some(enumeration)),
        None => enum_named(alloc, pool, name),
    }
}

/// The enum of a pool that a full name means.
#[tactic(auto, unfolding(crate::specs::Removed::enum_named))]
fn enum_named<'a>(
    alloc: Global,
    pool: &'a DescriptorPool,
    name: &str,
) -> Result<Option<&'a EnumDescriptorInner>, AllocError>
    ensures { IfOk result (λ found. option_copied found ≡ enums.enum_named pool.now name.now) }
{
    match definition_of(alloc, pool, name)? {
        Some(definition) => Ok(enum_meant(pool, definition.kind)),
        None => Ok(None),
    }
}

/// The message of a pool with an index, if it has a full name. The name then means it.
#[tactic(auto, using(crate::proofs::Looking::message_meant_at))]
fn message_at<'a>(
    pool: &'a DescriptorPool,
    index: usize,
    name: &str,
) -> Option<&'a MessageDescriptorInner>
    ensures { IfSome result (λ m. message_named pool.now name.now ≡ Some m.now) }
{
    pool.made();
    let message = pool.messages().get(index)?;
    if message.id.full_name() == name {
        Some(message)
    } else {
        None
    }
}

/// The message of a pool that a full name means. That of most names has an index that is known.
///
/// # Errors
/// `AllocError` where memory was refused.
pub(crate) fn message_near<'a>(
    alloc: Global,
    pool: &'a DescriptorPool,
    index: usize,
    name: &str,
) -> Result<Option<&'a MessageDescriptorInner>, AllocError>
    ensures { IfOk result (λ found. option_copied found ≡ message_named pool.now name.now) }
{
    match message_at(pool, index, name) {
        Some(message) => Ok(Some(message)),
        None => message_named(alloc, pool, name),
    }
}

/// The message of a pool that a full name means.
///
/// # Errors
/// `AllocError` where memory was refused.
#[tactic(auto, unfolding(schema_changes::specs::Pools::message_named))]
pub fn message_named<'a>(
    alloc: Global,
    pool: &'a DescriptorPool,
    name: &str,
) -> Result<Option<&'a MessageDescriptorInner>, AllocError>
    ensures { IfOk result (λ found. option_copied found ≡ message_named pool.now name.now) }
{
    match definition_of(alloc, pool, name)? {
        Some(definition) => Ok(message_meant(pool, definition.kind)),
        None => Ok(None),
    }
}
