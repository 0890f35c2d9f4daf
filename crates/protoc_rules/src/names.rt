//! Names that are no identifiers.

ghost use Rattle.std.specs.Prelude.{◌≡◌, ◌++◌, OnOk};
ghost use Rattle.std.specs.List.{flat_map, list_all};
ghost use Rattle.pool_types.specs.LookUps.{declared_name};
ghost use Rattle.protoc_rules.specs.Names as spec;

use crate::Linked;
use crate::faults::{Found, StrictKind};
use pool_types::{
    EnumDescriptorInner, EnumValueDescriptorInner, Identity, MethodDescriptorInner,
    ServiceDescriptorInner,
};
use proto_types::tag::field::NAME;
use std::alloc::AllocError;

/// Whether a byte may stand in an identifier: an ASCII letter, a digit or an underscore.
fn is_of_identifier(byte: u8) -> bool
    ensures { result ≡ spec.is_of_identifier byte }
{
    (byte >= b'a' && byte <= b'z')
        || (byte >= b'A' && byte <= b'Z')
        || (byte >= b'0' && byte <= b'9')
        || byte == b'_'
}

/// Whether all bytes may stand in an identifier.
fn are_of_identifier(bytes: &[u8]) -> bool
    ensures { result ≡ list_all spec.is_of_identifier bytes.now }
{
    bytes.iter().all(|byte| is_of_identifier(*byte))
}

/// Whether a name is an identifier.
pub(crate) fn is_identifier(name: &[u8]) -> bool
    ensures { result ≡ spec.is_identifier name.now }
{
    !name.is_empty() && are_of_identifier(name)
}

/// The declared name of an item.
pub(crate) fn declared_name(id: &Identity) -> &[u8]
    ensures { result.now ≡ declared_name id.now }
{
    let full_name = id.full_name.as_str().as_bytes();
    full_name.get(id.name_index..).unwrap_or(&[])
}

/// Appends that the name of an item is no identifier.
pub(crate) fn tell_name(found: &mut Found, id: &Identity) -> Result<(), AllocError>
    ensures { OnOk result (found.new ≡ found.old ++ spec.name_faults id.now) }
{
    let wrong = !is_identifier(declared_name(id));
    found.tell_if(wrong, StrictKind::InvalidName.of(id), NAME)
}

/// Appends which names of an enum and of its values are no identifiers.
pub(crate) fn tell_enum_names(
    found: &mut Found,
    enumeration: &EnumDescriptorInner,
) -> Result<(), AllocError>
    ensures { OnOk result (found.new ≡ found.old ++ spec.enum_name_faults enumeration.now) }
{
    tell_name(found, &enumeration.id)?;
    tell_value_names(found, enumeration.values.as_slice())
}

/// Appends which names of values are no identifiers.
fn tell_value_names(
    found: &mut Found,
    values: &[EnumValueDescriptorInner],
) -> Result<(), AllocError>
    ensures { OnOk result (found.new ≡ found.old ++ flat_map spec.value_name_faults values.now) }
{
    for value in values {
        tell_name(found, &value.id)?;
    }
    Ok(())
}

/// Appends which names of methods are no identifiers.
fn tell_method_names(found: &mut Found, methods: &[MethodDescriptorInner]) -> Result<(), AllocError>
    ensures { OnOk result (found.new ≡ found.old ++ flat_map spec.method_name_faults methods.now) }
{
    for method in methods {
        tell_name(found, &method.id)?;
    }
    Ok(())
}

/// Appends which names of a service and of its methods are no identifiers.
fn tell_service(found: &mut Found, service: &ServiceDescriptorInner) -> Result<(), AllocError>
    ensures { OnOk result (found.new ≡ found.old ++ spec.service_faults service.now) }
{
    tell_name(found, &service.id)?;
    tell_method_names(found, service.methods.as_slice())
}

impl Linked<'_> {
    /// Appends what the services may not be.
    pub(crate) fn tell_services(self, found: &mut Found) -> Result<(), AllocError>
        ensures { OnOk result (found.new
            ≡ found.old ++ flat_map spec.service_faults self.entry.services.now) }
    {
        let services = self.services;
        for service in services {
            tell_service(found, service)?;
        }
        Ok(())
    }
}
