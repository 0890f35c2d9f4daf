//! The element in which a fault stands.

ghost use Rattle.std.specs.Prelude.{◌≡◌, IfOk};
ghost use Rattle.std.specs.Option.{option_copied};
ghost use Rattle.plain_data.specs.Lists.{at};
ghost use Rattle.proto_types.specs.Names as names;
ghost use Rattle.verdict_texts.specs.Elements as spec;

use crate::known::Known;
use plain_data::{Items, Text};
use pool_faults::Label;
use proto_types::tag::{enum_, file, message, service};
use proto_types::{
    DescriptorProto, EnumDescriptorProto, FileDescriptorProto, ServiceDescriptorProto, join_text,
};
use std::alloc::{AllocError, Global};

/// The entry of a list at a position, or none where there is none.
pub(crate) fn entry<T>(items: &Items<T>, position: i32) -> Option<&T>
    ensures { option_copied result ≡ at items.now position }
{
    items.as_slice().get(usize::try_from(position).ok()?)
}

/// The full name of a name in a scope.
pub(crate) fn full_name(alloc: Global, scope: &str, name: &str) -> Result<Text, AllocError>
    ensures { IfOk result (λ full. full ≡ names.join scope.now name.now) }
{
    join_text(alloc, scope, name)
}

/// The full name of something, or of what stands in it, if there is such.
fn full_or(alloc: Global, full: Text, name: Option<&str>) -> Result<Text, AllocError>
    ensures { IfOk result (λ found. found ≡ spec.full_or full (option_copied name.entry)) }
{
    match name {
        Some(name) => full_name(alloc, full.as_str(), name),
        None => Ok(full),
    }
}

/// The name of what a path of an enum stands in: a value, or else the enum.
fn name_in_enum<'a>(enumeration: &'a EnumDescriptorProto, path: &[i32]) -> &'a str
    ensures { result.now ≡ spec.name_in_enum enumeration.now path.now }
{
    let [enum_::VALUE, position, ..] = path else {
        return enumeration.name();
    };
    match entry(&enumeration.value, *position) {
        Some(value) => value.name(),
        None => enumeration.name(),
    }
}

/// The name of the method in which a path of a service stands.
fn method_name<'a>(service: &'a ServiceDescriptorProto, path: &[i32]) -> Option<&'a str>
    ensures { option_copied result ≡ spec.method_name service.now path.now }
{
    match path {
        [service::METHOD, position, ..] => Some(entry(&service.method, *position)?.name()),
        _ => None,
    }
}

/// The name of a field, an extension or a oneof of a message, by the number of its list and its
/// position there.
fn leaf_name(message: &DescriptorProto, tag: i32, position: i32) -> Option<&str>
    ensures { option_copied result ≡ spec.leaf_name message.now tag position }
{
    match tag {
        message::FIELD => Some(entry(&message.field, position)?.name()),
        message::EXTENSION => Some(entry(&message.extension, position)?.name()),
        message::ONEOF_DECL => Some(entry(&message.oneof_decl, position)?.name()),
        _ => None,
    }
}

/// The name of what a path of a message stands in, which is no nested message: a list's number, a
/// position there, and the rest of the path.
fn name_in_message<'a>(
    message: &'a DescriptorProto,
    tag: i32,
    position: i32,
    rest: &[i32],
) -> Option<&'a str>
    ensures { option_copied result ≡ spec.name_in_message message.now tag position rest.now }
{
    if tag == message::ENUM_TYPE {
        return Some(name_in_enum(entry(&message.enum_type, position)?, rest));
    }
    leaf_name(message, tag, position)
}

/// The full name of what a path of a message stands in: what is innermost of the message, whose
/// full name is given, and what it declares.
fn element_in_message(
    alloc: Global,
    full: Text,
    message: &DescriptorProto,
    path: &[i32],
) -> Result<Text, AllocError>
    ensures { IfOk result (λ name. name ≡ spec.element_in_message full message.now path.now) }
{
    let [tag, position, rest @ ..] = path else {
        return Ok(full);
    };
    if *tag != message::NESTED_TYPE {
        return full_or(alloc, full, name_in_message(message, *tag, *position, rest));
    }
    match entry(&message.nested_type, *position) {
        Some(nested) => {
            let full = full_name(alloc, full.as_str(), nested.name())?;
            element_in_message(alloc, full, nested, rest)
        }
        None => Ok(full),
    }
}

/// The full name of what a path of a file stands in: the innermost declaration, if there is one.
fn element_in(
    alloc: Global,
    file: &FileDescriptorProto,
    path: &[i32],
) -> Result<Option<Text>, AllocError>
    ensures { IfOk result (λ name. name ≡ spec.element_in file.now path.now) }
{
    let [tag, position, rest @ ..] = path else {
        return Ok(None);
    };
    let scope = file.package();
    match *tag {
        file::MESSAGE_TYPE => {
            let Some(message) = entry(&file.message_type, *position) else {
                return Ok(None);
            };
            let full = full_name(alloc, scope, message.name())?;
            Ok(Some(element_in_message(alloc, full, message, rest)?))
        }
        file::ENUM_TYPE => {
            let Some(enumeration) = entry(&file.enum_type, *position) else {
                return Ok(None);
            };
            let name = name_in_enum(enumeration, rest);
            Ok(Some(full_name(alloc, scope, name)?))
        }
        file::SERVICE => {
            let Some(service) = entry(&file.service, *position) else {
                return Ok(None);
            };
            let full = full_name(alloc, scope, service.name())?;
            Ok(Some(full_or(alloc, full, method_name(service, rest))?))
        }
        file::EXTENSION => {
            let Some(extension) = entry(&file.extension, *position) else {
                return Ok(None);
            };
            Ok(Some(full_name(alloc, scope, extension.name())?))
        }
        _ => Ok(None),
    }
}

/// The full name of what a label stands in, by the only file with its name; none where several
/// files have it, or where it stands in no declaration of that file.
pub(crate) fn element_of(
    alloc: Global,
    known: &Known,
    label: &Label,
) -> Result<Option<Text>, AllocError>
    ensures { IfOk result (λ name. name
        ≡ spec.element_of known.now.0 label.now) }
{
    match known.only(label.file()) {
        Some(file) => element_in(alloc, file, label.path()),
        None => Ok(None),
    }
}
