//! A file that a script declares, and what the readers of a pool and of its items lend of it.

use descriptor_linker::{
    DescriptorPool, EnumDescriptorInner, FileDescriptor, FileDescriptorProto, MessageDescriptor,
    MessageDescriptorInner, ScriptError, ServiceDescriptorInner, files_of,
};
use std::alloc::{AllocError, Global};

const SCRIPT: &str = "file depot.proto\npackage depot\nmessage Shelf\n\
    field number 1 optional int32 ~ ~\njson shelfNumber\nextensions 100 200\n\
    message Box\nend\nenum Size\nvalue SMALL 1\nvalue LARGE 2\nend\n\
    extend room 100 optional int32 ~ .depot.Shelf\nend\n\
    extend keeper 101 optional string ~ .depot.Shelf\n\
    service Depot\nmethod Find .depot.Shelf .depot.Shelf\nend\nend\n";

/// The file `depot.proto`.
pub(crate) fn files(alloc: Global) -> Result<Vec<FileDescriptorProto>, AllocError> {
    match files_of(alloc, SCRIPT.as_bytes()) {
        Ok(files) => Ok(files),
        Err(ScriptError::Fault(..)) => Ok(Vec::new(alloc)),
        Err(ScriptError::OutOfMemory) => Err(AllocError),
    }
}

/// Tells what stands in a file and in its messages.
pub(crate) fn write_declared(
    report: &mut String,
    pool: &DescriptorPool,
    file: FileDescriptor,
) -> Result<(), AllocError> {
    write_services(report, pool, file)?;
    write_extensions(report, pool, file)?;
    for message in pool.file_messages(file) {
        write_children(report, pool, message)?;
    }
    Ok(())
}

fn write_services(
    report: &mut String,
    pool: &DescriptorPool,
    file: FileDescriptor,
) -> Result<(), AllocError> {
    for service in pool.file_services(file) {
        if let Some(service) = pool.service(service) {
            write_service(report, service)?;
        }
    }
    Ok(())
}

/// Tells a service and its method of a name.
fn write_service(report: &mut String, service: &ServiceDescriptorInner) -> Result<(), AllocError> {
    let name = service.id.full_name();
    match service.get_method_by_name("Find") {
        Some(method) => {
            let method = method.id.full_name();
            writeln!(report, "service {name}: {method}")
        }
        None => writeln!(report, "service {name}"),
    }
}

fn write_extensions(
    report: &mut String,
    pool: &DescriptorPool,
    file: FileDescriptor,
) -> Result<(), AllocError> {
    for extension in pool.file_extensions(file) {
        if let Some(extension) = pool.extension(extension) {
            let name = extension.id.full_name();
            writeln!(report, "extension {name}")?;
        }
    }
    Ok(())
}

/// Tells what stands in a message.
fn write_children(
    report: &mut String,
    pool: &DescriptorPool,
    message: MessageDescriptor,
) -> Result<(), AllocError> {
    if let Some(item) = pool.message(message) {
        write_fields(report, item)?;
    }
    write_child_messages(report, pool, message)?;
    write_child_enums(report, pool, message)?;
    write_child_extensions(report, pool, message)
}

/// Tells the number of a field that is found by its name, and by its JSON name.
fn write_fields(report: &mut String, message: &MessageDescriptorInner) -> Result<(), AllocError> {
    let named = message.get_field_by_name("number");
    let json_named = message.get_field_by_json_name("shelfNumber");
    match (named, json_named) {
        (Some(named), Some(json_named)) => {
            let (number, json_number) = (named.number, json_named.number);
            writeln!(report, "  number: {number}, shelfNumber: {json_number}")
        }
        _ => writeln!(report, "  no such field"),
    }
}

fn write_child_messages(
    report: &mut String,
    pool: &DescriptorPool,
    message: MessageDescriptor,
) -> Result<(), AllocError> {
    for child in pool.child_messages(message) {
        if let Some(child) = pool.message(child) {
            let name = child.id.full_name();
            writeln!(report, "  message {name}")?;
        }
    }
    Ok(())
}

fn write_child_enums(
    report: &mut String,
    pool: &DescriptorPool,
    message: MessageDescriptor,
) -> Result<(), AllocError> {
    for child in pool.child_enums(message) {
        if let Some(child) = pool.enum_(child) {
            write_values(report, child)?;
        }
    }
    Ok(())
}

/// Tells an enum, the name of a value that is found by its number, and the number of one that is
/// found by its name.
fn write_values(report: &mut String, enumeration: &EnumDescriptorInner) -> Result<(), AllocError> {
    let name = enumeration.id.full_name();
    let numbered = enumeration.get_value(2);
    let named = enumeration.get_value_by_name("SMALL");
    match (numbered, named) {
        (Some(numbered), Some(named)) => {
            let (value, number) = (numbered.id.full_name(), named.number);
            writeln!(report, "  enum {name}: 2 is {value}, SMALL is {number}")
        }
        _ => writeln!(report, "  enum {name}"),
    }
}

fn write_child_extensions(
    report: &mut String,
    pool: &DescriptorPool,
    message: MessageDescriptor,
) -> Result<(), AllocError> {
    for child in pool.child_extensions(message) {
        if let Some(child) = pool.extension(child) {
            let name = child.id.full_name();
            writeln!(report, "  extension {name}")?;
        }
    }
    Ok(())
}
