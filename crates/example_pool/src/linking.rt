//! A batch that is refused, the batch that is accepted in its place, one more, and what the pool
//! then has.

use crate::{depot, shop};
use descriptor_linker::{
    AllFaults, BuildError, DescriptorPool, EnumDescriptor, EnumValueDescriptor, FileDescriptor,
    FileDescriptorProto, KindIndex, MessageDescriptor, MessageDescriptorInner,
};
use std::alloc::{AllocError, Global};

/// Tells what comes of two batches of a file that is built by hand, and of the pool.
pub(crate) fn tell_linking(alloc: Global, report: &mut String) -> Result<(), AllocError> {
    let mut pool = DescriptorPool::new(alloc);
    link(alloc, report, &mut pool, shop::file(alloc, "Statuss")?)?;
    link(alloc, report, &mut pool, shop::file(alloc, "Status")?)?;
    write_file(report, &pool, "shop.proto")?;
    link_depot(alloc, report, &mut pool)
}

/// Links one file, and tells what has come of it.
fn link(
    alloc: Global,
    report: &mut String,
    pool: &mut DescriptorPool,
    file: FileDescriptorProto,
) -> Result<(), AllocError> {
    let mut batch = Vec::new(alloc);
    batch.push(file)?;
    match pool.build_files(batch) {
        Ok(()) => writeln!(report, "linked"),
        Err(BuildError::TooMany(kind)) => writeln!(report, "too many: {kind:?}"),
        Err(BuildError::Descriptor(error)) => {
            let faults = AllFaults(&error);
            writeln!(report, "{faults}")
        }
        Err(BuildError::OutOfMemory) => Err(AllocError),
    }
}

/// Links the file `depot.proto`, and tells what stands in it.
fn link_depot(
    alloc: Global,
    report: &mut String,
    pool: &mut DescriptorPool,
) -> Result<(), AllocError> {
    let mut files = depot::files(alloc)?;
    if let Some(file) = files.pop() {
        link(alloc, report, pool, file)?;
    }
    match pool.get_file_by_name("depot.proto") {
        Some(file) => depot::write_declared(report, pool, file),
        None => writeln!(report, "no file depot.proto"),
    }
}

/// Tells the file of a name, and what stands in it.
fn write_file(report: &mut String, pool: &DescriptorPool, name: &str) -> Result<(), AllocError> {
    match pool.get_file_by_name(name) {
        Some(file) => {
            writeln!(report, "file {name}")?;
            write_messages(report, pool, file)?;
            write_enums(report, pool, file)
        }
        None => writeln!(report, "no file {name}"),
    }
}

/// Tells the messages of a file that stand in no other.
fn write_messages(
    report: &mut String,
    pool: &DescriptorPool,
    file: FileDescriptor,
) -> Result<(), AllocError> {
    for message in pool.file_messages(file) {
        if let Some(message) = pool.message(message) {
            write_message(report, pool, message)?;
            write_numbered(report, message, 3)?;
        }
    }
    Ok(())
}

/// Tells a message and its fields, each with its number and its kind.
fn write_message(
    report: &mut String,
    pool: &DescriptorPool,
    message: &MessageDescriptorInner,
) -> Result<(), AllocError> {
    let name = message.id.full_name();
    writeln!(report, "message {name}")?;
    for field in &message.fields {
        let (name, number) = (field.id.name(), field.number);
        let (cardinality, kind) = (field.cardinality, field.kind);
        match type_name(pool, kind) {
            Some(of) => writeln!(report, "  {name} = {number}: {cardinality:?} {kind:?} {of}")?,
            None => writeln!(report, "  {name} = {number}: {cardinality:?} {kind:?}")?,
        }
    }
    Ok(())
}

/// Tells which field of a message has a number, as who reads its bytes has to know.
fn write_numbered(
    report: &mut String,
    message: &MessageDescriptorInner,
    number: u32,
) -> Result<(), AllocError> {
    match message.get_field(number) {
        Some(field) => {
            let name = field.id.name();
            writeln!(report, "  number {number}: {name}")
        }
        None => writeln!(report, "  number {number}: none"),
    }
}

/// The full name of the message or the enum that a kind is.
fn type_name(pool: &DescriptorPool, kind: KindIndex) -> Option<&str> {
    match kind {
        KindIndex::Message(index) | KindIndex::Group(index) => {
            Some(pool.message(MessageDescriptor::new(index))?.id.full_name())
        }
        KindIndex::Enum(index) => Some(pool.enum_(EnumDescriptor::new(index))?.id.full_name()),
        _ => None,
    }
}

/// Tells the enums of a file that stand in no message.
fn write_enums(
    report: &mut String,
    pool: &DescriptorPool,
    file: FileDescriptor,
) -> Result<(), AllocError> {
    for enumeration in pool.file_enums(file) {
        write_enum(report, pool, enumeration)?;
    }
    Ok(())
}

/// Tells an enum and its first value, which a field has where none is given.
fn write_enum(
    report: &mut String,
    pool: &DescriptorPool,
    enumeration: EnumDescriptor,
) -> Result<(), AllocError> {
    let first = EnumValueDescriptor::new(enumeration, 0);
    match full_names(pool, enumeration, first) {
        Some((name, first)) => writeln!(report, "enum {name}: {first}"),
        None => Ok(()),
    }
}

/// The full names of an enum and of one of its values.
fn full_names(
    pool: &DescriptorPool,
    enumeration: EnumDescriptor,
    value: EnumValueDescriptor,
) -> Option<(&str, &str)> {
    let enumeration = pool.enum_(enumeration)?;
    let value = pool.value(value)?;
    Some((enumeration.id.full_name(), value.id.full_name()))
}
