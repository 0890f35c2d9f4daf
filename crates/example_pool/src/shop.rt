//! A file that is built by hand: a message with three fields, and an enum.

use descriptor_linker::{
    DescriptorProto, EnumDescriptorProto, EnumValueDescriptorProto, FieldDescriptorProto,
    FileDescriptorProto, Text,
};
use proto_records::{FieldLabel, FieldType};
use std::alloc::{AllocError, Global};

/// The file `shop.proto`, in which the field `status` is written with this type name.
pub(crate) fn file(alloc: Global, status_type: &str) -> Result<FileDescriptorProto, AllocError> {
    let mut file = FileDescriptorProto::empty(alloc);
    file.name = text(alloc, "shop.proto")?;
    file.package = text(alloc, "shop")?;
    file.syntax = text(alloc, "proto3")?;
    file.message_type.push(order(alloc, status_type)?)?;
    file.enum_type.push(status(alloc)?)?;
    Ok(file)
}

fn order(alloc: Global, status_type: &str) -> Result<DescriptorProto, AllocError> {
    let mut parts = field(alloc, "parts", 3, FieldType::Message)?;
    parts.label = Some(FieldLabel::Repeated.number());
    parts.type_name = text(alloc, "Order")?;
    let mut status = field(alloc, "status", 2, FieldType::Enum)?;
    status.type_name = text(alloc, status_type)?;
    let mut order = DescriptorProto::empty(alloc);
    order.name = text(alloc, "Order")?;
    order.field.push(field(alloc, "id", 1, FieldType::String)?)?;
    order.field.push(status)?;
    order.field.push(parts)?;
    Ok(order)
}

fn field(
    alloc: Global,
    name: &str,
    number: i32,
    written: FieldType,
) -> Result<FieldDescriptorProto, AllocError> {
    let mut field = FieldDescriptorProto::empty(alloc);
    field.name = text(alloc, name)?;
    field.number = Some(number);
    field.label = Some(FieldLabel::Optional.number());
    field.type_ = Some(written.number());
    Ok(field)
}

fn status(alloc: Global) -> Result<EnumDescriptorProto, AllocError> {
    let mut value = EnumValueDescriptorProto::empty(alloc);
    value.name = text(alloc, "NEW")?;
    value.number = Some(0);
    let mut status = EnumDescriptorProto::empty(alloc);
    status.name = text(alloc, "Status")?;
    status.value.push(value)?;
    Ok(status)
}

fn text(alloc: Global, words: &str) -> Result<Option<Text>, AllocError> {
    Ok(Some(Text::from_str(alloc, words)?))
}
