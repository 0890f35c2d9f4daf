ghost use Rattle.proto_types.specs.Exact.{options-exact, field_options-exact, enum_options-exact};
ghost use Rattle.proto_types.specs.Exact.{unread-exact, field-exact, enum_range-exact, value-exact};
ghost use Rattle.proto_types.specs.Exact.{enum-exact, method-exact, service-exact, location-exact};
ghost use Rattle.proto_types.specs.Exact.{source-exact, extension_range-exact};
ghost use Rattle.proto_types.specs.Exact.{reserved_range-exact, oneof-exact, message-exact};
ghost use Rattle.proto_types.specs.Exact.{file-exact, file_set-exact};

use crate::{
    DescriptorProto, EnumDescriptorProto, EnumOptions, EnumReservedRange, EnumValueDescriptorProto,
    ExtensionRange, FieldDescriptorProto, FieldOptions, FileDescriptorProto, FileDescriptorSet,
    Location, MethodDescriptorProto, OneofDescriptorProto, Options, ReservedRange,
    ServiceDescriptorProto, SourceCodeInfo, Unread,
};
use plain_data::ExactEq;

impl<T: ExactEq> ExactEq for Options<T> {
    ghost exact = { options-exact T.exact };
}

impl ExactEq for FieldOptions {
    ghost exact = { field_options-exact };
}

impl ExactEq for EnumOptions {
    ghost exact = { enum_options-exact };
}

impl ExactEq for Unread {
    ghost exact = { unread-exact };
}

impl ExactEq for FieldDescriptorProto {
    ghost exact = { field-exact };
}

impl ExactEq for EnumReservedRange {
    ghost exact = { enum_range-exact };
}

impl ExactEq for EnumValueDescriptorProto {
    ghost exact = { value-exact };
}

impl ExactEq for EnumDescriptorProto {
    ghost exact = { enum-exact };
}

impl ExactEq for MethodDescriptorProto {
    ghost exact = { method-exact };
}

impl ExactEq for ServiceDescriptorProto {
    ghost exact = { service-exact };
}

impl ExactEq for Location {
    ghost exact = { location-exact };
}

impl ExactEq for SourceCodeInfo {
    ghost exact = { source-exact };
}

impl ExactEq for ExtensionRange {
    ghost exact = { extension_range-exact };
}

impl ExactEq for ReservedRange {
    ghost exact = { reserved_range-exact };
}

impl ExactEq for OneofDescriptorProto {
    ghost exact = { oneof-exact };
}

impl ExactEq for DescriptorProto {
    ghost exact = { message-exact };
}

impl ExactEq for FileDescriptorProto {
    ghost exact = { file-exact };
}

impl ExactEq for FileDescriptorSet {
    ghost exact = { file_set-exact };
}
