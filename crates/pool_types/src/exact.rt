ghost use Rattle.pool_types.specs.Exact.{file-exact, message-exact, enum-exact, service-exact};
ghost use Rattle.pool_types.specs.Exact.{extension-exact, field-exact, oneof-exact, value-exact};
ghost use Rattle.pool_types.specs.Exact.{method-exact, syntax-exact, cardinality-exact};
ghost use Rattle.pool_types.specs.Exact.{kind_index-exact, kind-exact, default-exact};
ghost use Rattle.pool_types.specs.Exact.{definition_kind-exact, identity-exact, definition-exact};
ghost use Rattle.pool_types.specs.Exact.{field_inner-exact, file_inner-exact, message_inner-exact};
ghost use Rattle.pool_types.specs.Exact.{oneof_inner-exact, enum_inner-exact, value_inner-exact};
ghost use Rattle.pool_types.specs.Exact.{extension_inner-exact, service_inner-exact};
ghost use Rattle.pool_types.specs.Exact.{method_inner-exact};

use crate::{
    Cardinality, DefaultValue, Definition, DefinitionKind, EnumDescriptor, EnumDescriptorInner,
    EnumValueDescriptor, EnumValueDescriptorInner, ExtensionDescriptor, ExtensionDescriptorInner,
    FieldDescriptor, FieldDescriptorInner, FileDescriptor, FileDescriptorInner, Identity, Kind,
    KindIndex, MessageDescriptor, MessageDescriptorInner, MethodDescriptor, MethodDescriptorInner,
    OneofDescriptor, OneofDescriptorInner, ServiceDescriptor, ServiceDescriptorInner, Syntax,
};
use plain_data::ExactEq;

impl ExactEq for FileDescriptor {
    ghost exact = { file-exact };
}

impl ExactEq for MessageDescriptor {
    ghost exact = { message-exact };
}

impl ExactEq for EnumDescriptor {
    ghost exact = { enum-exact };
}

impl ExactEq for ServiceDescriptor {
    ghost exact = { service-exact };
}

impl ExactEq for ExtensionDescriptor {
    ghost exact = { extension-exact };
}

impl ExactEq for FieldDescriptor {
    ghost exact = { field-exact };
}

impl ExactEq for OneofDescriptor {
    ghost exact = { oneof-exact };
}

impl ExactEq for EnumValueDescriptor {
    ghost exact = { value-exact };
}

impl ExactEq for MethodDescriptor {
    ghost exact = { method-exact };
}

impl ExactEq for Syntax {
    ghost exact = { syntax-exact };
}

impl ExactEq for Cardinality {
    ghost exact = { cardinality-exact };
}

impl ExactEq for KindIndex {
    ghost exact = { kind_index-exact };
}

impl ExactEq for Kind {
    ghost exact = { kind-exact };
}

impl ExactEq for DefaultValue {
    ghost exact = { default-exact };
}

impl ExactEq for DefinitionKind {
    ghost exact = { definition_kind-exact };
}

impl ExactEq for Identity {
    ghost exact = { identity-exact };
}

impl ExactEq for Definition {
    ghost exact = { definition-exact };
}

impl ExactEq for FieldDescriptorInner {
    ghost exact = { field_inner-exact };
}

impl ExactEq for FileDescriptorInner {
    ghost exact = { file_inner-exact };
}

impl ExactEq for MessageDescriptorInner {
    ghost exact = { message_inner-exact };
}

impl ExactEq for OneofDescriptorInner {
    ghost exact = { oneof_inner-exact };
}

impl ExactEq for EnumDescriptorInner {
    ghost exact = { enum_inner-exact };
}

impl ExactEq for EnumValueDescriptorInner {
    ghost exact = { value_inner-exact };
}

impl ExactEq for ExtensionDescriptorInner {
    ghost exact = { extension_inner-exact };
}

impl ExactEq for ServiceDescriptorInner {
    ghost exact = { service_inner-exact };
}

impl ExactEq for MethodDescriptorInner {
    ghost exact = { method_inner-exact };
}
