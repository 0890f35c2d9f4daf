//! Each name of the face `proto_records`: where one is lost, this is not compiled.

use proto_records::{
    Cardinality, CountKind, Counts, Declaration, DeclarationKind, DecodeError, DefaultValue,
    Definition, DefinitionKind, Deprecated, DescriptorErrorKind, DescriptorProto, Duplicate,
    EnumDescriptor, EnumDescriptorInner, EnumDescriptorProto, EnumOptions, EnumReservedRange,
    EnumValueDescriptor, EnumValueDescriptorInner, EnumValueDescriptorProto, ExactEq,
    ExtensionDescriptor, ExtensionDescriptorInner, ExtensionRange, FieldDescriptor,
    FieldDescriptorInner, FieldDescriptorProto, FieldLabel, FieldOptions, FieldType,
    FileDescriptor, FileDescriptorInner, FileDescriptorProto, FileDescriptorSet, Identity, Items,
    Kind, KindIndex, LEVELS, Label, Labelled, Lister, Location, MessageDescriptor,
    MessageDescriptorInner, MethodDescriptor, MethodDescriptorInner, MethodDescriptorProto,
    NumberMap, Numbers, OneofDescriptor, OneofDescriptorInner, OneofDescriptorProto, Options,
    Reference, ReservedRange, ServiceDescriptor, ServiceDescriptorInner, ServiceDescriptorProto,
    SourceCodeInfo, Syntax, Text, TextMap, Unread, Visitor, WireFault, WireFaultKind,
    declared_changed, declared_in_turn, declared_indexes, declared_paths, decode, decode_file,
    duplicate_option, duplicates, encode, encode_file, find_enum_proto, find_enum_value_proto,
    find_field_proto, find_message_proto, find_method_proto, find_oneof_proto, find_service_proto,
    is_map_entry, is_message_set, join, list_declarations, references, same, tag, visit,
    visit_each, walk, walk_files,
};
use std::test::Fail;

#[test]
fn the_face_has_each_of_its_names(_rt: HostRuntime) -> Result<(), Fail> {
    Ok(())
}
