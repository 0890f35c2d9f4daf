//! Each name of the face `pool_parts`: where one is lost, this is not compiled.

use pool_parts::{
    AllFaults, CandidateParents, Cardinality, DefaultValue, Definition, DefinitionKind,
    DescriptorError, DescriptorErrorKind, EnumDescriptor, EnumDescriptorInner, EnumValueDescriptor,
    EnumValueDescriptorInner, EscapeFault, ExtensionDescriptor, ExtensionDescriptorInner,
    FieldDescriptor, FieldDescriptorInner, FieldLabel, FieldType, FileDescriptor,
    FileDescriptorInner, FileDescriptorProto, FileNames, HashedNames, Identity, Items, Kind,
    KindIndex, Label, Labelled, MessageDescriptor, MessageDescriptorInner, MethodDescriptor,
    MethodDescriptorInner, NameTable, NumberMap, Numbers, OneofDescriptor, OneofDescriptorInner,
    PartNames, Parts, Path, PoolNames, ResolveNameFilter, ResolveNameResult, Scope,
    ServiceDescriptor, ServiceDescriptorInner, Syntax, Text, TextMap, ValueFault, cardinality_of,
    label_at, named_kind, parents_count, parse_simple_value, resolve_in_parts, resolve_name,
    simple_kind, unescape_c_escape_string, visible_from,
};
use std::test::Fail;

#[test]
fn the_face_has_each_of_its_names(_rt: HostRuntime) -> Result<(), Fail> {
    Ok(())
}
