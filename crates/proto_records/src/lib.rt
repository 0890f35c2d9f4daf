//! The records of descriptor.proto, sets of them read from bytes and written as bytes, what they
//! declare, the walk over it, the record at a path, and the references. Every item, list and map
//! that these name is handed on.
//!
//! # Example
//!
//! A file that is made by hand, the message at a path of it, and how much it declares:
//!
//! ```
//! let name = Text::from_str(alloc, "M")?;
//! let file_name = Text::from_str(alloc, "a.proto")?;
//! let mut message = DescriptorProto::empty(alloc);
//! message.name = Some(name);
//! let mut file = FileDescriptorProto::empty(alloc);
//! file.name = Some(file_name);
//! file.message_type.push(message)?;
//! let found = find_message_proto(&file, &[4, 0]).map(DescriptorProto::name);
//! assert!(rt; found.unwrap_or("none") == "M");
//! match Counts::of(&[file]) {
//!     Ok(counts) => assert!(rt; counts.files == 1 && counts.messages == 1),
//!     Err(kind) => assert!(rt; false, "too many: {kind:?}"),
//! }
//! ```
#![tactic(auto)]

pub use descriptor_decoding::{
    DecodeError, Deprecated, LEVELS, decode, decode_file, is_map_entry, is_message_set,
};
pub use descriptor_encoding::{encode, encode_file};
pub use plain_data::{
    Duplicate, ExactEq, Items, NumberMap, Numbers, Text, TextMap, duplicate_option, duplicates,
    same,
};
pub use pool_faults::{DescriptorErrorKind, Label, Labelled};
pub use pool_types::{
    Cardinality, DefaultValue, Definition, DefinitionKind, EnumDescriptor, EnumDescriptorInner,
    EnumValueDescriptor, EnumValueDescriptorInner, ExtensionDescriptor, ExtensionDescriptorInner,
    FieldDescriptor, FieldDescriptorInner, FileDescriptor, FileDescriptorInner, Identity, Kind,
    KindIndex, MessageDescriptor, MessageDescriptorInner, MethodDescriptor, MethodDescriptorInner,
    OneofDescriptor, OneofDescriptorInner, ServiceDescriptor, ServiceDescriptorInner, Syntax,
};
pub use proto_types::{
    DescriptorProto, EnumDescriptorProto, EnumOptions, EnumReservedRange, EnumValueDescriptorProto,
    ExtensionRange, FieldDescriptorProto, FieldLabel, FieldOptions, FieldType, FileDescriptorProto,
    FileDescriptorSet, Location, MethodDescriptorProto, OneofDescriptorProto, Options,
    ReservedRange, ServiceDescriptorProto, SourceCodeInfo, Unread, join, tag,
};
pub use record_lists::{
    Lister, Reference, find_enum_proto, find_enum_value_proto, find_field_proto,
    find_message_proto, find_method_proto, find_oneof_proto, find_service_proto, list_declarations,
    references,
};
pub use record_walk::{
    CountKind, Counts, Declaration, DeclarationKind, Visitor, declared_changed, declared_in_turn,
    declared_indexes, declared_paths, visit, visit_each, walk, walk_files,
};
pub use wire_format::{WireFault, WireFaultKind};
