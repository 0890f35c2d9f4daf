//! The records of descriptor.proto, the numbers of its fields, names in scopes, and paths.
#![tactic(auto)]

mod exact;
mod file;
mod message;
mod names;
mod paths;
mod records;
pub mod tag;
mod text;

pub use file::{FileDescriptorProto, FileDescriptorSet};
pub use message::{DescriptorProto, ExtensionRange, OneofDescriptorProto, ReservedRange};
pub use names::{join, join_text, joined_len, push_joined, write_joined};
pub use paths::entry_path;
pub use records::{
    EnumDescriptorProto, EnumOptions, EnumReservedRange, EnumValueDescriptorProto,
    FieldDescriptorProto, FieldLabel, FieldOptions, FieldType, Location, MethodDescriptorProto,
    Options, ServiceDescriptorProto, SourceCodeInfo, Unread,
};
pub use text::or_empty;
