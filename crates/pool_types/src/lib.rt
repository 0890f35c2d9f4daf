//! The data that linking makes of the records: what a pool holds, the indexes and kinds of which
//! it is made, and what stands in a file or in a message.
#![tactic(auto)]

mod contents;
mod declared;
mod default_value;
mod exact;
mod indexes;
mod kinds;
mod look_ups;
mod members;
mod syntaxes;

pub use contents::{
    Definition, DefinitionKind, EnumDescriptorInner, EnumValueDescriptorInner,
    ExtensionDescriptorInner, FieldDescriptorInner, FileDescriptorInner, Identity,
    MessageDescriptorInner, MethodDescriptorInner, OneofDescriptorInner, ServiceDescriptorInner,
};
pub use declared::{Declared, Parent};
pub use default_value::DefaultValue;
pub use indexes::{
    EnumDescriptor, EnumValueDescriptor, ExtensionDescriptor, FieldDescriptor, FileDescriptor,
    MessageDescriptor, MethodDescriptor, OneofDescriptor, ServiceDescriptor,
};
pub use kinds::{Cardinality, Kind, KindIndex, Syntax, cardinality_of, named_kind, simple_kind};
pub use members::Members;
pub use syntaxes::{known_syntax, syntax_at, syntax_of};
