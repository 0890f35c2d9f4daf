//! What a pool holds: each declaration's record, with all references as indexes.

mod definition;
mod enumeration;
mod extension;
mod field;
mod file;
mod message;
mod oneof;
mod service;

pub use definition::{Definition, DefinitionKind, Identity};
pub use enumeration::{EnumDescriptorInner, EnumValueDescriptorInner};
pub use extension::ExtensionDescriptorInner;
pub use field::FieldDescriptorInner;
pub use file::FileDescriptorInner;
pub use message::MessageDescriptorInner;
pub use oneof::OneofDescriptorInner;
pub use service::{MethodDescriptorInner, ServiceDescriptorInner};
