//! The parts of a pool: what it holds, what a name means, default values, and the faults of a
//! batch. Every record, list and map that these name is handed on.
//!
//! # Example
//!
//! A name that is entered, and what a reference to it means in a scope of a file that sees the
//! first file:
//!
//! ```
//! let mut seen = BTreeSet::new(alloc);
//! seen.insert(0)?;
//! let path = Path::from_slice(alloc, &[4, 0, 1])?;
//! let definition = Definition {
//!     file: 0,
//!     path,
//!     kind: DefinitionKind::Message(0),
//! };
//! let mut names = PoolNames::new(alloc);
//! names.insert("p.M", definition)?;
//! let wanted = ResolveNameFilter::FieldType;
//! let meant = resolve_name(alloc, &seen, &names, "p.N.f", "M", wanted)?;
//! assert!(rt; meant.is_found());
//! ```
#![tactic(auto)]

pub use field_rules::{EscapeFault, ValueFault, parse_simple_value, unescape_c_escape_string};
pub use name_resolution::{
    CandidateParents, ResolveNameFilter, ResolveNameResult, parents_count, resolve_in_parts,
    resolve_name, visible_from,
};
pub use name_tables::{FileNames, HashedNames, NameTable, PartNames, Parts, PoolNames, Scope};
pub use plain_data::{Items, NumberMap, Numbers, Path, Text, TextMap};
pub use pool_faults::{AllFaults, DescriptorError, DescriptorErrorKind, Label, Labelled, label_at};
pub use pool_types::{
    Cardinality, DefaultValue, Definition, DefinitionKind, EnumDescriptor, EnumDescriptorInner,
    EnumValueDescriptor, EnumValueDescriptorInner, ExtensionDescriptor, ExtensionDescriptorInner,
    FieldDescriptor, FieldDescriptorInner, FileDescriptor, FileDescriptorInner, Identity, Kind,
    KindIndex, MessageDescriptor, MessageDescriptorInner, MethodDescriptor, MethodDescriptorInner,
    OneofDescriptor, OneofDescriptorInner, ServiceDescriptor, ServiceDescriptorInner, Syntax,
    cardinality_of, named_kind, simple_kind,
};
pub use proto_types::{FieldLabel, FieldType, FileDescriptorProto};
