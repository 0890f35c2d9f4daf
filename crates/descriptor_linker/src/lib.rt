//! The linker of file descriptors: the pool, its laws, scripts, and the run of a script over
//! devices. Every record, item and index that these name is handed on.
//!
//! # Example
//!
//! A batch of one file, and what the pool has then:
//!
//! ```
//! let name = Text::from_str(alloc, "M")?;
//! let file_name = Text::from_str(alloc, "a.proto")?;
//! let mut message = DescriptorProto::empty(alloc);
//! message.name = Some(name);
//! let mut file = FileDescriptorProto::empty(alloc);
//! file.name = Some(file_name);
//! file.message_type.push(message)?;
//! let mut batch = Vec::new(alloc);
//! batch.push(file)?;
//! let mut pool = DescriptorPool::new(alloc);
//! match pool.build_files(batch) {
//!     Ok(()) => assert!(rt; pool.get_by_name("M").is_some()),
//!     Err(error) => assert!(rt; false, "{error:?}"),
//! }
//! ```
#![tactic(auto)]

mod ending;
pub mod laws;
mod report;
mod runs;

pub use descriptor_pool::BuildError;
pub use descriptor_pool::DescriptorPool;
pub use ending::Ending;
pub use link_script::Block;
pub use link_script::Keyword;
pub use link_script::Obeys;
pub use link_script::Open;
pub use link_script::RecordBuilder;
pub use link_script::SaidExtension;
pub use link_script::SaidField;
pub use link_script::SaidLocation;
pub use link_script::SaidMethod;
pub use link_script::SaidValue;
pub use link_script::Script;
pub use link_script::ScriptError;
pub use link_script::ScriptFault;
pub use link_script::ScriptReader;
pub use link_script::Statement;
pub use link_script::files_of;
pub use link_script::read_script;
pub use name_pass::NameVisitor;
pub use name_tables::FileNames;
pub use name_tables::NameTable;
pub use name_tables::PartNames;
pub use name_tables::PoolNames;
pub use name_tables::Scope;
pub use name_tables::ScopedNames;
pub use plain_data::Items;
pub use plain_data::NumberMap;
pub use plain_data::Numbers;
pub use plain_data::Path;
pub use plain_data::Text;
pub use plain_data::TextMap;
pub use pool_faults::AllFaults;
pub use pool_faults::DescriptorError;
pub use pool_faults::DescriptorErrorKind;
pub use pool_faults::Label;
pub use pool_faults::Labelled;
pub use pool_faults::Labels;
pub use pool_types::Cardinality;
pub use pool_types::Declared;
pub use pool_types::DefaultValue;
pub use pool_types::Definition;
pub use pool_types::DefinitionKind;
pub use pool_types::EnumDescriptor;
pub use pool_types::EnumDescriptorInner;
pub use pool_types::EnumValueDescriptor;
pub use pool_types::EnumValueDescriptorInner;
pub use pool_types::ExtensionDescriptor;
pub use pool_types::ExtensionDescriptorInner;
pub use pool_types::FieldDescriptor;
pub use pool_types::FieldDescriptorInner;
pub use pool_types::FileDescriptor;
pub use pool_types::FileDescriptorInner;
pub use pool_types::Identity;
pub use pool_types::Kind;
pub use pool_types::KindIndex;
pub use pool_types::Members;
pub use pool_types::MessageDescriptor;
pub use pool_types::MessageDescriptorInner;
pub use pool_types::MethodDescriptor;
pub use pool_types::MethodDescriptorInner;
pub use pool_types::OneofDescriptor;
pub use pool_types::OneofDescriptorInner;
pub use pool_types::Parent;
pub use pool_types::ServiceDescriptor;
pub use pool_types::ServiceDescriptorInner;
pub use pool_types::Syntax;
pub use proto_types::DescriptorProto;
pub use proto_types::EnumDescriptorProto;
pub use proto_types::EnumOptions;
pub use proto_types::EnumReservedRange;
pub use proto_types::EnumValueDescriptorProto;
pub use proto_types::ExtensionRange;
pub use proto_types::FieldDescriptorProto;
pub use proto_types::FieldLabel;
pub use proto_types::FieldOptions;
pub use proto_types::FieldType;
pub use proto_types::FileDescriptorProto;
pub use proto_types::Location;
pub use proto_types::MethodDescriptorProto;
pub use proto_types::OneofDescriptorProto;
pub use proto_types::Options;
pub use proto_types::ReservedRange;
pub use proto_types::ServiceDescriptorProto;
pub use proto_types::SourceCodeInfo;
pub use proto_types::Unread;
pub use record_walk::CountKind;
pub use record_walk::Counts;
pub use record_walk::Faults;
pub use record_walk::Visitor;
pub use reference_pass::NewItems;
pub use reference_pass::PoolExtensions;
pub use reference_pass::Reading;
pub use reference_pass::ResolveVisitor;
pub use report::Report;
pub use report::report_of;
pub use report::write_counts;
pub use report::write_fault;
pub use report::write_too_many;
pub use report::write_walk;
pub use runs::run;
pub use script_devices::MemoryInput;
pub use script_devices::MemoryOutput;
pub use script_devices::ReaderInput;
pub use script_devices::ReportOutput;
pub use script_devices::ScriptInput;
pub use script_devices::WriterOutput;
