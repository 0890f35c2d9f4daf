//! What is read off the records: the list of all declarations, the record at a path, the references
//! of files, and the linked record of each item of a pool, with what its options say and where it
//! stands in the source.
#![tactic(auto)]

mod find;
mod flags;
mod lister;
mod options;
mod places;
mod records;
mod reference;

pub use find::{
    find_enum_proto, find_enum_value_proto, find_field_proto, find_message_proto,
    find_method_proto, find_oneof_proto, find_service_proto,
};
pub use flags::{is_closed, is_group, is_list, is_map, is_repeated, is_required, is_synthetic};
pub use lister::{Lister, list_declarations};
pub use options::{encoded, options_of};
pub use places::location_of;
pub use records::{
    EnumParts, FieldParts, MessageParts, MethodParts, enum_parts, enum_record, field_parts,
    field_record, is_deprecated, is_service_deprecated, is_value_deprecated, message_parts,
    message_record, method_parts, method_record, oneof_record, service_record, value_record,
};
pub use reference::{Reference, references};
