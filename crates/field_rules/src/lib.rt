//! What a record breaks and makes without a look at names: numbers, oneofs, names of fields in
//! JSON, enums, and default values, as descriptor.proto's `default_value` writes them.
#![tactic(auto)]

mod bounds;
mod default_enum;
mod default_faults;
mod defaults;
mod encoding;
mod enum_defaults;
mod enum_items;
mod enum_ranges;
mod enum_tables;
mod enum_values;
mod escape_faults;
mod escapes;
mod exact;
mod extension_ranges;
mod field_names;
mod field_number;
mod identities;
mod inner_names;
mod laws;
mod maps;
mod message_ranges;
mod named;
mod number_ranges;
mod numbers;
mod oneofs;
mod owner;
mod range_tables;
mod reserved;
mod simple;
mod stretch;

pub use default_enum::DefaultEnum;
pub use defaults::read_default;
pub use encoding::{is_packed, supports_presence};
pub use enum_items::read_enum;
pub use enum_tables::{value_names, value_numbers};
pub use enum_values::{allows_alias, check_values};
pub use escape_faults::{EscapeFault, ValueFault};
pub use escapes::unescape_c_escape_string;
pub use field_number::is_valid_number;
pub use identities::{ListPlace, identity, identity_inside, identity_of_field};
pub use inner_names::InnerNames;
pub use laws::{escaped_is_one, refused_is_one, unescaped_is_escaped};
pub use maps::{FieldMaps, item_number};
pub use message_ranges::MessageRanges;
pub use numbers::{check_extension_number, check_field_number, is_free_number};
pub use oneofs::{check_oneof_index, members, oneof_of};
pub use owner::Owner;
pub use simple::parse_simple_value;
