use plain_data::{Items, Text};

/// What kind of record declares something.
#[derive(Clone, Copy, PartialEq, Debug)]
pub enum DeclarationKind {
    File,
    Message,
    Field,
    Oneof,
    Service,
    Method,
    Enum,
    EnumValue,
    Extension,
}

/// What a file declares, without the record: where, and under which name.
#[derive(PartialEq, Drop)]
pub struct Declaration {
    pub kind: DeclarationKind,
    /// The index of the file, from 0 in the order of linking.
    pub file: u32,
    /// The index of the innermost message, enum or service around it.
    pub parent: Option<u32>,
    /// The index of a file, message, enum, service or extension in the pool, and the position of
    /// any other in its list, both from 0.
    pub index: u32,
    /// Field numbers and positions, from the file to the declaration.
    pub path: Items<i32>,
    pub full_name: Text,
}
