/// What changes of a field.
#[derive(Clone, Copy, PartialEq)]
pub enum WireChangeKind {
    /// Values of the old kind are no values of the new one, or are encoded otherwise.
    Kind,
    /// It was repeated and is no more, or it has messages and is repeated now.
    Cardinality,
    /// It is in one oneof with another field now, and was not.
    Oneof,
    /// It is required now, and was not.
    Required,
    /// It is removed, and its number is not reserved.
    FreeNumber,
    /// Its number was reserved, and has a field now, or is not reserved any more.
    Unreserved,
}

/// A change of a message by which bytes are read otherwise, with the number of its field.
#[derive(Clone, Copy, PartialEq)]
pub struct WireChange {
    pub number: u32,
    pub kind: WireChangeKind,
}

/// A change of a message by its index among the old ones.
#[derive(Clone, Copy, PartialEq)]
pub struct MessageChange {
    pub message: u32,
    pub change: WireChange,
}
