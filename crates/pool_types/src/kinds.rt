ghost use Rattle.std.specs.Prelude.{◌≡◌, ⊤};
ghost use Rattle.pool_types.specs.Kinds.{is_packable, is_message, type_number, kind_of, kind_name};
ghost use Rattle.pool_types.specs.Kinds.{simple_kind, named_kind, cardinality_of};

use crate::contents::DefinitionKind;
use crate::indexes::{EnumDescriptor, MessageDescriptor};
use proto_types::{FieldLabel, FieldType};
use std::alloc::AllocError;
use std::cmp::Ordering;
use std::fmt;

/// Which of the two languages a file is written in.
#[derive(Clone, Copy, PartialEq, Eq, Hash, Debug)]
pub enum Syntax {
    Proto2,
    Proto3,
}

/// How often a field stands in a message, from the least to the most.
#[derive(Clone, Copy, PartialEq, Eq, Hash, Debug)]
pub enum Cardinality {
    Optional,
    Required,
    Repeated,
}

impl Cardinality {
    ghost use Rattle.pool_types.specs.Kinds.{rank};

    fn rank(self) -> u8
        ensures { result ≡ rank self }
    {
        match self {
            Cardinality::Optional => 0,
            Cardinality::Required => 1,
            Cardinality::Repeated => 2,
        }
    }
}

impl Ord for Cardinality {
    ghost use Rattle.std.proofs.Common.{rules};
    ghost use Rattle.std.specs.Cmp.Rules.{comparing};
    ghost use Rattle.std.specs.Ordering.{nat_cmp, on};
    ghost use Rattle.pool_types.specs.Kinds.{rank};

    ghost cmp = { on rank nat_cmp };

    ghost total = { Prim.search (comparing, rules) };

    ghost matches_partial_cmp = { Prim.search (comparing, rules) };

    ghost matches_eq = { Prim.search (comparing, rules) };

    fn cmp(&self, other: &Cardinality) -> Ordering {
        self.rank().cmp(&other.rank())
    }
}

impl PartialOrd for Cardinality {
    ghost use Rattle.std.proofs.Common.{rules};
    ghost use Rattle.std.specs.Cmp.{partial_order_from_own_ties};
    ghost use Rattle.std.specs.Cmp.Rules.{comparing};
    ghost use Rattle.std.specs.Ordering.{nat_cmp, on, as_partial_cmp};
    ghost use Rattle.pool_types.specs.Kinds.{rank};

    ghost partial_cmp = { as_partial_cmp (on rank nat_cmp) };

    ghost laws = { partial_order_from_own_ties (Prim.search (comparing, rules))
        (Prim.search (comparing, rules)) };

    fn partial_cmp(&self, other: &Cardinality) -> Option<Ordering> {
        Some(self.cmp(other))
    }
}

/// The type of a field, a message or an enum by its index in the pool.
#[derive(Clone, Copy, PartialEq)]
pub enum KindIndex {
    Double,
    Float,
    Int32,
    Int64,
    Uint32,
    Uint64,
    Sint32,
    Sint64,
    Fixed32,
    Fixed64,
    Sfixed32,
    Sfixed64,
    Bool,
    String,
    Bytes,
    Message(u32),
    Enum(u32),
    Group(u32),
}

/// The type of a field, a message or an enum by its typed index. A group is a message.
#[derive(Copy, PartialEq, Eq, Debug)]
pub enum Kind {
    Double,
    Float,
    Int32,
    Int64,
    Uint32,
    Uint64,
    Sint32,
    Sint64,
    Fixed32,
    Fixed64,
    Sfixed32,
    Sfixed64,
    Bool,
    String,
    Bytes,
    Message(MessageDescriptor),
    Enum(EnumDescriptor),
}

/// A clone is equal, and takes no memory.
impl Clone for Kind {
    ghost is_clone = { λ kind copy. copy ≡ kind };

    ghost is_infallible = { λ _. ⊤ };

    fn clone(&self) -> Result<Kind, AllocError> {
        Ok(*self)
    }
}

impl KindIndex {
    /// Whether a list of such values may be packed.
    pub fn is_packable(&self) -> bool
        ensures { result ≡ is_packable self.now }
    {
        !matches!(
            self,
            KindIndex::String | KindIndex::Bytes | KindIndex::Message(_) | KindIndex::Group(_)
        )
    }

    /// Whether a value is a message: of a group it is one too.
    pub fn is_message(&self) -> bool
        ensures { result ≡ is_message self.now }
    {
        matches!(self, KindIndex::Message(_) | KindIndex::Group(_))
    }

    /// The number of the type that is written for a kind (descriptor.proto's `Type`).
    pub fn type_number(self) -> u8
        ensures { result ≡ type_number self }
    {
        match self {
            KindIndex::Double => 1,
            KindIndex::Float => 2,
            KindIndex::Int64 => 3,
            KindIndex::Uint64 => 4,
            KindIndex::Int32 => 5,
            KindIndex::Fixed64 => 6,
            KindIndex::Fixed32 => 7,
            KindIndex::Bool => 8,
            KindIndex::String => 9,
            KindIndex::Group(_) => 10,
            KindIndex::Message(_) => 11,
            KindIndex::Bytes => 12,
            KindIndex::Uint32 => 13,
            KindIndex::Enum(_) => 14,
            KindIndex::Sfixed32 => 15,
            KindIndex::Sfixed64 => 16,
            KindIndex::Sint32 => 17,
            KindIndex::Sint64 => 18,
        }
    }

    /// The kind with its typed index; of a group it is that of its message.
    pub fn kind(self) -> Kind
        ensures { result ≡ kind_of self }
    {
        match self {
            KindIndex::Double => Kind::Double,
            KindIndex::Float => Kind::Float,
            KindIndex::Int32 => Kind::Int32,
            KindIndex::Int64 => Kind::Int64,
            KindIndex::Uint32 => Kind::Uint32,
            KindIndex::Uint64 => Kind::Uint64,
            KindIndex::Sint32 => Kind::Sint32,
            KindIndex::Sint64 => Kind::Sint64,
            KindIndex::Fixed32 => Kind::Fixed32,
            KindIndex::Fixed64 => Kind::Fixed64,
            KindIndex::Sfixed32 => Kind::Sfixed32,
            KindIndex::Sfixed64 => Kind::Sfixed64,
            KindIndex::Bool => Kind::Bool,
            KindIndex::String => Kind::String,
            KindIndex::Bytes => Kind::Bytes,
            KindIndex::Message(index) | KindIndex::Group(index) => {
                Kind::Message(MessageDescriptor::new(index))
            }
            KindIndex::Enum(index) => Kind::Enum(EnumDescriptor::new(index)),
        }
    }

    /// The name that stands in a `.proto` file; of a group, a message and an enum the word for it.
    pub fn name(&self) -> &'static str
        ensures { result.now ≡ kind_name self.now }
    {
        match self {
            KindIndex::Double => "double",
            KindIndex::Float => "float",
            KindIndex::Int32 => "int32",
            KindIndex::Int64 => "int64",
            KindIndex::Uint32 => "uint32",
            KindIndex::Uint64 => "uint64",
            KindIndex::Sint32 => "sint32",
            KindIndex::Sint64 => "sint64",
            KindIndex::Fixed32 => "fixed32",
            KindIndex::Fixed64 => "fixed64",
            KindIndex::Sfixed32 => "sfixed32",
            KindIndex::Sfixed64 => "sfixed64",
            KindIndex::Bool => "bool",
            KindIndex::String => "string",
            KindIndex::Bytes => "bytes",
            KindIndex::Message(_) | KindIndex::Group(_) => "message",
            KindIndex::Enum(_) => "enum",
        }
    }
}

impl fmt::Debug for KindIndex {
    ghost use Rattle.std.specs.Prelude.{Some};
    ghost use Rattle.pool_types.specs.Kinds.{kind_name};

    ghost debug_output = { λ kind. Some (kind_name kind) };

    fn fmt<W: fmt::Write>(&self, f: &mut fmt::Formatter<W>) -> fmt::Result {
        let name = self.name();
        write!(f, "{name}")
    }
}

/// The kind of a type that names nothing else; none of a group, a message or an enum.
pub fn simple_kind(written: FieldType) -> Option<KindIndex>
    ensures { result ≡ simple_kind written }
{
    match written {
        FieldType::Double => Some(KindIndex::Double),
        FieldType::Float => Some(KindIndex::Float),
        FieldType::Int64 => Some(KindIndex::Int64),
        FieldType::Uint64 => Some(KindIndex::Uint64),
        FieldType::Int32 => Some(KindIndex::Int32),
        FieldType::Fixed64 => Some(KindIndex::Fixed64),
        FieldType::Fixed32 => Some(KindIndex::Fixed32),
        FieldType::Bool => Some(KindIndex::Bool),
        FieldType::String => Some(KindIndex::String),
        FieldType::Bytes => Some(KindIndex::Bytes),
        FieldType::Uint32 => Some(KindIndex::Uint32),
        FieldType::Sfixed32 => Some(KindIndex::Sfixed32),
        FieldType::Sfixed64 => Some(KindIndex::Sfixed64),
        FieldType::Sint32 => Some(KindIndex::Sint32),
        FieldType::Sint64 => Some(KindIndex::Sint64),
        FieldType::Group | FieldType::Message | FieldType::Enum => None,
    }
}

/// The kind of a type that names this definition, which wins over the type as it is written; none
/// where the definition is no message and no enum.
pub fn named_kind(written: FieldType, definition: DefinitionKind) -> Option<KindIndex>
    ensures { result ≡ named_kind written definition }
{
    match definition {
        DefinitionKind::Message(index) => match written {
            FieldType::Group => Some(KindIndex::Group(index)),
            _ => Some(KindIndex::Message(index)),
        },
        DefinitionKind::Enum(index) => Some(KindIndex::Enum(index)),
        _ => None,
    }
}

/// How often a field with the label stands in a message.
pub fn cardinality_of(label: FieldLabel) -> Cardinality
    ensures { result ≡ cardinality_of label }
{
    match label {
        FieldLabel::Optional => Cardinality::Optional,
        FieldLabel::Required => Cardinality::Required,
        FieldLabel::Repeated => Cardinality::Repeated,
    }
}
