//! What a pool has, as plain numbers. Indexes and positions count from 0, and `NONE` stands where
//! there is none. A flag is 0 or 1.

ghost use Rattle.std.specs.Prelude.{◌≡◌};
ghost use Rattle.numbered_pool.specs.Numbers as spec;

use descriptor_pool::DescriptorPool;
use pool_types::{
    Cardinality, Definition, DefinitionKind, EnumDescriptorInner, EnumValueDescriptorInner,
    ExtensionDescriptorInner, FieldDescriptorInner, FileDescriptorInner, KindIndex,
    MessageDescriptorInner, MethodDescriptorInner, OneofDescriptorInner, ServiceDescriptorInner,
    Syntax,
};
use record_lists::{
    enum_parts, field_parts, is_closed, is_deprecated, is_group, is_list, is_map, is_repeated,
    is_required, is_service_deprecated, is_synthetic, is_value_deprecated, message_parts,
    method_parts,
};
use record_walk::Counts;

/// The number that stands where there is none.
pub const NONE: u32 = u32::MAX;

/// How many of each kind a pool has.
#[repr(C)]
#[derive(Clone, Copy)]
pub struct PoolCounts {
    pub files: u32,
    pub messages: u32,
    pub enums: u32,
    pub services: u32,
    pub extensions: u32,
}

/// What has a name.
#[repr(C)]
#[derive(Clone, Copy)]
pub struct Item {
    /// 0 a package, 1 a message, 2 a field, 3 a oneof, 4 a service, 5 a method, 6 an enum, 7 an
    /// enum's value, 8 an extension.
    pub kind: u32,
    /// Its own index; of a field or a oneof that of its message, of a method of its service, of a
    /// value of its enum; of a package `NONE`.
    pub index: u32,
    /// The position there of a field, a oneof, a method or a value; else 0.
    pub position: u32,
}

/// What a full name means.
#[repr(C)]
#[derive(Clone, Copy)]
pub struct Found {
    pub item: Item,
    /// The index of the file in which it is declared.
    pub file: u32,
}

/// A file.
#[repr(C)]
#[derive(Clone, Copy)]
pub struct FileItem {
    /// 2 or 3.
    pub syntax: u32,
    /// How many files it imports.
    pub imports: u64,
    /// How many of these imports are public.
    pub public_imports: u64,
    /// How many messages it has that stand in no message.
    pub messages: u64,
    /// How many enums it has that stand in no message.
    pub enums: u64,
    /// How many services it has.
    pub services: u64,
    /// How many extensions it declares that stand in no message.
    pub extensions: u64,
    /// Whether its options say so.
    pub is_deprecated: u32,
}

/// A message.
#[repr(C)]
#[derive(Clone, Copy)]
pub struct MessageItem {
    /// The index of its file.
    pub file: u32,
    /// The index of the message around it, or `NONE`.
    pub parent: u32,
    /// How many fields it has.
    pub fields: u64,
    /// How many oneofs it has.
    pub oneofs: u64,
    /// How many extensions of the pool extend it.
    pub extensions: u64,
    /// How many messages stand in it, without those in one of these.
    pub nested_messages: u64,
    /// How many enums stand in it.
    pub nested_enums: u64,
    /// How many extensions stand in it, whatever they extend.
    pub nested_extensions: u64,
    /// How many ranges of numbers it leaves to extensions.
    pub extension_ranges: u64,
    /// How many ranges of numbers it reserves.
    pub reserved_ranges: u64,
    /// How many names it reserves.
    pub reserved_names: u64,
    /// The position of the key, where it is the entry of a map and has one, or `NONE`.
    pub map_key: u32,
    /// The position of the value, where it is the entry of a map and has one, or `NONE`.
    pub map_value: u32,
    /// Whether its options say that it is the entry of a map.
    pub is_map_entry: u32,
    /// Whether its options say that it is a message set on the wire.
    pub is_message_set: u32,
    /// Whether its options say so.
    pub is_deprecated: u32,
}

/// A field of a message.
#[repr(C)]
#[derive(Clone, Copy)]
pub struct FieldItem {
    /// Its field number.
    pub number: u32,
    /// A label of descriptor.proto: 1 optional, 2 required, 3 repeated.
    pub cardinality: u32,
    /// A type by its number in descriptor.proto, from 1 double to 18 sint64.
    pub kind: u32,
    /// The index of the message or the enum that is its type, or `NONE`.
    pub type_index: u32,
    /// The position of its oneof in its message, or `NONE`.
    pub oneof: u32,
    /// Whether its values are encoded as one run of bytes.
    pub is_packed: u32,
    /// Whether a message tells that it is set.
    pub supports_presence: u32,
    /// Whether a default value was given.
    pub has_default: u32,
    /// Whether it is repeated, and its type is the entry of a map.
    pub is_map: u32,
    /// Whether it is repeated and no map.
    pub is_list: u32,
    /// Whether it must be set.
    pub is_required: u32,
    /// Whether its type is a group.
    pub is_group: u32,
    /// Whether it is optional by word in proto3.
    pub is_proto3_optional: u32,
    /// Whether its options say so.
    pub is_deprecated: u32,
}

/// An extension.
#[repr(C)]
#[derive(Clone, Copy)]
pub struct ExtensionItem {
    /// The index of its file.
    pub file: u32,
    /// The index of the message around it, or `NONE`.
    pub parent: u32,
    /// The index of the message that it extends.
    pub extendee: u32,
    /// Its field number there.
    pub number: u32,
    /// A label of descriptor.proto: 1 optional, 2 required, 3 repeated.
    pub cardinality: u32,
    /// A type by its number in descriptor.proto, from 1 double to 18 sint64.
    pub kind: u32,
    /// The index of the message or the enum that is its type, or `NONE`.
    pub type_index: u32,
    /// Whether its values are encoded as one run of bytes.
    pub is_packed: u32,
    /// Whether a default value was given.
    pub has_default: u32,
    /// Whether a message tells that it is set: it is not repeated.
    pub supports_presence: u32,
    /// Whether it is repeated, and its type is the entry of a map.
    pub is_map: u32,
    /// Whether it is repeated and no map.
    pub is_list: u32,
    /// Whether its type is a group.
    pub is_group: u32,
    /// Whether it is optional by word in proto3.
    pub is_proto3_optional: u32,
    /// Whether its options say so.
    pub is_deprecated: u32,
}

/// A oneof of a message.
#[repr(C)]
#[derive(Clone, Copy)]
pub struct OneofItem {
    /// How many fields it has.
    pub fields: u64,
    /// Whether it was made for one field that is optional by word in proto3.
    pub is_synthetic: u32,
}

/// An enum.
#[repr(C)]
#[derive(Clone, Copy)]
pub struct EnumItem {
    /// The index of its file.
    pub file: u32,
    /// The index of the message around it, or `NONE`.
    pub parent: u32,
    /// How many values it has.
    pub values: u64,
    /// Whether two values may have one number.
    pub allow_alias: u32,
    /// How many ranges of numbers it reserves.
    pub reserved_ranges: u64,
    /// How many names it reserves.
    pub reserved_names: u64,
    /// Whether it has its values alone: its file is not of proto3.
    pub is_closed: u32,
    /// Whether its options say so.
    pub is_deprecated: u32,
}

/// A value of an enum.
#[repr(C)]
#[derive(Clone, Copy)]
pub struct ValueItem {
    pub number: i32,
    /// Whether its options say so.
    pub is_deprecated: u32,
}

/// A service.
#[repr(C)]
#[derive(Clone, Copy)]
pub struct ServiceItem {
    /// The index of its file.
    pub file: u32,
    /// How many methods it has.
    pub methods: u64,
    /// Whether its options say so.
    pub is_deprecated: u32,
}

/// A method of a service.
#[repr(C)]
#[derive(Clone, Copy)]
pub struct MethodItem {
    /// The index of the message that it takes.
    pub input: u32,
    /// The index of the message that it gives.
    pub output: u32,
    /// Whether it takes a stream of them.
    pub client_streaming: u32,
    /// Whether it gives a stream of them.
    pub server_streaming: u32,
    /// Whether its options say so.
    pub is_deprecated: u32,
}

/// A range of numbers, by the two numbers of its record: of a message the last one is behind the
/// range, of an enum it is in the range.
#[repr(C)]
#[derive(Clone, Copy)]
pub struct NumberRange {
    pub start: i32,
    pub end: i32,
}

/// A flag as a number.
fn flag(holds: bool) -> u32
    ensures { result ≡ spec.flag holds }
{
    if holds { 1 } else { 0 }
}

/// A number that may be missing.
fn or_none(number: Option<u32>) -> u32
    ensures { result ≡ spec.or_none number }
{
    number.unwrap_or(NONE)
}

/// The number of a label.
fn cardinality_number(cardinality: Cardinality) -> u32
    ensures { result ≡ spec.cardinality_number cardinality }
{
    match cardinality {
        Cardinality::Optional => 1,
        Cardinality::Required => 2,
        Cardinality::Repeated => 3,
    }
}

/// The index of the message or the enum that is a type.
fn type_index(kind: KindIndex) -> u32
    ensures { result ≡ spec.type_index kind }
{
    match kind {
        KindIndex::Message(index) | KindIndex::Group(index) | KindIndex::Enum(index) => index,
        _ => NONE,
    }
}

/// The number of a syntax.
fn syntax_number(syntax: Syntax) -> u32
    ensures { result ≡ spec.syntax_number syntax }
{
    match syntax {
        Syntax::Proto2 => 2,
        Syntax::Proto3 => 3,
    }
}

/// The numbers of the kind of a definition: the kind, and the index that it holds.
fn definition_numbers(kind: DefinitionKind) -> (u32, u32)
    ensures { result ≡ spec.definition_numbers kind }
{
    match kind {
        DefinitionKind::Package => (0, NONE),
        DefinitionKind::Message(index) => (1, index),
        DefinitionKind::Field(index) => (2, index),
        DefinitionKind::Oneof(index) => (3, index),
        DefinitionKind::Service(index) => (4, index),
        DefinitionKind::Method(index) => (5, index),
        DefinitionKind::Enum(index) => (6, index),
        DefinitionKind::EnumValue(index) => (7, index),
        DefinitionKind::Extension(index) => (8, index),
    }
}

/// Counts as plain numbers.
pub(crate) fn pool_counts(counts: Counts) -> PoolCounts
    ensures { result ≡ spec.pool_counts counts }
{
    PoolCounts {
        files: counts.files,
        messages: counts.messages,
        enums: counts.enums,
        services: counts.services,
        extensions: counts.extensions,
    }
}

/// The position of a part in what it stands in, by the path of its name: the last number but one.
pub(crate) fn part_position(path: &[i32]) -> u32
    ensures { result ≡ spec.part_position path.now }
{
    let Some(position) = path.get(path.len().saturating_sub(2)) else {
        return 0;
    };
    u32::try_from(*position).unwrap_or(0)
}

/// The position of a definition in what it stands in, where it is a part.
fn position(kind: DefinitionKind, path: &[i32]) -> u32
    ensures { result ≡ spec.position kind path.now }
{
    match kind {
        DefinitionKind::Field(_)
        | DefinitionKind::Oneof(_)
        | DefinitionKind::Method(_)
        | DefinitionKind::EnumValue(_) => part_position(path),
        _ => 0,
    }
}

/// A definition as plain numbers.
pub(crate) fn found_item(definition: &Definition) -> Found
    ensures { result ≡ spec.found_item definition.now }
{
    let (kind, index) = definition_numbers(definition.kind);
    let position = position(definition.kind, definition.path.as_slice());
    Found {
        item: Item {
            kind,
            index,
            position,
        },
        file: definition.file,
    }
}

/// What kind an item is, with its index, or none where its kind is none.
pub(crate) fn definition_kind(item: Item) -> Option<DefinitionKind>
    ensures { result ≡ spec.definition_kind item }
{
    let index = item.index;
    let kinds = [
        DefinitionKind::Package,
        DefinitionKind::Message(index),
        DefinitionKind::Field(index),
        DefinitionKind::Oneof(index),
        DefinitionKind::Service(index),
        DefinitionKind::Method(index),
        DefinitionKind::Enum(index),
        DefinitionKind::EnumValue(index),
        DefinitionKind::Extension(index),
    ];
    kinds.get(item.kind as usize).copied()
}

/// A file as plain numbers.
pub(crate) fn file_item(file: &FileDescriptorInner) -> FileItem
    ensures { result ≡ spec.file_item file.now }
{
    let raw = &file.raw;
    FileItem {
        syntax: syntax_number(file.syntax),
        imports: file.dependencies.as_slice().len() as u64,
        public_imports: raw.public_dependency.as_slice().len() as u64,
        messages: raw.message_type.as_slice().len() as u64,
        enums: raw.enum_type.as_slice().len() as u64,
        services: raw.service.as_slice().len() as u64,
        extensions: raw.extension.as_slice().len() as u64,
        is_deprecated: flag(is_deprecated(raw)),
    }
}

/// The position of the field with a number, where a message is the entry of a map.
fn entry_field(is_entry: bool, message: &MessageDescriptorInner, number: u32) -> u32
    ensures { result ≡ spec.entry_field is_entry message.now number }
{
    if is_entry {
        or_none(message.field_numbers.get(number))
    } else {
        NONE
    }
}

/// A message as plain numbers, with what its record has.
pub(crate) fn message_item(pool: &DescriptorPool, message: &MessageDescriptorInner) -> MessageItem
    ensures { result ≡ spec.message_item pool.now message.now }
{
    let parts = message_parts(pool.files(), &message.id);
    MessageItem {
        file: message.id.file,
        parent: or_none(message.parent),
        fields: message.fields.as_slice().len() as u64,
        oneofs: message.oneofs.as_slice().len() as u64,
        extensions: message.extensions.as_slice().len() as u64,
        nested_messages: parts.nested_messages,
        nested_enums: parts.nested_enums,
        nested_extensions: parts.nested_extensions,
        extension_ranges: parts.extension_ranges,
        reserved_ranges: parts.reserved_ranges,
        reserved_names: parts.reserved_names,
        map_key: entry_field(parts.is_map_entry, message, 1),
        map_value: entry_field(parts.is_map_entry, message, 2),
        is_map_entry: flag(parts.is_map_entry),
        is_message_set: flag(parts.is_message_set),
        is_deprecated: flag(parts.is_deprecated),
    }
}

/// A field as plain numbers, with what its record says.
pub(crate) fn field_item(pool: &DescriptorPool, field: &FieldDescriptorInner) -> FieldItem
    ensures { result ≡ spec.field_item pool.now field.now }
{
    let parts = field_parts(pool.files(), &field.id);
    FieldItem {
        number: field.number,
        cardinality: cardinality_number(field.cardinality),
        kind: u32::from(field.kind.type_number()),
        type_index: type_index(field.kind),
        oneof: or_none(field.oneof),
        is_packed: flag(field.is_packed),
        supports_presence: flag(field.supports_presence),
        has_default: flag(field.default.is_some()),
        is_map: flag(is_map(pool.files(), pool.messages(), field.cardinality, field.kind)),
        is_list: flag(is_list(pool.files(), pool.messages(), field.cardinality, field.kind)),
        is_required: flag(is_required(field.cardinality)),
        is_group: flag(is_group(field.kind)),
        is_proto3_optional: flag(parts.is_proto3_optional),
        is_deprecated: flag(parts.is_deprecated),
    }
}

/// An extension as plain numbers, with what its record says.
pub(crate) fn extension_item(
    pool: &DescriptorPool,
    extension: &ExtensionDescriptorInner,
) -> ExtensionItem
    ensures { result ≡ spec.extension_item pool.now extension.now }
{
    let parts = field_parts(pool.files(), &extension.id);
    ExtensionItem {
        file: extension.id.file,
        parent: or_none(extension.parent),
        extendee: extension.extendee,
        number: extension.number,
        cardinality: cardinality_number(extension.cardinality),
        kind: u32::from(extension.kind.type_number()),
        type_index: type_index(extension.kind),
        is_packed: flag(extension.is_packed),
        has_default: flag(extension.default.is_some()),
        supports_presence: flag(!is_repeated(extension.cardinality)),
        is_map: flag(is_map(
            pool.files(),
            pool.messages(),
            extension.cardinality,
            extension.kind,
        )),
        is_list: flag(is_list(
            pool.files(),
            pool.messages(),
            extension.cardinality,
            extension.kind,
        )),
        is_group: flag(is_group(extension.kind)),
        is_proto3_optional: flag(parts.is_proto3_optional),
        is_deprecated: flag(parts.is_deprecated),
    }
}

/// A oneof as plain numbers, among the fields of its message.
pub(crate) fn oneof_item(
    pool: &DescriptorPool,
    fields: &[FieldDescriptorInner],
    oneof: &OneofDescriptorInner,
) -> OneofItem
    ensures { result ≡ spec.oneof_item pool.now fields.now oneof.now }
{
    OneofItem {
        fields: oneof.fields.as_slice().len() as u64,
        is_synthetic: flag(is_synthetic(pool.files(), fields, oneof.fields.as_slice())),
    }
}

/// An enum as plain numbers, with what its record has.
pub(crate) fn enum_item(pool: &DescriptorPool, enumeration: &EnumDescriptorInner) -> EnumItem
    ensures { result ≡ spec.enum_item pool.now enumeration.now }
{
    let parts = enum_parts(pool.files(), &enumeration.id);
    EnumItem {
        file: enumeration.id.file,
        parent: or_none(enumeration.parent),
        values: enumeration.values.as_slice().len() as u64,
        allow_alias: flag(enumeration.allow_alias),
        reserved_ranges: parts.reserved_ranges,
        reserved_names: parts.reserved_names,
        is_closed: flag(is_closed(pool.files(), enumeration)),
        is_deprecated: flag(parts.is_deprecated),
    }
}

/// A value as plain numbers, with what its record says.
pub(crate) fn value_item(pool: &DescriptorPool, value: &EnumValueDescriptorInner) -> ValueItem
    ensures { result ≡ spec.value_item pool.now value.now }
{
    ValueItem {
        number: value.number,
        is_deprecated: flag(is_value_deprecated(pool.files(), &value.id)),
    }
}

/// A service as plain numbers, with what its record says.
pub(crate) fn service_item(pool: &DescriptorPool, service: &ServiceDescriptorInner) -> ServiceItem
    ensures { result ≡ spec.service_item pool.now service.now }
{
    ServiceItem {
        file: service.id.file,
        methods: service.methods.as_slice().len() as u64,
        is_deprecated: flag(is_service_deprecated(pool.files(), &service.id)),
    }
}

/// A method as plain numbers, with what its record says.
pub(crate) fn method_item(pool: &DescriptorPool, method: &MethodDescriptorInner) -> MethodItem
    ensures { result ≡ spec.method_item pool.now method.now }
{
    let parts = method_parts(pool.files(), &method.id);
    MethodItem {
        input: method.input,
        output: method.output,
        client_streaming: flag(parts.client_streaming),
        server_streaming: flag(parts.server_streaming),
        is_deprecated: flag(parts.is_deprecated),
    }
}
