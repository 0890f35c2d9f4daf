ghost use Rattle.std.specs.Prelude.{◌≡◌, ◌+◌, ◌<◌, ◌^◌, true, IfOk, OnOk, length, drop};
ghost use Rattle.std.specs.Prelude.{◌++◌, ◌∷◌, List, [], IfSome, get_or, unwrap_or};
ghost use Rattle.std.specs.List.{All};
ghost use Rattle.record_walk.specs.Shown.{Shown};
ghost use Rattle.proto_types.specs.declared.file.FileDescriptorProto.{FileDescriptorProto};
ghost use Rattle.proto_types.specs.declared.records.field.FieldDescriptorProto.{FieldDescriptorProto};
ghost use Rattle.pool_types.specs.declared.kinds.KindIndex.TheVariants.{Double};
ghost use Rattle.proto_types.specs.Field.{no_field};
ghost use Rattle.proto_types.specs.declared.message.DescriptorProto.{out-DescriptorProto};
ghost use Rattle.record_walk.specs.Counts.{lists_fit};
ghost use Rattle.record_walk.specs.Protos.{of_field, of_message};
ghost use Rattle.field_rules.specs.Bounds.{AreRangesOf};
ghost use Rattle.field_rules.specs.InnerNames.{AreNamesOf};
ghost use Rattle.reference_pass.specs.SecondPass.{field_record_faults};
ghost use Rattle.reference_pass.specs.Defaults.{field_default};
ghost use Rattle.reference_pass.specs.Types.{field_kind};
ghost use Rattle.reference_pass.specs.Plain.{IsPlain, field_of, field_shown, record_of};
ghost use Rattle.field_rules.specs.Numbers.{field_number_faults};
ghost use Rattle.reference_pass.specs.Items.{field_item};
ghost use Rattle.reference_pass.specs.Reading.{ReadingTells, setting_of};
ghost use Rattle.field_rules.specs.NamesBegin.{BeginsAtBoundary};
ghost use Rattle.record_walk.specs.Place.{field_at, inside_of, message_at, shown_at};
ghost use Rattle.pool_types.specs.Syntaxes.{is_proto3, syntax_at};

use crate::reading::Reading;
use crate::types::{plain_kind, type_and_default};
use field_rules::{
    InnerNames, MessageRanges, Owner, check_field_number, check_oneof_index, identity_of_field,
    is_free_number, is_packed, item_number, oneof_of, supports_presence,
};
use plain_data::duplicate_option;
use pool_types::{
    DefaultValue, FieldDescriptorInner, Identity, KindIndex, Syntax, cardinality_of, syntax_at,
};
use proto_types::FieldDescriptorProto;
use record_walk::Place;
use std::alloc::AllocError;

/// A message whose fields are read: its ranges of numbers, and whether its file is written in
/// proto3.
#[derive(Clone, Copy)]
pub(crate) struct FieldOwner<'a> {
    pub(crate) owner: Owner<'a>,
    pub(crate) ranges: &'a MessageRanges,
    pub(crate) is_proto3: bool,
}

/// Puts the item of the field of a message with a position behind others; its full name comes
/// next. What the field breaks by itself is appended to `reading`: its number, its type, its
/// default value, its oneof.
pub(crate) fn push_field(
    items: &mut Vec<FieldDescriptorInner>,
    reading: &mut Reading,
    of: &FieldOwner,
    names: &mut InnerNames,
    position: usize,
) -> Result<(), AllocError>
    requires short { lists_fit (of_message of.now.owner.message.now) ≡ true }
    requires ranges { AreRangesOf of.now.ranges.now of.now.owner.message.now }
    requires proto3 { of.now.is_proto3
        ≡ is_proto3 (syntax_at (setting_of reading.old).files of.now.owner.place.file) }
    requires there { position < length (out-DescriptorProto of.now.owner.message.now).field }
    requires names { AreNamesOf names.old of.now.owner.place.full_name.now
        (drop position (out-DescriptorProto of.now.owner.message.now).field) }
    ensures items { OnOk result (items.new.items ≡ items.old.items
        ++ field_item (setting_of reading.old)
        (out-DescriptorProto of.now.owner.message.now).oneof_decl
        (field_at (inside_of of.now.owner.place) position
        (get_or (out-DescriptorProto of.now.owner.message.now).field position no_field))
        (get_or (out-DescriptorProto of.now.owner.message.now).field position no_field) ∷ []) }
    ensures begin { OnOk result (All (λ f. BeginsAtBoundary f.id) items.old.items
        → All (λ f. BeginsAtBoundary f.id) items.new.items) }
    ensures names { OnOk result (AreNamesOf names.new of.now.owner.place.full_name.now
        (drop (position + 1) (out-DescriptorProto of.now.owner.message.now).field)) }
    ensures faults { OnOk result (ReadingTells reading.old reading.new
        (field_record_faults (setting_of reading.old)
        (message_at of.now.owner.place of.now.owner.message.now, of.now.owner.message.now)
        (field_at (inside_of of.now.owner.place) position
        (get_or (out-DescriptorProto of.now.owner.message.now).field position no_field))
        (get_or (out-DescriptorProto of.now.owner.message.now).field position no_field))) }
{
    // Room first, so that an item is made where it stays.
    items.reserve(1)?;
    let field = &of.owner.message.field.as_slice()[position];
    let Some(kind) = free_kind(reading, of, field) else {
        items.push_reserved(read_any_field(reading, of, names, position)?);
        return Ok(());
    };
    let id = identity_of_field(names, of.owner.place, position, field)?;
    let json_name = duplicate_option(reading.faults.alloc, &field.json_name)?;
    let oneofs = of.owner.message.oneof_decl.as_slice();
    check_oneof_index(&mut reading.faults, oneofs, field)?;
    items.push_reserved(FieldDescriptorInner {
        id,
        number: item_number(field.number()),
        json_name,
        kind,
        oneof: oneof_of(oneofs, field),
        is_packed: is_packed(of.is_proto3, kind, field),
        supports_presence: supports_presence(of.is_proto3, kind, field),
        cardinality: cardinality_of(field.label()),
        default: None,
    });
    Ok(())
}

/// The kind of a field of a message whose number is free, and whose type and default value break
/// nothing, as `plain_kind` answers it.
#[inline(always)]
fn free_kind(reading: &Reading, of: &FieldOwner, field: &FieldDescriptorProto) -> Option<KindIndex>
    requires { AreRangesOf of.now.ranges.now of.now.owner.message.now }
    ensures plain { IfSome result (λ kind. (d : Shown) → d.file ≡ of.now.owner.place.file
        → IsPlain (setting_of reading.now) d field.now kind) }
    ensures free { IfSome result (λ kind. (files : List FileDescriptorProto) (owner d : Shown)
        → field_number_faults files owner of.now.owner.message.now d field.now ≡ []) }
{
    if !is_free_number(of.ranges, field) {
        return None;
    }
    plain_kind(reading, of.owner.place.file, field)
}

/// The item of the field of a message with a position, whose full name comes next. What the field
/// breaks by itself is appended to `reading`.
// Not inlined, since few fields come to it.
#[inline(never)]
fn read_any_field(
    reading: &mut Reading,
    of: &FieldOwner,
    names: &mut InnerNames,
    position: usize,
) -> Result<FieldDescriptorInner, AllocError>
    requires short { lists_fit (of_message of.now.owner.message.now) ≡ true }
    requires ranges { AreRangesOf of.now.ranges.now of.now.owner.message.now }
    requires proto3 { of.now.is_proto3
        ≡ is_proto3 (syntax_at (setting_of reading.old).files of.now.owner.place.file) }
    requires there { position < length (out-DescriptorProto of.now.owner.message.now).field }
    requires names { AreNamesOf names.old of.now.owner.place.full_name.now
        (drop position (out-DescriptorProto of.now.owner.message.now).field) }
    ensures item { IfOk result (λ item. item
        ≡ field_item (setting_of reading.old)
        (out-DescriptorProto of.now.owner.message.now).oneof_decl
        (field_at (inside_of of.now.owner.place) position
        (get_or (out-DescriptorProto of.now.owner.message.now).field position no_field))
        (get_or (out-DescriptorProto of.now.owner.message.now).field position no_field)) }
    ensures begins { IfOk result (λ item. BeginsAtBoundary item.id) }
    ensures names { OnOk result (AreNamesOf names.new of.now.owner.place.full_name.now
        (drop (position + 1) (out-DescriptorProto of.now.owner.message.now).field)) }
    ensures faults { OnOk result (ReadingTells reading.old reading.new
        (field_record_faults (setting_of reading.old)
        (message_at of.now.owner.place of.now.owner.message.now, of.now.owner.message.now)
        (field_at (inside_of of.now.owner.place) position
        (get_or (out-DescriptorProto of.now.owner.message.now).field position no_field))
        (get_or (out-DescriptorProto of.now.owner.message.now).field position no_field))) }
{
    let alloc = reading.faults.alloc;
    let around = of.owner.place;
    let field = &of.owner.message.field.as_slice()[position];
    let id = identity_of_field(names, around, position, field)?;
    let (kind, default) = check_field(reading, of, &id, position)?;
    let json_name = duplicate_option(alloc, &field.json_name)?;
    let oneofs = of.owner.message.oneof_decl.as_slice();
    Ok(FieldDescriptorInner {
        id,
        number: item_number(field.number()),
        json_name,
        kind,
        oneof: oneof_of(oneofs, field),
        is_packed: is_packed(of.is_proto3, kind, field),
        supports_presence: supports_presence(of.is_proto3, kind, field),
        cardinality: cardinality_of(field.label()),
        default,
    })
}

/// The kind of the type of a field of a message and its default value, where one is given; where
/// the type has a fault, a number stands in for it. What the field breaks by itself is appended to
/// `reading`.
fn check_field(
    reading: &mut Reading,
    of: &FieldOwner,
    id: &Identity,
    position: usize,
) -> Result<(KindIndex, Option<DefaultValue>), AllocError>
    requires short { lists_fit (of_message of.now.owner.message.now) ≡ true }
    requires ranges { AreRangesOf of.now.ranges.now of.now.owner.message.now }
    requires there { position < length (out-DescriptorProto of.now.owner.message.now).field }
    ensures kind { IfOk result (λ t. t.0 ≡ unwrap_or
        (field_kind (setting_of reading.old) (field_of of.now id.now position)
        (record_of of.now position)) Double) }
    ensures default { IfOk result (λ t. t.1 ≡ field_default (setting_of reading.old)
        (field_of of.now id.now position) (record_of of.now position)) }
    ensures faults { OnOk result (ReadingTells reading.old reading.new
        (field_record_faults (setting_of reading.old)
        (message_at of.now.owner.place of.now.owner.message.now, of.now.owner.message.now)
        (field_of of.now id.now position) (record_of of.now position))) }
{
    let field = &of.owner.message.field.as_slice()[position];
    let place = place_of(of.owner.place, id, position);
    check_field_number(&mut reading.faults, of.owner, of.ranges, place, field)?;
    let (kind, default) = type_and_default(reading, place, field)?;
    let oneofs = of.owner.message.oneof_decl.as_slice();
    check_oneof_index(&mut reading.faults, oneofs, field)?;
    Ok((kind.unwrap_or(KindIndex::Double), default))
}

/// Where the field of a message with a position stands that has an identity.
fn place_of<'a>(owner: Place, id: &'a Identity, position: usize) -> Place<'a, 'a>
    requires { position < 2 ^ 32 }
    ensures { (f : FieldDescriptorProto) → shown_at result (of_field f)
        ≡ field_shown owner.entry id.now position f }
{
    Place {
        file: owner.file,
        parent: Some(owner.index),
        index: position as u32,
        path: id.path.as_slice(),
        full_name: id.full_name.as_str(),
    }
}

/// Whether the file with an index is written in proto3.
pub(crate) fn is_proto3(reading: &Reading, file: u32) -> bool
    ensures { result ≡ is_proto3 (syntax_at (setting_of reading.now).files file) }
{
    match syntax_at(reading.faults.files(), file) {
        Syntax::Proto2 => false,
        Syntax::Proto3 => true,
    }
}
