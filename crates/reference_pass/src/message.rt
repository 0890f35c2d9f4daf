ghost use Rattle.std.specs.Prelude.{◌≡◌, true, [], length, IfOk, OnOk};
ghost use Rattle.std.specs.List.{All};
ghost use Rattle.proto_types.specs.declared.message.DescriptorProto.{out-DescriptorProto};
ghost use Rattle.record_walk.specs.Counts.{lists_fit};
ghost use Rattle.record_walk.specs.FullNames.{EndsWithName};
ghost use Rattle.record_walk.specs.Protos.{of_message};
ghost use Rattle.field_rules.specs.MapsOf.{AreMapsOf};
ghost use Rattle.field_rules.specs.Bounds.{AreRangesOf};
ghost use Rattle.reference_pass.specs.SecondPass.{faults_of_fields, message_faults};
ghost use Rattle.reference_pass.specs.Items.{field_items, message_item, oneof_items};
ghost use Rattle.field_rules.specs.NamesBegin.{BeginsAtBoundary};
ghost use Rattle.reference_pass.specs.NamesBegin.{MessageNamesBegin};
ghost use Rattle.record_walk.specs.Place.{inside_of, message_at};
ghost use Rattle.pool_types.specs.Syntaxes.{is_proto3, syntax_at};
ghost use Rattle.reference_pass.specs.Reading.{ReadingTells, setting_of};

use crate::field::{FieldOwner, is_proto3, push_field};
use crate::reading::Reading;
use field_rules::{
    FieldMaps, InnerNames, ListPlace, MessageRanges, Owner, identity, identity_inside, members,
};
use plain_data::{Items, NumberMap};
use pool_types::{FieldDescriptorInner, MessageDescriptorInner, OneofDescriptorInner};
use proto_types::{DescriptorProto, tag};
use record_walk::Place;
use std::alloc::{AllocError, Global};

/// The item of a message, with its fields, its oneofs and its maps, before what extends it is
/// known. What its fields break is appended to `reading`, one field after another: its number, its
/// type, its default value, its oneof, and that an earlier field has its number or its JSON name.
/// The lists of the message are short enough for a pool. Where its name ends its full name, the
/// names of the item begin where a character begins.
///
/// # Errors
/// `AllocError` where memory was refused.
// Inlined, so that the item is made where it stays.
#[inline(always)]
pub fn read_message(
    reading: &mut Reading,
    place: Place,
    message: &DescriptorProto,
) -> Result<MessageDescriptorInner, AllocError>
    requires { lists_fit (of_message message.now) ≡ true }
    ensures item { IfOk result (λ item. item
        ≡ message_item (setting_of reading.old)
        (message_at place.entry message.now) message.now) }
    ensures begins { IfOk result (λ item.
        EndsWithName (message_at place.entry message.now) → MessageNamesBegin item) }
    ensures faults { OnOk result (ReadingTells reading.old reading.new
        (message_faults (setting_of reading.old)
        (message_at place.entry message.now) message.now)) }
{
    let alloc = reading.faults.alloc;
    let id = identity(alloc, place, message.name())?;
    let mut maps = FieldMaps::new(alloc, message.field.as_slice())?;
    let ranges = MessageRanges::new(alloc, message)?;
    let of = FieldOwner {
        owner: Owner { place, message },
        ranges: &ranges,
        is_proto3: is_proto3(reading, place.file),
    };
    let fields = read_fields(reading, of, &mut maps)?;
    let oneofs = read_oneofs(alloc, place, message)?;
    Ok(MessageDescriptorInner {
        id,
        parent: place.parent,
        extensions: Items::new(alloc),
        extension_numbers: NumberMap::new(alloc),
        fields: Items::from_vec(fields),
        field_numbers: maps.numbers,
        field_names: maps.names,
        field_json_names: maps.json_names,
        oneofs: Items::from_vec(oneofs),
    })
}

/// The items of the fields of a message, which are entered into its maps.
fn read_fields(
    reading: &mut Reading,
    of: FieldOwner,
    maps: &mut FieldMaps,
) -> Result<Vec<FieldDescriptorInner>, AllocError>
    requires short { lists_fit (of_message of.owner.message.now) ≡ true }
    requires ranges { AreRangesOf of.ranges.now of.owner.message.now }
    requires proto3 { of.is_proto3
        ≡ is_proto3 (syntax_at (setting_of reading.old).files of.owner.place.file) }
    requires maps { AreMapsOf maps.old (out-DescriptorProto of.owner.message.now).field 0 }
    ensures items { IfOk result (λ items. items.items
        ≡ field_items (setting_of reading.old)
        (out-DescriptorProto of.entry.owner.message.now).oneof_decl
        (inside_of of.entry.owner.place) (out-DescriptorProto of.entry.owner.message.now).field) }
    ensures begin { IfOk result (λ items. All (λ f. BeginsAtBoundary f.id) items.items) }
    ensures maps { OnOk result (AreMapsOf maps.new
        (out-DescriptorProto of.entry.owner.message.now).field
        (length (out-DescriptorProto of.entry.owner.message.now).field)) }
    ensures faults { OnOk result (ReadingTells reading.old reading.new
        (faults_of_fields (setting_of reading.old)
        (message_at of.entry.owner.place of.entry.owner.message.now, of.entry.owner.message.now)
        (out-DescriptorProto of.entry.owner.message.now).field)) }
{
    let fields = of.owner.message.field.as_slice();
    let alloc = reading.faults.alloc;
    let mut names = InnerNames::new(alloc, of.owner.place.full_name, fields)?;
    let mut items = Vec::with_capacity(alloc, fields.len())?;
    for position in 0..fields.len() {
        push_field(&mut items, reading, &of, &mut names, position)?;
        maps.insert(&mut reading.faults, &of.owner, position)?;
    }
    Ok(items)
}

/// The items of the oneofs of a message, each with the positions of its fields.
fn read_oneofs(
    alloc: Global,
    place: Place,
    message: &DescriptorProto,
) -> Result<Vec<OneofDescriptorInner>, AllocError>
    requires { lists_fit (of_message message.now) ≡ true }
    ensures items { IfOk result (λ items. items.items
        ≡ oneof_items (out-DescriptorProto message.now).field (inside_of place.entry)
        (out-DescriptorProto message.now).oneof_decl) }
    ensures begin { IfOk result (λ items. All (λ o. BeginsAtBoundary o.id) items.items) }
{
    let oneofs = message.oneof_decl.as_slice();
    if oneofs.is_empty() {
        return Ok(Vec::new(alloc));
    }
    let lists = members(alloc, oneofs, message.field.as_slice())?;
    let mut items = Vec::with_capacity(alloc, oneofs.len())?;
    for (position, oneof) in oneofs.iter().enumerate() {
        let at = ListPlace {
            tag: tag::message::ONEOF_DECL,
            position,
        };
        let id = identity_inside(alloc, place, at, oneof.name())?;
        let fields = Items::from_slice(alloc, lists[position].as_slice())?;
        items.push(OneofDescriptorInner { id, fields })?;
    }
    Ok(items)
}
