ghost use Rattle.std.specs.Prelude.{◌≡◌, ◌∷◌, ◌++◌, ◌<◌, ◌^◌, ◌-◌, List, IfOk, OnOk, length};
ghost use Rattle.std.specs.Str.{IsCharBoundary};
ghost use Rattle.proto_types.specs.Names.{join};
ghost use Rattle.proto_types.specs.Readers.{text_of};
ghost use Rattle.proto_types.specs.declared.records.field.FieldDescriptorProto.{FieldDescriptorProto};
ghost use Rattle.proto_types.specs.declared.records.enumeration.EnumValueDescriptorProto.{EnumValueDescriptorProto};
ghost use Rattle.proto_types.specs.declared.tag.enum_.TheConstants.{VALUE};
ghost use Rattle.proto_types.specs.declared.tag.message.TheConstants.{FIELD};
ghost use Rattle.record_walk.specs.FullNames.{EndsWith};
ghost use Rattle.proto_types.specs.Paths.{entry_path};
ghost use Rattle.field_rules.specs.Identities.{named_at, before_ending};
ghost use Rattle.field_rules.specs.InnerNames.{AreNamesBeside, AreNamesOf};
ghost use Rattle.field_rules.specs.NamesBegin.{BeginsAtBoundary};

use crate::inner_names::InnerNames;
use plain_data::{Path, Text};
use pool_types::Identity;
use proto_types::{EnumValueDescriptorProto, FieldDescriptorProto, join_text, joined_len, tag};
use record_walk::Place;
use std::alloc::{AllocError, Global};

/// Where a declaration stands that has this name. Where that ends the full name, it begins there
/// where a character begins.
///
/// # Errors
/// `AllocError` where memory was refused.
// Inlined, as the others are, so that an identity is made where it stays.
#[inline(always)]
pub fn identity(alloc: Global, place: Place, name: &str) -> Result<Identity, AllocError>
    ensures id { IfOk result (λ id. id
        ≡ named_at place.entry.file place.entry.path.now place.entry.full_name.now name.now) }
    ensures begins { IfOk result (λ id. EndsWith place.entry.full_name.now name.now
        → BeginsAtBoundary id) }
{
    Ok(Identity {
        file: place.file,
        path: Path::from_slice(alloc, place.path)?,
        full_name: Text::from_str(alloc, place.full_name)?,
        name_index: place.full_name.len().saturating_sub(name.len()),
    })
}

/// The place of an entry in a list of a declaration.
#[derive(Clone, Copy)]
pub struct ListPlace {
    /// The list's field number in descriptor.proto.
    pub tag: i32,
    /// From 0.
    pub position: usize,
}

/// Where an entry of a list of a declaration stands that is named inside it. Its position is below
/// 2 to the 31st. The name begins in the full name where a character begins.
///
/// # Errors
/// `AllocError` where memory was refused.
#[inline(always)]
pub fn identity_inside(
    alloc: Global,
    place: Place,
    at: ListPlace,
    name: &str,
) -> Result<Identity, AllocError>
    requires { at.position < 2 ^ 31 }
    ensures id { IfOk result (λ id. id ≡ named_at place.entry.file
        (entry_path place.entry.path.now at.tag at.position)
        (join place.entry.full_name.now name.now) name.now) }
    ensures begins { IfOk result (λ id. BeginsAtBoundary id) }
{
    Ok(Identity {
        file: place.file,
        path: Path::below(alloc, place.path, at.tag, at.position as i32)?,
        full_name: join_text(alloc, place.full_name, name)?,
        name_index: index_inside(place.full_name, name),
    })
}

/// Where the next field of a message stands, whose full name is taken. Its position is below 2 to
/// the 31st. The name begins in the full name where a character begins.
///
/// # Errors
/// `AllocError` where memory was refused.
#[inline(always)]
pub fn identity_of_field(
    names: &mut InnerNames,
    message: Place,
    position: usize,
    field: &FieldDescriptorProto,
) -> Result<Identity, AllocError>
    requires position { position < 2 ^ 31 }
    requires names { (rest : List FieldDescriptorProto)
        × AreNamesOf names.old message.full_name.now (field.now ∷ rest) }
    ensures id { IfOk result (λ id. id ≡ named_at message.entry.file
        (entry_path message.entry.path.now FIELD position)
        (join message.entry.full_name.now (text_of field.now.name)) (text_of field.now.name)) }
    ensures begins { IfOk result (λ id. BeginsAtBoundary id) }
    ensures names { OnOk result ((rest : List FieldDescriptorProto)
        → AreNamesOf names.old message.entry.full_name.now (field.now ∷ rest)
        → AreNamesOf names.new message.entry.full_name.now rest) }
{
    let tag = tag::message::FIELD;
    Ok(Identity {
        file: message.file,
        path: Path::below(names.alloc, message.path, tag, position as i32)?,
        full_name: names.next(message.full_name, field)?,
        name_index: index_inside(message.full_name, field.name()),
    })
}

/// An enum beside which its values are named.
#[derive(Clone, Copy)]
pub(crate) struct Beside<'a> {
    pub(crate) place: Place<'a, 'a>,
    /// The text before its name in its full name.
    pub(crate) around: &'a str,
}

/// Where the next value of an enum stands, whose full name is taken. Its position is below 2 to the
/// 31st. The name begins in the full name where a character begins.
///
/// # Errors
/// `AllocError` where memory was refused.
#[inline(always)]
pub(crate) fn identity_of_value(
    names: &mut InnerNames,
    enumeration: Beside,
    position: usize,
    value: &EnumValueDescriptorProto,
) -> Result<Identity, AllocError>
    requires position { position < 2 ^ 31 }
    requires names { (rest : List EnumValueDescriptorProto)
        × AreNamesBeside names.old enumeration.around.now (value.now ∷ rest) }
    ensures id { IfOk result (λ id. id ≡ named_at enumeration.entry.place.file
        (entry_path enumeration.entry.place.path.now VALUE position)
        (enumeration.entry.around.now ++ text_of value.now.name) (text_of value.now.name)) }
    ensures begins { IfOk result (λ id. BeginsAtBoundary id) }
    ensures names { OnOk result ((rest : List EnumValueDescriptorProto)
        → AreNamesBeside names.old enumeration.entry.around.now (value.now ∷ rest)
        → AreNamesBeside names.new enumeration.entry.around.now rest) }
{
    let tag = tag::enum_::VALUE;
    Ok(Identity {
        file: enumeration.place.file,
        path: Path::below(names.alloc, enumeration.place.path, tag, position as i32)?,
        full_name: names.next_beside(enumeration.around, value)?,
        name_index: enumeration.around.len(),
    })
}

/// Where a name begins in the full name that it has inside a scope, where a character begins.
#[inline(always)]
fn index_inside(scope: &str, name: &str) -> usize
    ensures index { result ≡ length (join scope.now name.now) - length name.now }
    ensures begins { IsCharBoundary (join scope.now name.now) result }
{
    joined_len(scope, name).saturating_sub(name.len())
}

/// The text before its ending.
pub(crate) fn front<'a>(text: &'a str, ending: &str) -> &'a str
    requires { EndsWith text.now ending.now }
    ensures { result.now ≡ before_ending text.now ending.now }
{
    &text[..text.len() - ending.len()]
}
