ghost use Rattle.std.specs.Prelude.{◌≡◌, ◌++◌, ◌∷◌, [], IfOk, IfSome, OnOk};
ghost use Rattle.name_resolution.specs.Resolution.{found, resolution_in};
ghost use Rattle.proto_types.specs.Readers.{number_of};
ghost use Rattle.pool_faults.specs.declared.fault.DescriptorErrorKind.TheVariants.{DuplicateExtensionNumber};
ghost use Rattle.record_walk.specs.FullNames.{EndsWithName};
ghost use Rattle.record_walk.specs.Protos.{of_extension};
ghost use Rattle.reference_pass.specs.SecondPass.{extension_faults};
ghost use Rattle.reference_pass.specs.Earlier.{earlier_in};
ghost use Rattle.reference_pass.specs.Extension.{extendee_faults, number_faults, number_faults_by};
ghost use Rattle.reference_pass.specs.Extension.{duplicate_extension_faults};
ghost use Rattle.reference_pass.specs.Extension.{duplicate_extension_faults_by};
ghost use Rattle.reference_pass.specs.Items.{bracketed, extension_item};
ghost use Rattle.reference_pass.specs.References.{message_found, message_index, resolve_message};
ghost use Rattle.reference_pass.specs.References.{index_or_max};
ghost use Rattle.reference_pass.specs.Setting.{resolve};
ghost use Rattle.reference_pass.specs.NamesBegin.{ExtensionNameBegins};
ghost use Rattle.reference_pass.specs.Reading.{ReadingTells, setting_of};
ghost use Rattle.proto_types.specs.declared.tag.field.TheConstants as field;
ghost use Rattle.pool_faults.specs.Labels.{part_label};
ghost use Rattle.record_walk.specs.Place.{shown_at};
ghost use Rattle.record_walk.specs.Faults.{Tells, named_files};

use crate::declared::{declaration_path, message_record};
use crate::earlier::EarlierExtensions;
use crate::field::is_proto3;
use crate::reading::Reading;
use crate::references::index_or_max;
use crate::types::extension_type;
use field_rules::{Owner, check_extension_number, identity, is_packed, item_number};
use name_resolution::{ResolveNameFilter, ResolveNameResult};
use plain_data::Text;
use pool_faults::{DescriptorErrorKind, Label};
use pool_types::{Definition, ExtensionDescriptorInner, Identity, KindIndex, cardinality_of};
use proto_types::{FieldDescriptorProto, tag};
use record_walk::{Faults, Place};
use std::alloc::{AllocError, Global};

/// The item of an extension behind earlier ones. What it breaks is appended to `reading`: that its
/// extendee is no message; else what its number breaks by the record of that message, and that an
/// earlier extension of the message has it; its type; its default value. Where its name ends its
/// full name, that begins there where a character begins.
///
/// # Errors
/// `AllocError` where memory was refused.
pub fn read_extension(
    reading: &mut Reading,
    place: Place,
    extension: &FieldDescriptorProto,
    earlier: EarlierExtensions,
) -> Result<ExtensionDescriptorInner, AllocError>
    ensures item { IfOk result (λ item. item
        ≡ extension_item (setting_of reading.old)
        (shown_at place.entry (of_extension extension.now)) extension.now) }
    ensures begins { IfOk result (λ item.
        EndsWithName (shown_at place.entry (of_extension extension.now))
        → ExtensionNameBegins item) }
    ensures faults { OnOk result (ReadingTells reading.old reading.new
        (extension_faults (setting_of reading.old) (earlier_in earlier.entry)
        (shown_at place.entry (of_extension extension.now)) extension.now)) }
{
    let id = identity(reading.faults.alloc, place, extension.name())?;
    let json_name = bracketed(reading.faults.alloc, place.full_name)?;
    let extendee = read_extendee(reading, place, extension, earlier)?;
    let (kind, default) = extension_type(reading, place, extension)?;
    let kind = kind.unwrap_or(KindIndex::Double);
    Ok(ExtensionDescriptorInner {
        id,
        parent: place.parent,
        number: item_number(extension.number()),
        json_name,
        extendee,
        kind,
        is_packed: is_packed(is_proto3(reading, place.file), kind, extension),
        cardinality: cardinality_of(extension.label()),
        default,
    })
}

/// The index of the message that is extended, or the largest number where none is found. That, or
/// what the number breaks by the record of the message and by earlier extensions, is appended to
/// `reading`.
fn read_extendee(
    reading: &mut Reading,
    place: Place,
    extension: &FieldDescriptorProto,
    earlier: EarlierExtensions,
) -> Result<u32, AllocError>
    ensures index { IfOk result (λ index. index
        ≡ index_or_max (message_found (resolve_message (setting_of reading.old)
        (shown_at place.entry (of_extension extension.now)) extension.now.extendee))) }
    ensures faults { OnOk result (ReadingTells reading.old reading.new
        (extendee_faults (setting_of reading.old)
        (shown_at place.entry (of_extension extension.now)) extension.now
        ++ number_faults (setting_of reading.old)
        (shown_at place.entry (of_extension extension.now)) extension.now
        (resolve_message (setting_of reading.old)
        (shown_at place.entry (of_extension extension.now)) extension.now.extendee)
        ++ duplicate_extension_faults (setting_of reading.old) (earlier_in earlier.entry)
        (shown_at place.entry (of_extension extension.now)) extension.now
        (resolve_message (setting_of reading.old)
        (shown_at place.entry (of_extension extension.now)) extension.now.extendee))) }
{
    let written = extension.extendee();
    if let Some(extendee) = find_extendee(reading, place, written) {
        return check_extendee(reading, extendee, place, extension, earlier);
    }
    let meaning = reading.resolve_message(place, tag::field::EXTENDEE, written)?;
    check_meaning(reading, &meaning, place, extension, earlier)
}

/// A message that is extended: its full name, and its definition.
#[derive(Clone, Copy)]
struct Extendee<'a> {
    name: &'a str,
    def: &'a Definition,
}

/// The message that an extendee means, where it has a leading dot and is found: its full name is
/// the rest of it. Nothing is said where there is none here.
fn find_extendee<'a>(reading: &Reading<'a>, place: Place, written: &'a str) -> Option<Extendee<'a>>
    ensures { IfSome result (λ e. resolve (setting_of reading.now) place.entry.file
        place.entry.full_name.now ResolveNameFilter.Message written.now
        ≡ found e.name.now e.def.now) }
{
    let name = written.strip_prefix('.')?;
    let def = reading.find(place, ResolveNameFilter::Message, written)?;
    Some(Extendee { name, def })
}

/// The index of the message that an extendee means, or the largest number where none is found. What
/// the number breaks by that message is appended to `reading`.
fn check_meaning(
    reading: &mut Reading,
    meaning: &ResolveNameResult,
    place: Place,
    extension: &FieldDescriptorProto,
    earlier: EarlierExtensions,
) -> Result<u32, AllocError>
    ensures index { IfOk result (λ index. index
        ≡ index_or_max (message_found (resolution_in meaning.now))) }
    ensures faults { OnOk result (ReadingTells reading.old reading.new
        (number_faults (setting_of reading.old)
        (shown_at place.entry (of_extension extension.now)) extension.now
        (resolution_in meaning.now)
        ++ duplicate_extension_faults (setting_of reading.old) (earlier_in earlier.entry)
        (shown_at place.entry (of_extension extension.now)) extension.now
        (resolution_in meaning.now))) }
{
    let ResolveNameResult::Found { name, def } = meaning else {
        return Ok(u32::MAX);
    };
    let extendee = Extendee {
        name: name.as_str(),
        def,
    };
    check_extendee(reading, extendee, place, extension, earlier)
}

/// The index of a message that is extended. What the number of the extension breaks by the record
/// of that message, and by its earlier extensions, is appended to `reading`.
fn check_extendee(
    reading: &mut Reading,
    extendee: Extendee,
    place: Place,
    extension: &FieldDescriptorProto,
    earlier: EarlierExtensions,
) -> Result<u32, AllocError>
    ensures index { IfOk result (λ index. index
        ≡ index_or_max (message_index extendee.entry.def.now.kind)) }
    ensures faults { OnOk result (ReadingTells reading.old reading.new
        (number_faults_by (setting_of reading.old)
        (shown_at place.entry (of_extension extension.now)) extension.now
        (extendee.entry.name.now, extendee.entry.def.now)
        ++ duplicate_extension_faults_by (setting_of reading.old) (earlier_in earlier.entry)
        (shown_at place.entry (of_extension extension.now)) extension.now
        (extendee.entry.name.now, extendee.entry.def.now))) }
{
    check_number(reading, extendee, place, extension)?;
    check_duplicate_extension(reading, extendee, place, extension, earlier)?;
    Ok(index_or_max(extendee.def))
}

/// Appends to `reading` what the number of an extension breaks, by the record of the message that
/// it extends.
fn check_number(
    reading: &mut Reading,
    extendee: Extendee,
    place: Place,
    extension: &FieldDescriptorProto,
) -> Result<(), AllocError>
    ensures { OnOk result (ReadingTells reading.old reading.new
        (number_faults_by (setting_of reading.old)
        (shown_at place.entry (of_extension extension.now)) extension.now
        (extendee.entry.name.now, extendee.entry.def.now))) }
{
    let def = extendee.def;
    let Some(message) = message_record(reading, def) else {
        return Ok(());
    };
    let owner = Place {
        file: def.file,
        parent: None,
        index: 0,
        path: declaration_path(def.path.as_slice()),
        full_name: extendee.name,
    };
    let owner = Owner {
        place: owner,
        message,
    };
    check_extension_number(&mut reading.faults, owner, place, extension)
}

/// Appends to `reading` that an earlier extension of the message that is extended has the number.
fn check_duplicate_extension(
    reading: &mut Reading,
    extendee: Extendee,
    place: Place,
    extension: &FieldDescriptorProto,
    earlier: EarlierExtensions,
) -> Result<(), AllocError>
    ensures { OnOk result (ReadingTells reading.old reading.new
        (duplicate_extension_faults_by (setting_of reading.old) (earlier_in earlier.entry)
        (shown_at place.entry (of_extension extension.now)) extension.now
        (extendee.entry.name.now, extendee.entry.def.now))) }
{
    let message = index_or_max(extendee.def);
    let number = item_number(extension.number());
    match earlier.extension(message, number) {
        Some(first) => tell_duplicate(&mut reading.faults, extendee.name, place, extension, first),
        None => Ok(()),
    }
}

/// Appends to `faults` that the first of two extensions of the message with a full name has the
/// number of the second.
#[inline(never)]
fn tell_duplicate(
    faults: &mut Faults,
    message: &str,
    place: Place,
    extension: &FieldDescriptorProto,
    first: &ExtensionDescriptorInner,
) -> Result<(), AllocError>
    ensures { OnOk result (Tells faults.old faults.new
        (DuplicateExtensionNumber (number_of extension.now.number) message.now
        (part_label (named_files faults.old) first.now.id.file first.now.id.path field.NUMBER)
        (part_label (named_files faults.old) place.entry.file place.entry.path.now field.NUMBER)
        ∷ [])) }
{
    let first = number_label(faults, &first.id)?;
    let second = faults.part_label(place, tag::field::NUMBER)?;
    let message = Text::from_str(faults.alloc, message)?;
    faults.push(DescriptorErrorKind::DuplicateExtensionNumber {
        number: extension.number(),
        message,
        first,
        second,
    })
}

/// The label of the number of an extension.
fn number_label(faults: &mut Faults, extension: &Identity) -> Result<Label, AllocError>
    ensures label { IfOk result (λ l. l ≡ part_label (named_files faults.old)
        extension.now.file extension.now.path field.NUMBER) }
    ensures stays { faults.new ≡ faults.old }
{
    let mut path = Vec::from_slice(faults.alloc, extension.path())?;
    path.push(tag::field::NUMBER)?;
    faults.label(extension.file, &path)
}

/// A text in square brackets.
fn bracketed(alloc: Global, text: &str) -> Result<Text, AllocError>
    ensures { IfOk result (λ t. t ≡ bracketed text.now) }
{
    let mut bracketed = String::with_capacity(alloc, text.len().saturating_add(2))?;
    bracketed.push('[')?;
    bracketed.push_str(text)?;
    bracketed.push(']')?;
    Ok(Text::from_string(bracketed))
}
