//! The fields and extensions of two versions of a message that have one number.

ghost use Rattle.std.specs.Prelude.{◌≡◌, is_some, option_and_then};
ghost use Rattle.std.specs.Option.{option_copied};
ghost use Rattle.schema_changes.specs.Changes.{compared, first_some};
ghost use Rattle.schema_changes.specs.Parts.{parts};
ghost use Rattle.pool_changes.specs.Members as spec;

use crate::Direction;
use pool_types::{Identity, MessageDescriptorInner, OneofDescriptorInner};
use schema_changes::{Compared, Parts};

/// The identity of the extension with an index.
fn extension_id<'a>(items: Parts<'a>, index: u32) -> Option<&'a Identity>
    ensures { option_copied result ≡ spec.extension_id (parts items.entry) index }
{
    let extension = items.extensions.get(index as usize)?;
    Some(&extension.id)
}

/// The identity of the field of a message with a number, or else of the extension.
fn id_numbered<'a>(
    items: Parts<'a>,
    message: &'a MessageDescriptorInner,
    number: u32,
) -> Option<&'a Identity>
    ensures { option_copied result ≡ spec.id_numbered (parts items.entry) message.now number }
{
    match message.get_field(number) {
        Some(field) => Some(&field.id),
        None => extension_id(items, message.extension_numbers.get(number)?),
    }
}

/// The identity of the old field or extension.
fn old_id<'a>(sides: Compared<'a>, number: u32) -> Option<&'a Identity>
    ensures { option_copied result ≡ spec.old_id (compared sides.entry) number }
{
    id_numbered(sides.old, sides.before, number)
}

/// Whether there is an old field or extension.
pub(crate) fn has_old(sides: Compared<'_>, number: u32) -> bool
    ensures { result ≡ is_some (spec.old_id (compared sides.entry) number) }
{
    match old_id(sides, number) {
        Some(_) => true,
        None => false,
    }
}

/// The identity of the new field or extension.
fn new_id<'a>(sides: Compared<'a>, number: u32) -> Option<&'a Identity>
    ensures { option_copied result ≡ spec.new_id (compared sides.entry) number }
{
    id_numbered(sides.new, sides.after, number)
}

/// What a change stands at in the old version: the field or extension, or else the message.
pub(crate) fn old_shown<'a>(sides: Compared<'a>, number: u32) -> &'a Identity
    ensures { result.now ≡ spec.old_shown (compared sides.entry) number }
{
    match old_id(sides, number) {
        Some(id) => id,
        None => &sides.before.id,
    }
}

/// What a change stands at in the new version: the field or extension, or else the message.
pub(crate) fn new_shown<'a>(sides: Compared<'a>, number: u32) -> &'a Identity
    ensures { result.now ≡ spec.new_shown (compared sides.entry) number }
{
    match new_id(sides, number) {
        Some(id) => id,
        None => &sides.after.id,
    }
}

/// The full name of the new field or extension, or else of the old one.
pub(crate) fn shown_name<'a>(sides: Compared<'a>, number: u32) -> &'a str
    ensures { result.now ≡ spec.shown_name (compared sides.entry) number }
{
    match new_id(sides, number) {
        Some(id) => id.full_name(),
        None => old_shown(sides, number).full_name(),
    }
}

/// Two versions with their sides changed.
fn turned(sides: Compared<'_>) -> Compared<'_>
    ensures { compared result ≡ spec.turned (compared sides.entry) }
{
    Compared {
        old: sides.new,
        before: sides.after,
        new: sides.old,
        after: sides.before,
    }
}

/// Two versions in the order of a direction: of the older and the new one the writer's and then the
/// reader's, and the other way round.
pub(crate) fn by_writer(direction: Direction, sides: Compared<'_>) -> Compared<'_>
    ensures { compared result ≡ spec.by_writer direction (compared sides.entry) }
{
    match direction {
        Direction::Backward => sides,
        Direction::Forward => turned(sides),
    }
}

/// The oneof of the new field with a number.
fn new_oneof<'a>(sides: Compared<'a>, number: u32) -> Option<&'a OneofDescriptorInner>
    ensures { option_copied result ≡ spec.new_oneof (compared sides.entry) number }
{
    let field = sides.after.get_field(number)?;
    let position = field.oneof?;
    sides.after.oneofs.as_slice().get(position as usize)
}

/// The identity of the old field or extension with the number of the new field at a position.
fn old_at<'a>(sides: Compared<'a>, position: u32) -> Option<&'a Identity>
    ensures { option_copied result ≡ spec.old_at (compared sides.entry) position }
{
    let field = sides.after.fields.as_slice().get(position as usize)?;
    old_id(sides, field.number)
}

/// The identity of the first old field or extension with the number of a new field at one of some
/// positions.
fn first_at<'a>(sides: Compared<'a>, positions: &[u32]) -> Option<&'a Identity>
    ensures { option_copied result
        ≡ first_some (spec.old_at (compared sides.entry)) positions.now }
{
    for position in positions {
        let id = old_at(sides, *position);
        if id.is_some() {
            return id;
        }
    }
    None
}

/// The full name of the oneof of the new field with a number.
fn new_oneof_name<'a>(sides: Compared<'a>, number: u32) -> &'a str
    ensures { result.now ≡ spec.new_oneof_name (compared sides.entry) number }
{
    match new_oneof(sides, number) {
        Some(oneof) => oneof.id.full_name(),
        None => "",
    }
}

/// The first old field or extension that the oneof of the new field with a number holds now.
fn first_in_oneof<'a>(sides: Compared<'a>, number: u32) -> Option<&'a Identity>
    ensures { option_copied result ≡ option_and_then
        (λ o. first_some (spec.old_at (compared sides.entry)) o.fields)
        (spec.new_oneof (compared sides.entry) number) }
{
    let oneof = new_oneof(sides, number)?;
    first_at(sides, oneof.fields.as_slice())
}

/// The full name of the first old field or extension that the oneof of the new field with a number
/// holds now.
fn first_held<'a>(sides: Compared<'a>, number: u32) -> &'a str
    ensures { result.now ≡ spec.first_held (compared sides.entry) number }
{
    match first_in_oneof(sides, number) {
        Some(id) => id.full_name(),
        None => "",
    }
}

/// The full name of the oneof of the reader's field with a number.
pub(crate) fn oneof_name<'a>(direction: Direction, sides: Compared<'a>, number: u32) -> &'a str
    ensures { result.now ≡ spec.oneof_name direction (compared sides.entry) number }
{
    new_oneof_name(by_writer(direction, sides), number)
}

/// The full name of the writer's first field that this oneof holds.
pub(crate) fn partner_name<'a>(direction: Direction, sides: Compared<'a>, number: u32) -> &'a str
    ensures { result.now ≡ spec.partner_name direction (compared sides.entry) number }
{
    first_held(by_writer(direction, sides), number)
}
