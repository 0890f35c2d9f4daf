//! A change as it is told, made of both versions of its message.

ghost use Rattle.std.specs.Prelude.{◌≡◌, IfOk, option_map};
ghost use Rattle.schema_changes.specs.Changes.{compared};
ghost use Rattle.schema_changes.specs.Parts.{parts};
ghost use Rattle.verdict_texts.specs.Telling as telling;
ghost use Rattle.pool_changes.specs.Telling as spec;

use crate::Direction;
use crate::members::{has_old, new_shown, old_shown};
use crate::words::{DirectedChange, change_code};
use plain_data::Text;
use pool_faults::Label;
use pool_types::Identity;
use proto_types::FileDescriptorProto;
use schema_changes::{Compared, Parts, WireChange};
use std::alloc::{AllocError, Global};
use verdict_texts::{Position, ToldFault, ToldPlace, ToldSecond};

/// Where a span begins, which counts from 0.
fn position_of(span: [i32; 4]) -> Position
    ensures { result ≡ telling.position_of span }
{
    let [line, column, _, _] = span;
    Position {
        line: i64::from(line) + 1,
        column: i64::from(column) + 1,
    }
}

/// Where a span begins, if there is one.
pub(crate) fn position_if(span: Option<[i32; 4]>) -> Option<Position>
    ensures { result ≡ option_map telling.position_of span }
{
    match span {
        Some(span) => Some(position_of(span)),
        None => None,
    }
}

/// Where a declaration of a file stands.
fn place_in(
    alloc: Global,
    id: &Identity,
    file: &FileDescriptorProto,
) -> Result<ToldPlace, AllocError>
    ensures { IfOk result (λ place. place ≡ spec.place_in id.now file.now) }
{
    let Label { file, path, span } = Label::in_record(alloc, file, id.path())?;
    let position = position_if(span);
    let element = Some(Text::from_str(alloc, id.full_name())?);
    Ok(ToldPlace {
        file,
        position,
        path,
        element,
    })
}

/// Where a declaration of a pool stands.
fn place_of(alloc: Global, items: Parts<'_>, id: &Identity) -> Result<Option<ToldPlace>, AllocError>
    ensures { IfOk result (λ place. place ≡ spec.place_of (parts items.entry) id.now) }
{
    match items.files.get(id.file as usize) {
        Some(file) => Ok(Some(place_in(alloc, id, &file.raw)?)),
        None => Ok(None),
    }
}

/// The words before the place in the old version, by whether it has such a field or extension.
fn old_place_words(is_there: bool) -> &'static str
    ensures { result.now ≡ spec.old_place_words is_there }
{
    if is_there {
        "it was declared at "
    } else {
        "its message was declared at "
    }
}

/// The place in the old version.
fn old_place(
    alloc: Global,
    sides: Compared<'_>,
    number: u32,
) -> Result<Option<ToldSecond>, AllocError>
    ensures { IfOk result (λ second. second ≡ spec.old_place (compared sides.entry) number) }
{
    let words = old_place_words(has_old(sides, number));
    match place_of(alloc, sides.old, old_shown(sides, number))? {
        Some(place) => {
            let words = Text::from_str(alloc, words)?;
            Ok(Some(ToldSecond { words, place }))
        }
        None => Ok(None),
    }
}

/// A change of the two versions of a message as it is told, in a direction.
///
/// # Errors
/// `AllocError` where memory was refused.
pub fn tell_change(
    alloc: Global,
    direction: Direction,
    sides: Compared<'_>,
    change: WireChange,
) -> Result<ToldFault, AllocError>
    ensures { IfOk result (λ told. told
        ≡ spec.told_change direction (compared sides.entry) change) }
{
    let directed = DirectedChange {
        direction,
        sides,
        change,
    };
    let code = Text::from_str(alloc, change_code(change.kind))?;
    let message = Text::from_string(directed.change_words(alloc)?);
    let place = place_of(alloc, sides.new, new_shown(sides, change.number))?;
    let second = old_place(alloc, sides, change.number)?;
    let note = Text::from_string(directed.change_note(alloc)?);
    Ok(ToldFault {
        code,
        message,
        place,
        second,
        note,
    })
}
