//! What is told of an index that is no position.

ghost use Rattle.std.specs.Prelude.{◌≡◌, IfOk};
ghost use Rattle.verdict_texts.specs.Indexes as spec;

use crate::elements::entry;
use crate::fault_kinds::{NO_SUCH_INDEX, is_at};
use crate::known::Known;
use plain_data::Text;
use pool_faults::Label;
use proto_types::tag::{file, message};
use proto_types::{DescriptorProto, FileDescriptorProto};
use std::alloc::{AllocError, Global};

/// The oneof index of the field to which a path of a message leads, and how many oneofs its message
/// has.
fn oneof_index(message: &DescriptorProto, path: &[i32]) -> Option<(i32, usize)>
    ensures { result ≡ spec.oneof_index message.now path.now }
{
    let [tag, position, rest @ ..] = path else {
        return None;
    };
    if *tag == message::NESTED_TYPE {
        return match entry(&message.nested_type, *position) {
            Some(nested) => oneof_index(nested, rest),
            None => None,
        };
    }
    let index = entry(&message.field, *position)?.oneof_index?;
    Some((index, message.oneof_decl.as_slice().len()))
}

/// The index at a position of a list of indexes of imports, and how many imports there are.
fn import_index(file: &FileDescriptorProto, indexes: &[i32], position: i32) -> Option<(i32, usize)>
    ensures { result ≡ spec.import_index file.now indexes.now position }
{
    let index = *indexes.get(usize::try_from(position).ok()?)?;
    Some((index, file.dependency.as_slice().len()))
}

/// The index to which a path of a file leads, and the length of the list of which it should be a
/// position.
fn index_at(file: &FileDescriptorProto, path: &[i32]) -> Option<(i32, usize)>
    ensures { result ≡ spec.index_at file.now path.now }
{
    let [tag, position, rest @ ..] = path else {
        return None;
    };
    match *tag {
        file::PUBLIC_DEPENDENCY => import_index(file, file.public_dependency.as_slice(), *position),
        file::WEAK_DEPENDENCY => import_index(file, file.weak_dependency.as_slice(), *position),
        _ => oneof_index(entry(&file.message_type, *position)?, rest),
    }
}

/// The word of descriptor.proto for the index to which a path leads.
fn index_word(path: &[i32]) -> &'static str
    ensures { result.now ≡ spec.index_word path.now }
{
    if is_at(path, 2, file::PUBLIC_DEPENDENCY) {
        "public_dependency"
    } else if is_at(path, 2, file::WEAK_DEPENDENCY) {
        "weak_dependency"
    } else {
        "oneof_index"
    }
}

/// An index, as it is told, and the length of the list of which it should be a position.
fn index_text(alloc: Global, word: &str, found: (i32, usize)) -> Result<Text, AllocError>
    ensures { IfOk result (λ text. text ≡ spec.index_words word.now found) }
{
    let (index, count) = found;
    let words = format!(in alloc;
        "{word} is {index}, counted from 0, of a list of {count}; {NO_SUCH_INDEX}"
    )?;
    Ok(Text::from_string(words))
}

/// What is told of the index at a label, by the only file with its name.
pub(crate) fn index_words(
    alloc: Global,
    known: &Known,
    label: &Label,
) -> Result<Option<Text>, AllocError>
    ensures { IfOk result (λ words. words ≡ spec.index_note known.now.0 label.now) }
{
    let Some(file) = known.only(label.file()) else {
        return Ok(None);
    };
    let Some(found) = index_at(file, label.path()) else {
        return Ok(None);
    };
    let word = index_word(label.path());
    Ok(Some(index_text(alloc, word, found)?))
}
