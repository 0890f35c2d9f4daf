//! How much room files need in a table of names, so that it is not copied as it grows. What is not
//! counted finds room as it comes.

use proto_types::{DescriptorProto, EnumDescriptorProto, FileDescriptorProto};

/// About how many names files declare, and an eighth more, so that packages of several parts and a
/// small batch behind this one find room too. What stands in messages that are nested twice or
/// deeper is not counted.
pub(crate) fn names_of_files(files: &[FileDescriptorProto]) -> usize {
    let mut names = 0usize;
    for file in files {
        names = names.saturating_add(names_of_file(file));
    }
    names.saturating_add(names / 8)
}

fn names_of_file(file: &FileDescriptorProto) -> usize {
    let mut names = names_of_enums(file.enum_type.as_slice());
    names = names.saturating_add(file.service.as_slice().len());
    names = names.saturating_add(file.extension.as_slice().len());
    for message in file.message_type.as_slice() {
        names = names.saturating_add(names_of_message(message));
        names = names.saturating_add(names_of_nested(message));
    }
    names.saturating_add(1)
}

/// A message, and what stands in it but for other messages.
fn names_of_message(message: &DescriptorProto) -> usize {
    let mut names = names_of_enums(message.enum_type.as_slice());
    names = names.saturating_add(message.field.as_slice().len());
    names = names.saturating_add(message.oneof_decl.as_slice().len());
    names = names.saturating_add(message.extension.as_slice().len());
    names.saturating_add(1)
}

fn names_of_nested(message: &DescriptorProto) -> usize {
    let mut names = 0usize;
    for nested in message.nested_type.as_slice() {
        names = names.saturating_add(names_of_message(nested));
    }
    names
}

/// Enums and their values.
fn names_of_enums(enums: &[EnumDescriptorProto]) -> usize {
    let mut names = enums.len();
    for each in enums {
        names = names.saturating_add(each.value.as_slice().len());
    }
    names
}
