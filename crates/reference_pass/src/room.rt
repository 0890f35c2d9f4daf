//! How much room the items of files need, so that their lists are not copied as they grow. What is
//! not counted finds room as it comes.

use pool_types::FileDescriptorInner;
use proto_types::FileDescriptorProto;

/// How many items of each kind, but for what stands in messages that are nested twice or deeper,
/// and for enums and extensions that stand in messages.
#[derive(Clone, Copy)]
pub(crate) struct Room {
    pub(crate) messages: usize,
    pub(crate) enums: usize,
    pub(crate) services: usize,
    pub(crate) extensions: usize,
}

/// About how many items files make.
pub(crate) fn room_of_files(files: &[FileDescriptorInner]) -> Room {
    let mut room = Room {
        messages: 0,
        enums: 0,
        services: 0,
        extensions: 0,
    };
    for file in files {
        let file = &file.raw;
        room.messages = room.messages.saturating_add(messages_in(file));
        room.enums = room.enums.saturating_add(file.enum_type.as_slice().len());
        room.services = room.services.saturating_add(file.service.as_slice().len());
        room.extensions = room
            .extensions
            .saturating_add(file.extension.as_slice().len());
    }
    room
}

/// The messages of a file, and those that stand in them.
fn messages_in(file: &FileDescriptorProto) -> usize {
    let messages = file.message_type.as_slice();
    let mut count = messages.len();
    for message in messages {
        count = count.saturating_add(message.nested_type.as_slice().len());
    }
    count
}
