//! The example of the face `proto_records`, as its first page has it.

use proto_records::{Counts, DescriptorProto, FileDescriptorProto, Text, find_message_proto};
use std::test::Fail;

#[test]
fn the_example_is_run(rt: HostRuntime) -> Result<(), Fail> {
    let alloc = rt.alloc();
    let name = Text::from_str(alloc, "M")?;
    let file_name = Text::from_str(alloc, "a.proto")?;
    let mut message = DescriptorProto::empty(alloc);
    message.name = Some(name);
    let mut file = FileDescriptorProto::empty(alloc);
    file.name = Some(file_name);
    file.message_type.push(message)?;
    let found = find_message_proto(&file, &[4, 0]).map(DescriptorProto::name);
    assert!(rt; found.unwrap_or("none") == "M");
    match Counts::of(&[file]) {
        Ok(counts) => assert!(rt; counts.files == 1 && counts.messages == 1),
        Err(kind) => assert!(rt; false, "too many: {kind:?}"),
    }
    Ok(())
}
