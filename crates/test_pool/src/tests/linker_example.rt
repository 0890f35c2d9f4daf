//! The example of the face `descriptor_linker`, as its first page has it.

use descriptor_linker::{DescriptorPool, DescriptorProto, FileDescriptorProto, Text};
use std::test::Fail;

#[test]
fn the_example_is_run(rt: HostRuntime) -> Result<(), Fail> {
    let alloc = rt.alloc();
    let name = Text::from_str(alloc, "M")?;
    let file_name = Text::from_str(alloc, "a.proto")?;
    let mut message = DescriptorProto::empty(alloc);
    message.name = Some(name);
    let mut file = FileDescriptorProto::empty(alloc);
    file.name = Some(file_name);
    file.message_type.push(message)?;
    let mut batch = Vec::new(alloc);
    batch.push(file)?;
    let mut pool = DescriptorPool::new(alloc);
    match pool.build_files(batch) {
        Ok(()) => assert!(rt; pool.get_by_name("M").is_some()),
        Err(error) => assert!(rt; false, "{error:?}"),
    }
    Ok(())
}
