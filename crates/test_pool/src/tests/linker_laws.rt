//! The laws of pools: calls that do nothing.

use super::files_of;
use descriptor_linker::laws::{
    dot_says_nothing, earlier_stays, prefixes, relink, reorder, seen_names_stand, split,
};
use descriptor_linker::{DescriptorPool, FileDescriptorProto};
use std::test::Fail;

fn call_laws(pool: &DescriptorPool, front: &[FileDescriptorProto], back: &[FileDescriptorProto]) {
    relink(pool);
    earlier_stays(pool);
    dot_says_nothing(pool);
    seen_names_stand(pool);
    split(pool, front, back);
    reorder(pool, front, back);
    for file in front {
        prefixes(file);
    }
}

#[test]
fn laws_of_pools_are_called(rt: HostRuntime) -> Result<(), Fail> {
    let front = files_of(rt.alloc(), "file a.proto\nmessage A\nend\nend\n")?;
    let back = files_of(rt.alloc(), "file b.proto\nmessage B\nend\nend\n")?;
    call_laws(&DescriptorPool::new(rt.alloc()), &front, &back);
    Ok(())
}
