//! The laws of the walk, and the example of a visitor of a user's own, on the file of each kind.

use super::counting::{EVERY_KIND, NONE};
use super::files_of;
use example_visitor::fields_of;
use proto_types::FileDescriptorProto;
use record_walk::{declared_changed, declared_in_turn, declared_indexes, declared_paths};
use std::alloc::{AllocError, Global};
use std::process::Abort;
use std::test::Fail;

#[test]
fn laws_are_called(rt: HostRuntime) -> Result<(), Fail> {
    let files = files_of(rt.alloc(), EVERY_KIND)?;
    declared_paths(NONE, &files);
    declared_indexes(NONE, &files);
    declared_in_turn(NONE, &files, &files);
    declared_changed(NONE, &files);
    Ok(())
}

fn check_fields(
    rt: &impl Abort,
    alloc: Global,
    files: &[FileDescriptorProto],
) -> Result<(), AllocError> {
    assert!(rt; NONE.with_files(files).is_ok());
    let fields = fields_of(alloc, NONE, files)?;
    assert!(rt; fields.count() == 3);
    assert!(rt; fields.longest_path() == 6);
    Ok(())
}

#[test]
fn the_example_keeps_the_fields_of_nested_messages(rt: HostRuntime) -> Result<(), Fail> {
    let script = "file a.proto\nmessage Outer\nfield first 1 ~ ~ ~ ~\nfield second 2 ~ ~ ~ ~\n\
        message Inner\nfield third 3 ~ ~ ~ ~\nend\nend\nend\n";
    check_fields(&rt, rt.alloc(), &files_of(rt.alloc(), script)?)?;
    Ok(())
}
