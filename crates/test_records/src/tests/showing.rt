//! The declarations that the walk over files shows.

use super::counting::{EVERY_KIND, NONE};
use super::files_of;
use proto_types::FileDescriptorProto;
use record_lists::{Lister, list_declarations};
use record_walk::{Counts, Declaration, visit};
use std::alloc::{AllocError, Global};
use std::fmt::Write;
use std::process::Abort;
use std::test::Fail;

/// The counts of a pool that has some files already.
const SOME: Counts = Counts {
    files: 3,
    messages: 5,
    ..NONE
};

/// The counts of a pool, files, and a line for each declaration of them that is shown: its kind,
/// file, parent, index, path and full name.
const WALKS: &[(Counts, &str, &str)] = &[
    (
        NONE,
        EVERY_KIND,
        "File 0 None 0 [] a.proto\n\
        Message 0 None 0 [4, 0] p.M\n\
        Oneof 0 Some(0) 0 [4, 0, 8, 0] p.M.o\n\
        Field 0 Some(0) 0 [4, 0, 2, 0] p.M.f\n\
        Message 0 Some(0) 1 [4, 0, 3, 0] p.M.N\n\
        Enum 0 Some(0) 0 [4, 0, 4, 0] p.M.E\n\
        EnumValue 0 Some(0) 0 [4, 0, 4, 0, 2, 0] p.M.V\n\
        Extension 0 Some(0) 0 [4, 0, 6, 0] p.M.e\n\
        Service 0 None 0 [6, 0] p.S\n\
        Method 0 Some(0) 0 [6, 0, 2, 0] p.S.m\n\
        Extension 0 None 1 [7, 0] p.x\n",
    ),
    (
        SOME,
        "file a.proto\nmessage A\nend\nend\nfile b.proto\nmessage B\nend\nend\n",
        "File 3 None 3 [] a.proto\n\
        Message 3 None 5 [4, 0] A\n\
        File 4 None 4 [] b.proto\n\
        Message 4 None 6 [4, 0] B\n",
    ),
];

/// A lister that was shown files.
fn listed(
    rt: &impl Abort,
    alloc: Global,
    base: Counts,
    files: &[FileDescriptorProto],
) -> Result<Lister, AllocError> {
    let mut lister = Lister::new(alloc);
    let Ok(counts) = Counts::of(files) else {
        panic!(rt; "too much of a kind");
    };
    if base.plus(&counts).is_err() {
        panic!(rt; "too much of a kind");
    }
    visit(alloc, base, files, &mut lister)?;
    Ok(lister)
}

/// A line for each declaration.
fn lines(alloc: Global, list: &[Declaration]) -> Result<String, AllocError> {
    let mut text = String::new(alloc);
    for it in list {
        let (kind, file, parent, index) = (it.kind, it.file, it.parent, it.index);
        let (path, name) = (it.path.as_slice(), it.full_name.as_str());
        writeln!(
            &mut text,
            "{kind:?} {file} {parent:?} {index} {path:?} {name}"
        )?;
    }
    Ok(text)
}

/// A line for each declaration that a lister keeps.
fn shown_lines(
    rt: &impl Abort,
    alloc: Global,
    base: Counts,
    files: &[FileDescriptorProto],
) -> Result<String, AllocError> {
    let lister = listed(rt, alloc, base, files)?;
    lines(alloc, lister.declarations())
}

/// A line for each declaration of the list that a call makes.
fn listed_lines(
    rt: &impl Abort,
    alloc: Global,
    base: Counts,
    files: &[FileDescriptorProto],
) -> Result<String, AllocError> {
    assert!(rt; base.with_files(files).is_ok());
    lines(alloc, &list_declarations(alloc, base, files)?)
}

fn check(
    rt: &impl Abort,
    alloc: Global,
    files: &[FileDescriptorProto],
    row: (Counts, &str),
) -> Result<(), AllocError> {
    let (base, wanted) = row;
    let shown = shown_lines(rt, alloc, base, files)?;
    assert!(rt; shown.as_str() == wanted, "{shown}");
    let listed = listed_lines(rt, alloc, base, files)?;
    assert!(rt; listed.as_str() == wanted, "{listed}");
    Ok(())
}

#[test]
fn files_are_walked_over(rt: HostRuntime) -> Result<(), Fail> {
    for (base, script, wanted) in WALKS {
        let files = files_of(rt.alloc(), script)?;
        check(&rt, rt.alloc(), &files, (*base, wanted))?;
    }
    Ok(())
}
