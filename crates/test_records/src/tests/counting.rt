//! How many declarations files have.

use super::files_of;
use proto_types::FileDescriptorProto;
use record_walk::{CountKind, Counts};
use std::process::Abort;
use std::test::Fail;

/// No declarations.
pub(super) const NONE: Counts = Counts {
    files: 0,
    messages: 0,
    enums: 0,
    services: 0,
    extensions: 0,
};

/// A file with a declaration of each kind, 11 in all.
pub(super) const EVERY_KIND: &str =
    "file a.proto\npackage p\nmessage M\nfield f 7 optional message .M 1\noneof o\nmessage N\nend\n\
    enum E\nvalue V 3\nend\nextend e 100 optional int32 ~ ~\nend\nservice S\nmethod m .M .N\nend\n\
    extend x 101 optional int32 ~ ~\nend\n";

/// Files, and the counts of what they declare.
const COUNTED: &[(&str, Counts)] = &[
    ("", NONE),
    (
        "file a.proto\nmessage A\nend\nend\n",
        Counts {
            files: 1,
            messages: 1,
            ..NONE
        },
    ),
    (
        EVERY_KIND,
        Counts {
            files: 1,
            messages: 2,
            enums: 1,
            services: 1,
            extensions: 2,
        },
    ),
];

fn check(rt: &impl Abort, files: &[FileDescriptorProto], counts: Counts) {
    assert!(rt; Counts::of(files) == Ok(counts), "{counts:?}");
    assert!(rt; NONE.with_files(files) == Ok(counts), "{counts:?}");
}

#[test]
fn counts_look_into_messages(rt: HostRuntime) -> Result<(), Fail> {
    for (script, counts) in COUNTED {
        check(&rt, &files_of(rt.alloc(), script)?, *counts);
    }
    Ok(())
}

/// As many messages as can be counted.
const FULL: Counts = Counts {
    messages: u32::MAX,
    ..NONE
};

/// As many files and messages as can be counted.
const BOTH_FULL: Counts = Counts {
    files: u32::MAX,
    messages: u32::MAX,
    ..NONE
};

const MESSAGE: Counts = Counts {
    messages: 1,
    ..NONE
};

const BOTH: Counts = Counts {
    files: 1,
    messages: 1,
    ..NONE
};

/// Two counts, and their sums or what there is too much of.
const SUMS: &[(Counts, Counts, Result<Counts, CountKind>)] = &[
    (FULL, NONE, Ok(FULL)),
    (FULL, MESSAGE, Err(CountKind::Messages)),
    (BOTH_FULL, BOTH, Err(CountKind::Files)),
];

#[test]
fn sums_of_counts_stop_at_their_limits(rt: HostRuntime) {
    for (first, second, sums) in SUMS {
        assert!(rt; first.plus(second) == *sums, "{first:?} {second:?}");
    }
}
