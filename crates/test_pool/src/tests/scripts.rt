//! Scripts that several tests run, and their reports.

use descriptor_linker::report_of;
use std::alloc::{AllocError, Global};
use std::test::Fail;

/// A script that looks up packages, a message, a field, and a name that is none.
pub(super) const FIRST_SCRIPT: &str =
    "file a.proto\npackage p.q\nmessage M\nfield f 1 optional int32 ~ ~\n\
    field g 2 optional message .p.q.M ~\nend\nend\nlink\n\
    find p\nfind p.q\nfind .p.q.M\nfind p.q.M.f\nfind q\n";

/// The report of the first script.
pub(super) const FIRST_REPORT: &str = "ok 1 1 0 0 0\npackage a.proto [2]\npackage a.proto [2]\n\
    message 0 a.proto [4, 0, 1]\nfield 0 a.proto [4, 0, 2, 0, 1]\nnone\n";

/// A script of three files.
pub(super) const THREE_FILES: &str =
    "file c.proto\nimport b.proto\nextend e 100 optional enum E M\ndefault A\nend\n\
    file b.proto\nimport a.proto\npublic 0\nend\n\
    file a.proto\nmessage M\nextensions 100 200\nend\nenum E\nvalue A 5\nend\nend\nlink\n\
    refs c.proto\nfind e\n";

/// The report of the script of three files.
pub(super) const THREE_REPORT: &str = "ok 3 1 1 0 1\nrefs 2\ne extendee .M\ne type_name .E\n\
    extension 0 c.proto [7, 0, 1]\n";

/// How many bytes these are, if a report begins with them.
pub(super) fn count_of_beginning(report: &str, written: &[u8]) -> Option<usize> {
    let count = written.len();
    if report.as_bytes().get(..count) == Some(written) {
        Some(count)
    } else {
        None
    }
}

/// A script, its report, and whether that ends with a fault of the script.
const REPORTED: &[(&str, &str, bool)] = &[
    (FIRST_SCRIPT, FIRST_REPORT, false),
    (THREE_FILES, THREE_REPORT, false),
    ("link\nnope\n", "ok 0 0 0 0 0\nline 2: unknown word\n", true),
];

fn has_report(
    alloc: Global,
    script: &str,
    wanted: &str,
    has_fault: bool,
) -> Result<bool, AllocError> {
    let report = report_of(alloc, script.as_bytes())?;
    Ok(report.text.as_str() == wanted && report.has_fault == has_fault)
}

#[test]
fn scripts_have_reports(rt: HostRuntime) -> Result<(), Fail> {
    for (script, wanted, has_fault) in REPORTED {
        assert!(rt;
            has_report(rt.alloc(), script, wanted, *has_fault)?,
            "{script}"
        );
    }
    Ok(())
}
