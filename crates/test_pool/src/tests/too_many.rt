//! What is told of a batch that has too much of a kind, which no test can build.

use descriptor_linker::{CountKind, write_too_many};
use std::test::Fail;

const LINES: [(CountKind, &str); 6] = [
    (CountKind::ListTooLong, "too many lists\n"),
    (CountKind::Files, "too many files\n"),
    (CountKind::Messages, "too many messages\n"),
    (CountKind::Enums, "too many enums\n"),
    (CountKind::Services, "too many services\n"),
    (CountKind::Extensions, "too many extensions\n"),
];

#[test]
fn too_much_is_told_by_its_kind(rt: HostRuntime) -> Result<(), Fail> {
    for (kind, wanted) in LINES {
        let mut report = String::new(rt.alloc());
        write_too_many(&mut report, kind)?;
        assert!(rt; report.as_str() == wanted, "{report}");
    }
    Ok(())
}
