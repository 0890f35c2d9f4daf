//! The faults of scripts.

use link_script::{ScriptFault, read_script};
use std::alloc::{AllocError, Global};
use std::test::Fail;

/// A script, the line of its fault, the fault, and how that is printed.
const FAULTS: &[(&[u8], u64, ScriptFault, &str)] = &[
    (b"link\n# \xff\nnone", 2, ScriptFault::BadText, "bad text"),
    (b"File a", 1, ScriptFault::UnknownWord, "unknown word"),
    (
        b"file a\nlink x\nend",
        2,
        ScriptFault::Misplaced,
        "misplaced",
    ),
    (b"find", 1, ScriptFault::WrongCount, "wrong count of words"),
    (
        b"file a\nmessage b\nfield c 2147483648 x y ~ ~",
        3,
        ScriptFault::BadNumber,
        "bad number",
    ),
    (
        b"file a\nmessage b\nfield c 1 x y ~ -",
        3,
        ScriptFault::BadWord,
        "bad word",
    ),
    (
        b"file a\nmessage b\nend\n",
        4,
        ScriptFault::MissingEnd,
        "missing end",
    ),
];

fn fault_of(alloc: Global, script: &[u8]) -> Result<Option<(u64, ScriptFault)>, AllocError> {
    Ok(read_script(alloc, script)?.fault)
}

#[test]
fn scripts_have_a_first_fault(rt: HostRuntime) -> Result<(), Fail> {
    for (script, line, fault, wanted) in FAULTS {
        let words = format!(in rt.alloc(); "{fault}")?;
        assert!(rt; words.as_str() == *wanted, "{words}");
        assert!(rt;
            fault_of(rt.alloc(), script)? == Some((*line, *fault)),
            "{words}"
        );
    }
    Ok(())
}
