//! The bytes that texts with escapes stand for.

use super::values::escape_words;
use field_rules::unescape_c_escape_string;
use std::alloc::{AllocError, Global};
use std::test::Fail;

/// A text, and the bytes that it stands for, or what is wrong with it.
const ESCAPED: &[(&str, &str)] = &[
    ("", "[]"),
    (
        "hello world",
        "[104, 101, 108, 108, 111, 32, 119, 111, 114, 108, 100]",
    ),
    ("\\0", "[0]"),
    ("\\012\\156", "[10, 110]"),
    ("\\x01\\x02", "[1, 2]"),
    ("\\x11", "[17]"),
    ("\\x111", "[17, 49]"),
    (
        "\\0\\001\\a\\b\\f\\n\\r\\t\\v\\\\\\'\\\"\\xfe\\?",
        "[0, 1, 7, 8, 12, 10, 13, 9, 11, 92, 39, 34, 254, 63]",
    ),
    ("\\x", "hex too short"),
    ("\\x__", "invalid hex"),
    ("\\377", "[255]"),
    ("\\18", "[1, 56]"),
    ("\\777", "octal too large"),
    ("\\\u{e9}", "invalid escape"),
    ("\\x\u{e9}", "invalid hex"),
    ("\\x1\u{e9}", "invalid hex"),
    ("\\", "missing escape"),
];

fn bytes_report(alloc: Global, text: &str) -> Result<String, AllocError> {
    match unescape_c_escape_string(alloc, text) {
        Ok(bytes) => {
            let bytes = bytes.as_slice();
            format!(in alloc; "{bytes:?}")
        }
        Err(fault) => escape_words(alloc, fault),
    }
}

#[test]
fn escapes_stand_for_bytes(rt: HostRuntime) -> Result<(), Fail> {
    for (text, wanted) in ESCAPED {
        let report = bytes_report(rt.alloc(), text)?;
        assert!(rt; report.as_str() == *wanted, "{text} {report}");
    }
    Ok(())
}
