//! Default values as they are written.

use field_rules::{EscapeFault, ValueFault, parse_simple_value};
use pool_types::{DefaultValue, KindIndex};
use std::alloc::{AllocError, Global};
use std::fmt::Write;
use std::test::Fail;

/// A kind, a text, and the value that it writes, or what is wrong with it.
const VALUES: &[(KindIndex, &str, &str)] = &[
    (KindIndex::Int32, "-2147483648", "i32 -2147483648"),
    (KindIndex::Int32, "-2147483649", "no number"),
    (KindIndex::Int32, "2147483647", "i32 2147483647"),
    (KindIndex::Int32, "2147483648", "no number"),
    (KindIndex::Sint32, "-2147483648", "i32 -2147483648"),
    (KindIndex::Sint32, "-2147483649", "no number"),
    (KindIndex::Sint32, "2147483647", "i32 2147483647"),
    (KindIndex::Sint32, "2147483648", "no number"),
    (KindIndex::Sfixed32, "-2147483648", "i32 -2147483648"),
    (KindIndex::Sfixed32, "-2147483649", "no number"),
    (KindIndex::Sfixed32, "2147483647", "i32 2147483647"),
    (KindIndex::Sfixed32, "2147483648", "no number"),
    (
        KindIndex::Int64,
        "-9223372036854775808",
        "i64 -9223372036854775808",
    ),
    (KindIndex::Int64, "-9223372036854775809", "no number"),
    (
        KindIndex::Int64,
        "9223372036854775807",
        "i64 9223372036854775807",
    ),
    (KindIndex::Int64, "9223372036854775808", "no number"),
    (
        KindIndex::Sint64,
        "-9223372036854775808",
        "i64 -9223372036854775808",
    ),
    (KindIndex::Sint64, "-9223372036854775809", "no number"),
    (
        KindIndex::Sint64,
        "9223372036854775807",
        "i64 9223372036854775807",
    ),
    (KindIndex::Sint64, "9223372036854775808", "no number"),
    (
        KindIndex::Sfixed64,
        "-9223372036854775808",
        "i64 -9223372036854775808",
    ),
    (KindIndex::Sfixed64, "-9223372036854775809", "no number"),
    (
        KindIndex::Sfixed64,
        "9223372036854775807",
        "i64 9223372036854775807",
    ),
    (KindIndex::Sfixed64, "9223372036854775808", "no number"),
    (KindIndex::Uint32, "0", "u32 0"),
    (KindIndex::Uint32, "-1", "no number"),
    (KindIndex::Uint32, "4294967295", "u32 4294967295"),
    (KindIndex::Uint32, "4294967296", "no number"),
    (KindIndex::Fixed32, "0", "u32 0"),
    (KindIndex::Fixed32, "-1", "no number"),
    (KindIndex::Fixed32, "4294967295", "u32 4294967295"),
    (KindIndex::Fixed32, "4294967296", "no number"),
    (KindIndex::Uint64, "0", "u64 0"),
    (KindIndex::Uint64, "-1", "no number"),
    (
        KindIndex::Uint64,
        "18446744073709551615",
        "u64 18446744073709551615",
    ),
    (KindIndex::Uint64, "18446744073709551616", "no number"),
    (KindIndex::Fixed64, "0", "u64 0"),
    (KindIndex::Fixed64, "-1", "no number"),
    (
        KindIndex::Fixed64,
        "18446744073709551615",
        "u64 18446744073709551615",
    ),
    (KindIndex::Fixed64, "18446744073709551616", "no number"),
    (KindIndex::Int32, "+7", "i32 7"),
    (KindIndex::Int32, "-7", "i32 -7"),
    (KindIndex::Sint64, "-0", "i64 0"),
    (KindIndex::Sfixed32, "+0", "i32 0"),
    (KindIndex::Int32, "-00", "i32 0"),
    (KindIndex::Uint32, "+7", "u32 7"),
    (KindIndex::Fixed64, "+0", "u64 0"),
    (KindIndex::Uint32, "-0", "no number"),
    (KindIndex::Uint64, "-0", "no number"),
    (KindIndex::Int32, "007", "i32 7"),
    (KindIndex::Int64, "-007", "i64 -7"),
    (
        KindIndex::Uint32,
        "0000000000000000000000000000004294967295",
        "u32 4294967295",
    ),
    (
        KindIndex::Uint32,
        "+0000000000000000000000000000004294967296",
        "no number",
    ),
    (KindIndex::Uint64, "000000000000", "u64 0"),
    (KindIndex::Int32, "+", "no number"),
    (KindIndex::Uint32, "+", "no number"),
    (KindIndex::Int64, "-", "no number"),
    (KindIndex::Uint64, "-", "no number"),
    (KindIndex::Int32, "", "no number"),
    (KindIndex::Int64, "", "no number"),
    (KindIndex::Uint32, "", "no number"),
    (KindIndex::Uint64, "", "no number"),
    (KindIndex::Int32, "+-7", "no number"),
    (KindIndex::Int32, "--7", "no number"),
    (KindIndex::Uint64, "++7", "no number"),
    (KindIndex::Int32, " 7", "no number"),
    (KindIndex::Int32, "7 ", "no number"),
    (KindIndex::Int32, "7.0", "no number"),
    (KindIndex::Int64, "0x7", "no number"),
    (KindIndex::Int64, "1e3", "no number"),
    (KindIndex::Int32, "1_000", "no number"),
    (KindIndex::Int32, "7\u{e9}", "no number"),
    (KindIndex::Uint32, "true", "no number"),
    (KindIndex::Bool, "true", "bool true"),
    (KindIndex::Bool, "false", "bool false"),
    (KindIndex::Bool, "True", "no truth value"),
    (KindIndex::Bool, "FALSE", "no truth value"),
    (KindIndex::Bool, "", "no truth value"),
    (KindIndex::Bool, "1", "no truth value"),
    (KindIndex::Bool, "true ", "no truth value"),
    (KindIndex::Bool, "truefalse", "no truth value"),
    (KindIndex::String, "a\\b", "string a\\b"),
    (KindIndex::String, "", "string "),
    (KindIndex::String, "\u{e9} ~", "string \u{e9} ~"),
    (KindIndex::Float, "what?", "float what?"),
    (KindIndex::Double, "", "float "),
    (KindIndex::Double, "1.5e400", "float 1.5e400"),
    (KindIndex::Float, "\\w", "float \\w"),
    (KindIndex::Bytes, "", "bytes []"),
    (
        KindIndex::Bytes,
        "hello world",
        "bytes [104, 101, 108, 108, 111, 32, 119, 111, 114, 108, 100]",
    ),
    (KindIndex::Bytes, "a\\101\\x41\\n", "bytes [97, 65, 65, 10]"),
    (
        KindIndex::Bytes,
        "\\a\\b\\f\\n\\r\\t\\v",
        "bytes [7, 8, 12, 10, 13, 9, 11]",
    ),
    (KindIndex::Bytes, "\\\\\\?\\'\\\"", "bytes [92, 63, 39, 34]"),
    (KindIndex::Bytes, "\\0", "bytes [0]"),
    (KindIndex::Bytes, "\\1a", "bytes [1, 97]"),
    (KindIndex::Bytes, "\\12", "bytes [10]"),
    (KindIndex::Bytes, "\\12\\156", "bytes [10, 110]"),
    (KindIndex::Bytes, "\\012\\156", "bytes [10, 110]"),
    (KindIndex::Bytes, "\\377", "bytes [255]"),
    (KindIndex::Bytes, "\\18", "bytes [1, 56]"),
    (KindIndex::Bytes, "\\1118", "bytes [73, 56]"),
    (KindIndex::Bytes, "\\0011", "bytes [1, 49]"),
    (KindIndex::Bytes, "\\x11", "bytes [17]"),
    (KindIndex::Bytes, "\\x111", "bytes [17, 49]"),
    (KindIndex::Bytes, "\\x01\\x02", "bytes [1, 2]"),
    (KindIndex::Bytes, "\\xfe", "bytes [254]"),
    (KindIndex::Bytes, "\\XFe", "bytes [254]"),
    (
        KindIndex::Bytes,
        "\\0\\001\\a\\b\\f\\n\\r\\t\\v\\\\\\'\\\"\\xfe\\?",
        "bytes [0, 1, 7, 8, 12, 10, 13, 9, 11, 92, 39, 34, 254, 63]",
    ),
    (KindIndex::Bytes, "\u{e9}", "bytes [195, 169]"),
    (KindIndex::Bytes, "\\", "missing escape"),
    (KindIndex::Bytes, "a\\\\\\", "missing escape"),
    (KindIndex::Bytes, "\\x", "hex too short"),
    (KindIndex::Bytes, "\\X", "hex too short"),
    (KindIndex::Bytes, "\\x1", "hex too short"),
    (KindIndex::Bytes, "\\xg", "hex too short"),
    (KindIndex::Bytes, "\\x+1", "invalid hex"),
    (KindIndex::Bytes, "\\x__", "invalid hex"),
    (KindIndex::Bytes, "\\x1g", "invalid hex"),
    (KindIndex::Bytes, "\\x\u{e9}", "invalid hex"),
    (KindIndex::Bytes, "\\x1\u{e9}", "invalid hex"),
    (KindIndex::Bytes, "\\x1\\", "invalid hex"),
    (KindIndex::Bytes, "\\x 1", "invalid hex"),
    (KindIndex::Bytes, "\\400", "octal too large"),
    (KindIndex::Bytes, "\\777", "octal too large"),
    (KindIndex::Bytes, "\\4000", "octal too large"),
    (KindIndex::Bytes, "\\w", "invalid escape"),
    (KindIndex::Bytes, "\\\u{e9}", "invalid escape"),
    (KindIndex::Bytes, "\\8", "invalid escape"),
    (KindIndex::Bytes, "\\A", "invalid escape"),
    (KindIndex::Bytes, "\\ ", "invalid escape"),
    (KindIndex::Bytes, "\\w\\400", "invalid escape"),
    (KindIndex::Bytes, "\\400\\w", "octal too large"),
    (KindIndex::Bytes, "a\\w\\", "invalid escape"),
];

/// Tells a default value: its type, and what it is.
fn write_value(report: &mut String, value: &DefaultValue) -> Result<(), AllocError> {
    match value {
        DefaultValue::I32(number) => write!(report, "i32 {number}"),
        DefaultValue::I64(number) => write!(report, "i64 {number}"),
        DefaultValue::U32(number) => write!(report, "u32 {number}"),
        DefaultValue::U64(number) => write!(report, "u64 {number}"),
        DefaultValue::Bool(truth) => write!(report, "bool {truth}"),
        DefaultValue::String(text) => {
            let text = text.as_str();
            write!(report, "string {text}")
        }
        DefaultValue::Bytes(bytes) => {
            let bytes = bytes.as_slice();
            write!(report, "bytes {bytes:?}")
        }
        DefaultValue::EnumNumber(number) => write!(report, "enum {number}"),
        DefaultValue::FloatText(text) => {
            let text = text.as_str();
            write!(report, "float {text}")
        }
    }
}

pub(super) fn escape_words(alloc: Global, fault: EscapeFault) -> Result<String, AllocError> {
    match fault {
        EscapeFault::MissingEscape => String::from_str(alloc, "missing escape"),
        EscapeFault::HexTooShort => String::from_str(alloc, "hex too short"),
        EscapeFault::InvalidHex => String::from_str(alloc, "invalid hex"),
        EscapeFault::OctalTooLarge => String::from_str(alloc, "octal too large"),
        EscapeFault::InvalidEscape => String::from_str(alloc, "invalid escape"),
        EscapeFault::OutOfMemory => Err(AllocError),
    }
}

fn value_report(alloc: Global, kind: KindIndex, text: &str) -> Result<String, AllocError> {
    match kind {
        KindIndex::Message(_) | KindIndex::Enum(_) | KindIndex::Group(_) => {
            return String::from_str(alloc, "not simple");
        }
        _ => {}
    }
    match parse_simple_value(alloc, kind, text) {
        Ok(value) => {
            let mut report = String::new(alloc);
            write_value(&mut report, &value)?;
            Ok(report)
        }
        Err(ValueFault::Number) => String::from_str(alloc, "no number"),
        Err(ValueFault::Bool) => String::from_str(alloc, "no truth value"),
        Err(ValueFault::Escape(fault)) => escape_words(alloc, fault),
        Err(ValueFault::OutOfMemory) => Err(AllocError),
    }
}

#[test]
fn default_values_are_read(rt: HostRuntime) -> Result<(), Fail> {
    for (kind, text, wanted) in VALUES {
        let report = value_report(rt.alloc(), *kind, text)?;
        assert!(rt; report.as_str() == *wanted, "{text} {report}");
    }
    Ok(())
}
