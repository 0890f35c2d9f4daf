//! Descriptor sets row by row. Each row is the hexadecimal digits of one.
use descriptor_decoding::{DecodeError, decode};
use descriptor_encoding::encode;
use std::alloc::{AllocError, Global};
use std::io;

/// Writes a row for each: `ok` and the set's canonical encoding, or its first fault with the
/// offset.
pub(crate) fn write_rows(alloc: Global, report: &mut String, rows: &[u8]) -> io::Result<()> {
    let Ok(rows) = str::from_utf8(rows) else {
        return Err(io::Error::other("a row has digits from 0 to f"));
    };
    for row in rows.lines() {
        write_row(alloc, report, row)?;
    }
    Ok(())
}

/// Writes what the bytes of a row are.
fn write_row(alloc: Global, report: &mut String, row: &str) -> io::Result<()> {
    let bytes = bytes_of(alloc, row)?;
    match decode(alloc, bytes.as_slice()) {
        Ok(set) => {
            report.push_str("ok ")?;
            write_bytes(report, encode(alloc, &set)?.as_slice())?;
            Ok(writeln!(report)?)
        }
        Err(DecodeError::Fault(fault)) => Ok(writeln!(report, "{:?} {}", fault.kind, fault.at)?),
        Err(DecodeError::OutOfMemory) => Err(io::ErrorKind::OutOfMemory.into()),
    }
}

/// The bytes of a row of digits.
fn bytes_of(alloc: Global, row: &str) -> io::Result<Vec<u8>> {
    let mut bytes = Vec::new(alloc);
    let mut first = None;
    for byte in row.bytes() {
        let digit = digit_of(byte)?;
        match first.take() {
            Some(high) => bytes.push(high << 4 | digit)?,
            None => first = Some(digit),
        }
    }
    Ok(bytes)
}

/// The digit that a byte is.
fn digit_of(byte: u8) -> io::Result<u8> {
    match byte {
        b'0'..=b'9' => Ok(byte - b'0'),
        b'a'..=b'f' => Ok(byte - b'a' + 10),
        _ => Err(io::Error::other("a row has digits from 0 to f")),
    }
}

/// Writes bytes as their digits.
fn write_bytes(report: &mut String, bytes: &[u8]) -> Result<(), AllocError> {
    for byte in bytes {
        write!(report, "{byte:02x}")?;
    }
    Ok(())
}
