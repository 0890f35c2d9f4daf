use std::io;

/// Tells the first line in which what was got differs from what is wanted.
///
/// # Errors
/// Where the standard output could not be written.
pub(super) fn tell_difference(rt: &HostRuntime, wanted: &[u8], got: &[u8]) -> io::Result<()> {
    let (number, wanted, got) = first_difference(wanted, got);
    println!(rt; "  line {number}")?;
    tell_line(rt, "wanted", wanted)?;
    tell_line(rt, "got   ", got)
}

/// Tells a line, or its bytes where it is no text.
fn tell_line(rt: &HostRuntime, what: &str, line: &[u8]) -> io::Result<()> {
    match str::from_utf8(line) {
        Ok(text) => println!(rt; "  {what} {text:?}"),
        Err(_) => println!(rt; "  {what} {line:?}"),
    }
}

/// The first line in which two texts differ: its number, from 1, and what each text has of it.
fn first_difference<'a>(wanted: &'a [u8], got: &'a [u8]) -> (u64, &'a [u8], &'a [u8]) {
    let mut number = 1u64;
    let mut start = 0usize;
    for (at, (one, other)) in wanted.iter().zip(got).enumerate() {
        if one != other {
            break;
        }
        if *one == b'\n' {
            number = number.saturating_add(1);
            start = at.saturating_add(1);
        }
    }
    (number, line_at(wanted, start), line_at(got, start))
}

/// What stands from a place up to the end of its line.
fn line_at(text: &[u8], start: usize) -> &[u8] {
    let rest = text.get(start..).unwrap_or(&[]);
    match rest.iter().position(|byte| *byte == b'\n') {
        Some(end) => rest.get(..end).unwrap_or(rest),
        None => rest,
    }
}
