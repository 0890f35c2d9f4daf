//! Devices over streams of the library, and runs over them.

use super::scripts::{FIRST_SCRIPT, THREE_FILES, THREE_REPORT, count_of_beginning};
use descriptor_linker::{Ending, run};
use script_devices::{MemoryOutput, ReaderInput, ReportOutput, ScriptInput, WriterOutput};
use std::alloc::{AllocError, Global};
use std::io::{self, Read, Write};
use std::process::Abort;
use std::test::Fail;

/// A reader that fails at its first read, and then gives bytes.
#[derive(Drop)]
struct Starting {
    has_failed: bool,
    rest: &'static [u8],
}

impl Read for Starting {
    fn read(&mut self, buffer: &mut [u8]) -> io::Result<usize> {
        if self.has_failed {
            return self.rest.read(buffer);
        }
        self.has_failed = true;
        Err(io::Error::other("not yet"))
    }
}

/// A reader that gives a byte at a time, and fails where it has no reads left.
#[derive(Drop)]
struct Slow {
    rest: &'static [u8],
    reads: usize,
}

impl Read for Slow {
    fn read(&mut self, buffer: &mut [u8]) -> io::Result<usize> {
        if self.reads == 0 {
            return Err(io::Error::other("no reads left"));
        }
        self.reads -= 1;
        let ([place, ..], [first, rest @ ..]) = (buffer, self.rest) else {
            return Ok(0);
        };
        *place = *first;
        self.rest = rest;
        Ok(1)
    }
}

/// A writer that takes a byte at a time. Where it has no room it fails, or takes none.
#[derive(Drop)]
struct Narrow {
    taken: Vec<u8>,
    room: usize,
    fails: bool,
}

impl Write for Narrow {
    fn write(&mut self, bytes: &[u8]) -> io::Result<usize> {
        let Some(first) = bytes.first() else {
            return Ok(0);
        };
        if self.room == 0 && self.fails {
            return Err(io::Error::other("no room"));
        }
        if self.room == 0 {
            return Ok(0);
        }
        self.taken.push(*first)?;
        self.room -= 1;
        Ok(1)
    }

    fn flush(&mut self) -> io::Result<()> {
        Ok(())
    }
}

fn writer_with(alloc: Global, room: usize, fails: bool) -> Narrow {
    let taken = Vec::new(alloc);
    Narrow { taken, room, fails }
}

/// How a run ends, and how many of its reads or writes fail.
type Ended = (Ending, u64);

/// Reads the first script from a reader that fails at its first read alone.
fn ended_at_the_start(alloc: Global, taken: &mut Vec<u8>) -> Ended {
    let mut input = ReaderInput::new(Starting {
        has_failed: false,
        rest: FIRST_SCRIPT.as_bytes(),
    });
    let mut output = WriterOutput::new(taken);
    let ending = run(alloc, &mut input, &mut output);
    (ending, input.failures())
}

#[test]
fn a_failed_read_is_not_made_once_more(rt: HostRuntime) {
    let mut taken = Vec::new(rt.alloc());
    assert!(rt; ended_at_the_start(rt.alloc(), &mut taken) == (Ending::Device, 1));
    assert!(rt; taken.is_empty());
}

/// How a run over three files ends whose reader makes so many reads, and how many bytes of its
/// report it writes, or none where it writes other bytes.
fn ended_by_reads(alloc: Global, reads: usize) -> Result<(Ending, Option<usize>), AllocError> {
    let rest = THREE_FILES.as_bytes();
    let mut input = ReaderInput::new(Slow { rest, reads });
    let mut output = MemoryOutput::new(alloc, 1000)?;
    let ending = run(alloc, &mut input, &mut output);
    Ok((ending, count_of_beginning(THREE_REPORT, output.written())))
}

fn check_reads(
    rt: &impl Abort,
    alloc: Global,
    reads: usize,
    wanted: (Ending, usize),
) -> Result<(), AllocError> {
    let (ending, count) = ended_by_reads(alloc, reads)?;
    if ending == Ending::OutOfMemory {
        return Err(AllocError);
    }
    assert!(rt;
        (ending, count) == (wanted.0, Some(wanted.1)),
        "{reads} {ending:?}"
    );
    Ok(())
}

#[test]
fn each_read_may_fail(rt: HostRuntime) -> Result<(), Fail> {
    // A read for each byte, and one more at the end.
    for reads in 0..=THREE_FILES.len() {
        check_reads(&rt, rt.alloc(), reads, (Ending::Device, 0))?;
    }
    let reads = THREE_FILES.len().saturating_add(1);
    check_reads(&rt, rt.alloc(), reads, (Ending::Whole, THREE_REPORT.len()))?;
    Ok(())
}

/// How a run over three files ends, how many of its writes fail, and how many take no byte.
fn ended_by_writer(alloc: Global, narrow: &mut Narrow) -> (Ending, u64, u64) {
    let mut input = ReaderInput::new(THREE_FILES.as_bytes());
    let mut output = WriterOutput::new(narrow);
    let ending = run(alloc, &mut input, &mut output);
    (ending, output.failures(), output.idle())
}

/// Besides, how many bytes of the report a writer takes, or none where it takes other bytes.
fn written(alloc: Global, room: usize, fails: bool) -> ((Ending, u64, u64), Option<usize>) {
    let mut narrow = writer_with(alloc, room, fails);
    let ended = ended_by_writer(alloc, &mut narrow);
    (
        ended,
        count_of_beginning(THREE_REPORT, narrow.taken.as_slice()),
    )
}

/// Asserts how a run ends whose writer has so much room, and fails there or takes no byte, and that
/// it writes as much of its report.
fn check_writes(
    rt: &impl Abort,
    alloc: Global,
    (room, fails): (usize, bool),
    wanted: (Ending, u64, u64),
) -> Result<(), AllocError> {
    let (ended, count) = written(alloc, room, fails);
    if ended.0 == Ending::OutOfMemory {
        return Err(AllocError);
    }
    assert!(rt;
        (ended, count) == (wanted, Some(room)),
        "{room} {fails} {ended:?}"
    );
    Ok(())
}

#[test]
fn each_write_may_fail_or_take_no_byte(rt: HostRuntime) -> Result<(), Fail> {
    for room in 0..THREE_REPORT.len() {
        check_writes(&rt, rt.alloc(), (room, true), (Ending::Device, 1, 0))?;
        check_writes(&rt, rt.alloc(), (room, false), (Ending::Device, 0, 1))?;
    }
    let room = THREE_REPORT.len();
    check_writes(&rt, rt.alloc(), (room, true), (Ending::Whole, 0, 0))?;
    check_writes(&rt, rt.alloc(), (room, false), (Ending::Whole, 0, 0))?;
    Ok(())
}
