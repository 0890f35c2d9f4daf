//! Devices over memory, and runs that they end.

use super::scripts::{FIRST_REPORT, FIRST_SCRIPT, count_of_beginning};
use descriptor_linker::{Ending, run};
use script_devices::{MemoryInput, MemoryOutput, ScriptInput};
use std::alloc::{AllocError, Global};
use std::process::Abort;
use std::test::Fail;

/// The fuses of the input and of the output of a run, and the room of the output.
#[derive(Clone, Copy, Debug)]
struct Limits {
    input: u64,
    output: u64,
    room: usize,
}

/// How a run ends, how many of its reads fail, and how many bytes of its report it writes, or none
/// where it writes other bytes.
type Ended = (Ending, u64, Option<usize>);

/// Runs a script with a report from memory to memory.
fn ended(alloc: Global, example: (&str, &str), limits: Limits) -> Result<Ended, AllocError> {
    let (script, report) = example;
    let mut input = MemoryInput::with_fuse(script.as_bytes(), limits.input);
    let mut output = MemoryOutput::with_fuse(alloc, limits.room, limits.output)?;
    let ending = run(alloc, &mut input, &mut output);
    let count = count_of_beginning(report, output.written());
    Ok((ending, input.failures(), count))
}

/// Asserts how a run ends.
fn check(
    rt: &impl Abort,
    alloc: Global,
    example: (&str, &str),
    row: &(Limits, Ended),
) -> Result<(), AllocError> {
    let (limits, wanted) = *row;
    let ended = ended(alloc, example, limits)?;
    if ended.0 == Ending::OutOfMemory {
        return Err(AllocError);
    }
    assert!(rt; ended == wanted, "{limits:?} {ended:?}");
    Ok(())
}

#[test]
fn a_read_that_fails_ends_the_run(rt: HostRuntime) -> Result<(), Fail> {
    for input in 1..3 {
        let limits = Limits {
            input,
            output: 0,
            room: 1000,
        };
        let wanted = (Ending::Device, 1, Some(0));
        check(
            &rt,
            rt.alloc(),
            (FIRST_SCRIPT, FIRST_REPORT),
            &(limits, wanted),
        )?;
    }
    Ok(())
}

#[test]
fn too_little_room_or_a_write_that_fails_ends_the_run(rt: HostRuntime) -> Result<(), Fail> {
    for room in 0..FIRST_REPORT.len() {
        for output in 0..3 {
            let limits = Limits {
                input: 0,
                output,
                room,
            };
            let count = if output == 1 { 0 } else { room };
            let wanted = (Ending::Device, 0, Some(count));
            check(
                &rt,
                rt.alloc(),
                (FIRST_SCRIPT, FIRST_REPORT),
                &(limits, wanted),
            )?;
        }
    }
    Ok(())
}
