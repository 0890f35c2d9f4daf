//! Checks descriptor sets: links those that its arguments name as one batch, and tells the verdict.
#![tactic(auto)]

ghost use Rattle.std.specs.Prelude.{◌≡◌, map, string_bytes};
ghost use Rattle.std.specs.Process.{exit_status};
ghost use Rattle.std.specs.Vec.Iter.{into_iter_items};
ghost use Rattle.check_descriptors.specs.Words.{called_with};
ghost use Rattle.descriptor_check.specs.Devices.{Devices};
ghost use Rattle.descriptor_check.specs.Runs.{Ends};
ghost use Rattle.descriptor_check.specs.Statuses.{status_number};

mod failures;
mod host;
mod parts;
mod words;

use descriptor_check::{Status, run};
use failures::failure_of_arguments;
use host::Host;
use std::alloc::AllocError;
use std::env::{self, Args};
use std::process::ExitCode;
use words::words_of;

fn main(rt: HostRuntime) -> ExitCode {
    let alloc = rt.alloc();
    let status = match env::args(&rt) {
        Ok(arguments) => run_with(rt, arguments),
        Err(error) => {
            let words = Err(failure_of_arguments(alloc, &error));
            run(alloc, &mut Host { rt, words })
        }
    };
    exit_code(status)
}

/// Runs the check with the arguments, of which the first is the name of the program.
fn run_with(rt: HostRuntime, arguments: Args) -> Status
    ensures { (new : Devices)
        × Ends (called_with (map string_bytes (into_iter_items arguments))) new result }
{
    let alloc = rt.alloc();
    let words = match words_of(alloc, arguments) {
        Ok(words) => Ok(words),
        Err(AllocError) => return Status::OutOfMemory,
    };
    run(alloc, &mut Host { rt, words })
}

/// The exit code that tells how a run ended.
fn exit_code(status: Status) -> ExitCode
    ensures { exit_status result ≡ status_number status }
{
    ExitCode::from(status.number())
}
