//! A plugin of protoc: it links the files of a request, and answers what they break.
#![tactic(auto)]

ghost use Rattle.std.specs.Prelude.{◌≡◌};
ghost use Rattle.std.specs.Process.{exit_status};
ghost use Rattle.protoc_gen_protolink.specs.Runs.{exit_number};

mod answers;
mod devices;
mod ending;
mod host;
mod parameters;
mod requests;
mod responses;
mod runs;

use ending::Ending;
use host::Host;
use runs::run;
use std::process::ExitCode;

fn main(rt: HostRuntime) -> ExitCode {
    let alloc = rt.alloc();
    let mut host = Host { rt };
    exit_code(run(alloc, &mut host))
}

/// The exit code that tells how a run ended.
fn exit_code(ending: Ending) -> ExitCode
    ensures { exit_status result ≡ exit_number ending }
{
    ExitCode::from(ending.number())
}
