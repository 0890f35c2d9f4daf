ghost use Rattle.std.specs.Prelude.{◌≡◌, ◌≢◌, ◌<◌, ◌⊎◌, ℕ, List, [], ◌++◌, Some, IfOk, OnOk, OnErr};
ghost use Rattle.std.specs.Prelude.{IsErrOf};
ghost use Rattle.script_devices.specs.Device.{Took, failure_limit};
ghost use Rattle.descriptor_linker.specs.Runs.{RunsTo, HasStopped, HasNotStopped};

use crate::ending::Ending;
use crate::report::report_of;
use script_devices::{ReportOutput, ScriptInput};
use std::alloc::Global;
use std::io;

/// How many bytes are read at once, at most.
const BUFFER_LEN: usize = 4096;

/// Why an input was not read to its end.
#[derive(Clone, Copy, PartialEq, Debug)]
enum ReadError {
    OutOfMemory,
    Device,
}

/// Reads a script from the input to its end, and then writes the whole report of it to the output.
/// Nothing is written where a read failed or memory was refused. `Device` is told exactly where a
/// read or a write failed, or a write took no byte.
pub fn run<R: ScriptInput, W: ReportOutput>(alloc: Global, input: &mut R, output: &mut W) -> Ending
    requires readable { (R.source input.old).failures < failure_limit }
    requires writable { (W.sink output.old).failures < failure_limit }
    ensures report { (bytes taken : List ℕ)
        → (R.source input.old).bytes ≡ Some bytes → (W.sink output.old).bytes ≡ Some taken →
        RunsTo bytes (R.source input.old) (R.source input.new)
        (W.sink output.old) (W.sink output.new) result }
    ensures stopped { result ≡ Ending.Device
        → HasStopped (R.source input.old) (R.source input.new)
        (W.sink output.old) (W.sink output.new) }
    ensures unstopped { result ≢ Ending.Device
        → HasNotStopped (R.source input.old) (R.source input.new)
        (W.sink output.old) (W.sink output.new) }
{
    let bytes = match read_all(alloc, input) {
        Ok(bytes) => bytes,
        Err(ReadError::OutOfMemory) => return Ending::OutOfMemory,
        Err(ReadError::Device) => return Ending::Device,
    };
    let Ok(report) = report_of(alloc, bytes.as_slice()) else {
        return Ending::OutOfMemory;
    };
    if write_all(output, report.text.as_bytes()).is_err() {
        return Ending::Device;
    }
    if report.has_fault {
        Ending::ScriptFault
    } else {
        Ending::Whole
    }
}

/// All the bytes of the input. `Device`: a read failed, which none did otherwise.
fn read_all<R: ScriptInput>(alloc: Global, input: &mut R) -> Result<Vec<u8>, ReadError>
    requires { (R.source input.old).failures < failure_limit }
    ensures whole { (bytes : List ℕ) → (R.source input.old).bytes ≡ Some bytes →
        IfOk result (λ v. (v.items ≡ bytes) × ((R.source input.new).bytes ≡ Some [])) }
    ensures failed { IsErrOf result ReadError.Device
        → (R.source input.old).failures < (R.source input.new).failures }
    ensures unfailed { result ≢ Err ReadError.Device
        → (R.source input.new).failures ≡ (R.source input.old).failures }
{
    let mut bytes = Vec::new(alloc);
    let mut buffer = [0u8; BUFFER_LEN];
    loop {
        let count = input.read(&mut buffer).map_err(|_| ReadError::Device)?;
        if count == 0 {
            return Ok(bytes);
        }
        bytes
            .extend_from_slice(&buffer[..count])
            .map_err(|_| ReadError::OutOfMemory)?;
    }
}

/// Writes all the bytes, in as many writes as it takes. The error comes where a write fails, or
/// takes no byte: a beginning of the bytes is written then.
fn write_all<W: ReportOutput>(output: &mut W, bytes: &[u8]) -> io::Result<()>
    requires { (W.sink output.old).failures < failure_limit }
    ensures whole { OnOk result
        (Took (W.sink output.old).bytes bytes.now (W.sink output.new).bytes) }
    ensures began { (front rest : List ℕ) × (bytes.now ≡ front ++ rest)
        × Took (W.sink output.old).bytes front (W.sink output.new).bytes }
    ensures stopped { OnErr result (((W.sink output.old).failures < (W.sink output.new).failures)
        ⊎ ((W.sink output.old).idle < (W.sink output.new).idle)) }
    ensures unfailed { OnOk result ((W.sink output.new).failures ≡ (W.sink output.old).failures) }
    ensures busy { OnOk result ((W.sink output.new).idle ≡ (W.sink output.old).idle) }
{
    let mut rest = bytes;
    while !rest.is_empty() {
        let taken = output.write(rest)?;
        if taken == 0 {
            return Err(io::Error::other("a write took no byte"));
        }
        rest = &rest[taken..];
    }
    Ok(())
}
