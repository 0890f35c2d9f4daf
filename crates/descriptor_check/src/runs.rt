//! A run of the check: from its arguments to its status.

ghost use Rattle.std.specs.Prelude.{◌≡◌, ◌++◌, IfOk, IfErr, OnOk, OnErr, string_bytes};
ghost use Rattle.descriptor_check.specs.Arguments.{request_of};
ghost use Rattle.descriptor_check.specs.Devices.{with_set};
ghost use Rattle.descriptor_check.specs.Runs as spec;

use crate::against::check_against;
use crate::answer::{Answer, LinkedSet, Status};
use crate::arguments::{Job, Request, VERSION, read_arguments};
use crate::checking::{tell, tell_help};
use crate::complaints::{complain, complain_of_arguments, write_complaint};
use crate::devices::{CheckDevices, DeviceError};
use crate::inputs::Input;
use plain_data::{Items, Text};
use std::alloc::{AllocError, Global};
use std::io;

/// Reads the arguments and the files that they name, and tells what is asked: all that the program
/// does. The status is that of the answer, which is written whole then; or `OutOfMemory`, and
/// nothing is written; or `Device`, and the file for the linked files stays as it is.
pub fn run<D: CheckDevices>(alloc: Global, devices: &mut D) -> Status
    ensures { spec.Ends (D.told devices.old) (D.told devices.new) result }
{
    match answer(alloc, devices) {
        Ok(answer) => write_all(alloc, devices, &answer),
        Err(AllocError) => Status::OutOfMemory,
    }
}

/// What the arguments ask, answered.
fn answer<D: CheckDevices>(alloc: Global, devices: &D) -> Result<Answer, AllocError>
    ensures { IfOk result (spec.IsAnswerTo (D.told devices.now)) }
{
    match devices.arguments(alloc) {
        Ok(words) => answer_words(alloc, devices, words.as_slice()),
        Err(DeviceError::Failed(why)) => no_verdict(alloc, "the arguments", &why),
        Err(DeviceError::OutOfMemory) => Err(AllocError),
    }
}

/// The answer where what has a name could not be read, and why.
fn no_verdict(alloc: Global, name: &str, why: &Text) -> Result<Answer, AllocError>
    ensures { IfOk result (spec.TellsUnread name.now) }
{
    let words = failure_words(alloc, name, why)?;
    complain(alloc, words.as_str())
}

/// What some words ask, answered.
fn answer_words<D: CheckDevices>(
    alloc: Global,
    devices: &D,
    words: &[Text],
) -> Result<Answer, AllocError>
    ensures { IfOk result (spec.Asked (D.told devices.now).bytes_of (request_of words.now)) }
{
    match read_arguments(alloc, words)? {
        Request::Check(job) => check_files(alloc, devices, &job),
        Request::Help => tell_help(alloc),
        Request::Version => tell(alloc, VERSION),
        Request::Wrong(words) => complain_of_arguments(alloc, words.as_str()),
    }
}

/// The verdict on the files that a job names, against the older versions that it names, or which of
/// all these could not be read.
fn check_files<D: CheckDevices>(alloc: Global, devices: &D, job: &Job) -> Result<Answer, AllocError>
    ensures { IfOk result (spec.Checks (D.told devices.now).bytes_of job.now) }
{
    match read_inputs(alloc, devices, job.against.as_slice()) {
        Ok(older) => check_behind(alloc, devices, job, older.as_slice()),
        Err(DeviceError::Failed(words)) => complain(alloc, words.as_str()),
        Err(DeviceError::OutOfMemory) => Err(AllocError),
    }
}

/// The verdict on the files that a job names, against older versions that were read.
fn check_behind<D: CheckDevices>(
    alloc: Global,
    devices: &D,
    job: &Job,
    older: &[Input],
) -> Result<Answer, AllocError>
    requires { spec.AreInputsOf (D.told devices.now).bytes_of job.now.against older.now }
    ensures { IfOk result (spec.Checks (D.told devices.now).bytes_of job.now) }
{
    match read_inputs(alloc, devices, job.files.as_slice()) {
        Ok(inputs) => check_against(alloc, &job.wanted, older, inputs.as_slice()),
        Err(DeviceError::Failed(words)) => complain(alloc, words.as_str()),
        Err(DeviceError::OutOfMemory) => Err(AllocError),
    }
}

/// The files with some names, in order. `Failed` tells which could not be read, and why.
fn read_inputs<D: CheckDevices>(
    alloc: Global,
    devices: &D,
    names: &[Text],
) -> Result<Items<Input>, DeviceError>
    ensures ok { IfOk result (spec.AreInputsOf (D.told devices.now).bytes_of names.now) }
    ensures err { IfErr result (spec.TellsOneOf (D.told devices.now).bytes_of names.now) }
{
    let mut inputs = Items::new(alloc);
    for name in names {
        inputs.push(read_input(alloc, devices, name)?)?;
    }
    Ok(inputs)
}

/// The file with a name. `Failed` tells that name, and why it could not be read.
fn read_input<D: CheckDevices>(
    alloc: Global,
    devices: &D,
    name: &Text,
) -> Result<Input, DeviceError>
    ensures ok { IfOk result (spec.IsInputOf (D.told devices.now).bytes_of name.now) }
    ensures err { IfErr result
        (spec.TellsFailure ((D.told devices.now).bytes_of name.now) name.now) }
{
    match devices.read(alloc, name.as_str()) {
        Ok(bytes) => {
            let name = name.clone(alloc)?;
            Ok(Input { name, bytes })
        }
        Err(DeviceError::Failed(why)) => {
            let words = failure_words(alloc, name.as_str(), &why)?;
            Err(DeviceError::Failed(Text::from_string(words)))
        }
        Err(DeviceError::OutOfMemory) => Err(DeviceError::OutOfMemory),
    }
}

/// What could not be read, and why.
fn failure_words(alloc: Global, name: &str, why: &Text) -> Result<String, AllocError>
    ensures { IfOk result (λ s. string_bytes s ≡ spec.failure_words name.now why.now) }
{
    let why = why.as_str();
    format!(in alloc; "{name}: {why}")
}

/// Writes an answer, and the set that it has.
fn write_all<D: CheckDevices>(alloc: Global, devices: &mut D, answer: &Answer) -> Status
    ensures { spec.EndsAs (D.told devices.old) (D.told devices.new) answer.now result }
{
    match &answer.linked {
        Some(set) => write_with_set(alloc, devices, answer, set),
        None => write_alone(alloc, devices, answer),
    }
}

/// Writes an answer that has no set.
fn write_alone<D: CheckDevices>(alloc: Global, devices: &mut D, answer: &Answer) -> Status
    ensures { spec.EndsIn (spec.with_texts answer.now (D.told devices.old))
        (D.told devices.old) (D.told devices.new) answer.now.status result }
{
    match write_texts(alloc, devices, answer) {
        Ok(()) => answer.status,
        Err(_) => Status::Device,
    }
}

/// Writes what an answer tells. Why the report could not be written is told, as far as that can be.
fn write_texts<D: CheckDevices>(alloc: Global, devices: &mut D, answer: &Answer) -> io::Result<()>
    ensures ok { OnOk result (D.told devices.new
        ≡ spec.with_texts answer.now (D.told devices.old)) }
    ensures err { OnErr result ((D.told devices.new).sets ≡ (D.told devices.old).sets) }
{
    if let Err(error) = devices.print(answer.report.as_str()) {
        if let Ok(words) = format!(in alloc; "the standard output: {error}") {
            let _ = tell_failure(alloc, devices, words.as_str());
        }
        return Err(error);
    }
    devices.complain(answer.complaint.as_str())
}

/// Writes a set beside its file, then the answer, and then puts the set into its place.
fn write_with_set<D: CheckDevices>(
    alloc: Global,
    devices: &mut D,
    answer: &Answer,
    set: &LinkedSet,
) -> Status
    ensures { spec.EndsIn (with_set set.now (spec.with_texts answer.now (D.told devices.old)))
        (D.told devices.old) (D.told devices.new) answer.now.status result }
{
    let part = match devices.write_part(alloc, set) {
        Ok(part) => part,
        Err(DeviceError::OutOfMemory) => return Status::OutOfMemory,
        Err(DeviceError::Failed(why)) => return tell_failure(alloc, devices, why.as_str()),
    };
    if write_texts(alloc, devices, answer).is_err() {
        devices.give_up(part);
        return Status::Device;
    }
    match devices.put_in_place(alloc, part, set) {
        Ok(()) => answer.status,
        Err(DeviceError::OutOfMemory) => Status::Device,
        Err(DeviceError::Failed(why)) => {
            let _ = tell_failure(alloc, devices, why.as_str());
            Status::Device
        }
    }
}

/// Tells why something could not be written. The status is `OutOfMemory` where there was no memory
/// for that, and nothing is written then.
fn tell_failure<D: CheckDevices>(alloc: Global, devices: &mut D, why: &str) -> Status
    ensures { spec.EndsShort (D.told devices.old) (D.told devices.new) result }
{
    let mut line = String::new(alloc);
    if write_complaint(alloc, &mut line, why).is_err() {
        return Status::OutOfMemory;
    }
    let _ = devices.complain(line.as_str());
    Status::Device
}
