//! What is answered to a request.

ghost use Rattle.std.specs.Prelude.{◌≡◌, IfOk, IfErr};
ghost use Rattle.descriptor_check.specs.Against.{answer_against};
ghost use Rattle.descriptor_check.specs.Runs.{AreInputsOf, IsInputOf, TellsFailure, TellsOneOf};
ghost use Rattle.protoc_gen_protolink.specs.Answers as spec;

use crate::devices::PluginDevices;
use crate::parameters::asked_by;
use crate::requests::CodeRequest;
use descriptor_check::{
    Answer, DeviceError, Input, Job, Request, Status, VERSION, check_against, help,
};
use plain_data::{Items, Text};
use std::alloc::{AllocError, Global};

/// The error for a request, if there is one: what its files break or change, or what is wrong with
/// its parameter.
///
/// # Errors
/// `AllocError` where memory was refused.
pub(crate) fn error_for<D: PluginDevices>(
    alloc: Global,
    devices: &D,
    request: CodeRequest,
) -> Result<Option<Text>, AllocError>
    ensures { IfOk result (spec.AnswersRequest (D.told devices.now).bytes_of request) }
{
    let CodeRequest { parameter, set } = request;
    match asked_by(alloc, &parameter)? {
        Request::Check(job) => error_for_job(alloc, devices, set, &job),
        Request::Help => Ok(Some(Text::from_string(help(alloc)?))),
        Request::Version => Ok(Some(Text::from_str(alloc, VERSION)?)),
        Request::Wrong(words) => Ok(Some(words)),
    }
}

/// Whether a job wants what a plugin has no place for.
fn asks_too_much(job: &Job) -> bool
    ensures { result ≡ spec.asks_too_much job.now }
{
    job.wanted.lists
        || job.wanted.names.as_slice().len() != 0
        || job.wanted.linked.is_some()
        || job.files.as_slice().len() != 1
}

/// The error for a job, unless it wants too much.
fn error_for_job<D: PluginDevices>(
    alloc: Global,
    devices: &D,
    set: Items<u8>,
    job: &Job,
) -> Result<Option<Text>, AllocError>
    ensures { IfOk result (spec.AnswersJob (D.told devices.now).bytes_of set job.now
        (spec.asks_too_much job.now)) }
{
    if asks_too_much(job) {
        let words =
            "a plugin shows the verdict alone: leave out list, describe, linked and names of files";
        return Ok(Some(Text::from_str(alloc, words)?));
    }
    match read_olders(alloc, devices, job.against.as_slice()) {
        Ok(older) => error_against(alloc, job, older.as_slice(), set),
        Err(DeviceError::Failed(words)) => Ok(Some(words)),
        Err(DeviceError::OutOfMemory) => Err(AllocError),
    }
}

/// The error for files against older versions.
fn error_against(
    alloc: Global,
    job: &Job,
    older: &[Input],
    set: Items<u8>,
) -> Result<Option<Text>, AllocError>
    ensures { IfOk result (λ error. error ≡ spec.error_of
        (answer_against job.now.wanted older.now (spec.inputs_of set))) }
{
    let inputs = inputs_of(alloc, set)?;
    let answer = check_against(alloc, &job.wanted, older, inputs.as_slice())?;
    error_of(alloc, &answer)
}

/// The files of a request, as the one input of the check.
fn inputs_of(alloc: Global, set: Items<u8>) -> Result<Items<Input>, AllocError>
    ensures { IfOk result (λ inputs. inputs ≡ spec.inputs_of set) }
{
    let name = Text::from_str(alloc, "the request")?;
    let mut inputs = Items::new(alloc);
    inputs.push(Input { name, bytes: set })?;
    Ok(inputs)
}

/// The error that an answer is, if it is one.
fn error_of(alloc: Global, answer: &Answer) -> Result<Option<Text>, AllocError>
    ensures { IfOk result (λ error. error ≡ spec.error_of answer.now) }
{
    if matches!(answer.status, Status::Accepted) {
        return Ok(None);
    }
    let report = answer.report.as_str();
    let complaint = answer.complaint.as_str();
    let words = format!(in alloc; "\n{report}{complaint}")?;
    Ok(Some(Text::from_string(words)))
}

/// The files with some names, in order. `Failed` tells which could not be read, and why.
fn read_olders<D: PluginDevices>(
    alloc: Global,
    devices: &D,
    names: &[Text],
) -> Result<Items<Input>, DeviceError>
    ensures ok { IfOk result (AreInputsOf (D.told devices.now).bytes_of names.now) }
    ensures err { IfErr result (TellsOneOf (D.told devices.now).bytes_of names.now) }
{
    let mut inputs = Items::new(alloc);
    for name in names {
        inputs.push(read_older(alloc, devices, name)?)?;
    }
    Ok(inputs)
}

/// The file with a name. `Failed` tells that name, and why it could not be read.
fn read_older<D: PluginDevices>(
    alloc: Global,
    devices: &D,
    name: &Text,
) -> Result<Input, DeviceError>
    ensures ok { IfOk result (IsInputOf (D.told devices.now).bytes_of name.now) }
    ensures err { IfErr result (TellsFailure ((D.told devices.now).bytes_of name.now) name.now) }
{
    match devices.read(alloc, name.as_str()) {
        Ok(bytes) => {
            let name = name.clone(alloc)?;
            Ok(Input { name, bytes })
        }
        Err(DeviceError::Failed(why)) => {
            let name = name.as_str();
            let why = why.as_str();
            let words = format!(in alloc; "{name}: {why}")?;
            Err(DeviceError::Failed(Text::from_string(words)))
        }
        Err(DeviceError::OutOfMemory) => Err(DeviceError::OutOfMemory),
    }
}
