//! A run of the plugin: from a request to the response.

ghost use Rattle.std.specs.Prelude.{◌≡◌, IfErr, IfOk};
ghost use Rattle.protoc_gen_protolink.specs.Runs as spec;
ghost use Rattle.protoc_gen_protolink.specs.declared.ending.Ending.TheVariants.{NoRequest};

use crate::answers::error_for;
use crate::devices::PluginDevices;
use crate::ending::Ending;
use crate::requests::read_request;
use crate::responses::response;
use descriptor_check::DeviceError;
use descriptor_decoding::DecodeError;
use plain_data::Text;
use std::alloc::{AllocError, Global};
use verdict_texts::bytes_words;

/// Reads the request, links its files, and answers protoc what they break, as the error of a
/// response, or nothing: all that the plugin does.
pub fn run<D: PluginDevices>(alloc: Global, devices: &mut D) -> Ending
    ensures { spec.Ends (D.told devices.old) (D.told devices.new) result }
{
    match response_to_request(alloc, devices) {
        Ok(bytes) => write_response(devices, bytes.as_slice()),
        Err(DeviceError::Failed(why)) => tell_no_request(alloc, devices, &why),
        Err(DeviceError::OutOfMemory) => Ending::OutOfMemory,
    }
}

/// The response to the request. `Failed` tells why there is none.
fn response_to_request<D: PluginDevices>(alloc: Global, devices: &D) -> Result<Vec<u8>, DeviceError>
    ensures ok { IfOk result (λ v. spec.IsResponseTo (D.told devices.now) v.items) }
    ensures err { IfErr result (spec.TellsNoRequest (D.told devices.now)) }
{
    let bytes = devices.request(alloc)?;
    match read_request(alloc, bytes.as_slice()) {
        Ok(request) => {
            let error = error_for(alloc, devices, request)?;
            Ok(response(alloc, &error)?)
        }
        Err(DecodeError::Fault(fault)) => {
            let words = bytes_words(alloc, fault)?;
            Err(DeviceError::Failed(Text::from_string(words)))
        }
        Err(DecodeError::OutOfMemory) => Err(DeviceError::OutOfMemory),
    }
}

/// Answers protoc.
fn write_response<D: PluginDevices>(devices: &mut D, bytes: &[u8]) -> Ending
    ensures { spec.Writes bytes.now (D.told devices.old) (D.told devices.new) result }
{
    match devices.answer(bytes) {
        Ok(()) => Ending::Answered,
        Err(_) => Ending::Device,
    }
}

/// Tells why there is no request, as far as that can be told.
fn tell_no_request<D: PluginDevices>(alloc: Global, devices: &mut D, why: &Text) -> Ending
    ensures ending { result ≡ NoRequest }
    ensures same { D.told devices.new ≡ D.told devices.old }
{
    let why = why.as_str();
    if let Ok(line) = format!(in alloc; "protoc-gen-protolink: the request: {why}\n") {
        let _ = devices.complain(line.as_str());
    }
    Ending::NoRequest
}
