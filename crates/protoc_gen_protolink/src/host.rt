//! The machine that the plugin runs on. It tells nothing of itself to a contract.

use crate::devices::PluginDevices;
use descriptor_check::DeviceError;
use plain_data::{Items, Text};
use std::alloc::{AllocError, Global};
use std::fs;
use std::io::{self, Error, ErrorKind, Read, Write};

/// The machine, by its runtime.
#[derive(Drop)]
pub(crate) struct Host {
    pub(crate) rt: HostRuntime,
}

impl PluginDevices for Host {
    ghost use Rattle.protoc_gen_protolink.specs.Devices.{untold};

    ghost told = { λ _. untold };

    fn request(&self, alloc: Global) -> Result<Items<u8>, DeviceError> {
        let mut bytes = Vec::new(alloc);
        match self.rt.reader().read_to_end(&mut bytes) {
            Ok(_) => Ok(Items::from_vec(bytes)),
            Err(error) => Err(failure(alloc, &error)),
        }
    }

    fn read(&self, alloc: Global, name: &str) -> Result<Items<u8>, DeviceError> {
        match fs::read(&self.rt, name) {
            Ok(bytes) => Ok(Items::from_vec(bytes)),
            Err(error) => Err(failure(alloc, &error)),
        }
    }

    fn answer(&mut self, bytes: &[u8]) -> io::Result<()> {
        self.rt.stdout().write_all(bytes)
    }

    fn complain(&mut self, text: &str) -> io::Result<()> {
        eprint!(self.rt; "{text}")
    }
}

/// Why a call failed, in the words of the system.
fn failure(alloc: Global, error: &Error) -> DeviceError {
    if error.kind() == ErrorKind::OutOfMemory {
        return DeviceError::OutOfMemory;
    }
    match error.to_string(alloc) {
        Ok(words) => DeviceError::Failed(Text::from_string(words)),
        Err(AllocError) => DeviceError::OutOfMemory,
    }
}
