//! The machine that the program runs on. Contracts see the words of the arguments, and nothing else
//! of it.

use crate::failures::failure;
use crate::parts::{remove_part, rename_part, write_part};
use descriptor_check::{CheckDevices, DeviceError, LinkedSet, Part};
use plain_data::{Items, Text};
use std::alloc::Global;
use std::fs;
use std::io::{self, Read};

/// The machine, by its runtime, and what the program was called with.
#[derive(Drop)]
pub(crate) struct Host {
    pub(crate) rt: HostRuntime,
    /// The words of the arguments, or why they could not be read.
    pub(crate) words: Result<Items<Text>, DeviceError>,
}

impl CheckDevices for Host {
    ghost use Rattle.std.specs.Result.{result_ok};
    ghost use Rattle.descriptor_check.specs.Devices.{untold};

    ghost told = { λ host. record untold { words = result_ok host.words } };

    fn arguments(&self, alloc: Global) -> Result<Items<Text>, DeviceError> {
        match &self.words {
            Ok(words) => Ok(words.clone(alloc)?),
            Err(DeviceError::Failed(why)) => Err(DeviceError::Failed(why.clone(alloc)?)),
            Err(DeviceError::OutOfMemory) => Err(DeviceError::OutOfMemory),
        }
    }

    fn read(&self, alloc: Global, name: &str) -> Result<Items<u8>, DeviceError> {
        match read_bytes(&self.rt, name) {
            Ok(bytes) => Ok(Items::from_vec(bytes)),
            Err(error) => Err(failure(alloc, &error)),
        }
    }

    fn print(&mut self, text: &str) -> io::Result<()> {
        print!(self.rt; "{text}")
    }

    fn complain(&mut self, text: &str) -> io::Result<()> {
        eprint!(self.rt; "{text}")
    }

    fn write_part(&mut self, _alloc: Global, set: &LinkedSet) -> Result<Part, DeviceError> {
        write_part(&self.rt, set)
    }

    fn put_in_place(
        &mut self,
        _alloc: Global,
        part: Part,
        _set: &LinkedSet,
    ) -> Result<(), DeviceError> {
        rename_part(&self.rt, part)
    }

    fn give_up(&mut self, part: Part) {
        remove_part(&self.rt, part);
    }
}

/// The bytes of a file, or of the standard input for `-`.
fn read_bytes(rt: &HostRuntime, name: &str) -> io::Result<Vec<u8>> {
    if name != "-" {
        return fs::read(rt, name);
    }
    let mut bytes = Vec::new(rt.alloc());
    rt.reader().read_to_end(&mut bytes)?;
    Ok(bytes)
}
