//! What a run of the check reads from and writes to.

ghost use Rattle.std.specs.Prelude.{◌≡◌, IfOk, IfErr, OnOk, OnErr};
ghost use Rattle.descriptor_check.specs.Devices as spec;

use crate::answer::LinkedSet;
use plain_data::{Items, Text};
use std::alloc::{AllocError, Global};
use std::io;

/// Why nothing could be read, or no set be written.
#[derive(Drop)]
pub enum DeviceError {
    /// Memory was refused.
    OutOfMemory,
    /// What the device says.
    Failed(Text),
}

impl From<AllocError> for DeviceError {
    ghost use Rattle.std.specs.Prelude.{◌≡◌};
    ghost use Rattle.descriptor_check.specs.declared.devices.DeviceError.TheVariants.{OutOfMemory};

    ghost from_gives = { λ _ error. error ≡ OutOfMemory };

    fn from(_error: AllocError) -> DeviceError {
        DeviceError::OutOfMemory
    }
}

/// A set that is written beside its file. It is put into its place or given up: it can't be let go.
pub struct Part {
    /// The name of what is written.
    pub name: Text,
    /// The name of the file that it is to be.
    pub place: Text,
}

/// What a run of the check reads from and writes to.
pub trait CheckDevices {
    /// What they tell of themselves.
    ghost told: { Self → spec.Devices };

    /// The arguments, without the name of the program.
    ///
    /// # Errors
    /// `Failed` where they could not be read, which those that are told can be; `OutOfMemory` where
    /// memory was refused.
    fn arguments(&self, alloc: Global) -> Result<Items<Text>, DeviceError>
        ensures ok { IfOk result (spec.IsTold (told self.now).words) }
        ensures err { IfErr result (spec.FailsUntold (told self.now).words) };

    /// The bytes of the file with a name, or of the standard input for `-`.
    ///
    /// # Errors
    /// `Failed` where they could not be read, which those that are told can be; `OutOfMemory` where
    /// memory was refused.
    fn read(&self, alloc: Global, name: &str) -> Result<Items<u8>, DeviceError>
        ensures ok { IfOk result (spec.IsTold ((told self.now).bytes_of name.now)) }
        ensures err { IfErr result (spec.FailsUntold ((told self.now).bytes_of name.now)) };

    /// Writes to the standard output.
    ///
    /// # Errors
    /// Where some of it could not be written.
    fn print(&mut self, text: &str) -> io::Result<()>
        ensures ok { OnOk result (told self.new ≡ spec.with_report text.now (told self.old)) }
        ensures err { OnErr result ((told self.new).sets ≡ (told self.old).sets) };

    /// Writes to the standard error.
    ///
    /// # Errors
    /// Where some of it could not be written.
    fn complain(&mut self, text: &str) -> io::Result<()>
        ensures ok { OnOk result (told self.new ≡ spec.with_complaint text.now (told self.old)) }
        ensures err { OnErr result ((told self.new).sets ≡ (told self.old).sets) };

    /// Writes a set beside its file, which stays as it is.
    ///
    /// # Errors
    /// `Failed` where it could not be written, `OutOfMemory` where memory was refused. Nothing is
    /// left then.
    fn write_part(&mut self, alloc: Global, set: &LinkedSet) -> Result<Part, DeviceError>
        ensures { told self.new ≡ told self.old };

    /// Puts a set that is written into its place, so that its file is that set.
    ///
    /// # Errors
    /// `Failed` where it could not be put there, `OutOfMemory` where memory was refused. The file
    /// stays as it is, and nothing else is left.
    fn put_in_place(
        &mut self,
        alloc: Global,
        part: Part,
        set: &LinkedSet,
    ) -> Result<(), DeviceError>
        ensures ok { OnOk result (told self.new ≡ spec.with_set set.now (told self.old)) }
        ensures err { OnErr result (told self.new ≡ told self.old) };

    /// Takes away what was written beside a file, which stays as it is.
    fn give_up(&mut self, part: Part)
        ensures { told self.new ≡ told self.old };
}
