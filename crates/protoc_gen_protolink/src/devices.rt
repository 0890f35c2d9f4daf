//! What a plugin reads from and writes to.

ghost use Rattle.std.specs.Prelude.{◌≡◌, IfOk, IfErr, OnOk};
ghost use Rattle.descriptor_check.specs.Devices.{IsTold, FailsUntold};
ghost use Rattle.protoc_gen_protolink.specs.Devices as spec;

use descriptor_check::DeviceError;
use plain_data::Items;
use std::alloc::Global;
use std::io;

/// What a plugin reads from and writes to.
pub trait PluginDevices {
    /// What they tell of themselves.
    ghost told: { Self → spec.Devices };

    /// The bytes of the request.
    ///
    /// # Errors
    /// `Failed` where they could not be read, which those that are told can be; `OutOfMemory` where
    /// memory was refused.
    fn request(&self, alloc: Global) -> Result<Items<u8>, DeviceError>
        ensures ok { IfOk result (IsTold (told self.now).request) }
        ensures err { IfErr result (FailsUntold (told self.now).request) };

    /// The bytes of the file with a name.
    ///
    /// # Errors
    /// Those of `request`.
    fn read(&self, alloc: Global, name: &str) -> Result<Items<u8>, DeviceError>
        ensures ok { IfOk result (IsTold ((told self.now).bytes_of name.now)) }
        ensures err { IfErr result (FailsUntold ((told self.now).bytes_of name.now)) };

    /// Answers protoc.
    ///
    /// # Errors
    /// Where some of it could not be written.
    fn answer(&mut self, bytes: &[u8]) -> io::Result<()>
        ensures { OnOk result (told self.new ≡ spec.with_answer bytes.now (told self.old)) };

    /// Tells the user why there is no answer.
    ///
    /// # Errors
    /// Where some of it could not be written.
    fn complain(&mut self, text: &str) -> io::Result<()>
        ensures { told self.new ≡ told self.old };
}
