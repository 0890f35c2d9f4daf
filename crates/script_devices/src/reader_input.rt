ghost use Rattle.std.specs.Prelude.{◌≡◌, ◌-◌, ◌^◌, ◌<◌, IsErr};
ghost use Rattle.script_devices.specs.Device.{Reads, failure_limit};
ghost use Rattle.script_devices.specs.Streams.{untold_source};

use crate::ScriptInput;
use std::io::{self, Read};
use std::marker::Model;

/// Reads a script from a reader of the library, and counts the reads that failed.
#[derive(Drop)]
pub struct ReaderInput<R: Read> {
    reader: R,
    failures: u64,
    reads_left: u64,
}

impl<R: Read> Model for ReaderInput<R> {
    ghost use Rattle.script_devices.specs.Device.{Source};
    ghost use Rattle.script_devices.specs.Streams.{untold_source};

    ghost Value = { Source };

    ghost view = { λ s. untold_source s.failures s.reads_left };
}

impl<R: Read> ReaderInput<R> {
    /// Reads from this reader from here on.
    pub fn new(reader: R) -> ReaderInput<R>
        ensures { result ≡ untold_source 0 (2 ^ 64 - 1) }
    {
        ReaderInput {
            reader,
            failures: 0,
            reads_left: u64::MAX,
        }
    }

    /// How many reads failed.
    pub fn failures(&self) -> u64
        ensures { result ≡ self.now.failures }
    {
        self.failures
    }
}

impl<R: Read> ScriptInput for ReaderInput<R> {
    ghost source = { λ s. s };

    /// Reads what the reader gives. It fails where the reader fails, and where 2^64 - 1 reads came
    /// before: it reads nothing then.
    fn read(&mut self, buffer: &mut [u8]) -> io::Result<usize>
        requires { self.old.failures < failure_limit }
        ensures reads { Reads self.old self.new buffer.new result }
        ensures counted { self.new.reads_left ≡ self.old.reads_left - 1 }
        ensures last { self.old.reads_left ≡ 0 → IsErr result }
    {
        let came = if self.reads_left == 0 {
            Err(io::Error::other("too many reads"))
        } else {
            self.reads_left -= 1;
            self.reader.read(buffer)
        };
        if came.is_err() {
            self.failures += 1;
        }
        came
    }
}
