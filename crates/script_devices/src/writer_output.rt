ghost use Rattle.std.specs.Prelude.{◌≡◌};
ghost use Rattle.script_devices.specs.Streams.{untold_sink};

use crate::ReportOutput;
use std::io::{self, Write};
use std::marker::Model;

/// Writes a report to a writer of the library, and counts the writes that failed and those that
/// took no byte of some.
#[derive(Drop)]
pub struct WriterOutput<W: Write> {
    writer: W,
    failures: u64,
    idle: u64,
}

impl<W: Write> Model for WriterOutput<W> {
    ghost use Rattle.script_devices.specs.Device.{Sink};
    ghost use Rattle.script_devices.specs.Streams.{untold_sink};

    ghost Value = { Sink };

    ghost view = { λ s. untold_sink s.failures s.idle };
}

impl<W: Write> WriterOutput<W> {
    /// Writes to this writer from here on.
    pub fn new(writer: W) -> WriterOutput<W>
        ensures { result ≡ untold_sink 0 0 }
    {
        WriterOutput {
            writer,
            failures: 0,
            idle: 0,
        }
    }

    /// How many writes failed.
    pub fn failures(&self) -> u64
        ensures { result ≡ self.now.failures }
    {
        self.failures
    }

    /// How many writes of some bytes took none.
    pub fn idle(&self) -> u64
        ensures { result ≡ self.now.idle }
    {
        self.idle
    }
}

impl<W: Write> ReportOutput for WriterOutput<W> {
    ghost sink = { λ s. s };

    /// Writes what the writer takes. It fails where the writer fails, and where a write took no
    /// byte of some once more than can be counted.
    fn write(&mut self, bytes: &[u8]) -> io::Result<usize> {
        let mut went = self.writer.write(bytes);
        if self.idle == u64::MAX && !bytes.is_empty() && matches!(&went, Ok(0)) {
            went = Err(io::Error::other("too many writes took nothing"));
        }
        match &went {
            Ok(0) if !bytes.is_empty() => self.idle += 1,
            Ok(_) => {}
            Err(_) => self.failures += 1,
        }
        went
    }
}
