ghost use Rattle.std.specs.Prelude.{◌<◌};
ghost use Rattle.script_devices.specs.Device.{Source, Sink, Reads, Writes, failure_limit};

use std::io;

/// What a script is read from.
pub trait ScriptInput {
    /// What it tells of itself.
    ghost source: { Self → Source };

    /// Fills a part of the buffer, from its start, and says how many bytes came; 0 at the end.
    fn read(&mut self, buffer: &mut [u8]) -> io::Result<usize>
        requires { (source self.old).failures < failure_limit }
        ensures { Reads (source self.old) (source self.new) buffer.new result };
}

/// What a report is written to.
pub trait ReportOutput {
    /// What it tells of itself.
    ghost sink: { Self → Sink };

    /// Takes the first of some bytes, and says how many.
    fn write(&mut self, bytes: &[u8]) -> io::Result<usize>
        requires { (sink self.old).failures < failure_limit }
        ensures { Writes (sink self.old) (sink self.new) bytes.now result };
}
