//! How a run of the plugin ends.

ghost use Rattle.std.specs.Prelude.{◌≡◌};
ghost use Rattle.protoc_gen_protolink.specs.Runs as spec;

/// How a run of the plugin ends.
#[derive(Clone, Copy, PartialEq, Debug)]
pub enum Ending {
    /// protoc has the response, also where that tells faults.
    Answered,
    /// The request could not be read, or is none.
    NoRequest,
    OutOfMemory,
    /// The response could not be written.
    Device,
}

impl Ending {
    /// The exit status.
    pub fn number(self) -> u8
        ensures { result ≡ spec.exit_number self }
    {
        match self {
            Ending::Answered => 0,
            Ending::NoRequest => 2,
            Ending::OutOfMemory => 3,
            Ending::Device => 4,
        }
    }
}
