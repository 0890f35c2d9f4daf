ghost use Rattle.std.specs.Prelude.{◌≡◌};
ghost use Rattle.descriptor_linker.specs.Ending.{ending_number};

/// How a run of a script ended, with the exit status of the program.
#[derive(Clone, Copy, PartialEq, Debug)]
pub enum Ending {
    /// 0: the whole report was written.
    Whole,
    /// 2: the whole report was written, and ends with the line of the script's fault.
    ScriptFault,
    /// 3: memory was refused: no read and no write failed, and nothing was written.
    OutOfMemory,
    /// 4: a read failed and nothing was written, or a write failed or took no byte, and a
    /// beginning of the report was written.
    Device,
}

impl Ending {
    /// The exit status.
    pub fn number(self) -> u8
        ensures { result ≡ ending_number self }
    {
        match self {
            Ending::Whole => 0,
            Ending::ScriptFault => 2,
            Ending::OutOfMemory => 3,
            Ending::Device => 4,
        }
    }
}
