ghost use Rattle.std.specs.Prelude.{◌≡◌};
ghost use Rattle.numbered_pool.specs.Statuses.{status_number};

/// How a call that adds files ended. After any status but `Done` the pool is as it was.
#[derive(Clone, Copy, PartialEq, Debug)]
pub enum Status {
    /// The files are linked, and nothing is told.
    Done,
    /// Rules are broken: all faults of the first failing pass are told.
    Refused,
    /// The bytes are no files: their first fault is told.
    Fault,
    /// Memory was refused, and nothing is told.
    OutOfMemory,
    /// There is too much of a kind, which is told.
    TooMany,
}

impl Status {
    /// The number of the status: 0 done, 1 refused, 2 a fault of the bytes, 3 no memory, 5 too
    /// many.
    pub fn number(self) -> u8
        ensures { result ≡ status_number self }
    {
        match self {
            Status::Done => 0,
            Status::Refused => 1,
            Status::Fault => 2,
            Status::OutOfMemory => 3,
            Status::TooMany => 5,
        }
    }
}
