//! What is wanted of a check, and what it answers.

ghost use Rattle.std.specs.Prelude.{◌≡◌};
ghost use Rattle.descriptor_check.specs.Statuses as spec;

use plain_data::{Items, Text};
use pool_changes::{Compatibility, Level};
use verdict_texts::Format;

/// How the verdict is told, and what is told of an accepted batch besides.
#[derive(Drop)]
pub struct Wanted {
    /// The format, which has the verdict alone where it is not for people.
    pub format: Format,
    /// The most faults that are told.
    pub most: usize,
    /// What `protoc` refuses besides is refused too.
    pub strict: bool,
    /// The first of unequal files of one name counts, and the others are passed over.
    pub first_counts: bool,
    /// Each declaration is told.
    pub lists: bool,
    /// The names of which is told what they mean, in order.
    pub names: Items<Text>,
    /// The name of the file to which the linked files go as a set, if they are wanted.
    pub linked: Option<Text>,
    /// Which version is to read what the other writes, if that is said: the new one where it isn't.
    pub compatibility: Option<Compatibility>,
    /// The level at which versions are compared, if that is said: wire where it isn't.
    pub level: Option<Level>,
}

/// How a run ends.
#[derive(Clone, Copy, PartialEq, Debug)]
pub enum Status {
    Accepted,
    Refused,
    /// The arguments are wrong, or an input could not be read or is no descriptor set.
    NoVerdict,
    OutOfMemory,
    /// What there is to tell could not be written.
    Device,
}

impl Status {
    /// The exit status.
    pub fn number(self) -> u8
        ensures { result ≡ spec.status_number self }
    {
        match self {
            Status::Accepted => 0,
            Status::Refused => 1,
            Status::NoVerdict => 2,
            Status::OutOfMemory => 3,
            Status::Device => 4,
        }
    }
}

/// The answer of a check: how the run ends, and what is written.
#[derive(Drop)]
pub struct Answer {
    pub status: Status,
    /// What is written to the standard output.
    pub report: Text,
    /// What is written to the standard error.
    pub complaint: Text,
    /// The linked files of an accepted batch, where they are wanted.
    pub linked: Option<LinkedSet>,
}

/// The linked files of a batch, as a descriptor set for a file.
#[derive(Drop)]
pub struct LinkedSet {
    /// The name of the file.
    pub name: Text,
    pub bytes: Items<u8>,
}
