mod totals;

use proto_types::FileDescriptorProto;
use totals::Totals;

/// How many of each numbered kind there are.
#[derive(Clone, Copy, PartialEq, Debug)]
pub struct Counts {
    pub files: u32,
    pub messages: u32,
    pub enums: u32,
    pub services: u32,
    pub extensions: u32,
}

/// What there is too much of, in the order in which it is told.
#[derive(Clone, Copy, PartialEq, Debug)]
pub enum CountKind {
    ListTooLong,
    Files,
    Messages,
    Enums,
    Services,
    Extensions,
}

impl Counts {
    ghost use Rattle.std.specs.Prelude.{◌≡◌};
    ghost use Rattle.record_walk.specs.Counts.{no_counts, counts_of, within_limit, plus as sums};
    ghost use Rattle.record_walk.specs.Fits.{counts_with};
    ghost use Rattle.record_walk.specs.Declarations.{declarations};

    /// The counts of all that files declare. No memory is taken.
    ///
    /// # Errors
    /// The first kind of which there is too much: a list with more than 2,147,483,647 entries, and
    /// then files, messages, enums, services and extensions past 4,294,967,295.
    pub fn of(files: &[FileDescriptorProto]) -> Result<Counts, CountKind>
        ensures { result ≡ counts_of (declarations no_counts files.now) }
    {
        match Totals::of_files(files) {
            Some(totals) => totals.within_limits(),
            None => Err(CountKind::ListTooLong),
        }
    }

    /// The sums of two counts. No memory is taken.
    ///
    /// # Errors
    /// The first kind whose sum is past 4,294,967,295.
    pub fn plus(&self, other: &Counts) -> Result<Counts, CountKind>
        ensures { result ≡ within_limit (sums self.now other.now) }
    {
        let sums = Totals::new(*self).plus(Totals::new(*other));
        sums.within_limits()
    }

    /// These counts together with those of all that files declare. No memory is taken.
    ///
    /// # Errors
    /// What there is too much of: in the files alone, as `of` tells it, or else in the sums.
    pub fn with_files(&self, files: &[FileDescriptorProto]) -> Result<Counts, CountKind>
        ensures { result ≡ counts_with self.now files.now }
    {
        self.plus(&Counts::of(files)?)
    }
}
