//! In which direction two versions are compared.

ghost use Rattle.std.specs.Prelude.{◌≡◌};
ghost use Rattle.pool_changes.specs.Comparing.{directions};
ghost use Rattle.pool_changes.specs.Words as spec;

/// In which direction two versions are compared.
#[derive(Clone, Copy, PartialEq, Debug)]
pub enum Direction {
    /// The older version writes, and the new one reads.
    Backward,
    /// The new version writes, and the older one reads.
    Forward,
}

impl Direction {
    /// The word for it.
    pub fn word(self) -> &'static str
        ensures { result.now ≡ spec.direction_word self }
    {
        match self {
            Direction::Backward => "backward",
            Direction::Forward => "forward",
        }
    }
}

/// Which version is to read what the other writes.
#[derive(Clone, Copy, PartialEq, Debug)]
pub enum Compatibility {
    /// The new one what an older one writes.
    Backward,
    /// An older one what the new one writes.
    Forward,
    /// Each what the other writes.
    Full,
}

impl Compatibility {
    /// The directions in which two versions are then compared, in order.
    pub(crate) fn directions(self) -> &'static [Direction]
        ensures { result.now ≡ directions self }
    {
        match self {
            Compatibility::Backward => &[Direction::Backward],
            Compatibility::Forward => &[Direction::Forward],
            Compatibility::Full => &[Direction::Backward, Direction::Forward],
        }
    }
}
