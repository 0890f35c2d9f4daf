//! Laws of joined files. A call does nothing: its contract is the law.

ghost use Rattle.joined_files.specs.Differences.{DifferencesAreExact};
ghost use Rattle.joined_files.specs.Joining.{JoinedApartFromPlaces};

/// There is no difference exactly where two files are equal apart from their places.
pub fn differences_are_exact()
    ensures { DifferencesAreExact }
{}

/// Which of some files have places changes nothing of their batch but its places, and nothing of
/// what is told of unequal ones.
pub fn joined_apart_from_places()
    ensures { JoinedApartFromPlaces }
{}
