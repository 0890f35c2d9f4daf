//! The law on what a file sees. The call does nothing: its contract is the law, and is proved of
//! all files.
ghost use Rattle.name_resolution.specs.Visibility.{SeesIsTested};

/// What a file sees can be tested: where each name means a file that is there, no chain of public
/// imports needs more steps than there are files.
pub fn sees_is_tested()
    ensures { SeesIsTested }
{}
