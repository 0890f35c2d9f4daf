//! Laws of the formats. A call does nothing: its contract is the law.

ghost use Rattle.verdict_texts.specs.Annotations.{AnnotationsEndOnce};
ghost use Rattle.verdict_texts.specs.Fingerprints.{FingerprintsDiffer};
ghost use Rattle.verdict_texts.specs.Percent.{EscapesReadBack};

/// An annotation has one line feed, its last byte: no text of a fault begins a line of its own.
pub fn annotations_end_once()
    ensures { AnnotationsEndOnce }
{}

/// A message of a command, a property of one, and a name as a URI are read as what they were made
/// of.
pub fn escapes_read_back()
    ensures { EscapesReadBack }
{}

/// No two faults or changes of a report of GitLab's code quality have one fingerprint.
pub fn fingerprints_differ()
    ensures { FingerprintsDiffer }
{}
