//! Laws of what is told. A call does nothing: its contract is the law.

ghost use Rattle.verdict_texts.specs.JsonStrings.{StringsReadBack};
ghost use Rattle.verdict_texts.specs.Lines.{LinesEndOnce};
ghost use Rattle.verdict_texts.specs.Standing.{ElementsAreDeclared};

/// A line has one line feed, its last byte.
pub fn lines_end_once()
    ensures { LinesEndOnce }
{}

/// The string of JSON that is written for a text is read as that text.
pub fn strings_read_back()
    ensures { StringsReadBack }
{}

/// An element that is told at a label is the name of a declaration which stands in the only file of
/// the label, at its path or around it.
pub fn elements_are_declared()
    ensures { ElementsAreDeclared }
{}
