//! Laws of what is told. A call does nothing: its contract is the law.

ghost use Rattle.protoc_rules.specs.Imports.{ChainsComeBack};

/// A chain of imports from a file comes back where there is one in which a file comes twice.
pub fn chains_come_back()
    ensures { ChainsComeBack }
{}
