//! Laws on the finite map of names. A call does nothing: its contract is the law, and is proved of
//! all maps.
ghost use Rattle.name_tables.specs.Entries.{NamesAreFirst};
ghost use Rattle.name_tables.specs.NameTables.{EarlierNamesStay, LaterNameGoes};

/// Names that all mean something in files before a given one stay where the given file and later
/// ones are taken away.
pub fn earlier_names_stay()
    ensures { EarlierNamesStay }
{}

/// A name that a map lacks, and that is added with a definition in a given file or in a later one,
/// is gone once these files are taken away: what is left is what was left of the map without it.
pub fn later_name_goes()
    ensures { LaterNameGoes }
{}

/// A map that is made of entries has for each name what its first entry says.
pub fn names_are_first()
    ensures { NamesAreFirst }
{}
