ghost use Rattle.std.specs.Prelude.{◌≡◌, ◌↔◌, IsTrue, IfOk, OnErr};
ghost use Rattle.std.specs.Option.{option_copied};
ghost use Rattle.std.specs.FinMap as map;
ghost use Rattle.pool_types.specs.Contents.{ByText};
ghost use Rattle.pool_types.specs.declared.contents.definition.Definition.{Definition};
ghost use Rattle.name_tables.specs.NameTables.{inserted, without_files_from};
ghost use Rattle.proto_types.specs.Names.{join};

use pool_types::Definition;
use std::alloc::{AllocError, Global};

/// What each name means, as a finite map from texts.
///
/// Only a call that answers a `Result` takes memory.
pub trait NameTable: Drop {
    /// The map.
    ghost names: { Self → ByText Definition };

    /// What the name means, or none where the table lacks it.
    fn get(&self, name: &str) -> Option<&Definition>
        ensures { option_copied result ≡ map.get (names self.now) name.now };

    /// What a name inside a scope means, or none where the table lacks it.
    ///
    /// # Errors
    /// `AllocError` where memory was refused.
    fn get_joined(
        &self,
        alloc: Global,
        scope: &str,
        name: &str,
    ) -> Result<Option<&Definition>, AllocError>
        ensures { IfOk result (λ found. option_copied found
            ≡ map.get (names self.now) (join scope.now name.now)) };

    /// Adds a name that the table lacks. Where it has the name, that means what it did, and the
    /// definition comes back.
    ///
    /// # Errors
    /// `AllocError` where memory was refused. The table is then what it was.
    fn insert(
        &mut self,
        name: &str,
        definition: Definition,
    ) -> Result<Option<Definition>, AllocError>
        ensures ok { IfOk result (λ back. (names self.new, back)
            ≡ inserted (names self.old) name.now definition) }
        ensures err { OnErr result (names self.new ≡ names self.old) };

    /// Takes away each name whose definition lies in the file with this number or in a later one.
    fn remove_from(&mut self, file: u32)
        ensures { names self.new ≡ without_files_from file (names self.old) };

    /// An equal table.
    ///
    /// # Errors
    /// `AllocError` where memory was refused.
    fn clone(&self) -> Result<Self, AllocError>
        ensures { IfOk result (λ copy. names copy ≡ names self.now) };

    /// Whether both tables have the same names, with the same definitions.
    fn same(&self, other: &Self) -> bool
        ensures { IsTrue result ↔ (names self.now ≡ names other.now) };
}
