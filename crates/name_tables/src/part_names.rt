ghost use Rattle.std.specs.Prelude.{◌≡◌};
ghost use Rattle.std.specs.FinMap as map;
ghost use Rattle.std.specs.Option.{option_copied};
ghost use Rattle.proto_types.specs.Names.{join};

use crate::branches::{Branches, insert_below};
use crate::entered::Entered;
use crate::name_table::NameTable;
use crate::scope::Scope;
use crate::tree::NameTree;
use crate::within::is_within;
use pool_types::Definition;
use std::alloc::{AllocError, Global};
use std::marker::Model;

/// A table of names as a tree, whose branches are the parts of names between their dots. Contracts
/// see it as the finite map.
#[derive(Drop)]
pub struct PartNames {
    pub(crate) alloc: Global,
    pub(crate) branches: Branches,
}

impl Model for PartNames {
    ghost use Rattle.std.specs.Coded.{coded_list, coded_ℕ};
    ghost use Rattle.std.specs.FinMap as map;
    ghost use Rattle.pool_types.specs.Contents.{ByText};
    ghost use Rattle.pool_types.specs.contracts.contents.definition.Definition as definition;
    ghost use Rattle.pool_types.specs.declared.contents.definition.Definition.{Definition};

    ghost Value = { ByText Definition };

    ghost coded = { map.code (coded_list coded_ℕ) definition.the_row.coded };

    ghost use Rattle.name_tables.specs.Branches.{AreBranches, names_of};

    ghost view = { λ names. names_of names.branches.tree names.branches.definitions };

    ghost invariant = { λ names. AreBranches names.branches.tree names.branches.definitions };
}

impl PartNames {
    /// The table without names, which takes no memory.
    pub fn new(alloc: Global) -> PartNames
        ensures { result ≡ map.empty }
    {
        PartNames {
            alloc,
            branches: Branches {
                tree: NameTree::new(alloc),
                definitions: Entered::new(alloc),
            },
        }
    }

    /// Makes room for so many names more, where each but its last part stands in the table.
    ///
    /// # Errors
    /// `AllocError` where memory was refused.
    pub fn reserve(&mut self, more: usize) -> Result<(), AllocError>
        ensures { self.new ≡ self.old }
    {
        // The root is a branch too.
        let branches = more.saturating_add(1);
        self.branches.tree.reserve(branches)?;
        self.branches.definitions.reserve(branches)
    }

    /// What a name inside a scope means, or none where the table lacks it.
    pub fn find_joined(&self, scope: &str, name: &str) -> Option<&Definition>
        ensures { option_copied result ≡ map.get self.now (join scope.now name.now) }
    {
        self.scope(scope).find(name)
    }

    /// A scope of the table, whose text may be any.
    pub fn scope<'a, 't>(&'a self, text: &'t str) -> Scope<'a, 't>
        ensures { result ≡ (self.now, text.now) }
    {
        Scope::new(&self.branches, text)
    }
}

impl NameTable for PartNames {
    ghost names = { λ names. names };

    fn get(&self, name: &str) -> Option<&Definition> {
        self.branches.get(name)
    }

    fn get_joined(
        &self,
        _alloc: Global,
        scope: &str,
        name: &str,
    ) -> Result<Option<&Definition>, AllocError> {
        Ok(self.find_joined(scope, name))
    }

    fn insert(
        &mut self,
        name: &str,
        definition: Definition,
    ) -> Result<Option<Definition>, AllocError> {
        self.branches.tree.insert_root()?;
        let branch = insert_below(&mut self.branches.tree, 0, name)?;
        self.branches.define(branch, definition)
    }

    fn remove_from(&mut self, file: u32) {
        self.branches.definitions.remove_from(file);
        self.branches.tree.truncate(self.branches.definitions.len());
    }

    fn clone(&self) -> Result<PartNames, AllocError> {
        let tree = self.branches.tree.clone()?;
        let definitions = self.branches.definitions.clone(self.alloc)?;
        Ok(PartNames {
            alloc: self.alloc,
            branches: Branches { tree, definitions },
        })
    }

    fn same(&self, other: &PartNames) -> bool {
        is_within(&self.branches, &other.branches) && is_within(&other.branches, &self.branches)
    }
}
