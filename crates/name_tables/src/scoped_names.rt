ghost use Rattle.std.specs.Prelude.{◌≡◌, ◌<◌, ◌-◌, ◌++◌, ◌∷◌, [], suc, length, take, drop, get_or};
ghost use Rattle.std.specs.Prelude.{IfOk, OnOk, OnErr, None};
ghost use Rattle.std.specs.FinMap as map;
ghost use Rattle.std.specs.Option.{option_copied};
ghost use Rattle.proto_types.specs.Names.{join};
ghost use Rattle.name_tables.specs.Parts.{name_of, parts};
ghost use Rattle.name_tables.specs.Tree.{IsDescendant, IsTree, KeepsBranches, path};
ghost use Rattle.name_tables.specs.Scopes.{IsScope};

use crate::branches::{Branches, insert_below, insert_parts};
use crate::part_names::PartNames;
use crate::tree::NameTree;
use pool_types::Definition;
use std::alloc::{AllocError, Global};
use std::marker::Model;

/// A table of names while those of declarations come into it, and the scopes that are open, from
/// the outermost in. Contracts see it as what the names of the table mean, and the texts of the
/// scopes.
#[derive(Drop)]
pub struct ScopedNames {
    alloc: Global,
    branches: Branches,
    /// The branch of each open scope: that of the empty one is the root.
    scopes: Vec<u32>,
}

impl Model for ScopedNames {
    ghost use Rattle.std.specs.Prelude.{List, ℕ};
    ghost use Rattle.std.specs.Coded.{coded×, coded_list, coded_ℕ};
    ghost use Rattle.std.specs.FinMap as map;
    ghost use Rattle.pool_types.specs.Contents.{ByText};
    ghost use Rattle.pool_types.specs.contracts.contents.definition.Definition as definition;
    ghost use Rattle.pool_types.specs.declared.contents.definition.Definition.{Definition};
    ghost use Rattle.name_tables.specs.Branches.{AreBranches, names_of};
    ghost use Rattle.name_tables.specs.Scopes.{AreScopes, scope_texts};

    ghost Value = { ByText Definition × List (List ℕ) };

    ghost coded = { coded× (map.code (coded_list coded_ℕ) definition.the_row.coded)
        (coded_list (coded_list coded_ℕ)) };

    ghost view = { λ names. (
      names_of names.branches.tree names.branches.definitions,
      scope_texts names.branches.tree names.scopes.items,
    ) };

    ghost invariant = { λ names. AreBranches names.branches.tree names.branches.definitions
        × AreScopes names.branches.tree names.scopes.items };
}

impl ScopedNames {
    /// The names of a table, without an open scope, which takes no memory.
    pub fn new(names: PartNames) -> ScopedNames
        ensures { result ≡ (names, []) }
    {
        ScopedNames {
            alloc: names.alloc,
            branches: names.branches,
            scopes: Vec::new(names.alloc),
        }
    }

    /// The table. All scopes are closed.
    pub fn into_names(self) -> PartNames
        ensures { result ≡ self.0 }
    {
        PartNames {
            alloc: self.alloc,
            branches: self.branches,
        }
    }

    /// Closes all scopes, and opens the empty one, in which packages stand.
    ///
    /// # Errors
    /// `AllocError` where memory was refused.
    pub fn open_outermost(&mut self) -> Result<(), AllocError>
        ensures names { self.new.0 ≡ self.old.0 }
        ensures scopes { OnOk result (self.new.1 ≡ [] ∷ []) }
    {
        self.branches.tree.insert_root()?;
        self.scopes.clear();
        self.scopes.push(0)?;
        Ok(())
    }

    /// Closes all scopes but the innermost.
    pub fn keep_innermost(&mut self)
        ensures names { self.new.0 ≡ self.old.0 }
        ensures scopes { self.new.1 ≡ drop (length self.old.1 - 1) self.old.1 }
    {
        if let Some(innermost) = self.scopes.last().copied() {
            self.scopes[0] = innermost;
            self.scopes.truncate(1);
        }
    }

    /// Closes the scopes inside the open one with a level, from 0, and opens that of the full name
    /// of a name there.
    ///
    /// # Errors
    /// `AllocError` where memory was refused.
    // Inlined, as the two below are: each is asked for once a name.
    #[inline(always)]
    pub fn open(&mut self, level: usize, name: &str) -> Result<(), AllocError>
        requires { level < length self.old.1 }
        ensures names { self.new.0 ≡ self.old.0 }
        ensures scopes { OnOk result (self.new.1
            ≡ take (suc level) self.old.1 ++ join (get_or self.old.1 level []) name.now ∷ []) }
    {
        let scope = self.scopes[level];
        self.scopes.truncate(level + 1);
        let branch = insert_below(&mut self.branches.tree, scope, name)?;
        self.scopes.push(opened(scope, name, branch))?;
        Ok(())
    }

    /// What the text of the innermost open scope means as a name, or none where the table lacks it.
    #[inline(always)]
    pub fn holder(&self) -> Option<&Definition>
        requires { 0 < length self.now.1 }
        ensures { option_copied result
            ≡ map.get self.now.0 (get_or self.now.1 (length self.now.1 - 1) []) }
    {
        let innermost = self.scopes[self.scopes.len() - 1];
        if innermost == 0 {
            // The branch of the empty scope is not that of the empty name.
            return self.branches.get("");
        }
        self.branches.definitions.get(innermost as usize)
    }

    /// Adds the text of the innermost open scope as a name, which the table lacks.
    ///
    /// # Errors
    /// `AllocError` where memory was refused. All names mean what they did then.
    #[inline(always)]
    pub fn define(&mut self, definition: Definition) -> Result<(), AllocError>
        requires some { 0 < length self.old.1 }
        requires none { map.get self.old.0 (get_or self.old.1 (length self.old.1 - 1) []) ≡ None }
        ensures ok { OnOk result (self.new.0
            ≡ map.insert self.old.0 (get_or self.old.1 (length self.old.1 - 1) []) definition) }
        ensures scopes { self.new.1 ≡ self.old.1 }
        ensures err { OnErr result (self.new.0 ≡ self.old.0) }
    {
        let innermost = self.scopes[self.scopes.len() - 1];
        let branch = name_branch(&mut self.branches.tree, innermost)?;
        self.branches.define_new(branch, definition)
    }
}

/// The branch of the scope that a name opens inside a scope: that of its full name. An empty name
/// in the empty scope opens that again, whose branch is the root.
fn opened(scope: u32, name: &str, branch: u32) -> u32
    ensures root { scope ≡ 0 → name.now ≡ [] → result ≡ 0 }
    ensures other { (scope ≡ 0 → name.now ≡ [] → ⊥) → result ≡ branch }
{
    if scope == 0 && name.is_empty() {
        0
    } else {
        branch
    }
}

/// The branch of the name that is the text of a scope. Only that of the empty name is not the
/// branch of the scope: it is inserted where there is none.
///
/// # Errors
/// `AllocError` where memory was refused.
fn name_branch(tree: &mut NameTree, scope: u32) -> Result<u32, AllocError>
    requires tree { IsTree tree.old }
    requires scope { IsScope tree.old scope }
    ensures tree { IsTree tree.new }
    ensures keeps { KeepsBranches tree.old tree.new }
    ensures descendant { IfOk result (λ k.
        IsDescendant tree.new 0 (parts (name_of (path tree.old scope))) k) }
{
    if scope == 0 {
        return insert_parts(tree, 0, "");
    }
    Ok(scope)
}
