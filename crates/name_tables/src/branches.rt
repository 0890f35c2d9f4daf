ghost use Rattle.std.specs.Prelude.{◌≡◌, ◌<◌, ◌∷◌, [], length, IfOk, OnOk, OnErr, None};
ghost use Rattle.std.specs.FinMap as map;
ghost use Rattle.std.specs.Option.{option_copied};
ghost use Rattle.name_tables.specs.Parts.{name_of, parts};
ghost use Rattle.name_tables.specs.Tree.{IsDescendant, IsTree, KeepsBranches, path};
ghost use Rattle.name_tables.specs.Branches.{AreBranches, names_of};
ghost use Rattle.name_tables.specs.NameTables.{inserted};

use crate::entered::Entered;
use crate::parts::{Parts, is_part};
use crate::tree::NameTree;
use pool_types::Definition;
use std::alloc::AllocError;

/// The branches of a tree of names, and what their names mean.
#[derive(Drop)]
pub(crate) struct Branches {
    pub tree: NameTree,
    /// What the name of each branch means: that of the root means nothing.
    pub definitions: Entered<Definition>,
}

impl Branches {
    /// What a name means, or none where it has no branch.
    // Not inlined, so that a look at a branch whose number is known stays short.
    #[inline(never)]
    pub(crate) fn get(&self, name: &str) -> Option<&Definition>
        requires { AreBranches self.now.tree self.now.definitions }
        ensures { option_copied result
            ≡ map.get (names_of self.now.tree self.now.definitions) name.now }
    {
        let at = self.tree.look_up(name)?;
        self.definitions.get(at as usize)
    }

    /// Gives the name of a branch, which is not the root, a meaning, unless it has one: the
    /// definition comes back then.
    ///
    /// # Errors
    /// `AllocError` where memory was refused. All names mean what they did then.
    pub(crate) fn define(
        &mut self,
        branch: u32,
        definition: Definition,
    ) -> Result<Option<Definition>, AllocError>
        requires are { AreBranches self.old.tree self.old.definitions }
        requires below { 0 < branch }
        requires inside { branch < length self.old.tree }
        ensures are { AreBranches self.new.tree self.new.definitions }
        ensures tree { self.new.tree ≡ self.old.tree }
        ensures ok { IfOk result (λ back.
            (names_of self.new.tree self.new.definitions, back)
            ≡ inserted (names_of self.old.tree self.old.definitions)
            (name_of (path self.old.tree branch)) definition) }
        ensures err { OnErr result (names_of self.new.tree self.new.definitions
            ≡ names_of self.old.tree self.old.definitions) }
    {
        if self.definitions.get(branch as usize).is_some() {
            return Ok(Some(definition));
        }
        self.define_new(branch, definition)?;
        Ok(None)
    }

    /// Gives the name of a branch, which is not the root and means nothing, a meaning.
    ///
    /// # Errors
    /// `AllocError` where memory was refused. All names mean what they did then.
    #[inline(always)]
    pub(crate) fn define_new(
        &mut self,
        branch: u32,
        definition: Definition,
    ) -> Result<(), AllocError>
        requires are { AreBranches self.old.tree self.old.definitions }
        requires below { 0 < branch }
        requires inside { branch < length self.old.tree }
        requires none { map.get (names_of self.old.tree self.old.definitions)
            (name_of (path self.old.tree branch)) ≡ None }
        ensures are { AreBranches self.new.tree self.new.definitions }
        ensures tree { self.new.tree ≡ self.old.tree }
        ensures ok { OnOk result (names_of self.new.tree self.new.definitions
            ≡ map.insert (names_of self.old.tree self.old.definitions)
            (name_of (path self.old.tree branch)) definition) }
        ensures err { OnErr result (names_of self.new.tree self.new.definitions
            ≡ names_of self.old.tree self.old.definitions) }
    {
        self.definitions.insert(branch, definition)
    }
}

/// The branch to which the parts of a name lead down from another. Those that are missing are
/// inserted.
///
/// # Errors
/// `AllocError` where memory was refused.
#[inline(always)]
pub(crate) fn insert_below(tree: &mut NameTree, from: u32, name: &str) -> Result<u32, AllocError>
    requires tree { IsTree tree.old }
    requires from { from < length tree.old }
    ensures tree { IsTree tree.new }
    ensures keeps { KeepsBranches tree.old tree.new }
    ensures descendant { IfOk result (λ k. IsDescendant tree.new from (parts name.now) k) }
{
    if is_part(name) {
        return insert_part(tree, from, name);
    }
    insert_parts(tree, from, name)
}

/// The child of a branch with a part, which is inserted where there is none.
///
/// # Errors
/// `AllocError` where memory was refused.
#[inline(always)]
fn insert_part(tree: &mut NameTree, from: u32, part: &str) -> Result<u32, AllocError>
    requires tree { IsTree tree.old }
    requires from { from < length tree.old }
    requires part { parts part.now ≡ part.now ∷ [] }
    ensures tree { IsTree tree.new }
    ensures keeps { KeepsBranches tree.old tree.new }
    ensures descendant { IfOk result (λ k. IsDescendant tree.new from (parts part.now) k) }
{
    let at = tree.insert(from, part)?;
    Ok(at)
}

/// The branch that a name leads to from a branch, part by part. Missing branches are inserted.
///
/// # Errors
/// `AllocError` where memory was refused.
// Not inlined, since few names that come have a dot.
#[inline(never)]
pub(crate) fn insert_parts(tree: &mut NameTree, from: u32, name: &str) -> Result<u32, AllocError>
    requires tree { IsTree tree.old }
    requires from { from < length tree.old }
    ensures tree { IsTree tree.new }
    ensures keeps { KeepsBranches tree.old tree.new }
    ensures descendant { IfOk result (λ k. IsDescendant tree.new from (parts name.now) k) }
{
    let mut at = from;
    for part in Parts::new(name) {
        at = tree.insert(at, part)?;
    }
    Ok(at)
}
