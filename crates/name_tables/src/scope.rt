ghost use Rattle.std.specs.Prelude.{◌≡◌, ◌≢◌, ◌↔◌, ℕ, [], ◌∷◌, IfSome, None};
ghost use Rattle.std.specs.FinMap as map;
ghost use Rattle.std.specs.Option.{option_copied};
ghost use Rattle.proto_types.specs.Names.{join};
ghost use Rattle.name_tables.specs.Tree.{IsDescendant, IsTree};
ghost use Rattle.name_tables.specs.Parts.{parts};
ghost use Rattle.name_tables.specs.Branches.{AreBranches, names_of};
ghost use Rattle.name_tables.specs.Scopes.{IsAround, IsBranchOf};

use crate::branches::Branches;
use crate::tree::NameTree;
use pool_types::Definition;
use std::marker::Model;

/// A scope in a table of names, in which names are looked for. Contracts see it as what the names
/// of the table mean, and the text of the scope.
///
/// It takes no memory.
#[derive(Drop)]
pub struct Scope<'a, 't> {
    branches: &'a Branches,
    text: &'t str,
    /// The branch that its parts lead to, or none where they lead nowhere.
    at: Option<u32>,
}

impl<'a, 't> Model for Scope<'a, 't> {
    ghost use Rattle.std.specs.Prelude.{List, ℕ};
    ghost use Rattle.std.specs.Coded.{coded×, coded_list, coded_ℕ};
    ghost use Rattle.std.specs.FinMap as map;
    ghost use Rattle.pool_types.specs.Contents.{ByText};
    ghost use Rattle.pool_types.specs.contracts.contents.definition.Definition as definition;
    ghost use Rattle.pool_types.specs.declared.contents.definition.Definition.{Definition};
    ghost use Rattle.name_tables.specs.Branches.{AreBranches, names_of};
    ghost use Rattle.name_tables.specs.Scopes.{IsBranchOf};

    ghost Value = { ByText Definition × List ℕ };

    ghost coded = { coded× (map.code (coded_list coded_ℕ) definition.the_row.coded)
        (coded_list coded_ℕ) };

    ghost view = { λ s. (names_of s.branches.now.tree s.branches.now.definitions, s.text.now) };

    ghost invariant = { λ s. AreBranches s.branches.now.tree s.branches.now.definitions
        × IsBranchOf s.branches.now.tree s.text.now s.at };
}

impl<'a, 't> Scope<'a, 't> {
    /// The scope with a text.
    pub(crate) fn new(branches: &'a Branches, text: &'t str) -> Scope<'a, 't>
        requires { AreBranches branches.now.tree branches.now.definitions }
        ensures names { result.0 ≡ names_of branches.now.tree branches.now.definitions }
        ensures text { result.1 ≡ text.now }
    {
        let at = if text.is_empty() {
            Some(0)
        } else {
            branches.tree.look_up(text)
        };
        Scope { branches, text, at }
    }

    /// Its text, from the first part to the last.
    pub fn text(&self) -> &'t str
        ensures { result.now ≡ self.now.1 }
    {
        self.text
    }

    /// What a name inside it means, or none where the table lacks it.
    #[inline(always)]
    pub fn find(&self, name: &str) -> Option<&'a Definition>
        ensures { option_copied result ≡ map.get self.now.0 (join self.now.1 name.now) }
    {
        let at = go_down(&self.branches.tree, self.at?, name)?;
        self.branches.definitions.get(at as usize)
    }

    /// What a name without a dot means inside it, which is found faster. A name with one has none.
    pub fn find_part(&self, part: &str) -> Option<&'a Definition>
        ensures { parts part.now ≡ part.now ∷ [] → option_copied result
            ≡ map.get self.now.0 (join self.now.1 part.now) }
    {
        let at = self.branches.tree.find(self.at?, part.as_bytes())?;
        self.branches.definitions.get(at as usize)
    }

    /// The scope around it: of the text before the last dot, or of the empty text where there is no
    /// dot. None is around the empty scope.
    pub fn around(&self) -> Option<Scope<'a, 't>>
        ensures none { (result ≡ None) ↔ (self.now.1 ≡ []) }
        ensures names { IfSome result (λ outer. outer.0 ≡ self.now.0) }
        ensures text { IfSome result (λ outer. IsAround self.now.1 outer.1) }
    {
        if self.text.is_empty() {
            return None;
        }
        let text = outer_text(&self.branches.tree, self.text, self.at);
        match self.at {
            Some(at) if !text.is_empty() => Some(Scope {
                branches: self.branches,
                text,
                at: Some(self.branches.tree.parent(at as usize)),
            }),
            _ => Some(Scope::new(self.branches, text)),
        }
    }
}

/// The branch to which a name leads from another: from the root, that of the whole name.
#[inline(always)]
pub(crate) fn go_down(tree: &NameTree, from: u32, name: &str) -> Option<u32>
    requires { IsTree tree.now }
    ensures found { IfSome result (λ k. IsDescendant tree.now from (parts name.now) k) }
    ensures none { result ≡ None → (k : ℕ) → IsDescendant tree.now from (parts name.now) k → ⊥ }
{
    if from == 0 {
        tree.look_up(name)
    } else {
        tree.descend(from, name)
    }
}

/// The text of the scope around another: what stands before its last part.
fn outer_text<'t>(tree: &NameTree, text: &'t str, at: Option<u32>) -> &'t str
    requires tree { IsTree tree.now }
    requires branch { IsBranchOf tree.now text.now at }
    requires some { text.now ≢ [] }
    ensures { IsAround text.now result.now }
{
    match at {
        Some(at) => {
            let part = tree.part(at as usize);
            &text[..text.len().saturating_sub(part.len() + 1)]
        }
        None => before_last_dot(text),
    }
}

/// The text before the last dot, or the empty text where there is none.
fn before_last_dot(text: &str) -> &str
    ensures { IsAround text.now result.now }
{
    match text.rsplit_once('.') {
        Some((outer, _)) => outer,
        None => "",
    }
}
