ghost use Rattle.std.specs.Prelude.{◌≡◌, ◌<◌, ◌++◌, ◌∷◌, [], ℕ, length, take, OnOk, OnErr, IfOk};
ghost use Rattle.std.specs.Prelude.{IfSome, None};
ghost use Rattle.name_tables.specs.Tree.{Branch, HasParent, HasPart, InsertsChild, IsChild};
ghost use Rattle.name_tables.specs.Tree.{IsDescendant, IsTree, with_root};
ghost use Rattle.name_tables.specs.Nodes.{digest_of};
ghost use Rattle.name_tables.specs.Parts.{parts};

use crate::nodes::{
    FIRST_DIGEST, Key, Node, Slot, child, child_digest, digest_digit, find_slot, has_name, insert,
    push_leaf, remove_last,
};
use crate::part_texts::PartTexts;
use crate::parts::{Parts, is_part};
use plain_data::digest_after;
use std::alloc::{AllocError, Global};
use std::marker::Model;

/// A tree of names: its branches, by their numbers, from the root on. Contracts see them as the
/// list of their parts, each with the number of its parent.
///
/// Only a call that answers a `Result` takes memory.
#[derive(Drop)]
pub struct NameTree {
    /// The part of each branch.
    texts: PartTexts,
    /// How the branches are found.
    nodes: Vec<Node>,
}

impl Model for NameTree {
    ghost use Rattle.std.specs.Prelude.{List};
    ghost use Rattle.name_tables.specs.Tree.{Branch};

    ghost Value = { List Branch };

    ghost use Rattle.name_tables.specs.Nodes.{AreTrie, branches_of, rows};

    ghost view = { λ tree. branches_of (rows tree.texts tree.nodes.items) };

    ghost invariant = { λ tree. AreTrie tree.texts tree.nodes.items };
}

impl NameTree {
    /// No branches, not even a root.
    pub fn new(alloc: Global) -> NameTree
        ensures { result ≡ [] }
    {
        NameTree {
            texts: PartTexts::new(alloc),
            nodes: Vec::new(alloc),
        }
    }

    /// How many branches there are.
    pub fn len(&self) -> usize
        ensures { result ≡ length self.now }
    {
        self.nodes.len()
    }

    /// The child of a branch with a part, or none where there is none.
    pub fn find(&self, parent: u32, part: &[u8]) -> Option<u32>
        ensures found { IfSome result (λ k. IsChild self.now parent part.now k) }
        ensures only { IfSome result (λ k. (j : ℕ) → IsChild self.now parent part.now j → j ≡ k) }
        ensures none { result ≡ None → (k : ℕ) → IsChild self.now parent part.now k → ⊥ }
    {
        if parent as usize >= self.nodes.len() {
            return None;
        }
        let key = Key {
            digest: child_digest(&self.nodes, parent, part),
            parent,
            part,
        };
        child(&self.nodes, find_slot(&self.nodes, &self.texts, key))
    }

    /// The branch to which the parts of a text lead down from another, or none where they lead
    /// nowhere.
    // Inlined, so that a name of one part is looked for by one call.
    #[inline(always)]
    pub fn descend(&self, from: u32, text: &str) -> Option<u32>
        ensures found { IfSome result (λ k. IsDescendant self.now from (parts text.now) k) }
        ensures none { result ≡ None
            → (k : ℕ) → IsDescendant self.now from (parts text.now) k → ⊥ }
    {
        if is_part(text) {
            return self.find(from, text.as_bytes());
        }
        self.descend_parts(from, text)
    }

    /// The branch to which the parts of a text lead down, one after another.
    fn descend_parts(&self, from: u32, text: &str) -> Option<u32>
        ensures found { IfSome result (λ k. IsDescendant self.now from (parts text.now) k) }
        ensures none { result ≡ None
            → (k : ℕ) → IsDescendant self.now from (parts text.now) k → ⊥ }
    {
        let mut at = from;
        for part in Parts::new(text) {
            at = self.find(at, part.as_bytes())?;
        }
        Some(at)
    }

    /// The branch of a name, or none where none has it. It is found by the digest of the whole
    /// name, and by its parts only where sixteen others are passed on the way.
    pub fn look_up(&self, name: &str) -> Option<u32>
        requires { IsTree self.now }
        ensures found { IfSome result (λ k. IsDescendant self.now 0 (parts name.now) k) }
        ensures none { result ≡ None
            → (k : ℕ) → IsDescendant self.now 0 (parts name.now) k → ⊥ }
    {
        if self.nodes.is_empty() {
            return None;
        }
        let digest = digest_of(name);
        let mut at = 0;
        for level in 0..16 {
            let digit = digest_digit(digest, level);
            at = child(&self.nodes, Slot { node: at, digit })?;
            if self.nodes[at as usize].digest == digest
                && has_name(&self.nodes, &self.texts, at, name)
            {
                return Some(at);
            }
        }
        self.descend_parts(0, name)
    }

    /// The part of a branch.
    pub fn part(&self, at: usize) -> &[u8]
        requires { at < length self.now }
        ensures { HasPart self.now at result.now }
    {
        self.texts.get(at)
    }

    /// The parent of a branch.
    pub fn parent(&self, at: usize) -> u32
        requires { at < length self.now }
        ensures { HasParent self.now at result }
    {
        self.nodes[at].parent
    }

    /// Inserts the root where there is none.
    ///
    /// # Errors
    /// `AllocError` where memory was refused.
    pub fn insert_root(&mut self) -> Result<(), AllocError>
        ensures ok { OnOk result (self.new ≡ with_root self.old) }
        ensures err { OnErr result (self.new ≡ self.old) }
    {
        if !self.nodes.is_empty() {
            return Ok(());
        }
        let root = Key {
            digest: FIRST_DIGEST,
            parent: 0,
            part: b"",
        };
        push_leaf(&mut self.texts, &mut self.nodes, root)
    }

    /// The child of a branch with a part, which is inserted where there is none.
    ///
    /// # Errors
    /// `AllocError` where memory was refused, as it is past 4,294,967,296 branches.
    #[inline(always)]
    pub fn insert(&mut self, parent: u32, part: &str) -> Result<u32, AllocError>
        requires { parent < length self.old }
        ensures ok { IfOk result (λ k. InsertsChild self.old self.new parent part.now k) }
        ensures err { OnErr result (self.new ≡ self.old) }
    {
        let part = part.as_bytes();
        let key = Key {
            digest: child_digest(&self.nodes, parent, part),
            parent,
            part,
        };
        let slot = find_slot(&self.nodes, &self.texts, key);
        if let Some(at) = child(&self.nodes, slot) {
            return Ok(at);
        }
        insert(&mut self.texts, &mut self.nodes, slot, key)
    }

    /// Makes room for so many branches more, so that they can be inserted without a copy of those
    /// that there are.
    ///
    /// # Errors
    /// `AllocError` where memory was refused.
    pub fn reserve(&mut self, more: usize) -> Result<(), AllocError>
        ensures { self.new ≡ self.old }
    {
        self.nodes.reserve(more)?;
        self.texts.reserve(more)
    }

    /// Removes the last branch.
    fn pop(&mut self)
        requires { 0 < length self.old }
        ensures { (b : Branch) × (self.old ≡ self.new ++ b ∷ []) }
    {
        remove_last(&mut self.texts, &mut self.nodes);
    }

    /// Removes the branches from a number on.
    pub fn truncate(&mut self, len: usize)
        ensures { self.new ≡ take len self.old }
    {
        while self.len() > len {
            self.pop();
        }
    }

    /// An equal tree.
    ///
    /// # Errors
    /// `AllocError` where memory was refused.
    pub fn clone(&self) -> Result<NameTree, AllocError>
        ensures { IfOk result (λ copy. copy ≡ self.now) }
    {
        let texts = self.texts.clone()?;
        let nodes = self.nodes.clone()?;
        Ok(NameTree { texts, nodes })
    }
}

/// The digest of a name, by its parts.
fn digest_of(name: &str) -> u64
    ensures { result ≡ digest_of name.now }
{
    let mut digest = FIRST_DIGEST;
    for part in Parts::new(name) {
        digest = digest_after(digest, part.as_bytes());
    }
    digest
}
