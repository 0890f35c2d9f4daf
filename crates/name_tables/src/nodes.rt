ghost use Rattle.std.specs.Prelude.{◌≡◌, ◌↔◌, ◌<◌, ◌++◌, ◌∷◌, [], ℕ, List, length, IsTrue, OnOk};
ghost use Rattle.std.specs.Prelude.{OnErr, IfOk, None, Some};
ghost use Rattle.name_tables.specs.Tree.{Branch, branch, IsTree, path};
ghost use Rattle.name_tables.specs.Parts.{name_of};
ghost use Rattle.name_tables.specs.Nodes.{rows, branches_of, child_at, child_of, as_key, digit_at};
ghost use Rattle.name_tables.specs.Nodes.{child_digest, digest_digit, digit_of, AreTrie};
ghost use Rattle.name_tables.specs.Nodes.{IsFree, IsPushed, IsSlotOf, WithChild};

use crate::part_texts::PartTexts;
use plain_data::digest_after;
use std::alloc::{AllocError, Global};

/// A branch but for its part, as a node of a trie. Each node has up to sixteen children, by a digit
/// each. A branch is found from the root on by the digits of its key: at each level the child of
/// the next digit is gone to, until it has the key.
#[derive(Clone, Copy)]
pub(crate) struct Node {
    /// The number that `child_digest` makes of the branch's name.
    pub digest: u64,
    /// The branch that it is a child of.
    pub parent: u32,
    /// The nodes at the next level, by their digits; 0 where there is none, since the root is no
    /// child.
    pub children: [u32; 16],
}

/// Where a node has a child, or may have one.
#[derive(Clone, Copy)]
pub(crate) struct Slot {
    pub node: u32,
    pub digit: usize,
}

/// What a branch is found by.
#[derive(Clone, Copy)]
pub(crate) struct Key<'a> {
    /// The number that `child_digest` makes of the branch's name.
    pub digest: u64,
    /// The branch that it is a child of.
    pub parent: u32,
    pub part: &'a [u8],
}

/// The digest of no parts.
pub(crate) const FIRST_DIGEST: u64 = 0;

impl Node {
    ghost use Rattle.name_tables.specs.Nodes.{row, IsLeaf};

    /// A node without children.
    fn new(digest: u64, parent: u32) -> Node
        ensures { (part : List ℕ) → IsLeaf (row part result) (as_key digest parent part) }
    {
        Node {
            digest,
            parent,
            children: [0; 16],
        }
    }
}

/// The child at a slot.
pub(crate) fn child(nodes: &[Node], slot: Slot) -> Option<u32>
    requires inside { slot.node < length nodes.now }
    requires digit { slot.digit < 16 }
    ensures { (texts : List (List ℕ)) → result ≡ child_at (rows texts nodes.now) slot }
{
    match nodes[slot.node as usize].children[slot.digit] {
        0 => None,
        at => Some(at),
    }
}

/// Sets the child at a slot. It is taken away for 0.
fn set_child(nodes: &mut [Node], slot: Slot, child: u32)
    requires inside { slot.node < length nodes.old }
    requires digit { slot.digit < 16 }
    ensures { (texts : List (List ℕ))
        → WithChild (rows texts nodes.old) (rows texts nodes.new) slot (child_of child) }
{
    let owner = &mut nodes[slot.node as usize];
    owner.children[slot.digit] = child;
}

/// The slot of the child of a branch with a part, or the one at which it would be inserted.
// Inlined, as all that inserts a branch is: the key then stays in registers.
#[inline(always)]
pub(crate) fn find_slot(nodes: &[Node], texts: &PartTexts, key: Key) -> Slot
    requires trie { AreTrie texts.now nodes.now }
    requires parent { key.parent < length nodes.now }
    requires digest { key.digest
        ≡ child_digest (rows texts.now nodes.now) key.parent key.part.now }
    ensures { IsSlotOf (rows texts.now nodes.now) key.entry.parent key.entry.part.now result }
{
    let mut level = 0;
    let mut slot = Slot {
        node: 0,
        digit: digit_at(key, 0),
    };
    while let Some(at) = child(nodes, slot) {
        let node = &nodes[at as usize];
        if node.digest == key.digest
            && node.parent == key.parent
            && texts.get(at as usize) == key.part
        {
            return slot;
        }
        level += 1;
        slot = Slot {
            node: at,
            digit: digit_at(key, level),
        };
    }
    slot
}

/// Whether a text is the name of a branch other than the root: its parts are compared from the last
/// to the first.
pub(crate) fn has_name(nodes: &[Node], texts: &PartTexts, at: u32, name: &str) -> bool
    requires even { length texts.now ≡ length nodes.now }
    requires tree { IsTree (branches_of (rows texts.now nodes.now)) }
    requires some { 0 < at }
    requires inside { at < length nodes.now }
    ensures { IsTrue result
        ↔ (name.now ≡ name_of (path (branches_of (rows texts.now nodes.now)) at)) }
{
    let mut at = at;
    let mut left = name.as_bytes();
    'parts: loop {
        let node = &nodes[at as usize];
        let Some(front) = left.strip_suffix(texts.get(at as usize)) else {
            return false;
        };
        if node.parent == 0 {
            return front.is_empty();
        }
        let Some(before) = front.strip_suffix(b".") else {
            return false;
        };
        left = before;
        at = node.parent;
    }
}

/// Inserts a branch at the slot where it would be found.
///
/// # Errors
/// `AllocError` where memory was refused, as it is past 4,294,967,296 branches.
#[inline(always)]
pub(crate) fn insert(
    texts: &mut PartTexts,
    nodes: &mut Vec<Node>,
    slot: Slot,
    key: Key,
) -> Result<u32, AllocError>
    requires trie { AreTrie texts.old nodes.old.items }
    requires free { IsFree (rows texts.old nodes.old.items)
        (as_key key.digest key.parent key.part.now) slot }
    ensures ok { IfOk result (λ k. (k ≡ length nodes.old.items)
        × (branches_of (rows texts.new nodes.new.items)
        ≡ branches_of (rows texts.old nodes.old.items)
        ++ branch key.entry.parent key.entry.part.now ∷ [])) }
    ensures trie { AreTrie texts.new nodes.new.items }
    ensures err { OnErr result
        (rows texts.new nodes.new.items ≡ rows texts.old nodes.old.items) }
{
    let Ok(at) = u32::try_from(nodes.len()) else {
        // No number is left for a branch, so this asks for more room than can be granted.
        nodes.reserve(usize::MAX)?;
        return Err(AllocError);
    };
    push_leaf(texts, nodes, key)?;
    set_child(nodes, slot, at);
    Ok(at)
}

/// Adds a branch behind all others, as a node that is no child yet.
///
/// # Errors
/// `AllocError` where memory was refused.
#[inline(always)]
pub(crate) fn push_leaf(
    texts: &mut PartTexts,
    nodes: &mut Vec<Node>,
    key: Key,
) -> Result<(), AllocError>
    requires { length texts.old ≡ length nodes.old.items }
    ensures pushed { OnOk result
        (IsPushed (rows texts.old nodes.old.items) (rows texts.new nodes.new.items)
        (as_key key.entry.digest key.entry.parent key.entry.part.now)) }
    ensures even { length texts.new ≡ length nodes.new.items }
    ensures err { OnErr result
        (rows texts.new nodes.new.items ≡ rows texts.old nodes.old.items) }
{
    texts.push(key.part)?;
    let node = Node::new(key.digest, key.parent);
    if let Err(error) = nodes.push(node) {
        texts.pop();
        return Err(error.into());
    }
    Ok(())
}

/// Removes the last branch, also as a child: the root alone is none.
pub(crate) fn remove_last(texts: &mut PartTexts, nodes: &mut Vec<Node>)
    requires some { 0 < length nodes.old.items }
    requires trie { AreTrie texts.old nodes.old.items }
    ensures branches { (b : Branch) × (branches_of (rows texts.old nodes.old.items)
        ≡ branches_of (rows texts.new nodes.new.items) ++ b ∷ []) }
    ensures trie { AreTrie texts.new nodes.new.items }
{
    if let [_, .., last] = nodes.as_slice() {
        let key = Key {
            digest: last.digest,
            parent: last.parent,
            part: texts.get(nodes.len() - 1),
        };
        let slot = find_slot(nodes, texts, key);
        set_child(nodes, slot, 0);
    }
    nodes.pop();
    texts.pop();
}

/// The digit of a key at a level, from 0: of its digest, behind these of the number of its parent,
/// and behind these of its part.
fn digit_at(key: Key, level: u32) -> usize
    ensures same { result
        ≡ digit_at (as_key key.entry.digest key.entry.parent key.entry.part.now) level }
    ensures small { result < 16 }
{
    if level < 16 {
        return digest_digit(key.digest, level);
    }
    if level < 24 {
        return digit_of(key.parent as u64, level - 16);
    }
    let half = level - 24;
    match key.part.get((half / 2) as usize) {
        Some(byte) => digit_of(*byte as u64, half % 2),
        None => 0,
    }
}

/// The digit of a digest at a level, from the highest on.
pub(crate) fn digest_digit(digest: u64, level: u32) -> usize
    requires { level < 16 }
    ensures same { result ≡ digest_digit digest level }
    ensures small { result < 16 }
{
    digit_of(digest, 15 - level)
}

/// A digit of a number, from the lowest.
fn digit_of(number: u64, position: u32) -> usize
    requires { position < 16 }
    ensures same { result ≡ digit_of number position }
    ensures small { result < 16 }
{
    ((number >> (4 * position)) % 16) as usize
}

/// The digest of the name of a child with a part: it goes on from that of the parent.
pub(crate) fn child_digest(nodes: &[Node], parent: u32, part: &[u8]) -> u64
    requires { parent < length nodes.now }
    ensures { (texts : List (List ℕ))
        → result ≡ child_digest (rows texts nodes.now) parent part.now }
{
    let front = match parent {
        0 => FIRST_DIGEST,
        _ => nodes[parent as usize].digest,
    };
    digest_after(front, part)
}
