ghost use Rattle.std.specs.Prelude.{◌≡◌, ◌≤◌, ◌<◌, ◌↔◌, ℕ, length, IfSome, IsTrue, None, Some};
ghost use Rattle.name_tables.specs.Tree.{HasParent, IsDescendant, IsTree, path};
ghost use Rattle.name_tables.specs.Branches.{AreBranches};
ghost use Rattle.name_tables.specs.Entered.{value_at};
ghost use Rattle.name_tables.specs.Within.{AreCompared, ArePaired, IsAbove, IsPair, IsWithin};
ghost use Rattle.name_tables.specs.Within.{IsWithinAt};

use crate::branches::Branches;
use crate::tree::NameTree;
use pool_types::Definition;

/// Whether each name that means something among branches means the same among others. A pair goes
/// along with the branches, since the way from one to the next is mostly short.
pub(crate) fn is_within(branches: &Branches, others: &Branches) -> bool
    requires branches { AreBranches branches.now.tree branches.now.definitions }
    requires others { AreBranches others.now.tree others.now.definitions }
    ensures { IsTrue result ↔ IsWithin branches.now others.now }
{
    let mut pair = Pair {
        branch: 0,
        other: 0,
    };
    for at in 0..branches.definitions.len() {
        if !means_same(branches, others, &mut pair, at) {
            return false;
        }
    }
    true
}

/// A branch, and the one of others that has its name.
#[derive(Clone, Copy)]
struct Pair {
    branch: usize,
    other: u32,
}

/// Whether the name of a branch means nothing, or the same among others. The pair is that of an
/// earlier branch, and becomes that of this one where it means something and others have it.
fn means_same(branches: &Branches, others: &Branches, pair: &mut Pair, at: usize) -> bool
    requires compared { AreCompared branches.now others.now pair.old at }
    requires at { at < length branches.now.tree }
    ensures same { IsTrue result ↔ IsWithinAt branches.now others.now at }
    ensures compared { AreCompared branches.now others.now pair.new at }
{
    let Some(definition) = branches.definitions.get(at) else {
        return true;
    };
    let met = meet(&branches.tree, &others.tree, *pair, at);
    match counterpart(&branches.tree, &others.tree, met, at) {
        Some(other) => {
            *pair = Pair { branch: at, other };
            means(others, other as usize, definition)
        }
        None => false,
    }
}

/// Whether the name of a branch means what a definition says.
fn means(branches: &Branches, at: usize, definition: &Definition) -> bool
    ensures { IsTrue result ↔ (value_at branches.now.definitions at ≡ Some definition.now) }
{
    match branches.definitions.get(at) {
        Some(other) => other == definition,
        None => false,
    }
}

/// The first pair on the way from a pair to the root that is on the way from a branch there too.
fn meet(branches: &NameTree, others: &NameTree, pair: Pair, at: usize) -> Pair
    requires paired { ArePaired branches.now others.now pair }
    requires inside { pair.branch < length branches.now }
    requires at { at < length branches.now }
    ensures pair { IsPair branches.now others.now result }
    ensures before { result.branch ≤ at }
{
    let mut pair = climb(branches, others, pair, at);
    let mut at = at;
    while pair.branch < at {
        at = branches.parent(at) as usize;
        pair = climb(branches, others, pair, at);
    }
    pair
}

/// The first pair on the way from a pair to the root that does not stand behind a branch.
fn climb(branches: &NameTree, others: &NameTree, pair: Pair, at: usize) -> Pair
    requires paired { ArePaired branches.now others.now pair }
    requires inside { pair.branch < length branches.now }
    ensures pair { IsPair branches.now others.now result }
    ensures before { result.branch ≤ at }
{
    let mut pair = pair;
    while pair.branch > at {
        pair = Pair {
            branch: branches.parent(pair.branch) as usize,
            other: others.parent(pair.other as usize),
        };
    }
    pair
}

/// The branch of others that has the name of a branch. The way down to it from a pair is gone in
/// halves, so that few calls stand inside one another; a pair beside the way climbs first.
fn counterpart(branches: &NameTree, others: &NameTree, pair: Pair, at: usize) -> Option<u32>
    requires paired { ArePaired branches.now others.now pair }
    requires before { pair.branch ≤ at }
    requires at { at < length branches.now }
    ensures found { IfSome result (λ k. IsDescendant others.now 0 (path branches.now at) k) }
    ensures none { result ≡ None
        → (k : ℕ) → IsDescendant others.now 0 (path branches.now at) k → ⊥ }
{
    if pair.branch == at {
        return Some(pair.other);
    }
    let middle = halfway(branches, pair.branch, at);
    let above = climb(branches, others, pair, middle);
    let other = counterpart(branches, others, above, middle)?;
    if middle <= pair.branch {
        return others.find(other, branches.part(at));
    }
    let nearer = Pair {
        branch: middle,
        other,
    };
    counterpart(branches, others, nearer, at)
}

/// A branch about halfway up from a branch to an earlier one, some power of two of steps away; or
/// its parent, where no branch is between.
fn halfway(branches: &NameTree, from: usize, at: usize) -> usize
    requires tree { IsTree branches.now }
    requires from { from < at }
    requires at { at < length branches.now }
    ensures above { IsAbove branches.now result at }
    ensures next { result ≤ from
        → HasParent branches.now at result }
{
    let mut end = branches.parent(at) as usize;
    let mut middle = end;
    let mut steps: usize = 0;
    while end > from {
        if steps.is_power_of_two() {
            middle = end;
        }
        end = branches.parent(end) as usize;
        steps += 1;
    }
    middle
}
