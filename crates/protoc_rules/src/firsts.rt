//! The first position of each of some names, or of each of some numbers.

ghost use Rattle.std.specs.Prelude.{◌≡◌, ◌++◌, ◌∷◌, [], ℕ, List, IfOk, OnOk, length};
ghost use Rattle.protoc_rules.specs.Firsts as spec;

use std::alloc::AllocError;
use std::collections::BTreeMap;

/// The position that a name has in a table of first positions. A name that has none is given this
/// one.
pub(crate) fn first_with<'a>(
    firsts: &mut BTreeMap<&'a [u8], usize>,
    name: &'a [u8],
    position: usize,
) -> Result<Option<usize>, AllocError>
    ensures first { IfOk result (λ first. first ≡ spec.first_of firsts.old name.now) }
    ensures firsts { OnOk result ((names : List (List ℕ)) → spec.HasFirsts firsts.old names
        → length names ≡ position → spec.HasFirsts firsts.new (names ++ name.now ∷ [])) }
{
    match firsts.get(name).copied() {
        Some(first) => Ok(Some(first)),
        None => {
            firsts.insert(name, position)?;
            Ok(None)
        }
    }
}

/// The position that a number has in a table of first positions. A number that has none is given
/// this one.
pub(crate) fn first_numbered(
    firsts: &mut BTreeMap<u32, usize>,
    number: u32,
    position: usize,
) -> Result<Option<usize>, AllocError>
    ensures first { IfOk result (λ first. first ≡ spec.first_at firsts.old number) }
    ensures firsts { OnOk result ((numbers : List ℕ) → spec.HasFirstNumbers firsts.old numbers
        → length numbers ≡ position
        → spec.HasFirstNumbers firsts.new (numbers ++ number ∷ [])) }
{
    match firsts.get(&number).copied() {
        Some(first) => Ok(Some(first)),
        None => {
            firsts.insert(number, position)?;
            Ok(None)
        }
    }
}
