ghost use Rattle.std.specs.Prelude.{◌≡◌, [], ◌∷◌, ◌++◌, ◌≤◌, take, length, IfOk};
ghost use Rattle.plain_data.specs.Lists.{listed};
ghost use Rattle.plain_data.specs.Paths.{numbers_of};

use crate::Duplicate;
use std::alloc::{AllocError, Global};
use std::fmt;
use std::marker::Model;

/// The place of a declaration in the record of its file: field numbers and positions, up to eight
/// of which take no memory. Contracts see it as the list of them.
#[derive(Drop)]
pub struct Path {
    numbers: Numbers,
}

/// The numbers of a path.
#[derive(Drop)]
enum Numbers {
    /// The first so many of eight.
    Few([i32; 8], u8),
    Many(Vec<i32>),
}

/// How many numbers take no memory.
const INLINE: usize = 8;

impl Model for Path {
    ghost use Rattle.std.specs.Prelude.{List, ℤ};
    ghost use Rattle.plain_data.specs.Paths.{numbers_of, IsWithin};

    ghost Value = { List ℤ };

    ghost view = { λ path. numbers_of path.numbers };

    ghost invariant = { λ path. IsWithin path.numbers };
}

impl Path {
    /// A copy of the numbers.
    ///
    /// # Errors
    /// `AllocError` where memory was refused.
    // Inlined, as the two below are, so that a short path is made where it stays.
    #[inline(always)]
    pub fn from_slice(alloc: Global, numbers: &[i32]) -> Result<Path, AllocError>
        ensures { IfOk result (λ path. path ≡ numbers.now) }
    {
        let len = numbers.len();
        if len > INLINE {
            return Path::copied(alloc, numbers);
        }
        Ok(Path {
            numbers: Numbers::Few(inline(numbers), len as u8),
        })
    }

    /// A copy of the numbers, and two more behind them.
    ///
    /// # Errors
    /// `AllocError` where memory was refused.
    #[inline(always)]
    pub fn below(
        alloc: Global,
        numbers: &[i32],
        tag: i32,
        position: i32,
    ) -> Result<Path, AllocError>
        ensures { IfOk result (λ path. path ≡ numbers.now ++ tag ∷ position ∷ []) }
    {
        let len = numbers.len();
        if len > INLINE - 2 {
            return Path::many(alloc, numbers, tag, Some(position));
        }
        let mut few = inline(numbers);
        few[len] = tag;
        few[len + 1] = position;
        Ok(Path {
            numbers: Numbers::Few(few, len as u8 + 2),
        })
    }

    /// A copy of the numbers, and one more behind them.
    ///
    /// # Errors
    /// `AllocError` where memory was refused.
    #[inline(always)]
    pub fn part(alloc: Global, numbers: &[i32], tag: i32) -> Result<Path, AllocError>
        ensures { IfOk result (λ path. path ≡ numbers.now ++ tag ∷ []) }
    {
        let len = numbers.len();
        if len > INLINE - 1 {
            return Path::many(alloc, numbers, tag, None);
        }
        let mut few = inline(numbers);
        few[len] = tag;
        Ok(Path {
            numbers: Numbers::Few(few, len as u8 + 1),
        })
    }

    /// A copy of the numbers, which takes memory.
    #[inline(never)]
    fn copied(alloc: Global, numbers: &[i32]) -> Result<Path, AllocError>
        ensures { IfOk result (λ path. path ≡ numbers.now) }
    {
        Ok(Path {
            numbers: Numbers::Many(Vec::from_slice(alloc, numbers)?),
        })
    }

    /// A copy of the numbers, and one or two more behind them, which takes memory.
    #[inline(never)]
    fn many(
        alloc: Global,
        numbers: &[i32],
        tag: i32,
        position: Option<i32>,
    ) -> Result<Path, AllocError>
        ensures { IfOk result (λ path. path ≡ numbers.now ++ tag ∷ listed position) }
    {
        let mut many = Vec::with_capacity(alloc, numbers.len().saturating_add(2))?;
        many.extend_from_slice(numbers)?;
        many.push(tag)?;
        if let Some(position) = position {
            many.push(position)?;
        }
        Ok(Path {
            numbers: Numbers::Many(many),
        })
    }

    /// The numbers, as they are borrowed.
    pub fn as_slice(&self) -> &[i32]
        ensures { result.now ≡ self.now }
    {
        match &self.numbers {
            Numbers::Few(numbers, len) => &numbers[..*len as usize],
            Numbers::Many(numbers) => numbers.as_slice(),
        }
    }

    /// An equal path.
    ///
    /// # Errors
    /// `AllocError` where memory was refused.
    pub fn clone(&self, alloc: Global) -> Result<Path, AllocError>
        ensures { IfOk result (λ copy. copy ≡ self.now) }
    {
        let numbers = match &self.numbers {
            Numbers::Few(numbers, len) => Numbers::Few(*numbers, *len),
            Numbers::Many(numbers) => Numbers::Many(Vec::from_slice(alloc, numbers.as_slice())?),
        };
        Ok(Path { numbers })
    }
}

/// The numbers, and zeros behind them.
// Most paths lead to what stands in a file, or in a message there.
#[inline(always)]
fn inline(numbers: &[i32]) -> [i32; 8]
    requires { length numbers.now ≤ 8 }
    ensures { take (length numbers.now) result ≡ numbers.now }
{
    match numbers {
        [a, b] => [*a, *b, 0, 0, 0, 0, 0, 0],
        [a, b, c, d] => [*a, *b, *c, *d, 0, 0, 0, 0],
        _ => padded(numbers),
    }
}

/// The numbers, and zeros behind them, however many they are.
fn padded(numbers: &[i32]) -> [i32; 8]
    requires { length numbers.now ≤ 8 }
    ensures { take (length numbers.now) result ≡ numbers.now }
{
    let mut few = [0; 8];
    few[..numbers.len()].copy_from_slice(numbers);
    few
}

impl Duplicate for Path {
    fn duplicate(&self, alloc: Global) -> Result<Path, AllocError> {
        self.clone(alloc)
    }
}

impl PartialEq for Path {
    ghost use Rattle.std.specs.Cmp.{int_eq_equiv, partial_equiv_from_equiv};
    ghost use Rattle.std.specs.Cmp.Lexicographic.{pointwise, lists_per};
    ghost use Rattle.std.specs.Ordering.{int_eq};

    ghost eq = { pointwise int_eq };

    ghost laws = { lists_per (partial_equiv_from_equiv int_eq_equiv) };

    fn eq(&self, other: &Path) -> bool {
        self.as_slice() == other.as_slice()
    }
}

impl fmt::Debug for Path {
    fn fmt<W: fmt::Write>(&self, f: &mut fmt::Formatter<W>) -> fmt::Result {
        self.as_slice().fmt(f)
    }
}
