ghost use Rattle.std.specs.Prelude.{◌≡◌, ◌≤◌, [], ◌∷◌, ◌++◌, take, length, IfOk, OnOk, OnErr};

use crate::Duplicate;
use std::alloc::{AllocError, Global};
use std::fmt;
use std::marker::Model;

/// A list of numbers, up to seven of which take no memory. Contracts see it as the list.
///
/// Only a call that answers a `Result` takes memory.
#[derive(Drop)]
pub struct Numbers {
    held: Held,
    alloc: Global,
}

/// Where the numbers of a list stand.
#[derive(Drop)]
enum Held {
    /// The first so many of seven.
    Few(u8, [i32; 7]),
    Many(Vec<i32>),
}

/// How many numbers take no memory.
const INLINE: usize = 7;

impl Model for Numbers {
    ghost use Rattle.std.specs.Prelude.{List, ℤ};
    ghost use Rattle.plain_data.specs.Numbers.{items_of, IsWithin};

    ghost Value = { List ℤ };

    ghost view = { λ numbers. items_of numbers.held };

    ghost invariant = { λ numbers. IsWithin numbers.held };
}

impl Numbers {
    /// No numbers.
    #[inline]
    pub fn new(alloc: Global) -> Numbers
        ensures { result ≡ [] }
    {
        Numbers {
            held: Held::Few(0, [0; 7]),
            alloc,
        }
    }

    /// A copy of the numbers.
    ///
    /// # Errors
    /// `AllocError` where memory was refused.
    pub fn from_slice(alloc: Global, numbers: &[i32]) -> Result<Numbers, AllocError>
        ensures { IfOk result (λ made. made ≡ numbers.now) }
    {
        let len = numbers.len();
        let held = if len > INLINE {
            Held::Many(Vec::from_slice(alloc, numbers)?)
        } else {
            Held::Few(len as u8, inline(numbers))
        };
        Ok(Numbers { held, alloc })
    }

    /// Takes room for this many numbers more.
    ///
    /// # Errors
    /// `AllocError` where memory was refused.
    pub fn reserve_exact(&mut self, more: usize) -> Result<(), AllocError>
        ensures { self.new ≡ self.old }
    {
        match &mut self.held {
            Held::Many(many) => many.reserve_exact(more)?,
            Held::Few(len, _) => {
                if more > INLINE - *len as usize {
                    self.held = Held::Many(with_room(self.alloc, self.as_slice(), more)?);
                }
            }
        }
        Ok(())
    }

    /// Puts a number behind the others.
    ///
    /// # Errors
    /// `AllocError` where memory was refused. The list is then as it was.
    #[inline(always)]
    pub fn push(&mut self, number: i32) -> Result<(), AllocError>
        ensures ok { OnOk result (self.new ≡ self.old ++ number ∷ []) }
        ensures err { OnErr result (self.new ≡ self.old) }
    {
        match &mut self.held {
            Held::Few(len, _) if (*len as usize) < INLINE => {
                let at = *len as usize;
                *len += 1;
                if let Held::Few(_, few) = &mut self.held {
                    few[at] = number;
                }
                Ok(())
            }
            _ => self.push_far(number),
        }
    }

    /// Puts a number behind the others, out of the list itself.
    #[inline(never)]
    fn push_far(&mut self, number: i32) -> Result<(), AllocError>
        ensures ok { OnOk result (self.new ≡ self.old ++ number ∷ []) }
        ensures err { OnErr result (self.new ≡ self.old) }
    {
        match &mut self.held {
            Held::Many(many) => many.push(number)?,
            Held::Few(..) => {
                let mut many = with_room(self.alloc, self.as_slice(), INLINE)?;
                many.push(number)?;
                self.held = Held::Many(many);
            }
        }
        Ok(())
    }

    /// The numbers, as they are borrowed.
    #[inline]
    pub fn as_slice(&self) -> &[i32]
        ensures { result.now ≡ self.now }
    {
        match &self.held {
            Held::Few(len, few) => &few[..*len as usize],
            Held::Many(many) => many.as_slice(),
        }
    }

    /// An equal list.
    ///
    /// # Errors
    /// `AllocError` where memory was refused.
    pub fn clone(&self, alloc: Global) -> Result<Numbers, AllocError>
        ensures { IfOk result (λ copy. copy ≡ self.now) }
    {
        let held = match &self.held {
            Held::Few(len, few) => Held::Few(*len, *few),
            Held::Many(many) => Held::Many(Vec::from_slice(alloc, many.as_slice())?),
        };
        Ok(Numbers { held, alloc })
    }
}

/// The numbers, and zeros behind them.
fn inline(numbers: &[i32]) -> [i32; 7]
    requires { length numbers.now ≤ 7 }
    ensures { take (length numbers.now) result ≡ numbers.now }
{
    let mut few = [0; 7];
    few[..numbers.len()].copy_from_slice(numbers);
    few
}

/// A copy of the numbers, with room for this many more.
fn with_room(alloc: Global, numbers: &[i32], more: usize) -> Result<Vec<i32>, AllocError>
    ensures { IfOk result (λ made. made.items ≡ numbers.now) }
{
    let mut many = Vec::with_capacity(alloc, numbers.len().saturating_add(more))?;
    many.extend_from_slice(numbers)?;
    Ok(many)
}

impl Duplicate for Numbers {
    fn duplicate(&self, alloc: Global) -> Result<Numbers, AllocError> {
        self.clone(alloc)
    }
}

impl PartialEq for Numbers {
    ghost use Rattle.std.specs.Cmp.{int_eq_equiv, partial_equiv_from_equiv};
    ghost use Rattle.std.specs.Cmp.Lexicographic.{pointwise, lists_per};
    ghost use Rattle.std.specs.Ordering.{int_eq};

    ghost eq = { pointwise int_eq };

    ghost laws = { lists_per (partial_equiv_from_equiv int_eq_equiv) };

    fn eq(&self, other: &Numbers) -> bool {
        self.as_slice() == other.as_slice()
    }
}

impl fmt::Debug for Numbers {
    fn fmt<W: fmt::Write>(&self, f: &mut fmt::Formatter<W>) -> fmt::Result {
        self.as_slice().fmt(f)
    }
}

const _: () = prove!(size_of::<Numbers>() == 32);
