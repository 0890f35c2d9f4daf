ghost use Rattle.std.specs.Prelude.{◌≡◌, ◌<◌, length, map, IfOk, IfSome};
ghost use Rattle.field_rules.specs.NumberRanges.{holds, first_from};
ghost use Rattle.field_rules.specs.RangeTables.{end_of};

use crate::range_tables::push_table;
use crate::stretch::{Stretch, first_in, first_listed};
use std::alloc::{AllocError, Global};
use std::marker::Model;

/// Ranges of numbers, in the order of a list. Contracts see them as that list, of the start and the
/// end of each: a range holds the numbers from its start on and below its end.
#[derive(Drop)]
pub struct NumberRanges {
    ranges: Vec<(i32, i32)>,
    /// How often the ranges are halved.
    levels: usize,
    /// The starts in order, and behind them, level by level, those of each half.
    starts: Vec<i32>,
    /// The ends in order, and those of each half.
    ends: Vec<i32>,
}

impl Model for NumberRanges {
    ghost use Rattle.std.specs.Prelude.{List, ℤ};
    ghost use Rattle.field_rules.specs.RangeTables.{AreTables};

    ghost Value = { List (ℤ × ℤ) };

    ghost view = { λ a. a.ranges.items };

    ghost invariant = { λ a. AreTables a.levels a.starts.items a.ends.items a.ranges.items };
}

impl NumberRanges {
    /// These ranges, of which each is a start and an end. Of none, no memory is taken.
    ///
    /// # Errors
    /// `AllocError` where memory was refused.
    // Inlined, since most messages have no ranges.
    #[inline(always)]
    pub fn new(alloc: Global, ranges: Vec<(i32, i32)>) -> Result<NumberRanges, AllocError>
        ensures { IfOk result (λ made. made ≡ ranges.items) }
    {
        let levels = levels_for(ranges.len());
        if levels > 0 {
            return NumberRanges::with_tables(alloc, ranges, levels);
        }
        Ok(NumberRanges {
            ranges,
            levels,
            starts: Vec::new(alloc),
            ends: Vec::new(alloc),
        })
    }

    /// These ranges, halved so many times.
    #[inline(never)]
    fn with_tables(
        alloc: Global,
        ranges: Vec<(i32, i32)>,
        levels: usize,
    ) -> Result<NumberRanges, AllocError>
        ensures { IfOk result (λ made. made ≡ ranges.items) }
    {
        let mut starts = Vec::new(alloc);
        let begin = starts_of(alloc, ranges.as_slice())?;
        push_table(alloc, &mut starts, begin.as_slice(), levels)?;
        let mut ends = Vec::new(alloc);
        let end = ends_of(alloc, ranges.as_slice())?;
        push_table(alloc, &mut ends, end.as_slice(), levels)?;
        Ok(NumberRanges {
            ranges,
            levels,
            starts,
            ends,
        })
    }

    /// The position of the first range, from a position on, that holds a number. Positions count
    /// from 0. It takes no memory, and about as many steps as halvings of the ranges, squared.
    // Inlined, as `new` is.
    #[inline(always)]
    pub fn first_from(&self, from: usize, number: i32) -> Option<usize>
        ensures first { result ≡ first_from (holds number) from self.now }
        ensures there { IfSome result (λ found. found < length self.now) }
    {
        let ranges = self.ranges.as_slice();
        if from >= ranges.len() {
            return None;
        }
        if self.levels == 0 {
            return first_listed(ranges, from, number);
        }
        let stretch = Stretch {
            ranges,
            starts: self.starts.as_slice(),
            ends: self.ends.as_slice(),
        };
        first_in(stretch, self.levels, from, number)
    }
}

/// How often so many ranges are halved: until some eight are left.
fn levels_for(count: usize) -> usize {
    (count / 8).checked_ilog2().unwrap_or(0) as usize
}

fn starts_of(alloc: Global, ranges: &[(i32, i32)]) -> Result<Vec<i32>, AllocError>
    ensures { IfOk result (λ starts. starts.items ≡ map (λ r. r.0) ranges.now) }
{
    ranges.iter().map(|range| range.0).collect(alloc)
}

/// Where the ranges end, of which none ends before it starts.
fn ends_of(alloc: Global, ranges: &[(i32, i32)]) -> Result<Vec<i32>, AllocError>
    ensures { IfOk result (λ ends. ends.items ≡ map end_of ranges.now) }
{
    ranges.iter().map(|range| end_of(*range)).collect(alloc)
}

fn end_of(range: (i32, i32)) -> i32
    ensures { result ≡ end_of range }
{
    range.0.max(range.1)
}

/// Whether a range, a start and an end, holds a number.
pub fn holds(range: (i32, i32), number: i32) -> bool
    ensures { result ≡ holds number range }
{
    range.0 <= number && number < range.1
}
