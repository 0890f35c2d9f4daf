ghost use Rattle.std.specs.Prelude.{◌≡◌, ◌+◌, ◌*◌, ◌<◌, ◌≤◌, ◌/◌, suc, length, take, drop};
ghost use Rattle.std.specs.Prelude.{position, IfSome};
ghost use Rattle.field_rules.specs.NumberRanges.{holds, first_from};
ghost use Rattle.field_rules.specs.RangeTables.{AreTables};

use crate::number_ranges::holds;
use crate::range_tables::count_to;

/// Ranges that stand one after another, and the tables of their starts and of their ends.
#[derive(Clone, Copy)]
pub(crate) struct Stretch<'a> {
    pub(crate) ranges: &'a [(i32, i32)],
    pub(crate) starts: &'a [i32],
    pub(crate) ends: &'a [i32],
}

/// The position of the first range, from a position on, that holds a number. The tables have this
/// many levels.
pub(crate) fn first_in(stretch: Stretch, levels: usize, from: usize, number: i32) -> Option<usize>
    requires { AreTables levels stretch.starts.now stretch.ends.now stretch.ranges.now }
    ensures { result ≡ first_from (holds number) from stretch.entry.ranges.now }
{
    let count = stretch.ranges.len();
    if from >= count {
        return None;
    }
    let Some(below) = levels.checked_sub(1) else {
        return first_listed(stretch.ranges, from, number);
    };
    // Where as many have ended as have begun, none holds the number.
    if count_to(&stretch.ends[..count], number) == count_to(&stretch.starts[..count], number) {
        return None;
    }
    let half = count / 2;
    let (front, back) = halves(stretch, below);
    if let Some(position) = first_in(front, below, from, number) {
        return Some(position);
    }
    let position = first_in(back, below, from.saturating_sub(half), number)?;
    Some(half + position)
}

/// The two halves of the ranges, with their tables, of this many levels.
fn halves<'a>(stretch: Stretch<'a>, below: usize) -> (Stretch<'a>, Stretch<'a>)
    requires { AreTables (suc below) stretch.starts.now stretch.ends.now stretch.ranges.now }
    ensures front { result.0.ranges.now
        ≡ take (length stretch.entry.ranges.now / 2) stretch.entry.ranges.now }
    ensures back { result.1.ranges.now
        ≡ drop (length stretch.entry.ranges.now / 2) stretch.entry.ranges.now }
    ensures front_tables { AreTables below
        result.0.starts.now result.0.ends.now result.0.ranges.now }
    ensures back_tables { AreTables below
        result.1.starts.now result.1.ends.now result.1.ranges.now }
{
    let count = stretch.ranges.len();
    let (front, back) = stretch.ranges.split_at(count / 2);
    let (front_starts, back_starts) = tables_below(stretch.starts, count, below);
    let (front_ends, back_ends) = tables_below(stretch.ends, count, below);
    let front = Stretch {
        ranges: front,
        starts: front_starts,
        ends: front_ends,
    };
    let back = Stretch {
        ranges: back,
        starts: back_starts,
        ends: back_ends,
    };
    (front, back)
}

/// The tables of the two halves of some numbers, which stand in their table behind the numbers.
fn tables_below(table: &[i32], count: usize, below: usize) -> (&[i32], &[i32])
    requires { length table.now ≡ count + count * below }
    ensures front { result.0.now ≡ take (count / 2 * below) (drop count table.now) }
    ensures back { result.1.now ≡ drop (count / 2 * below) (drop count table.now) }
{
    table[count..].split_at(count / 2 * below)
}

/// The position of the first range, from a position on, that holds a number, as one after another
/// is looked at.
// Inlined, as the one below is, since most messages have few ranges.
#[inline(always)]
pub(crate) fn first_listed(ranges: &[(i32, i32)], from: usize, number: i32) -> Option<usize>
    requires { from ≤ length ranges.now }
    ensures { result ≡ first_from (holds number) from ranges.now }
{
    let position = first_that_holds(&ranges[from..], number)?;
    Some(from + position)
}

/// The position of the first range that holds a number.
#[inline(always)]
fn first_that_holds(ranges: &[(i32, i32)], number: i32) -> Option<usize>
    ensures first { result ≡ position (holds number) ranges.now }
    ensures there { IfSome result (λ found. found < length ranges.now) }
{
    ranges.iter().position(|range| holds(*range, number))
}
