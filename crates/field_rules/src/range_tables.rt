ghost use Rattle.std.specs.Prelude.{◌≡◌, OnOk, int_le};
ghost use Rattle.std.specs.List.{count_by};
ghost use Rattle.std.specs.List.Sorted.{IsSorted};
ghost use Rattle.std.specs.Ordering.{int_cmp};
ghost use Rattle.field_rules.specs.RangeTables.{IsTableBehind};

use std::alloc::{AllocError, Global};

/// Appends the numbers in order to a table, and behind them the tables of their two halves, with
/// one level less. With no level nothing is appended.
pub(crate) fn push_table(
    alloc: Global,
    table: &mut Vec<i32>,
    numbers: &[i32],
    levels: usize,
) -> Result<(), AllocError>
    ensures { OnOk result (IsTableBehind levels numbers.now table.old.items table.new.items) }
{
    let Some(below) = levels.checked_sub(1) else {
        return Ok(());
    };
    let mut sorted = Vec::from_slice(alloc, numbers)?;
    sorted.sort_unstable();
    table.extend_from_slice(&sorted)?;
    let (front, back) = numbers.split_at(numbers.len() / 2);
    push_table(alloc, table, front, below)?;
    push_table(alloc, table, back, below)
}

/// How many of the numbers, which are in order, are at most `number`.
pub(crate) fn count_to(sorted: &[i32], number: i32) -> usize
    requires { IsSorted int_cmp sorted.now }
    ensures { result ≡ count_by (λ x. int_le x number) sorted.now }
{
    sorted.partition_point(|x| *x <= number)
}
