//! Numbers for people.

ghost use Rattle.std.specs.Prelude.{◌≡◌, IfOk, string_bytes};
ghost use Rattle.verdict_texts.specs.Grouped as spec;

use std::alloc::{AllocError, Global};

/// A number with a comma before each three digits from its end.
#[tactic(auto, using(crate::proofs::Grouping::grouped_small, crate::proofs::Grouping::grouped_large))]
pub(crate) fn grouped(alloc: Global, number: usize) -> Result<String, AllocError>
    ensures { IfOk result (λ s. string_bytes s ≡ spec.grouped number) }
{
    if number < 1000 {
        return format!(in alloc; "{number}");
    }
    let front = grouped(alloc, number / 1000)?;
    let front = front.as_str();
    let (hundreds, tens, ones) = (number / 100 % 10, number / 10 % 10, number % 10);
    format!(in alloc; "{front},{hundreds}{tens}{ones}")
}

/// A number of things, with their words for one and for more.
pub(crate) fn grouped_count(
    alloc: Global,
    number: usize,
    one: &str,
    many: &str,
) -> Result<String, AllocError>
    ensures { IfOk result (λ s. string_bytes s ≡ spec.grouped_count number one.now many.now) }
{
    let word = if number == 1 { one } else { many };
    let number = grouped(alloc, number)?;
    let number = number.as_str();
    format!(in alloc; "{number} {word}")
}
