//! The words that the program was called with.

ghost use Rattle.std.specs.Prelude.{◌≡◌, IfOk, map, string_bytes};
ghost use Rattle.std.specs.Vec.Iter.{into_iter_items};
ghost use Rattle.check_descriptors.specs.Words as spec;

use plain_data::{Items, Text};
use std::alloc::{AllocError, Global};
use std::env::Args;

/// The words of the arguments: all but the first, which is the name of the program.
///
/// # Errors
/// `AllocError` where memory was refused.
pub(crate) fn words_of(alloc: Global, arguments: Args) -> Result<Items<Text>, AllocError>
    ensures { IfOk result (λ words. words
        ≡ spec.words_of (map string_bytes (into_iter_items arguments))) }
{
    let words = arguments
        .skip(1)
        .map(|word| Text::from_string(word))
        .collect(alloc)?;
    Ok(Items::from_vec(words))
}
