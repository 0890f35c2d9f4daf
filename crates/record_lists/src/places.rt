//! Where items stand in the source of their files.

ghost use Rattle.std.specs.Prelude.{◌≡◌, find};
ghost use Rattle.std.specs.Cmp.Lexicographic.{pointwise};
ghost use Rattle.std.specs.Option.{option_copied};
ghost use Rattle.std.specs.Ordering.{int_eq};
ghost use Rattle.record_lists.specs.Places as spec;

use pool_types::{FileDescriptorInner, Identity};
use proto_types::Location;

/// The first of some locations with a path.
fn first_location<'a>(locations: &'a [Location], path: &[i32]) -> Option<&'a Location>
    ensures { option_copied result ≡ find (λ l. pointwise int_eq l.path path.now) locations.now }
{
    locations
        .iter()
        .find(|location| location.path.as_slice() == path)
}

/// The first location of a file with the path of what is declared somewhere, or none where the
/// file's record has none.
pub fn location_of<'a>(files: &'a [FileDescriptorInner], id: &Identity) -> Option<&'a Location>
    ensures { option_copied result ≡ spec.location_of files.now id.now }
{
    let file = files.get(id.file as usize)?;
    match &file.raw.source_code_info {
        Some(source) => first_location(source.location.as_slice(), id.path()),
        None => first_location(&[], id.path()),
    }
}
