//! The paths of what stands in a file.

ghost use Rattle.std.specs.Prelude.{◌≡◌, ◌<◌, ◌^◌, IfOk};
ghost use Rattle.proto_types.specs.Paths.{entry_path};

use std::alloc::{AllocError, Global};

/// The path of an entry of a list: the path of what has the list, the list's field number, and the
/// entry's position, from 0 and below 2 to the 31st (descriptor.proto's
/// `SourceCodeInfo.Location.path`).
///
/// # Errors
/// `AllocError` where memory was refused.
pub fn entry_path(
    alloc: Global,
    path: &[i32],
    tag: i32,
    position: usize,
) -> Result<Vec<i32>, AllocError>
    requires { position < 2 ^ 31 }
    ensures { IfOk result (λ entry. entry.items ≡ entry_path path.now tag position) }
{
    let mut entry = Vec::with_capacity(alloc, path.len() + 2)?;
    entry.extend_from_slice(path)?;
    entry.push(tag)?;
    entry.push(position as i32)?;
    Ok(entry)
}
