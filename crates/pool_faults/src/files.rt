ghost use Rattle.std.specs.Prelude.{◌≡◌, IfOk, map};
ghost use Rattle.pool_faults.specs.Labels.{label_in};

use crate::label::Label;
use plain_data::{Items, Text};
use pool_types::FileDescriptorInner;
use std::alloc::{AllocError, Global};

/// The label of a path in the file with an index, from 0 in the order of linking; where there is
/// no such file, of no file.
///
/// # Errors
/// `AllocError` where memory was refused.
pub fn label_at(
    alloc: Global,
    files: &[FileDescriptorInner],
    file: u32,
    path: &[i32],
) -> Result<Label, AllocError>
    ensures { IfOk result (λ l. l ≡ label_in (map (λ f. f.raw) files.now) file path.now) }
{
    match files.get(file as usize) {
        Some(found) => Label::in_record(alloc, &found.raw, path),
        None => Ok(Label {
            file: Text::new(alloc),
            path: Items::from_slice(alloc, path)?,
            span: None,
        }),
    }
}
