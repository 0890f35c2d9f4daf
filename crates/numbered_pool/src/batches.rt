//! Files as one batch, in which each name stands once.

ghost use Rattle.std.specs.Prelude.{◌≡◌, map, IsTrue, IfOk, string_bytes};
ghost use Rattle.std.specs.List.{IsDistinct};
ghost use Rattle.std.specs.Str.{bytes_eq};
ghost use Rattle.proto_types.specs.Readers.{text_of};
ghost use Rattle.numbered_pool.specs.Batches as spec;

use joined_files::{JoinedFiles, Joining, SetFile};
use plain_data::{Items, Text, are_distinct, digest_after};
use proto_types::FileDescriptorProto;
use std::alloc::{AllocError, Global};

/// What a file is called among others, by its position from 0: its number from 1.
fn file_words(alloc: Global, position: usize) -> Result<String, AllocError>
    ensures { IfOk result (λ s. string_bytes s ≡ spec.file_words position) }
{
    match position.checked_add(1) {
        Some(number) => format!(in alloc; "file {number}"),
        None => far_words(alloc, position),
    }
}

/// What a file would be called whose number has more than 64 bits.
fn far_words(alloc: Global, position: usize) -> Result<String, AllocError>
    ensures { IfOk result (λ s. string_bytes s ≡ spec.file_words position) }
{
    let number = position as u128 + 1;
    format!(in alloc; "file {number}")
}

/// The batch of some files: those of one name that are equal apart from the places of their parts
/// in a source count once, with places if one has some; of others the first is in the batch, and
/// the further ones are told.
#[tactic(auto, using(crate::proofs::Distinct::distinct))]
pub(crate) fn batch_of(
    alloc: Global,
    files: Items<FileDescriptorProto>,
) -> Result<JoinedFiles, AllocError>
    ensures { IfOk result (λ batch. batch ≡ spec.batch_of files) }
{
    // In most sets no two files have one name, so that none is to be joined to another.
    if are_named_apart(alloc, files.as_slice())? {
        let unequal = Items::new(alloc);
        return Ok(JoinedFiles { files, unequal });
    }
    joined(alloc, files)
}

/// Whether the names of files have digests that differ, so that no two files have one name.
fn are_named_apart(alloc: Global, files: &[FileDescriptorProto]) -> Result<bool, AllocError>
    ensures { IfOk result (λ apart. IsTrue apart
        → IsDistinct bytes_eq (map (λ f. text_of f.name) files.now)) }
{
    let mut digests = Vec::with_capacity(alloc, files.len())?;
    for file in files {
        digests.push(digest_after(0, file.name().as_bytes()))?;
    }
    Ok(are_distinct(&mut digests))
}

/// The batch of some files, which are joined one after another.
#[tactic(auto, unfolding(crate::specs::Batches::batch_of))]
fn joined(alloc: Global, files: Items<FileDescriptorProto>) -> Result<JoinedFiles, AllocError>
    ensures { IfOk result (λ batch. batch ≡ spec.batch_of files) }
{
    let mut joining = Joining::new(alloc);
    for (position, file) in files.into_vec().into_iter().enumerate() {
        let set = Text::from_string(file_words(alloc, position)?);
        joining = joining.with_file(SetFile { set, file })?;
    }
    joining.into_files()
}
