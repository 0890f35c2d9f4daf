//! The verdict on a batch, and what `protoc` refuses in it besides.

ghost use Rattle.std.specs.Prelude.{◌≡◌, IfOk};
ghost use Rattle.protoc_rules.specs.Linked.{linked, linked_in};
ghost use Rattle.descriptor_check.specs.Strict as spec;

use crate::answer::Wanted;
use crate::verdicts::{Verdict, verdict_on_joined};
use descriptor_pool::DescriptorPool;
use joined_files::JoinedFiles;
use plain_data::Items;
use proto_types::FileDescriptorProto;
use protoc_rules::{Linked, StrictFault, WrittenTypes, strict_faults, written_types};
use std::alloc::{AllocError, Global};

/// The verdict on a batch, and what `protoc` refuses in it besides.
#[derive(Drop)]
pub(crate) struct Judgement {
    pub verdict: Verdict,
    /// What `protoc` refuses besides in an accepted batch, where this is wanted.
    pub strict: Items<StrictFault>,
}

/// The items of a pool that the rules look at.
fn linked_in(pool: &DescriptorPool) -> Linked<'_>
    ensures { linked result ≡ linked_in pool.now }
{
    Linked {
        files: pool.files(),
        messages: pool.messages(),
        enums: pool.enums(),
        services: pool.services(),
        extensions: pool.extensions(),
    }
}

/// The types of a batch as they are written, where what `protoc` refuses besides is wanted.
fn types_wanted(
    alloc: Global,
    wanted: &Wanted,
    batch: &[FileDescriptorProto],
) -> Result<Option<WrittenTypes>, AllocError>
    ensures { IfOk result (λ types. types ≡ spec.types_wanted wanted.now batch.now) }
{
    if wanted.strict {
        Ok(Some(written_types(alloc, batch)?))
    } else {
        Ok(None)
    }
}

/// What `protoc` refuses besides in an accepted batch, if the types are known as they were written.
fn strict_in(
    alloc: Global,
    types: &Option<WrittenTypes>,
    verdict: &Verdict,
) -> Result<Items<StrictFault>, AllocError>
    ensures { IfOk result (λ faults. faults ≡ spec.strict_in types.now verdict.now) }
{
    match (types, verdict) {
        (Some(types), Verdict::Accepted(pool)) => strict_faults(alloc, linked_in(pool), types),
        _ => Ok(Items::new(alloc)),
    }
}

/// The verdict on the files of sets, and what `protoc` refuses in them besides, where this is
/// wanted.
pub(crate) fn judge(
    alloc: Global,
    wanted: &Wanted,
    joined: JoinedFiles,
) -> Result<Judgement, AllocError>
    ensures { IfOk result (λ judgement. judgement ≡ spec.judgement_of wanted.now joined) }
{
    let types = types_wanted(alloc, wanted, joined.files.as_slice())?;
    let verdict = verdict_on_joined(alloc, joined, wanted.first_counts, wanted.most)?;
    let strict = strict_in(alloc, &types, &verdict)?;
    Ok(Judgement { verdict, strict })
}
