//! The batch of some inputs.

ghost use Rattle.std.specs.Prelude.{◌≡◌, IfOk};
ghost use Rattle.descriptor_check.specs.Batches as spec;

use crate::guises::Guise;
use crate::inputs::Input;
use descriptor_decoding::{DecodeError, decode};
use joined_files::{JoinedFiles, Joining};
use plain_data::{Items, Text};
use proto_types::FileDescriptorProto;
use std::alloc::{AllocError, Global};
use wire_format::WireFault;

/// What is wrong with an input that is no descriptor set.
#[derive(Clone, Copy, PartialEq, Debug)]
pub enum Flaw {
    /// The first fault of its bytes.
    Bytes(WireFault),
    /// What its bytes look like, and their first fault.
    Foreign(Guise, WireFault),
    /// There is no file in it.
    NoFiles,
}

/// An input that is no descriptor set.
#[derive(Drop)]
pub struct NotASet {
    pub name: Text,
    pub flaw: Flaw,
}

/// Why inputs make no batch.
#[derive(Drop)]
pub enum BatchError {
    /// The first input that is no set.
    NotASet(NotASet),
    /// Memory was refused.
    OutOfMemory,
}

impl From<AllocError> for BatchError {
    ghost use Rattle.std.specs.Prelude.{◌≡◌};
    ghost use Rattle.descriptor_check.specs.declared.batches.BatchError.TheVariants.{OutOfMemory};

    ghost from_gives = { λ _ error. error ≡ OutOfMemory };

    fn from(_error: AllocError) -> BatchError {
        BatchError::OutOfMemory
    }
}

/// The batch of some inputs: the files of their sets, in order. Of files of one name that are equal
/// apart from the places of their parts in a source one counts, with places if one has some; of
/// others the first is in the batch, and the further ones are told.
///
/// # Errors
/// `NotASet` with the first input that is no descriptor set or has no files; `OutOfMemory` where
/// memory was refused.
#[tactic(auto, unfolding(crate::specs::Batches::batch_of))]
pub fn read_batch(alloc: Global, inputs: &[Input]) -> Result<JoinedFiles, BatchError>
    ensures { spec.Reads result (spec.batch_of inputs.now) }
{
    let mut joining = Joining::new(alloc);
    for input in inputs {
        let files = input_files(alloc, input)?;
        joining = joining.with_set(input.name.as_str(), files)?;
    }
    Ok(joining.into_files()?)
}

/// The files of an input.
fn input_files(alloc: Global, input: &Input) -> Result<Items<FileDescriptorProto>, BatchError>
    ensures { spec.Reads result (spec.input_files input.now) }
{
    match decode(alloc, input.bytes.as_slice()) {
        Ok(set) => some_files(alloc, input, set.file),
        Err(DecodeError::Fault(fault)) => Err(not_a_set(alloc, input, flaw_of(input, fault))?),
        Err(DecodeError::OutOfMemory) => Err(BatchError::OutOfMemory),
    }
}

/// The files of a set that has some.
fn some_files(
    alloc: Global,
    input: &Input,
    files: Items<FileDescriptorProto>,
) -> Result<Items<FileDescriptorProto>, BatchError>
    ensures { spec.Reads result (spec.some_files input.now.name files) }
{
    if files.as_slice().is_empty() {
        return Err(not_a_set(alloc, input, Flaw::NoFiles)?);
    }
    Ok(files)
}

/// What is wrong with an input whose bytes have a fault.
fn flaw_of(input: &Input, fault: WireFault) -> Flaw
    ensures { result ≡ spec.flaw_of input.now.bytes fault }
{
    match Guise::of_bytes(input.bytes.as_slice()) {
        Some(guise) => Flaw::Foreign(guise, fault),
        None => Flaw::Bytes(fault),
    }
}

/// An input that is no set.
fn not_a_set(alloc: Global, input: &Input, flaw: Flaw) -> Result<BatchError, AllocError>
    ensures { IfOk result (λ error. error ≡ spec.no_set input.now flaw) }
{
    let name = input.name.clone(alloc)?;
    Ok(BatchError::NotASet(NotASet { name, flaw }))
}
