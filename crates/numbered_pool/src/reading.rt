//! Files from their bytes.

ghost use Rattle.std.specs.Prelude.{◌≡◌, ◌+◌, IfOk, drop, take};
ghost use Rattle.descriptor_decoding.specs.Decoding.{file_of};
ghost use Rattle.numbered_pool.specs.Reading as spec;

use descriptor_decoding::{DecodeError, decode, decode_file};
use link_script::{ScriptError, ScriptFault, files_of};
use plain_data::{Items, Text};
use proto_types::FileDescriptorProto;
use std::alloc::{AllocError, Global};
use verdict_texts::bytes_words;
use wire_format::WireFault;

/// What bytes are read as.
#[derive(Clone, Copy, PartialEq, Debug)]
pub(crate) enum Source {
    /// A `FileDescriptorSet`.
    Set,
    /// A `FileDescriptorProto`.
    File,
    /// A script, whose commands are passed over.
    Script,
}

/// Why bytes are no files.
#[derive(Drop)]
pub(crate) enum ReadError {
    /// The first fault of the bytes, in words.
    Fault(Text),
    /// Memory was refused.
    OutOfMemory,
}

impl From<AllocError> for ReadError {
    ghost use Rattle.std.specs.Prelude.{◌≡◌};
    ghost use Rattle.numbered_pool.specs.declared.reading.ReadError.TheVariants.{OutOfMemory};

    ghost from_gives = { λ _ error. error ≡ OutOfMemory };

    fn from(_error: AllocError) -> ReadError {
        ReadError::OutOfMemory
    }
}

/// The files that bytes say, in order.
///
/// # Errors
/// `Fault` with the first fault of the bytes, in words; `OutOfMemory` where memory was refused.
pub(crate) fn read_files(
    alloc: Global,
    source: Source,
    bytes: &[u8],
) -> Result<Items<FileDescriptorProto>, ReadError>
    ensures { spec.Reads result (spec.files_read source bytes.now) }
{
    match source {
        Source::Set => read_set(alloc, bytes),
        Source::File => read_file(alloc, bytes),
        Source::Script => read_script(alloc, bytes),
    }
}

/// The files of a set.
fn read_set(alloc: Global, bytes: &[u8]) -> Result<Items<FileDescriptorProto>, ReadError>
    ensures { spec.Reads result (spec.set_read bytes.now) }
{
    match decode(alloc, bytes) {
        Ok(set) => Ok(set.file),
        Err(DecodeError::Fault(fault)) => Err(bytes_fault(alloc, fault)?),
        Err(DecodeError::OutOfMemory) => Err(ReadError::OutOfMemory),
    }
}

/// One file.
fn read_file(alloc: Global, bytes: &[u8]) -> Result<Items<FileDescriptorProto>, ReadError>
    ensures { spec.Reads result (spec.file_read bytes.now) }
{
    match decode_file(alloc, bytes) {
        Ok(file) => Ok(only(alloc, file)?),
        Err(DecodeError::Fault(fault)) => Err(bytes_fault(alloc, fault)?),
        Err(DecodeError::OutOfMemory) => Err(ReadError::OutOfMemory),
    }
}

/// The first bytes, so many of them, or all where there are fewer, and those behind them.
fn cut(bytes: &[u8], length: usize) -> (&[u8], &[u8])
    ensures front { result.0.now ≡ take length bytes.now }
    ensures behind { result.1.now ≡ drop length bytes.now }
{
    if length < bytes.len() {
        bytes.split_at(length)
    } else {
        (bytes, &[])
    }
}

/// Several files that stand behind one another in bytes, by their lengths, in order. Bytes behind
/// the last are not looked at.
///
/// # Errors
/// `Fault` with the first fault of the first bytes that are no file, in words, behind the number of
/// that file, from 1; `OutOfMemory` where memory was refused.
#[tactic(auto, unfolding(crate::specs::Reading::each_read))]
pub(crate) fn read_each(
    alloc: Global,
    bytes: &[u8],
    lengths: &[usize],
) -> Result<Items<FileDescriptorProto>, ReadError>
    ensures { spec.Reads result (spec.each_read bytes.now lengths.now) }
{
    let mut files = Items::new(alloc);
    let mut rest = bytes;
    for (position, length) in lengths.iter().enumerate() {
        let (file, behind) = cut(rest, *length);
        files.push(read_numbered(alloc, position, file)?)?;
        rest = behind;
    }
    Ok(files)
}

/// One of several files, by its position from 0.
fn read_numbered(
    alloc: Global,
    position: usize,
    bytes: &[u8],
) -> Result<FileDescriptorProto, ReadError>
    ensures { spec.ReadsNumbered result (position + 1) (file_of bytes.now) }
{
    match decode_file(alloc, bytes) {
        Ok(file) => Ok(file),
        Err(DecodeError::Fault(fault)) => Err(file_fault(alloc, position, fault)?),
        Err(DecodeError::OutOfMemory) => Err(ReadError::OutOfMemory),
    }
}

/// The files that a script declares.
fn read_script(alloc: Global, bytes: &[u8]) -> Result<Items<FileDescriptorProto>, ReadError>
    ensures { spec.Reads result (spec.script_read bytes.now) }
{
    match files_of(alloc, bytes) {
        Ok(files) => Ok(Items::from_vec(files)),
        Err(ScriptError::Fault(line, fault)) => Err(script_fault(alloc, line, fault)?),
        Err(ScriptError::OutOfMemory) => Err(ReadError::OutOfMemory),
    }
}

/// A list of one file.
fn only(alloc: Global, file: FileDescriptorProto) -> Result<Items<FileDescriptorProto>, AllocError>
    ensures { IfOk result (λ files. files ≡ spec.only file) }
{
    let mut files = Items::new(alloc);
    files.push(file)?;
    Ok(files)
}

/// The first fault of bytes, in words.
fn bytes_fault(alloc: Global, fault: WireFault) -> Result<ReadError, AllocError>
    ensures { IfOk result (λ error. error ≡ spec.bytes_fault fault) }
{
    Ok(ReadError::Fault(Text::from_string(bytes_words(alloc, fault)?)))
}

/// The fault of one of several files, in words, by its position from 0.
fn file_fault(alloc: Global, position: usize, fault: WireFault) -> Result<ReadError, AllocError>
    ensures { IfOk result (λ error. error ≡ spec.file_fault (position + 1) fault) }
{
    let number = position as u128 + 1;
    let words = bytes_words(alloc, fault)?;
    let words = format!(in alloc; "file {number}: {words}")?;
    Ok(ReadError::Fault(Text::from_string(words)))
}

/// The fault of a script, in words.
fn script_fault(alloc: Global, line: u64, fault: ScriptFault) -> Result<ReadError, AllocError>
    ensures { IfOk result (λ error. error ≡ spec.script_fault line fault) }
{
    let words = format!(in alloc; "line {line}: {fault}")?;
    Ok(ReadError::Fault(Text::from_string(words)))
}
