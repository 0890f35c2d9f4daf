//! What is told of a call of the system that failed.

use descriptor_check::DeviceError;
use plain_data::Text;
use std::alloc::{AllocError, Global};
use std::io::{Error, ErrorKind};

/// Why a call failed, in the words of the system.
pub(crate) fn failure(alloc: Global, error: &Error) -> DeviceError {
    failure_by(error, error.to_string(alloc))
}

/// Why a call failed on a file: its name, and the words of the system.
pub(crate) fn failure_of(alloc: Global, name: &str, error: &Error) -> DeviceError {
    failure_by(error, format!(in alloc; "{name}: {error}"))
}

/// Why the arguments could not be read: most likely one is not UTF-8.
pub(crate) fn failure_of_arguments(alloc: Global, error: &Error) -> DeviceError {
    if error.kind() == ErrorKind::InvalidData {
        return told_by(String::from_str(alloc, "one is not UTF-8"));
    }
    failure(alloc, error)
}

/// Want of memory, or the words that tell a failure.
fn failure_by(error: &Error, words: Result<String, AllocError>) -> DeviceError {
    if error.kind() == ErrorKind::OutOfMemory {
        return DeviceError::OutOfMemory;
    }
    told_by(words)
}

/// Why a file is not written: its name, and some words.
pub(crate) fn refusal(alloc: Global, name: &str, words: &str) -> DeviceError {
    told_by(format!(in alloc; "{name}: {words}"))
}

/// A failure that is told by words, if there was memory for them.
fn told_by(words: Result<String, AllocError>) -> DeviceError {
    match words {
        Ok(words) => DeviceError::Failed(Text::from_string(words)),
        Err(AllocError) => DeviceError::OutOfMemory,
    }
}
