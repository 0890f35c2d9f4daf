//! What no contract says of records and of sets as bytes: whether calls succeed, worked numbers,
//! paths, walks and faults, and what protoc writes.
//! That copies equal what they are of is tried by the trials of refused memory too.

mod choices;
mod counting;
mod example;
mod face;
mod faults;
mod finding;
mod laws;
mod levels;
mod options;
mod protoc;
mod reading;
mod showing;
mod visiting;
mod written;

use proto_types::FileDescriptorProto;
use std::alloc::{AllocError, Global};

/// The files that a script declares, which has no fault.
fn files_of(alloc: Global, script: &str) -> Result<Vec<FileDescriptorProto>, AllocError> {
    match link_script::files_of(alloc, script.as_bytes()) {
        Ok(files) => Ok(files),
        Err(_) => Err(AllocError),
    }
}
