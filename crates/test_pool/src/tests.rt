//! What no contract says of a pool and of scripts: whether calls succeed, worked batches that no
//! row of `test_rows` has, what a reader gives, and devices that fail.

mod batches;
mod devices;
mod errors;
mod escapes;
mod example;
mod extensions;
mod face;
mod laws;
mod linker_example;
mod linker_face;
mod linker_laws;
mod parts;
mod rules;
mod scopes;
mod scripts;
mod statements;
mod streams;
mod too_many;
mod trees;
mod values;

use proto_types::FileDescriptorProto;
use std::alloc::{AllocError, Global};

/// The files that a script declares, which has no fault.
fn files_of(alloc: Global, script: &str) -> Result<Vec<FileDescriptorProto>, AllocError> {
    match link_script::files_of(alloc, script.as_bytes()) {
        Ok(files) => Ok(files),
        Err(_) => Err(AllocError),
    }
}
