//! Two examples: a caller of the pool, which links a file that is built by hand; and a descriptor
//! set, from its bytes to a pool and back. `data/well_known.pb` is what `protoc` says of protobuf's
//! own well-known files, as `tools/well_known.py` stores it.
#![tactic(auto)]

mod depot;
mod linking;
mod sets;
mod shop;

use linking::tell_linking;
use sets::{tell_refused, tell_set};
use std::{fs, io};

fn main(rt: HostRuntime) -> io::Result<()> {
    let alloc = rt.alloc();
    let mut report = String::new(alloc);
    tell_linking(alloc, &mut report)?;
    tell_refused(alloc, &mut report)?;
    let bytes = fs::read(&rt, "well_known.pb")?;
    tell_set(alloc, &mut report, bytes.as_slice())?;
    print!(rt; "{report}")
}
