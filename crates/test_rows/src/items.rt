use crate::batches::batches_text;
use crate::files::read;
use crate::outputs::Output;
use crate::trials::Trial;
use std::io;

/// The rows of what a pool has.
pub(super) struct ItemRows;

impl Trial for ItemRows {
    fn folder(&self) -> &'static str {
        "items"
    }

    fn wanted(&self) -> &'static str {
        "text"
    }

    fn output(&self, rt: &HostRuntime, name: &str) -> io::Result<Output> {
        let script = read(rt, name, "script")?;
        let text = batches_text(rt.alloc(), script.as_slice())?.into_bytes();
        Ok(Output { text, status: 0 })
    }
}
