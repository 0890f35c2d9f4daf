ghost use Rattle.std.specs.Prelude.{◌≡◌, ◌↔◌, IsTrue};

use crate::difference::tell_difference;
use std::io;

/// What a run writes, and the exit status that tells how it ended.
#[derive(Drop)]
pub(super) struct Output {
    pub(super) text: Vec<u8>,
    pub(super) status: u8,
}

/// What is wanted of a run, and what it gave.
#[derive(Drop)]
pub(super) struct Run {
    pub(super) wanted: Output,
    pub(super) got: Output,
}

impl Run {
    /// Whether the run gave what is wanted.
    pub(super) fn is_met(&self) -> bool
        ensures { IsTrue result ↔ ((self.now.got.text.items ≡ self.now.wanted.text.items)
            × (self.now.got.status ≡ self.now.wanted.status)) }
    {
        self.got.text.as_slice() == self.wanted.text.as_slice()
            && self.got.status == self.wanted.status
    }

    /// Tells how what the run gave differs from what is wanted.
    pub(super) fn tell_difference(&self, rt: &HostRuntime) -> io::Result<()> {
        let (wanted, got) = (self.wanted.status, self.got.status);
        if wanted != got {
            println!(rt; "  status: wanted {wanted}, got {got}")?;
        }
        let (wanted, got) = (self.wanted.text.as_slice(), self.got.text.as_slice());
        if wanted != got {
            tell_difference(rt, wanted, got)?;
        }
        Ok(())
    }
}
