ghost use Rattle.std.specs.Prelude.{◌≡◌, ◌-◌, ◌↔◌, ◌<◌, length, min, IfOk, OnErr, IsErr};
ghost use Rattle.script_devices.specs.Device.{Reads, failure_limit};
ghost use Rattle.script_devices.specs.Memory.{source_over};

use crate::ScriptInput;
use crate::fuse::burns;
use std::io;
use std::marker::Model;

/// Reads a script from memory.
#[derive(Drop)]
pub struct MemoryInput<'a> {
    rest: &'a [u8],
    failures: u64,
    /// The number of the call, from here, that fails; 0: none does.
    fuse: u64,
}

impl<'a> Model for MemoryInput<'a> {
    ghost use Rattle.script_devices.specs.Memory.{FusedSource, source_over};

    ghost Value = { FusedSource };

    ghost view = { λ s. record { source = source_over s.rest.now s.failures; fuse = s.fuse } };
}

impl<'a> MemoryInput<'a> {
    /// A reader of these bytes, which does not fail.
    pub fn new(bytes: &'a [u8]) -> MemoryInput<'a>
        ensures source { result.source ≡ source_over bytes.now 0 }
        ensures fuse { result.fuse ≡ 0 }
    {
        MemoryInput::with_fuse(bytes, 0)
    }

    /// A reader of these bytes whose call of this number, from 1, fails. With 0 it does not fail.
    pub fn with_fuse(bytes: &'a [u8], fuse: u64) -> MemoryInput<'a>
        ensures source { result.source ≡ source_over bytes.now 0 }
        ensures fuse { result.fuse ≡ fuse }
    {
        MemoryInput {
            rest: bytes,
            failures: 0,
            fuse,
        }
    }

    /// How many reads failed.
    pub fn failures(&self) -> u64
        ensures { result ≡ self.now.source.failures }
    {
        self.failures
    }
}

impl<'a> ScriptInput for MemoryInput<'a> {
    ghost source = { λ s. s.source };

    /// Fills the buffer as far as there are bytes. The call that the fuse names fails, and takes
    /// nothing.
    fn read(&mut self, buffer: &mut [u8]) -> io::Result<usize>
        requires { self.old.source.failures < failure_limit }
        ensures reads { Reads self.old.source self.new.source buffer.new result }
        ensures fails { IsErr result ↔ (self.old.fuse ≡ 1) }
        ensures counted { self.new.fuse ≡ self.old.fuse - 1 }
        ensures fills { IfOk result (λ n. n ≡ min (length buffer.old) self.old.source.reads_left) }
        ensures kept { OnErr result (self.new.source.bytes ≡ self.old.source.bytes) }
    {
        if burns(&mut self.fuse) {
            self.failures += 1;
            return Err(io::Error::other("the fuse burnt"));
        }
        let count = buffer.len().min(self.rest.len());
        let (front, rest) = self.rest.split_at(count);
        buffer[..count].copy_from_slice(front);
        self.rest = rest;
        Ok(count)
    }
}
