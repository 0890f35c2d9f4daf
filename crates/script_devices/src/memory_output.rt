ghost use Rattle.std.specs.Prelude.{◌≡◌, ◌-◌, ◌↔◌, ◌<◌, [], length, min, IfOk, OnErr, IsErr};
ghost use Rattle.script_devices.specs.Device.{Writes, failure_limit};
ghost use Rattle.script_devices.specs.Memory.{sink_over, MustFail};

use crate::ReportOutput;
use crate::fuse::burns;
use std::alloc::{AllocError, Global};
use std::io;
use std::marker::Model;

/// Writes a report to memory, as far as there is room.
#[derive(Drop)]
pub struct MemoryOutput {
    taken: Vec<u8>,
    /// How many bytes it still takes.
    room: usize,
    failures: u64,
    idle: u64,
    /// The number of the call, from here, that fails; 0: none does.
    fuse: u64,
}

impl Model for MemoryOutput {
    ghost use Rattle.std.specs.Prelude.{◌+◌, ◌≤◌, vec_len, vec_capacity};
    ghost use Rattle.script_devices.specs.Memory.{FusedSink, sink_over};

    ghost Value = { FusedSink };

    ghost view = { λ s. record {
      sink = sink_over s.taken.items s.failures s.idle;
      room = s.room;
      fuse = s.fuse;
    } };

    ghost invariant = { λ s. vec_len s.taken + s.room ≤ vec_capacity s.taken };
}

impl MemoryOutput {
    /// A writer that takes as many bytes as there is room, and does not fail.
    ///
    /// # Errors
    /// `AllocError` where memory was refused.
    pub fn new(alloc: Global, room: usize) -> Result<MemoryOutput, AllocError>
        ensures sink { IfOk result (λ s. s.sink ≡ sink_over [] 0 0) }
        ensures room { IfOk result (λ s. s.room ≡ room) }
        ensures fuse { IfOk result (λ s. s.fuse ≡ 0) }
    {
        MemoryOutput::with_fuse(alloc, room, 0)
    }

    /// A writer that takes as many bytes as there is room, and whose call of this number, from 1,
    /// fails. With 0 it does not fail.
    ///
    /// # Errors
    /// `AllocError` where memory was refused.
    pub fn with_fuse(alloc: Global, room: usize, fuse: u64) -> Result<MemoryOutput, AllocError>
        ensures sink { IfOk result (λ s. s.sink ≡ sink_over [] 0 0) }
        ensures room { IfOk result (λ s. s.room ≡ room) }
        ensures fuse { IfOk result (λ s. s.fuse ≡ fuse) }
    {
        let taken = Vec::with_capacity(alloc, room)?;
        Ok(MemoryOutput {
            taken,
            room,
            failures: 0,
            idle: 0,
            fuse,
        })
    }

    /// The bytes that it took.
    pub fn written(&self) -> &[u8]
        ensures { self.now.sink.bytes ≡ Some result.now }
    {
        self.taken.as_slice()
    }

    /// How many writes failed.
    pub fn failures(&self) -> u64
        ensures { result ≡ self.now.sink.failures }
    {
        self.failures
    }

    /// How many writes of some bytes took none.
    pub fn idle(&self) -> u64
        ensures { result ≡ self.now.sink.idle }
    {
        self.idle
    }
}

impl ReportOutput for MemoryOutput {
    ghost sink = { λ s. s.sink };

    /// Takes the bytes as far as there is room. The call that the fuse names fails, and so does one
    /// that would take no byte of some once more than can be counted; it takes nothing.
    fn write(&mut self, bytes: &[u8]) -> io::Result<usize>
        requires { self.old.sink.failures < failure_limit }
        ensures writes { Writes self.old.sink self.new.sink bytes.now result }
        ensures fails { IsErr result ↔ MustFail self.old bytes.now }
        ensures counted { self.new.fuse ≡ self.old.fuse - 1 }
        ensures takes { IfOk result (λ n. (n ≡ min (length bytes.now) self.old.room)
            × (self.new.room ≡ self.old.room - n)) }
        ensures kept { OnErr result (self.new.room ≡ self.old.room) }
    {
        let count = bytes.len().min(self.room);
        let is_idle = count == 0 && !bytes.is_empty();
        if burns(&mut self.fuse) || (is_idle && self.idle == u64::MAX) {
            self.failures += 1;
            return Err(io::Error::other("the fuse burnt, or too many writes took nothing"));
        }
        if is_idle {
            self.idle += 1;
        }
        self.taken.extend_from_slice(&bytes[..count]).unwrap();
        self.room -= count;
        Ok(count)
    }
}
