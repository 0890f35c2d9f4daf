ghost use Rattle.std.specs.Prelude.{◌≡◌, ◌≤◌, [], ◌∷◌, ◌++◌, drop, length, IfOk, OnOk};
ghost use Rattle.descriptor_encoding.specs.Fronts.{Counted, Kept, bytes_of, in_front, size};

use std::alloc::{AllocError, Global};
use std::marker::Model;

/// The room in front of the bytes is at least this, once there are some.
const LEAST_ROOM: usize = 256;

/// Bytes that grow at their front. They stand at the end of what is held, and room is before them.
/// Where they are only counted, nothing is held.
#[derive(Drop)]
pub struct FrontBuffer {
    alloc: Global,
    held: Vec<u8>,
    start: usize,
    counted: Option<usize>,
}

impl Model for FrontBuffer {
    ghost use Rattle.std.specs.Prelude.{◌≡◌, ◌≤◌, [], length, drop, IsSome};
    ghost use Rattle.descriptor_encoding.specs.Fronts.{Front, front_of};

    ghost Value = { Front };

    ghost view = { λ b. front_of b.counted (drop b.start b.held.items) };

    ghost invariant = { λ b. (b.start ≤ length b.held.items)
        × (IsSome b.counted → b.held.items ≡ []) };
}

impl FrontBuffer {
    /// No bytes, which takes no memory.
    pub fn new(alloc: Global) -> FrontBuffer
        ensures { result ≡ Kept [] }
    {
        FrontBuffer {
            alloc,
            held: Vec::new(alloc),
            start: 0,
            counted: None,
        }
    }

    /// No bytes, of which only the number is kept. It takes no memory, nor do those that come.
    pub fn counting(alloc: Global) -> FrontBuffer
        ensures { result ≡ Counted 0 }
    {
        FrontBuffer {
            alloc,
            held: Vec::new(alloc),
            start: 0,
            counted: Some(0),
        }
    }

    /// How many bytes there are.
    #[inline]
    pub fn len(&self) -> usize
        ensures { result ≡ size self.now }
    {
        match self.counted {
            Some(len) => len,
            None => self.held.len() - self.start,
        }
    }

    /// Puts a byte in front of the others.
    #[inline]
    pub fn put_byte(&mut self, byte: u8) -> Result<(), AllocError>
        ensures { OnOk result (self.new ≡ in_front (byte ∷ []) self.old) }
    {
        if self.start == 0 {
            return self.put_beyond(&[byte]);
        }
        self.start -= 1;
        self.held[self.start] = byte;
        Ok(())
    }

    /// Puts two bytes in front of the others.
    #[inline]
    pub fn put_two(&mut self, first: u8, second: u8) -> Result<(), AllocError>
        ensures { OnOk result (self.new ≡ in_front (first ∷ second ∷ []) self.old) }
    {
        if self.start < 2 {
            return self.put_two_beyond(first, second);
        }
        self.start -= 2;
        self.held[self.start + 1] = second;
        self.held[self.start] = first;
        Ok(())
    }

    /// Counts two bytes for which there is no room, or puts them in front of the others.
    // A call of its own, so that no place is made for them where there is room.
    #[cold]
    #[inline(never)]
    fn put_two_beyond(&mut self, first: u8, second: u8) -> Result<(), AllocError>
        ensures { OnOk result (self.new ≡ in_front (first ∷ second ∷ []) self.old) }
    {
        self.put_beyond(&[first, second])
    }

    /// Puts bytes in front of the others.
    #[inline]
    pub fn put_bytes(&mut self, bytes: &[u8]) -> Result<(), AllocError>
        ensures { OnOk result (self.new ≡ in_front bytes.now self.old) }
    {
        if self.start < bytes.len() {
            return self.put_beyond(bytes);
        }
        let end = self.start;
        self.start -= bytes.len();
        self.held[self.start..end].copy_from_slice(bytes);
        Ok(())
    }

    /// Counts bytes for which there is no room, or puts them in front of the others.
    #[cold]
    #[inline(never)]
    fn put_beyond(&mut self, bytes: &[u8]) -> Result<(), AllocError>
        ensures { OnOk result (self.new ≡ in_front bytes.now self.old) }
    {
        match self.counted {
            Some(len) => {
                self.counted = Some(len.checked_add(bytes.len()).ok_or(AllocError)?);
                Ok(())
            }
            None => self.put_behind_room(bytes),
        }
    }

    /// Puts bytes in front of the others, behind as much room as was held.
    // A call of its own, so that what is only counted makes no place for it.
    #[inline(never)]
    fn put_behind_room(&mut self, bytes: &[u8]) -> Result<(), AllocError>
        ensures { OnOk result (self.new ≡ Kept (bytes.now ++ bytes_of self.old)) }
    {
        let room = self.held.len().max(LEAST_ROOM);
        self.held = behind_room(self.alloc, room, bytes, &self.held[self.start..])?;
        self.start = room;
        self.counted = None;
        Ok(())
    }

    /// The bytes, in memory of their own length. There are none where they were only counted.
    pub fn into_vec(self) -> Result<Vec<u8>, AllocError>
        ensures { IfOk result (λ v. v.items ≡ bytes_of self) }
    {
        Vec::from_slice(self.alloc, &self.held[self.start..])
    }
}

/// Bytes, and others behind them, with room in front.
fn behind_room(alloc: Global, room: usize, bytes: &[u8], rest: &[u8]) -> Result<Vec<u8>, AllocError>
    ensures { IfOk result (λ v. (room ≤ length v.items)
        × (drop room v.items ≡ bytes.now ++ rest.now)) }
{
    let wanted = room.saturating_add(bytes.len()).saturating_add(rest.len());
    let mut held = Vec::with_capacity(alloc, wanted)?;
    held.resize(room, 0)?;
    held.extend_from_slice(bytes)?;
    held.extend_from_slice(rest)?;
    Ok(held)
}
