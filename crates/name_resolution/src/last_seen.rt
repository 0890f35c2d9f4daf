ghost use Rattle.std.specs.Prelude.{◌≡◌, ◌==◌, ℕ, None, Some, IfOk, OnOk, if◌then◌else◌};
ghost use Rattle.name_resolution.specs.LastSeen.{last_seen, near_place, was_seen};

use plain_data::NumberMap;
use std::alloc::{AllocError, Global};

/// By which file each file was seen last. Of the files of a batch a list tells it, and of any other
/// a map, in which stand those alone that were seen.
#[derive(Drop)]
pub(crate) struct LastSeen {
    /// The first file of the list.
    first: u32,
    near: Vec<Option<u32>>,
    far: NumberMap,
}

impl LastSeen {
    /// No file was seen. The list is that of so many files from the first on.
    ///
    /// # Errors
    /// `AllocError` where memory was refused.
    pub(crate) fn new(alloc: Global, first: u32, count: usize) -> Result<LastSeen, AllocError>
        ensures { IfOk result (λ seen. (file : ℕ) → last_seen seen file ≡ None) }
    {
        let mut near = Vec::new(alloc);
        near.resize(count, None)?;
        Ok(LastSeen {
            first,
            near,
            far: NumberMap::new(alloc),
        })
    }

    /// Whether a file was seen last by another.
    pub(crate) fn was_seen(&self, file: u32, by: u32) -> bool
        ensures { result ≡ was_seen self.now by file }
    {
        match self.last(file) {
            Some(last) => last == by,
            None => false,
        }
    }

    /// The file by which a file was seen last, if it was seen.
    fn last(&self, file: u32) -> Option<u32>
        ensures { result ≡ last_seen self.now file }
    {
        match self.place(file) {
            Some(place) => self.near[place],
            None => self.far.get(file),
        }
    }

    /// A file is seen by another.
    ///
    /// # Errors
    /// `AllocError` where memory was refused.
    pub(crate) fn see(&mut self, file: u32, by: u32) -> Result<(), AllocError>
        ensures { OnOk result ((other : ℕ) → last_seen self.new other
            ≡ (if other == file then Some by else last_seen self.old other)) }
    {
        match self.place(file) {
            Some(place) => {
                self.near[place] = Some(by);
                Ok(())
            }
            None => self.far.insert(file, by),
        }
    }

    /// The place of a file in the list, if it stands there.
    fn place(&self, file: u32) -> Option<usize>
        ensures { result ≡ near_place self.now file }
    {
        if file < self.first {
            return None;
        }
        let place = (file - self.first) as usize;
        (place < self.near.len()).then_some(place)
    }
}
