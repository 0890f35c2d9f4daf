ghost use Rattle.std.specs.Prelude.{◌≡◌, ◌<◌, [], ◌∷◌, ℕ, IfOk, IfSome, OnOk};
ghost use Rattle.name_resolution.specs.LastSeen.{last_seen};
ghost use Rattle.name_resolution.specs.Seen.{SeenByNow, SeesEach};

use crate::last_seen::LastSeen;
use std::alloc::{AllocError, Global};

/// The files that a file sees, as far as they are known.
#[derive(Drop)]
pub(crate) struct Seen {
    /// The file that sees them.
    by: u32,
    last: LastSeen,
    /// All that it sees so far, each once, in the order in which they were found.
    pub files: Vec<u32>,
}

impl Seen {
    /// Nothing is seen. So many files from the first on are those of a batch.
    ///
    /// # Errors
    /// `AllocError` where memory was refused.
    pub(crate) fn new(alloc: Global, first: u32, count: usize) -> Result<Seen, AllocError>
        ensures { IfOk result (λ seen. (file : ℕ) → last_seen seen.last file ≡ None) }
    {
        Ok(Seen {
            by: first,
            last: LastSeen::new(alloc, first, count)?,
            files: Vec::new(alloc),
        })
    }

    /// Begins anew with a file by which nothing was seen yet, but by files before it.
    pub(crate) fn begin(&mut self, by: u32)
        requires { (file : ℕ) → IfSome (last_seen self.old.last file) (λ last. last < by) }
        ensures files { self.new.files.items ≡ [] }
        ensures by { self.new.by ≡ by }
        ensures seen { SeenByNow self.new }
    {
        self.by = by;
        self.files.clear();
    }

    /// A file is seen.
    ///
    /// # Errors
    /// `AllocError` where memory was refused.
    pub(crate) fn see(&mut self, file: u32) -> Result<(), AllocError>
        ensures { OnOk result (SeesEach (file ∷ []) self.old self.new) }
    {
        if !self.last.was_seen(file, self.by) {
            self.last.see(file, self.by)?;
            self.files.push(file)?;
        }
        Ok(())
    }

    /// Each file of a list is seen.
    ///
    /// # Errors
    /// `AllocError` where memory was refused.
    pub(crate) fn see_each(&mut self, files: &[u32]) -> Result<(), AllocError>
        ensures { OnOk result (SeesEach files.now self.old self.new) }
    {
        for file in files {
            self.see(*file)?;
        }
        Ok(())
    }
}
