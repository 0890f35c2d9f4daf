ghost use Rattle.std.specs.Prelude.{◌≡◌, ◌<◌, ◌^◌, ◌++◌, ◌∷◌, ℤ, List, [], pos, OnOk, length, take};
ghost use Rattle.std.specs.Prelude.{string_bytes};
ghost use Rattle.std.specs.String.Boundary.{IsSplitPoint};
ghost use Rattle.proto_types.specs.Names.{join};
ghost use Rattle.proto_types.specs.Paths.{entry_path};

use super::row::{Depth, EntryPosition};
use std::alloc::{AllocError, Global};

/// The site of a declaration: the file and path at which it stands, and its full name, which is the
/// scope of what stands in it.
#[derive(Drop)]
pub(crate) struct Site {
    pub(crate) file: u32,
    pub(crate) path: Vec<i32>,
    pub(crate) name: String,
}

impl Site {
    /// The site of no file, which takes no memory.
    pub(crate) fn new(alloc: Global) -> Site {
        Site {
            file: 0,
            path: Vec::new(alloc),
            name: String::new(alloc),
        }
    }

    /// Goes to a file with an index, and a scope.
    pub(crate) fn begin(&mut self, file: u32, scope: &str) -> Result<(), AllocError>
        ensures file { OnOk result (self.new.file ≡ file) }
        ensures path { OnOk result (self.new.path.items ≡ []) }
        ensures name { OnOk result (string_bytes self.new.name ≡ scope.now) }
    {
        self.file = file;
        self.path.clear();
        self.name.clear();
        self.name.push_str(scope)
    }

    /// How long the path and the full name are.
    pub(crate) fn depth(&self) -> Depth
        ensures { result ≡ record {
          path = length self.now.path.items;
          scope = length (string_bytes self.now.name);
        } }
    {
        Depth {
            path: self.path.len(),
            scope: self.name.len(),
        }
    }

    /// Goes back to what a list stands in.
    // Inlined, as `enter` is.
    #[inline(always)]
    pub(crate) fn cut(&mut self, depth: Depth)
        requires { IsSplitPoint (string_bytes self.old.name) depth.scope }
        ensures file { self.new.file ≡ self.old.file }
        ensures path { self.new.path.items ≡ take depth.path self.old.path.items }
        ensures name { string_bytes self.new.name ≡ take depth.scope (string_bytes self.old.name) }
    {
        self.path.truncate(depth.path);
        self.name.truncate(depth.scope);
    }

    /// Goes on to the record at a position.
    // Inlined, since it is done for each record.
    #[inline(always)]
    pub(crate) fn enter(&mut self, at: EntryPosition, name: &str) -> Result<(), AllocError>
        requires { at.position < 2 ^ 31 }
        ensures file { self.new.file ≡ self.old.file }
        ensures path { OnOk result
            (self.new.path.items ≡ entry_path self.old.path.items at.tag at.position) }
        ensures name { OnOk result (string_bytes self.new.name
            ≡ join (string_bytes self.old.name) name.now) }
    {
        self.path.reserve(2)?;
        self.path.push_reserved(at.tag);
        self.path.push_reserved(at.position as i32);
        if !self.name.is_empty() {
            self.name.push('.')?;
        }
        self.name.push_str(name)
    }

    /// Goes on to the record at a position of the list in which it stands, whose names begin behind
    /// so many bytes.
    // Inlined, as `enter` is.
    #[inline(always)]
    pub(crate) fn go_on(
        &mut self,
        start: usize,
        position: usize,
        name: &str,
    ) -> Result<(), AllocError>
        requires position { position < 2 ^ 31 }
        requires start { IsSplitPoint (string_bytes self.old.name) start }
        requires path { 0 < length self.old.path.items }
        ensures file { self.new.file ≡ self.old.file }
        ensures path { (front : List ℤ) (last : ℤ) → self.old.path.items ≡ front ++ last ∷ []
            → self.new.path.items ≡ front ++ pos position ∷ [] }
        ensures name { OnOk result (string_bytes self.new.name
            ≡ take start (string_bytes self.old.name) ++ name.now) }
    {
        let last = self.path.len() - 1;
        self.path[last] = position as i32;
        self.name.truncate(start);
        self.name.push_str(name)
    }
}
