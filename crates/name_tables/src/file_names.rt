ghost use Rattle.std.specs.Prelude.{◌≡◌, ◌≤◌, ◌<◌, ◌↔◌, ℕ, length, IsTrue, IfOk, OnOk, OnErr, None};
ghost use Rattle.std.specs.FinMap as map;
ghost use Rattle.name_tables.specs.FileNames.{IsAmong, IsAmongAt};
ghost use Rattle.name_tables.specs.NameTables.{file_names_before};

use crate::entered::Entered;
use crate::tree::NameTree;
use std::alloc::{AllocError, Global};
use std::marker::Model;

/// Files by their names: the index of each, from 0 in the order of linking. Contracts see it as the
/// finite map.
///
/// Only a call that answers a `Result` takes memory.
#[derive(Drop)]
pub struct FileNames {
    alloc: Global,
    /// The names, as children of a root.
    tree: NameTree,
    /// The file of each name.
    files: Entered<u32>,
}

impl Model for FileNames {
    ghost use Rattle.std.specs.Prelude.{ℕ};
    ghost use Rattle.std.specs.Coded.{coded_list, coded_ℕ};
    ghost use Rattle.std.specs.FinMap as map;
    ghost use Rattle.pool_types.specs.Contents.{ByText};
    ghost use Rattle.name_tables.specs.FileNames.{AreFileNames, files_of};

    ghost Value = { ByText ℕ };

    ghost coded = { map.code (coded_list coded_ℕ) coded_ℕ };

    ghost view = { λ names. files_of names.tree names.files };

    ghost invariant = { λ names. AreFileNames names.tree names.files };
}

impl FileNames {
    /// No files, which takes no memory.
    pub fn new(alloc: Global) -> FileNames
        ensures { result ≡ map.empty }
    {
        FileNames {
            alloc,
            tree: NameTree::new(alloc),
            files: Entered::new(alloc),
        }
    }

    /// The file of a name, or none where no file has it.
    pub fn get(&self, name: &str) -> Option<u32>
        ensures { result ≡ map.get self.now name.now }
    {
        self.find(name.as_bytes())
    }

    fn find(&self, name: &[u8]) -> Option<u32>
        ensures { result ≡ map.get self.now name.now }
    {
        let at = self.tree.find(0, name)?;
        self.files.get(at as usize).copied()
    }

    /// Adds the name of a file, which no file has.
    ///
    /// # Errors
    /// `AllocError` where memory was refused. The names are then what they were.
    pub fn insert(&mut self, name: &str, file: u32) -> Result<(), AllocError>
        requires { map.get self.old name.now ≡ None }
        ensures ok { OnOk result (self.new ≡ map.insert self.old name.now file) }
        ensures err { OnErr result (self.new ≡ self.old) }
    {
        self.tree.insert_root()?;
        let at = self.tree.insert(0, name)?;
        self.files.insert(at, file)
    }

    /// Takes away the file with an index, and those behind it.
    pub fn remove_from(&mut self, file: u32)
        ensures { self.new ≡ file_names_before file self.old }
    {
        self.files.remove_from(file);
        self.tree.truncate(self.files.len());
    }

    /// Equal names.
    ///
    /// # Errors
    /// `AllocError` where memory was refused.
    pub fn clone(&self) -> Result<FileNames, AllocError>
        ensures { IfOk result (λ copy. copy ≡ self.now) }
    {
        let tree = self.tree.clone()?;
        let files = self.files.clone(self.alloc)?;
        Ok(FileNames {
            alloc: self.alloc,
            tree,
            files,
        })
    }

    /// Whether both have the same names, with the same files.
    pub fn same(&self, other: &FileNames) -> bool
        ensures { IsTrue result ↔ (self.now ≡ other.now) }
    {
        is_among(&self.tree, &self.files, other) && is_among(&other.tree, &other.files, self)
    }
}

/// Whether each name has its file among others too.
fn is_among(tree: &NameTree, files: &Entered<u32>, others: &FileNames) -> bool
    requires { length files.now ≤ length tree.now }
    ensures { IsTrue result ↔ IsAmong tree.now files.now others.now }
{
    for at in 0..files.len() {
        if !is_among_at(tree, files, others, at) {
            return false;
        }
    }
    true
}

/// Whether a name has no file, or has it among others too.
fn is_among_at(tree: &NameTree, files: &Entered<u32>, others: &FileNames, at: usize) -> bool
    requires { at < length tree.now }
    ensures { IsTrue result ↔ IsAmongAt tree.now files.now others.now at }
{
    match files.get(at) {
        Some(file) => others.find(tree.part(at)) == Some(*file),
        None => true,
    }
}
