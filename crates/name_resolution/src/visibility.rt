ghost use Rattle.std.specs.Prelude.{◌≡◌, ◌↔◌, ◌<◌, ◌+◌, ℕ, true, IfOk, OnOk, length, map};
ghost use Rattle.std.specs.BTreeSet.{contains_by, IsFromIterResult};
ghost use Rattle.std.specs.FinMap as finite;
ghost use Rattle.std.specs.Ordering.{nat_cmp};
ghost use Rattle.name_tables.specs.NameTables.{FileNamesBefore};
ghost use Rattle.proto_types.specs.File.{file_at};
ghost use Rattle.name_resolution.specs.Visibility.{imports_of, Sees, seen_from};

use crate::imports::{imported_files, public_imports};
use crate::seen::Seen;
use name_tables::FileNames;
use plain_data::Items;
use pool_types::FileDescriptorInner;
use std::alloc::{AllocError, Global};
use std::collections::{BTreeMap, BTreeSet};

/// A set of so many is made by putting in one after another.
const FEW: usize = 8;

/// The files that a file sees: itself, its imports, and each file that one of these imports
/// publicly, through any chain of public imports. A weak import is an import like any other. An
/// import whose name no file has, and a public import at a place where no import stands, are
/// passed over.
///
/// Files are told by their indexes, from 0 in the order of `files`. The file is one of these, and
/// so is each that a name means.
///
/// # Errors
/// `AllocError` where memory was refused.
pub fn visible_from(
    alloc: Global,
    files: &[FileDescriptorInner],
    file_names: &FileNames,
    file: u32,
) -> Result<BTreeSet<u32>, AllocError>
    requires here { file < length files.now }
    requires places { FileNamesBefore (length files.now) file_names.now }
    ensures sees { IfOk result (λ seen. (b : ℕ) → (contains_by (nat_cmp b) seen ≡ true)
        ↔ Sees (map (λ f. f.raw) files.now) (finite.get file_names.now) file b) }
    ensures keys { IfOk result (λ seen. seen.keys
        ≡ seen_from (map (λ f. f.raw) files.now) (finite.get file_names.now) file) }
{
    let names = files[file as usize].raw.dependency.as_slice();
    let imports = imported_files(alloc, file_names, names)?;
    let mut sight = Sight::new(alloc, 0, 0)?;
    sight.visible_from(files, file_names, file, imports.as_slice())
}

/// What is kept while files are asked in turn which files they see, so that the public imports of a
/// file that many see are looked up once.
#[derive(Drop)]
pub struct Sight {
    alloc: Global,
    seen: Seen,
    /// The indexes of the public imports of the files that were looked at.
    publics: BTreeMap<u32, Items<u32>>,
}

impl Sight {
    ghost use Rattle.std.specs.Prelude.{List, Option, IsOk};
    ghost use Rattle.proto_types.specs.declared.file.FileDescriptorProto.{FileDescriptorProto};
    ghost use Rattle.name_resolution.specs.Seen.{SeesEach};
    ghost use Rattle.name_resolution.specs.Sight.{AskedBefore, PublicsOf};
    ghost use Rattle.name_resolution.specs.Visibility.{public_imports_of};

    /// Nothing was looked at yet. Most of the files that are asked and seen are so many, from the
    /// first on.
    ///
    /// # Errors
    /// `AllocError` where memory was refused.
    pub fn new(alloc: Global, first: u32, count: usize) -> Result<Sight, AllocError>
        ensures { (files : List FileDescriptorProto) (numbers : List ℕ → Option ℕ) (end : ℕ)
            → IfOk result (λ sight. AskedBefore files numbers end sight) }
    {
        Ok(Sight {
            alloc,
            seen: Seen::new(alloc, first, count)?,
            publics: BTreeMap::new(alloc),
        })
    }

    /// What the function `visible_from` gives for a file behind those that were asked before, with
    /// the indexes of its imports.
    ///
    /// # Errors
    /// `AllocError` where memory was refused. Nothing further can be asked then.
    pub fn visible_from(
        &mut self,
        files: &[FileDescriptorInner],
        file_names: &FileNames,
        file: u32,
        imports: &[u32],
    ) -> Result<BTreeSet<u32>, AllocError>
        requires here { file < length files.now }
        requires places { FileNamesBefore (length files.now) file_names.now }
        requires imports { imports.now ≡ imports_of (finite.get file_names.now)
            (file_at (map (λ f. f.raw) files.now) file) }
        requires asked { AskedBefore (map (λ f. f.raw) files.now) (finite.get file_names.now) file
            self.old }
        ensures sees { IfOk result (λ seen. (b : ℕ) → (contains_by (nat_cmp b) seen ≡ true)
            ↔ Sees (map (λ f. f.raw) files.now) (finite.get file_names.now) file b) }
        ensures keys { IfOk result (λ seen. seen.keys
            ≡ seen_from (map (λ f. f.raw) files.now) (finite.get file_names.now) file) }
        ensures asked { IsOk result → AskedBefore (map (λ f. f.raw) files.now)
            (finite.get file_names.now) (file + 1) self.new }
    {
        self.seen.begin(file);
        self.seen.see(file)?;
        self.seen.see_each(imports)?;
        let mut next = 0;
        while next < self.seen.files.len() {
            let seen = self.seen.files[next];
            self.see_public_imports(files, file_names, seen)?;
            next += 1;
        }
        set_of(self.alloc, &self.seen.files)
    }

    /// The public imports of a file are seen.
    fn see_public_imports(
        &mut self,
        files: &[FileDescriptorInner],
        file_names: &FileNames,
        file: u32,
    ) -> Result<(), AllocError>
        requires here { file < length files.now }
        requires publics { PublicsOf (map (λ f. f.raw) files.now) (finite.get file_names.now)
            self.old.publics }
        ensures sees { OnOk result (SeesEach (public_imports_of (finite.get file_names.now)
            (file_at (map (λ f. f.raw) files.now) file)) self.old.seen self.new.seen) }
        ensures publics { OnOk result (PublicsOf (map (λ f. f.raw) files.now)
            (finite.get file_names.now) self.new.publics) }
    {
        let raw = &files[file as usize].raw;
        if raw.public_dependency.as_slice().is_empty() {
            return Ok(());
        }
        if let Some(found) = self.publics.get(&file) {
            return self.seen.see_each(found.as_slice());
        }
        let found = public_imports(self.alloc, file_names, raw)?;
        self.seen.see_each(found.as_slice())?;
        self.publics.insert(file, found)?;
        Ok(())
    }
}

/// The set of the files of a list. A long list is sorted first, and the set made of it at once.
fn set_of(alloc: Global, files: &[u32]) -> Result<BTreeSet<u32>, AllocError>
    ensures { IfOk result (λ set. IsFromIterResult nat_cmp files.now set) }
{
    if files.len() > FEW {
        return files.iter().copied().collect(alloc);
    }
    let mut set = BTreeSet::new(alloc);
    set.extend(files.iter().copied())?;
    Ok(set)
}
