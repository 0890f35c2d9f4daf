ghost use Rattle.std.specs.Prelude.{◌≡◌, ◌∷◌, ◌<◌, ◌^◌, [], IsTrue, IfOk, OnOk, length, map};
ghost use Rattle.pool_faults.specs.Labels.{label_in, part_label, entry_label, entry_part_label};
ghost use Rattle.record_walk.specs.Short.{ShortFiles};
ghost use Rattle.record_walk.specs.Telling.{is_full, nothing_told};

use crate::place::Place;
use pool_faults::{DescriptorErrorKind, Label, Labels};
use pool_types::FileDescriptorInner;
use proto_types::entry_path;
use std::alloc::{AllocError, Global};

/// What declarations are checked with: the files that labels name, none of whose lists is longer
/// than a pool allows, and the faults that are told, of which the first are kept.
#[derive(Drop)]
pub struct Faults<'f> {
    pub alloc: Global,
    /// The labels of all files, in the order of linking.
    pub labels: Labels<'f>,
    /// How many faults are kept at most, where there is a limit. The first is kept whatever it is.
    pub most: Option<usize>,
    /// The faults that are kept, in the order in which they are told.
    pub first: Vec<DescriptorErrorKind>,
    /// How many more there are.
    pub rest: usize,
    pub ghost short: { ShortFiles (map (λ f. f.raw) labels) },
}

impl<'f> Faults<'f> {
    ghost use Rattle.pool_faults.specs.declared.fault.DescriptorErrorKind.{DescriptorErrorKind};
    ghost use Rattle.record_walk.specs.Faults.{Tells, named_files, told_in};

    /// No faults, whose labels are those of files in the order of linking. This takes no memory.
    pub fn new(alloc: Global, files: &'f [FileDescriptorInner], most: Option<usize>) -> Faults<'f>
        requires { ShortFiles (map (λ f. f.raw) files.now) }
        ensures labels { result.labels ≡ files.now }
        ensures told { told_in result ≡ nothing_told most }
    {
        Faults {
            alloc,
            labels: Labels::new(alloc, files),
            most,
            first: Vec::new(alloc),
            rest: 0,
        }
    }

    /// Tells a fault: it is kept, or counted where as many are kept as may be.
    ///
    /// # Errors
    /// `AllocError` where memory was refused, or where there are more faults than a `usize` counts.
    pub fn push(&mut self, fault: DescriptorErrorKind) -> Result<(), AllocError>
        ensures told { OnOk result (Tells self.old self.new (fault ∷ [])) }
        ensures labels { self.new.labels ≡ self.old.labels }
    {
        if self.is_full() {
            return self.leave_out();
        }
        self.first.push(fault)?;
        Ok(())
    }

    /// Whether no further fault is kept.
    pub fn is_full(&self) -> bool
        ensures { result ≡ is_full self.now.most (length self.now.first.items) }
    {
        match self.most {
            Some(most) => most.max(1) <= self.first.len(),
            None => false,
        }
    }

    /// Tells a fault that need not be made, since no further one is kept.
    ///
    /// # Errors
    /// `AllocError` where there are more faults than a `usize` counts: this asks for more room then
    /// than can be granted.
    pub fn leave_out(&mut self) -> Result<(), AllocError>
        requires { IsTrue (is_full self.old.most (length self.old.first.items)) }
        ensures told { OnOk result
            ((fault : DescriptorErrorKind) → Tells self.old self.new (fault ∷ [])) }
        ensures labels { self.new.labels ≡ self.old.labels }
    {
        let Some(rest) = self.rest.checked_add(1) else {
            self.first.reserve(usize::MAX)?;
            return Err(AllocError);
        };
        self.rest = rest;
        Ok(())
    }

    /// The label of what stands at a path of the file with an index.
    ///
    /// # Errors
    /// `AllocError` where memory was refused.
    pub fn label(&mut self, file: u32, path: &[i32]) -> Result<Label, AllocError>
        ensures label { IfOk result (λ l. l ≡ label_in (named_files self.old) file path.now) }
        ensures stays { self.new ≡ self.old }
    {
        self.labels.label(file, path)
    }

    /// The files that labels name, in the order of linking.
    pub fn files(&self) -> &'f [FileDescriptorInner]
        ensures { result.now ≡ self.now.labels }
    {
        self.labels.files()
    }

    /// The label of a part of a declaration. The tag is the part's field number in
    /// descriptor.proto.
    ///
    /// # Errors
    /// `AllocError` where memory was refused.
    pub fn part_label(&mut self, place: Place, tag: i32) -> Result<Label, AllocError>
        ensures label { IfOk result (λ l. l
            ≡ part_label (named_files self.old) place.entry.file place.entry.path.now tag) }
        ensures stays { self.new ≡ self.old }
    {
        let mut path = Vec::from_slice(self.alloc, place.path)?;
        path.push(tag)?;
        self.label(place.file, &path)
    }

    /// The label of an entry of a list of a declaration. The tag is the list's field number in
    /// descriptor.proto, and positions count from 0.
    ///
    /// # Errors
    /// `AllocError` where memory was refused.
    pub fn entry_label(
        &mut self,
        place: Place,
        tag: i32,
        position: usize,
    ) -> Result<Label, AllocError>
        requires { position < 2 ^ 31 }
        ensures label { IfOk result (λ l. l ≡ entry_label (named_files self.old) place.entry.file
            place.entry.path.now tag position) }
        ensures stays { self.new ≡ self.old }
    {
        let path = entry_path(self.alloc, place.path, tag, position)?;
        self.label(place.file, &path)
    }

    /// The label of a part of an entry of a list of a declaration. The tag is the list's field
    /// number in descriptor.proto, and `part` that of the part; positions count from 0.
    ///
    /// # Errors
    /// `AllocError` where memory was refused.
    pub fn entry_part_label(
        &mut self,
        place: Place,
        tag: i32,
        position: usize,
        part: i32,
    ) -> Result<Label, AllocError>
        requires { position < 2 ^ 31 }
        ensures label { IfOk result (λ l. l ≡ entry_part_label (named_files self.old)
            place.entry.file place.entry.path.now tag position part) }
        ensures stays { self.new ≡ self.old }
    {
        let mut path = entry_path(self.alloc, place.path, tag, position)?;
        path.push(part)?;
        self.label(place.file, &path)
    }
}
