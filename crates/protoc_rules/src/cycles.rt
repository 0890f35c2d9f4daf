//! The files from which a chain of imports comes back.

ghost use Rattle.std.specs.Prelude.{◌≡◌, ℕ, true, IfOk, map};
ghost use Rattle.std.specs.List.{list_any};
ghost use Rattle.protoc_rules.specs.Imports as spec;

use plain_data::Items;
use pool_types::FileDescriptorInner;
use std::alloc::{AllocError, Global};

/// Whether a file is marked.
pub(crate) fn is_marked(marks: &[bool], file: u32) -> bool
    ensures { result ≡ spec.is_marked marks.now file }
{
    match marks.get(file as usize) {
        Some(mark) => *mark,
        None => false,
    }
}

/// Whether one of some files is marked.
fn any_marked(marks: &[bool], files: &[u32]) -> bool
    ensures { result ≡ list_any (spec.is_marked marks.now) files.now }
{
    files.iter().any(|file| is_marked(marks, *file))
}

/// A mark for each file.
fn all_files(alloc: Global, files: &[FileDescriptorInner]) -> Result<Items<bool>, AllocError>
    ensures { IfOk result (λ marks. marks ≡ map (λ _. true) (spec.imports files.now)) }
{
    let mut marks = Items::new(alloc);
    for _file in files {
        marks.push(true)?;
    }
    Ok(marks)
}

/// The files that a file imports.
fn imports_of(files: &[FileDescriptorInner], file: u32) -> &[u32]
    ensures { result.now ≡ spec.imports_of (spec.imports files.now) file }
{
    match files.get(file as usize) {
        Some(found) => found.dependencies.as_slice(),
        None => &[],
    }
}

/// What is to do at a file.
#[derive(Clone, Copy)]
enum Step<'a> {
    /// To enter it.
    Enter(u32),
    /// To enter these of its imports, and then to leave it.
    Follow(u32, &'a [u32]),
}

/// A way along imports, on which each file is entered once.
#[derive(Drop)]
struct Way<'a> {
    files: &'a [FileDescriptorInner],
    /// Which files were entered.
    entered: Items<bool>,
    /// What is to do, in the order from the last to the first.
    steps: Vec<Step<'a>>,
    /// The files in the order in which they were left.
    left: Items<u32>,
}

/// Marks a file, and says whether it had no mark.
fn mark(marks: &mut [bool], file: u32) -> bool {
    let index = file as usize;
    if index < marks.len() && !marks[index] {
        marks[index] = true;
        return true;
    }
    false
}

impl<'a> Way<'a> {
    /// The way before the first file.
    fn new(alloc: Global, files: &'a [FileDescriptorInner]) -> Result<Way<'a>, AllocError> {
        let mut entered = Items::new(alloc);
        for _file in files {
            entered.push(false)?;
        }
        Ok(Way {
            files,
            entered,
            steps: Vec::new(alloc),
            left: Items::new(alloc),
        })
    }

    /// Does a step.
    fn take(&mut self, step: Step<'a>) -> Result<(), AllocError> {
        match step {
            Step::Enter(file) => {
                if mark(self.entered.as_mut_slice(), file) {
                    let imports = imports_of(self.files, file);
                    self.steps.push(Step::Follow(file, imports))?;
                }
            }
            Step::Follow(file, imports) => match imports.split_first() {
                Some((import, others)) => {
                    self.steps.push(Step::Follow(file, others))?;
                    self.steps.push(Step::Enter(*import))?;
                }
                None => self.left.push(file)?,
            },
        }
        Ok(())
    }

    /// Does all that is to do. It ends, since each file is entered once.
    fn finish(&mut self) -> Result<(), AllocError> {
        for _step in 0..usize::MAX {
            match self.steps.pop() {
                Some(step) => self.take(step)?,
                None => return Ok(()),
            }
        }
        Ok(())
    }
}

/// The files in an order in which each comes after those that it imports, but where chains come
/// back. What is found by the order is the same by any other, in more rounds.
fn imports_first(alloc: Global, files: &[FileDescriptorInner]) -> Result<Items<u32>, AllocError> {
    let mut way = Way::new(alloc, files)?;
    for index in 0..files.len() {
        if let Ok(file) = u32::try_from(index) {
            way.take(Step::Enter(file))?;
            way.finish()?;
        }
    }
    Ok(way.left)
}

/// Takes the mark from a file of which no import is marked.
fn unmark_file(files: &[FileDescriptorInner], marks: &mut [bool], file: u32)
    ensures back { spec.HoldsBack (spec.imports files.now) marks.old
        → spec.HoldsBack (spec.imports files.now) marks.new }
    ensures fewer { (n : ℕ) → spec.is_marked marks.new n ≡ true
        → spec.is_marked marks.old n ≡ true }
{
    let index = file as usize;
    if index < marks.len() && !any_marked(marks, imports_of(files, file)) {
        marks[index] = false;
    }
}

/// Takes the mark from each of some files of which no import is marked when its turn comes.
fn unmark(files: &[FileDescriptorInner], marks: &mut [bool], order: &[u32])
    ensures back { spec.HoldsBack (spec.imports files.now) marks.old
        → spec.HoldsBack (spec.imports files.now) marks.new }
    ensures fewer { (n : ℕ) → spec.is_marked marks.new n ≡ true
        → spec.is_marked marks.old n ≡ true }
{
    for file in order {
        unmark_file(files, marks, *file);
    }
}

/// Marks for the files from which a chain of imports comes back, and for few others.
fn maybe_back(alloc: Global, files: &[FileDescriptorInner]) -> Result<Items<bool>, AllocError>
    ensures back { IfOk result (λ marks. spec.HoldsBack (spec.imports files.now) marks) }
    ensures files { IfOk result (λ marks. (n : ℕ) → spec.is_marked marks n ≡ true
        → spec.has_chain (spec.imports files.now) 0 n ≡ true) }
{
    let order = imports_first(alloc, files)?;
    let mut marks = all_files(alloc, files)?;
    unmark(files, marks.as_mut_slice(), order.as_slice());
    Ok(marks)
}

/// The files that import one that is marked.
fn importing(
    alloc: Global,
    files: &[FileDescriptorInner],
    marks: &[bool],
) -> Result<Items<bool>, AllocError>
    ensures { IfOk result (λ next. next
        ≡ map (list_any (spec.is_marked marks.now)) (spec.imports files.now)) }
{
    let mut next = Items::new(alloc);
    for file in files {
        next.push(any_marked(marks, file.dependencies.as_slice()))?;
    }
    Ok(next)
}

/// The files from which a chain of imports comes back. A round that changes no mark is the last
/// one; the first is, where the marks are taken in order.
pub(crate) fn coming_back(
    alloc: Global,
    files: &[FileDescriptorInner],
) -> Result<Items<bool>, AllocError>
    ensures { IfOk result (λ marks. (n : ℕ)
        → spec.is_marked marks n ≡ spec.comes_back (spec.imports files.now) n) }
{
    let mut marks = maybe_back(alloc, files)?;
    'rounds: for _round in 0..files.len() {
        let next = importing(alloc, files, marks.as_slice())?;
        if next == marks {
            return Ok(marks);
        }
        marks = next;
    }
    Ok(marks)
}
