ghost use Rattle.std.specs.Prelude.{◌≡◌, [], ℕ, IsOk, OnOk, OnErr, map};
ghost use Rattle.std.specs.List.{AllByRecursion, AllZip};
ghost use Rattle.record_walk.specs.Counts.{counted};
ghost use Rattle.record_walk.specs.Cursor.{IsSound, left};
ghost use Rattle.record_walk.specs.Fits.{counts_with};
ghost use Rattle.record_walk.specs.Declarations.{declarations, file_walk};
ghost use Rattle.record_walk.specs.Visitor.{HasSeen, StopsAt};
ghost use Rattle.record_walk.specs.Walking.{Room};

mod cursor;
mod located;
mod part;
mod parts;
mod records;
mod row;
mod rows;
mod site;

use crate::counts::Counts;
use crate::visitor::Visitor;
use cursor::Cursor;
use located::show_file;
use parts::walk_parts;
use pool_types::FileDescriptorInner;
use proto_types::FileDescriptorProto;
use std::alloc::{AllocError, Global};

/// Shows a visitor what files declare, in order, numbered on from the counts of a pool.
///
/// A file stands before what it declares: its messages, enums, services and extensions. A message
/// stands before its oneofs, its fields, its nested messages, each whole, its enums and its
/// extensions, an enum before its values, and a service before its methods. The names of an enum's
/// values are formed in the scope around the enum.
///
/// The counts of the files and the base together must fit, as `Counts::with_files` says, or
/// `Counts::of` and then `Counts::plus`. The visitor must be ready for the whole list.
///
/// After `Ok` the visitor has been shown the whole list. After any answer the contents that a
/// roll-back of it would give are as they were.
///
/// # Errors
/// `AllocError` where memory was refused to the walk, or where a call of the visitor answers it.
/// What the visitor has made by then is not told.
pub fn visit(
    alloc: Global,
    base: Counts,
    files: &[FileDescriptorProto],
    visitor: &mut dyn Visitor,
) -> Result<(), AllocError>
    requires fits { IsOk (counts_with base files.now) }
    requires ready { ready visitor.old (declarations base files.now) }
    ensures ok { OnOk result (HasSeen (after visitor.old) (ready visitor.old) (after visitor.new)
        (ready visitor.new) (declarations base files.now)) }
    ensures after { OnOk result (after visitor.new []
        ≡ after visitor.old (declarations base files.now)) }
    ensures kept { kept visitor.new ≡ kept visitor.old }
{
    let mut cursor = Cursor::new(alloc, base);
    for file in files {
        visit_file(&mut cursor, file, visitor)?;
    }
    Ok(())
}

/// Shows a visitor the next file and what it declares, and counts all of it.
fn visit_file<'a>(
    cursor: &mut Cursor<'a>,
    file: &'a FileDescriptorProto,
    visitor: &mut dyn Visitor,
) -> Result<(), AllocError>
    requires room { Room cursor.old.counts (file_walk cursor.old.counts file.now) }
    requires ready { ready visitor.old (file_walk cursor.old.counts file.now) }
    ensures ok { OnOk result (HasSeen (after visitor.old) (ready visitor.old) (after visitor.new)
        (ready visitor.new) (file_walk cursor.old.counts file.now)) }
    ensures counts { OnOk result (cursor.new.counts
        ≡ counted cursor.old.counts (file_walk cursor.old.counts file.now)) }
    ensures kept { kept visitor.new ≡ kept visitor.old }
{
    show_file(cursor.counts.files, file, visitor)?;
    cursor.begin(file)?;
    visit_left(cursor, visitor)?;
    cursor.count_file();
    Ok(())
}

/// Shows a visitor the declarations that are still to come.
fn visit_left(cursor: &mut Cursor, visitor: &mut dyn Visitor) -> Result<(), AllocError>
    requires sound { IsSound cursor.old }
    requires ready { ready visitor.old (left cursor.old) }
    ensures ok { OnOk result (HasSeen (after visitor.old) (ready visitor.old) (after visitor.new)
        (ready visitor.new) (left cursor.old)) }
    ensures counts { OnOk result
        (cursor.new.counts ≡ counted cursor.old.counts (left cursor.old)) }
    ensures kept { kept visitor.new ≡ kept visitor.old }
{
    while let Some(declaration) = cursor.advance()? {
        declaration.show_object(&cursor.site, visitor)?;
    }
    Ok(())
}

/// Shows a visitor whose type is known what the records of linked files declare, or of files that
/// are being linked, in the order and under the conditions of `visit`. Fields, oneofs, methods and
/// values are passed over where they change nothing, as `Visitor::skips_parts` says.
///
/// What the visitor holds by `&mut` it holds after any answer too.
///
/// # Errors
/// `AllocError` where memory was refused to the walk, or where a call of the visitor answers it.
pub fn walk<V: Visitor>(
    alloc: Global,
    base: Counts,
    files: &[FileDescriptorInner],
    visitor: &mut V,
) -> Result<(), AllocError>
    requires fits { IsOk (counts_with base (map (λ f. f.raw) files.now)) }
    requires ready { V.ready visitor.old (declarations base (map (λ f. f.raw) files.now)) }
    ensures ok { OnOk result (HasSeen (V.after visitor.old) (V.ready visitor.old)
        (V.after visitor.new) (V.ready visitor.new)
        (declarations base (map (λ f. f.raw) files.now))) }
    ensures kept { V.kept visitor.new ≡ V.kept visitor.old }
    ensures borrows { V.borrows visitor.new ≡ V.borrows visitor.old }
{
    let mut cursor = Cursor::new(alloc, base);
    for file in files {
        walk_file(&mut cursor, &file.raw, visitor)?;
    }
    Ok(())
}

/// Shows a visitor whose type is known what files declare, as `walk` does of linked files.
///
/// # Errors
/// `AllocError` where memory was refused to the walk, or where a call of the visitor answers it.
pub fn walk_files<V: Visitor>(
    alloc: Global,
    base: Counts,
    files: &[FileDescriptorProto],
    visitor: &mut V,
) -> Result<(), AllocError>
    requires fits { IsOk (counts_with base files.now) }
    requires ready { V.ready visitor.old (declarations base files.now) }
    ensures ok { OnOk result (HasSeen (V.after visitor.old) (V.ready visitor.old)
        (V.after visitor.new) (V.ready visitor.new) (declarations base files.now)) }
    ensures kept { V.kept visitor.new ≡ V.kept visitor.old }
    ensures borrows { V.borrows visitor.new ≡ V.borrows visitor.old }
{
    let mut cursor = Cursor::new(alloc, base);
    for file in files {
        walk_file(&mut cursor, file, visitor)?;
    }
    Ok(())
}

fn walk_file<'a, V: Visitor>(
    cursor: &mut Cursor<'a>,
    file: &'a FileDescriptorProto,
    visitor: &mut V,
) -> Result<(), AllocError>
    requires room { Room cursor.old.counts (file_walk cursor.old.counts file.now) }
    requires ready { V.ready visitor.old (file_walk cursor.old.counts file.now) }
    ensures ok { OnOk result (HasSeen (V.after visitor.old) (V.ready visitor.old)
        (V.after visitor.new) (V.ready visitor.new) (file_walk cursor.old.counts file.now)) }
    ensures counts { OnOk result (cursor.new.counts
        ≡ counted cursor.old.counts (file_walk cursor.old.counts file.now)) }
    ensures kept { V.kept visitor.new ≡ V.kept visitor.old }
    ensures borrows { V.borrows visitor.new ≡ V.borrows visitor.old }
{
    visitor.visit_file(&[], cursor.counts.files, file)?;
    cursor.begin(file)?;
    walk_left(cursor, visitor)?;
    cursor.count_file();
    Ok(())
}

/// Shows a visitor the declarations that are still to come, as `visit_left` does, or those that it
/// does not skip.
fn walk_left<V: Visitor>(cursor: &mut Cursor, visitor: &mut V) -> Result<(), AllocError>
    requires sound { IsSound cursor.old }
    requires ready { V.ready visitor.old (left cursor.old) }
    ensures ok { OnOk result (HasSeen (V.after visitor.old) (V.ready visitor.old)
        (V.after visitor.new) (V.ready visitor.new) (left cursor.old)) }
    ensures counts { OnOk result
        (cursor.new.counts ≡ counted cursor.old.counts (left cursor.old)) }
    ensures kept { V.kept visitor.new ≡ V.kept visitor.old }
    ensures borrows { V.borrows visitor.new ≡ V.borrows visitor.old }
{
    let skips_parts = visitor.skips_parts();
    while let Some(declaration) = cursor.advance_past(skips_parts)? {
        declaration.show(&cursor.site, visitor)?;
        walk_parts(cursor, skips_parts, visitor)?;
    }
    Ok(())
}

/// Shows each visitor in turn what files declare, as `visit` does, and under the same conditions.
///
/// After `Ok` each visitor has been shown the whole list. After any answer the contents that a
/// roll-back of each would give are as they were.
///
/// # Errors
/// `AllocError` where `visit` answers it of a visitor. The visitors before that one have been shown
/// the whole list, and those behind it are as they were.
pub fn visit_each(
    alloc: Global,
    base: Counts,
    files: &[FileDescriptorProto],
    visitors: &mut Vec<Box<dyn Visitor>>,
) -> Result<(), AllocError>
    requires fits { IsOk (counts_with base files.now) }
    requires ready { AllByRecursion
        (λ v. ready v (declarations base files.now)) visitors.old.items }
    ensures ok { OnOk result
        (AllZip (λ v w. HasSeen (after v) (ready v) (after w) (ready w)
        (declarations base files.now)) visitors.old.items visitors.new.items) }
    ensures err { OnErr result ((position : ℕ)
        × StopsAt
        (λ v w. HasSeen (after v) (ready v) (after w) (ready w) (declarations base files.now))
        position visitors.old.items visitors.new.items) }
    ensures kept { AllZip (λ v w. kept w ≡ kept v) visitors.old.items visitors.new.items }
{
    for position in 0..visitors.len() {
        visit_boxed(alloc, base, files, &mut visitors[position])?;
    }
    Ok(())
}

fn visit_boxed(
    alloc: Global,
    base: Counts,
    files: &[FileDescriptorProto],
    visitor: &mut Box<dyn Visitor>,
) -> Result<(), AllocError>
    requires fits { IsOk (counts_with base files.now) }
    requires ready { ready visitor.old (declarations base files.now) }
    ensures ok { OnOk result (HasSeen (after visitor.old) (ready visitor.old) (after visitor.new)
        (ready visitor.new) (declarations base files.now)) }
    ensures kept { kept visitor.new ≡ kept visitor.old }
{
    visit(alloc, base, files, &mut **visitor)
}
