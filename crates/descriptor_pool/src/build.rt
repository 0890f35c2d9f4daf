//! How a batch is linked: the two passes over its declarations, and the roll-back.

ghost use Rattle.std.specs.Prelude.{◌≡◌, ◌≤◌, ◌++◌, [], IsTrue, IsOk, IfOk, IfErr, OnOk, OnErr};
ghost use Rattle.std.specs.Prelude.{length, map, drop};
ghost use Rattle.std.specs.List.{AllByRecursion, fold};
ghost use Rattle.pool_types.specs.Contents.{files_of};
ghost use Rattle.record_walk.specs.Counts.{counts_in};
ghost use Rattle.record_walk.specs.Fits.{counts_with};
ghost use Rattle.record_walk.specs.Declarations.{declarations};
ghost use Rattle.record_walk.specs.Faults.{told_in};
ghost use Rattle.reference_pass.specs.SecondPass.{second_pass};
ghost use Rattle.reference_pass.specs.NamesBegin.{AllNamesBegin, NamesBegin};
ghost use Rattle.record_walk.specs.Short.{ShortFiles};
ghost use Rattle.descriptor_pool.specs.Build.{batch_faults, with_batch, with_items, with_names};
ghost use Rattle.pool_contents.specs.Extended.{with_extended};
ghost use Rattle.pool_types.specs.Extension.{NumbersLead};
ghost use Rattle.name_pass.specs.FirstPass.{first_pass};
ghost use Rattle.pool_contents.specs.Growing.{before_items, first_extension, rolled_back};
ghost use Rattle.pool_contents.specs.Growing.{new_records, records_from};
ghost use Rattle.name_tables.specs.NameTables.{file_names_before, without_files_from};
ghost use Rattle.name_pass.specs.Steps.{name_step, state_at};
ghost use Rattle.descriptor_pool.specs.Items.{HasImports, HasItems, LinksNew, with_new_items};
ghost use Rattle.pool_contents.specs.Inner.{contents_in, NamesLieIn};
ghost use Rattle.descriptor_pool.specs.Error.{TellsAll, TellsFirst};
ghost use Rattle.descriptor_pool.specs.GivenBack.{GivesBack, breaks_rules};
ghost use Rattle.descriptor_pool.specs.Against.{setting_against};
ghost use Rattle.reference_pass.specs.Linking.{ItemsAre, lists_in};
ghost use Rattle.descriptor_pool.specs.Pool.{Made};

use crate::error::BuildError;
use name_pass::NameVisitor;
use name_resolution::PackageNames;
use name_tables::{FileNames, PoolNames, ScopedNames};
use pool_contents::{DescriptorPoolInner, GrowingPool};
use pool_faults::{DescriptorError, DescriptorErrorKind};
use proto_types::FileDescriptorProto;
use record_walk::{Counts, Faults, walk};
use reference_pass::{Linker, NewItems, NextItems, PoolExtensions, Reading, ResolveVisitor};
use std::alloc::{AllocError, Global};
use std::mem;

/// What linking is asked with: where memory comes from, and how many faults are told at most, where
/// there is a limit.
#[derive(Clone, Copy)]
pub(crate) struct Terms {
    pub alloc: Global,
    pub most: Option<usize>,
}

/// Links new files behind those of a pool, in the pool itself. A refusal is rolled back, and new
/// files that break rules get their records back.
pub(crate) fn link(
    terms: Terms,
    base: Counts,
    pool: &mut DescriptorPoolInner,
    new: &mut [FileDescriptorProto],
) -> Result<(), BuildError>
    requires made { Made (contents_in pool.old) }
    requires base { base ≡ counts_in (contents_in pool.old) }
    requires counts { IsOk (counts_with base new.old) }
    requires before { NamesLieIn (contents_in pool.old) }
    requires numbers { NumbersLead (contents_in pool.old).extensions
        (contents_in pool.old).messages }
    requires names { AllNamesBegin (contents_in pool.old) }
    requires short { ShortFiles (files_of (contents_in pool.old) ++ new.old) }
    ensures ok { OnOk result (contents_in pool.new
        ≡ with_batch (contents_in pool.old) new.old) }
    ensures faults { TellsAll terms.most result (batch_faults (contents_in pool.old) new.old) }
    ensures err { OnErr result (contents_in pool.new ≡ contents_in pool.old) }
    ensures names { AllNamesBegin (contents_in pool.new) }
    ensures back { GivesBack result new.old new.new }
{
    let before = mem::replace(pool, DescriptorPoolInner::new(terms.alloc));
    let mut growing = GrowingPool::new(base, before);
    let linked = link_new(terms, &mut growing, new);
    if linked.is_err() {
        take_back(&mut growing, new, &linked);
    }
    let GrowingPool { inner, .. } = growing;
    *pool = inner;
    linked
}

/// Takes away what came of new files that were refused. Where they break rules, their records are
/// given back.
fn take_back(
    growing: &mut GrowingPool,
    new: &mut [FileDescriptorProto],
    linked: &Result<(), BuildError>,
)
    requires { IsTrue (breaks_rules linked.now) → length new.old
        ≡ length (new_records growing.old) }
    ensures pool { contents_in growing.new.inner ≡ rolled_back growing.old }
    ensures given { IsTrue (breaks_rules linked.now) → new.new ≡ new_records growing.old }
{
    if breaks_rules(linked) {
        growing.give_back(new);
    }
    growing.rollback();
}

/// Whether new files were refused since they break rules.
fn breaks_rules(linked: &Result<(), BuildError>) -> bool
    ensures { result ≡ breaks_rules linked.now }
{
    matches!(linked, Err(BuildError::Descriptor(_)))
}

/// Links new files behind those of a pool, to which nothing came yet. A refusal may leave anything
/// behind them; but the records of files that break rules are there as they were.
fn link_new(
    terms: Terms,
    pool: &mut GrowingPool,
    new: &mut [FileDescriptorProto],
) -> Result<(), BuildError>
    requires made { Made (contents_in pool.old.inner) }
    requires base { pool.old.base ≡ counts_in (contents_in pool.old.inner) }
    requires counts { IsOk (counts_with pool.old.base new.old) }
    requires whole { rolled_back pool.old ≡ contents_in pool.old.inner }
    requires numbers { NumbersLead pool.old.inner.extensions.items pool.old.inner.messages.items }
    requires before { NamesLieIn (contents_in pool.old.inner) }
    requires names { AllNamesBegin (contents_in pool.old.inner) }
    requires short { ShortFiles (files_of (contents_in pool.old.inner) ++ new.old) }
    ensures ok { OnOk result (contents_in pool.new.inner
        ≡ with_batch (contents_in pool.old.inner) new.old) }
    ensures faults { TellsAll terms.most result
        (batch_faults (contents_in pool.old.inner) new.old) }
    ensures kept { OnErr result (rolled_back pool.new ≡ rolled_back pool.old) }
    ensures names { OnOk result (AllNamesBegin (contents_in pool.new.inner)) }
    ensures there { GivesBack result new.old (new_records pool.new) }
{
    pool.add_files(terms.alloc, new)?;
    enter_names(terms, pool)?;
    pool.see_files(terms.alloc)?;
    make_items(terms, pool)
}

/// The first pass: it enters the names of new files, or tells all faults of names, and of what a
/// file, a message or an enum shows by itself. The pool has the new files as they are.
fn enter_names(terms: Terms, pool: &mut GrowingPool) -> Result<(), BuildError>
    requires counts { IsOk (counts_with pool.old.base (new_records pool.old)) }
    requires short { ShortFiles (files_of (contents_in pool.old.inner)) }
    ensures entered { OnOk result (contents_in pool.new.inner
        ≡ with_names (contents_in pool.old.inner)
        (declarations pool.old.base (new_records pool.old))) }
    ensures faults { TellsAll terms.most result
        (first_pass (files_of (contents_in pool.old.inner)) (contents_in pool.old.inner)
        (declarations pool.old.base (new_records pool.old))) }
    ensures kept { rolled_back pool.new ≡ rolled_back pool.old }
    ensures there { new_records pool.new ≡ new_records pool.old }
{
    let mut faults = Faults::new(terms.alloc, &pool.inner.files, terms.most);
    show_names(
        pool.base,
        &mut pool.inner.names,
        &mut pool.inner.file_names,
        &mut faults,
    )?;
    let Faults { first, rest, .. } = faults;
    refuse(first, rest)
}

/// Shows the new files of a pool, which are those that labels name from the base's count on, to the
/// first pass.
fn show_names(
    base: Counts,
    names: &mut PoolNames,
    file_names: &mut FileNames,
    faults: &mut Faults,
) -> Result<(), AllocError>
    requires here { base.files ≤ length faults.old.labels }
    requires counts { IsOk (counts_with base (records_from base.files faults.old.labels)) }
    ensures ok { OnOk result (state_at names.new file_names.new (told_in faults.new)
        ≡ fold (name_step (map (λ f. f.raw) faults.old.labels))
        (state_at names.old file_names.old (told_in faults.old))
        (declarations base (records_from base.files faults.old.labels))) }
    ensures names { without_files_from base.files names.new
        ≡ without_files_from base.files names.old }
    ensures file_names { file_names_before base.files file_names.new
        ≡ file_names_before base.files file_names.old }
{
    let table = mem::replace(names, PoolNames::new(faults.alloc));
    let mut scoped = ScopedNames::new(table);
    let shown = show_scoped(base, &mut scoped, file_names, faults);
    *names = scoped.into_names();
    shown
}

/// Shows the new files of a pool to the first pass, with the table of names and its open scopes.
fn show_scoped(
    base: Counts,
    names: &mut ScopedNames,
    file_names: &mut FileNames,
    faults: &mut Faults,
) -> Result<(), AllocError>
    requires here { base.files ≤ length faults.old.labels }
    requires counts { IsOk (counts_with base (records_from base.files faults.old.labels)) }
    ensures ok { OnOk result (state_at names.new.0 file_names.new (told_in faults.new)
        ≡ fold (name_step (map (λ f. f.raw) faults.old.labels))
        (state_at names.old.0 file_names.old (told_in faults.old))
        (declarations base (records_from base.files faults.old.labels))) }
    ensures names { without_files_from base.files names.new.0
        ≡ without_files_from base.files names.old.0 }
    ensures file_names { file_names_before base.files file_names.new
        ≡ file_names_before base.files file_names.old }
{
    let alloc = faults.alloc;
    let files = faults.labels.files();
    let mut visitor = NameVisitor {
        alloc,
        first: base.files,
        names,
        file_names,
        faults,
    };
    walk(alloc, base, &files[base.files as usize..], &mut visitor)
}

/// The second pass: it makes the items of new files and puts them into the pool, which has their
/// records and names, and their extensions into the lists of messages, or tells all faults of
/// imports, numbers and references.
fn make_items(terms: Terms, pool: &mut GrowingPool) -> Result<(), BuildError>
    requires counts { IsOk (counts_with pool.old.base (new_records pool.old)) }
    requires before { pool.old.base ≡ counts_in (before_items pool.old) }
    requires numbers { NumbersLead pool.old.inner.extensions.items pool.old.inner.messages.items }
    requires names { AllNamesBegin (contents_in pool.old.inner) }
    requires short { ShortFiles (files_of (contents_in pool.old.inner)) }
    requires imports { AllByRecursion (HasImports (setting_against pool.old.inner))
        (drop pool.old.base.files pool.old.inner.files.items) }
    requires items { ItemsAre (setting_against pool.old.inner)
        (lists_in (with_items (before_items pool.old) (setting_against pool.old.inner)
        (declarations pool.old.base (new_records pool.old))))
        (declarations pool.old.base (new_records pool.old)) }
    ensures made { OnOk result (contents_in pool.new.inner
        ≡ with_extended (first_extension pool.old)
        (with_items (before_items pool.old) (setting_against pool.old.inner)
        (declarations pool.old.base (new_records pool.old)))) }
    ensures faults { TellsAll terms.most result (second_pass (setting_against pool.old.inner)
        pool.old.inner.extensions.items (declarations pool.old.base (new_records pool.old))) }
    ensures kept { OnErr result (rolled_back pool.new ≡ rolled_back pool.old) }
    ensures names { OnOk result (AllNamesBegin (contents_in pool.new.inner)) }
    ensures there { GivesBack result (new_records pool.old) (new_records pool.new) }
{
    let items = read_items(terms, pool)?;
    put_items(pool, items)?;
    link_files(terms.alloc, pool)?;
    pool.extend_messages()?;
    Ok(())
}

/// The items of what the new files of a pool declare, or all faults of the second pass.
fn read_items(terms: Terms, pool: &GrowingPool) -> Result<NewItems, BuildError>
    requires counts { IsOk (counts_with pool.now.base (new_records pool.now)) }
    requires numbers { NumbersLead pool.now.inner.extensions.items pool.now.inner.messages.items }
    requires short { ShortFiles (files_of (contents_in pool.now.inner)) }
    ensures items { IfOk result (λ items. HasItems items (setting_against pool.now.inner)
        (declarations pool.now.base (new_records pool.now))) }
    ensures faults { TellsAll terms.most result (second_pass (setting_against pool.now.inner)
        pool.now.inner.extensions.items (declarations pool.now.base (new_records pool.now))) }
    ensures names { IfOk result (λ items. NamesBegin items.messages.items items.enums.items
        items.services.items items.extensions.items) }
{
    let base = pool.base;
    let inner = &pool.inner;
    let files = &inner.files[base.files as usize..];
    let alloc = terms.alloc;
    let items = NewItems::for_files(alloc, files)?;
    let mut visitor = ResolveVisitor {
        pool: PoolExtensions {
            messages: &inner.messages,
            extensions: &inner.extensions,
        },
        items,
        reading: Reading {
            faults: Faults::new(alloc, &inner.files, terms.most),
            names: PackageNames::new(&inner.names),
            file_names: &inner.file_names,
        },
    };
    walk(alloc, base, files, &mut visitor)?;
    let ResolveVisitor { reading, items, .. } = visitor;
    let Reading { faults, .. } = reading;
    let Faults { first, rest, .. } = faults;
    refuse(first, rest)?;
    Ok(items)
}

/// Puts new items behind those of a pool.
fn put_items(pool: &mut GrowingPool, items: NewItems) -> Result<(), AllocError>
    ensures ok { OnOk result (contents_in pool.new.inner
        ≡ with_new_items (contents_in pool.old.inner) items) }
    ensures kept { rolled_back pool.new ≡ rolled_back pool.old }
{
    let NewItems {
        messages,
        enums,
        services,
        extensions,
        ..
    } = items;
    put_behind(&mut pool.inner.messages, messages)?;
    put_behind(&mut pool.inner.enums, enums)?;
    put_behind(&mut pool.inner.services, services)?;
    put_behind(&mut pool.inner.extensions, extensions)
}

/// Puts items behind those of a list, which takes over theirs where it has none.
fn put_behind<T: Drop>(list: &mut Vec<T>, mut items: Vec<T>) -> Result<(), AllocError>
    ensures ok { OnOk result (list.new.items ≡ list.old.items ++ items.items) }
    ensures err { OnErr result (list.new.items ≡ list.old.items) }
{
    if list.is_empty() {
        *list = items;
        return Ok(());
    }
    list.append(&mut items)?;
    Ok(())
}

/// Links the records of the new files of a pool where they stand, by its items.
fn link_files(alloc: Global, pool: &mut GrowingPool) -> Result<(), AllocError>
    ensures ok { OnOk result (LinksNew pool.old pool.new) }
    ensures kept { rolled_back pool.new ≡ rolled_back pool.old }
{
    let base = pool.base;
    let linker = Linker {
        alloc,
        messages: &pool.inner.messages,
        enums: &pool.inner.enums,
        services: &pool.inner.services,
        extensions: &pool.inner.extensions,
    };
    let mut next = NextItems {
        messages: base.messages as usize,
        services: base.services as usize,
        extensions: base.extensions as usize,
    };
    let files = &mut pool.inner.files[base.files as usize..];
    linker.link_files(&mut next, files)
}

/// A pass is refused with its first faults, if there are any, and the number of the others.
fn refuse(faults: Vec<DescriptorErrorKind>, rest: usize) -> Result<(), BuildError>
    ensures ok { OnOk result (faults.items ≡ []) }
    ensures err { IfErr result (λ error. TellsFirst error faults.items rest) }
{
    if faults.is_empty() {
        return Ok(());
    }
    Err(BuildError::Descriptor(DescriptorError::new(faults, rest)))
}
