ghost use Rattle.std.specs.Prelude.{◌≡◌, ◌++◌, ◌∷◌, ℕ, List, [], None, IfOk, OnOk, slice_get};
ghost use Rattle.std.specs.Prelude.{if◌then◌else◌};
ghost use Rattle.std.specs.Option.{option_copied};
ghost use Rattle.plain_data.specs.Lists.{listed};
ghost use Rattle.name_resolution.specs.References.{reference_fault};
ghost use Rattle.name_resolution.specs.Resolution.{definition_found, has_leading_dot};
ghost use Rattle.name_resolution.specs.Resolution.{resolution_in};
ghost use Rattle.reference_pass.specs.Setting.{resolve};
ghost use Rattle.record_walk.specs.Faults.{Tells, named_files};

use name_resolution::{PackageNames, ResolveNameFilter, ResolveNameResult, resolve_in_parts};
use name_tables::FileNames;
use pool_types::Definition;
use proto_types::FileDescriptorProto;
use record_walk::{Faults, Place};
use std::alloc::AllocError;
use std::collections::BTreeSet;

/// What declarations are read with: the files that labels name, the faults that are found, and what
/// names mean.
#[derive(Drop)]
pub struct Reading<'f> {
    pub faults: Faults<'f>,
    pub names: PackageNames<'f>,
    pub file_names: &'f FileNames,
}

impl<'f> Reading<'f> {
    ghost use Rattle.reference_pass.specs.Reading.{ReadingTells, setting_of};

    /// What a name means that a declaration writes.
    ///
    /// # Errors
    /// `AllocError` where memory was refused.
    pub fn resolve(
        &self,
        place: Place,
        filter: ResolveNameFilter,
        written: &str,
    ) -> Result<ResolveNameResult<'f>, AllocError>
        ensures { IfOk result (λ r. resolution_in r
            ≡ resolve (setting_of self.now) place.entry.file place.entry.full_name.now
            filter written.now) }
    {
        let alloc = self.faults.alloc;
        let nothing = BTreeSet::new(alloc);
        let visible = self.visible(place.file).unwrap_or(&nothing);
        let names = self.names.table();
        resolve_in_parts(alloc, visible, names, place.full_name, written, filter)
    }

    /// The definition that a name means that a declaration writes, where it is found and the name
    /// has a leading dot. Any other name has none here, and a file that isn't there finds none.
    #[inline(always)]
    pub(crate) fn find(
        &self,
        place: Place,
        filter: ResolveNameFilter,
        written: &str,
    ) -> Option<&'f Definition>
        ensures { option_copied result ≡ (if has_leading_dot written.now
            then definition_found (resolve (setting_of self.now) place.entry.file
            place.entry.full_name.now filter written.now) else None) }
    {
        self.find_in(place.file, filter, written)
    }

    /// The definition that a name means that a file with an index writes, whatever the scope, where
    /// it is found and the name has a leading dot. Any other name has none here, and a file that
    /// isn't there finds none.
    #[inline(always)]
    pub(crate) fn find_in(
        &self,
        file: u32,
        filter: ResolveNameFilter,
        written: &str,
    ) -> Option<&'f Definition>
        ensures { (scope : List ℕ) → option_copied result ≡ (if has_leading_dot written.now
            then definition_found (resolve (setting_of self.now) file scope filter written.now)
            else None) }
    {
        let visible = self.visible(file)?;
        self.names.find(visible, written, filter)
    }

    /// Looks for names from the package of the file with an index on, where that has messages
    /// enough to write many.
    pub(crate) fn enter_package(&mut self, file: u32)
        ensures { self.new ≡ self.old }
    {
        if let Some(file) = self.faults.files().get(file as usize) {
            self.names.enter(package_of(&file.raw));
        }
    }

    /// The files that the file with an index sees.
    #[inline(always)]
    fn visible(&self, file: u32) -> Option<&'f BTreeSet<u32>>
        ensures { option_copied result ≡ slice_get (setting_of self.now).seen file }
    {
        let file = self.faults.files().get(file as usize)?;
        Some(&file.transitive_dependencies)
    }

    /// What the reference means that the part of a declaration with a tag has. Where it isn't
    /// found, that is appended to the faults of the declaration.
    ///
    /// # Errors
    /// `AllocError` where memory was refused.
    #[inline(never)]
    pub fn resolve_checked(
        &mut self,
        place: Place,
        tag: i32,
        filter: ResolveNameFilter,
        written: &str,
    ) -> Result<ResolveNameResult<'f>, AllocError>
        ensures meaning { IfOk result (λ r. resolution_in r
            ≡ resolve (setting_of self.old) place.entry.file place.entry.full_name.now
            filter written.now) }
        ensures faults { OnOk result (ReadingTells self.old self.new
            (listed (reference_fault (setting_of self.old).files written.now place.entry.file
            (place.entry.path.now ++ tag ∷ []) (resolve (setting_of self.old)
            place.entry.file place.entry.full_name.now filter written.now)))) }
    {
        let meaning = self.resolve(place, filter, written)?;
        check_found(&mut self.faults, place, tag, written, &meaning)?;
        Ok(meaning)
    }

    /// What the part of a declaration with a tag means, which names a message. Where it names none,
    /// that is appended to its faults.
    ///
    /// # Errors
    /// `AllocError` where memory was refused.
    pub fn resolve_message(
        &mut self,
        place: Place,
        tag: i32,
        written: &str,
    ) -> Result<ResolveNameResult<'f>, AllocError>
        ensures meaning { IfOk result (λ r. resolution_in r
            ≡ resolve (setting_of self.old) place.entry.file place.entry.full_name.now
            ResolveNameFilter.Message written.now) }
        ensures faults { OnOk result (ReadingTells self.old self.new
            (listed (reference_fault (setting_of self.old).files written.now place.entry.file
            (place.entry.path.now ++ tag ∷ []) (resolve (setting_of self.old)
            place.entry.file place.entry.full_name.now ResolveNameFilter.Message written.now)))) }
    {
        self.resolve_checked(place, tag, ResolveNameFilter::Message, written)
    }
}

/// How few fields write so few names that the way to the package would be the longer one.
const FEW: usize = 4;

/// The package from which the names that a file writes are looked for; the empty one where it has
/// one message at most, of few fields.
fn package_of(file: &FileDescriptorProto) -> &str {
    match file.message_type.as_slice() {
        [] => "",
        [only] if only.field.as_slice().len() <= FEW => "",
        _ => file.package(),
    }
}

/// Appends to `faults` that of a reference, in the part of a declaration with a tag, which isn't
/// found.
fn check_found(
    faults: &mut Faults,
    place: Place,
    tag: i32,
    written: &str,
    meaning: &ResolveNameResult,
) -> Result<(), AllocError>
    ensures { OnOk result (Tells faults.old faults.new
        (listed (reference_fault (named_files faults.old) written.now place.entry.file
        (place.entry.path.now ++ tag ∷ []) (resolution_in meaning.now)))) }
{
    if meaning.is_found() {
        return Ok(());
    }
    let alloc = faults.alloc;
    let mut path = Vec::from_slice(alloc, place.path)?;
    path.push(tag)?;
    let labels = &mut faults.labels;
    if let Some(fault) = meaning.labelled_fault(alloc, written, labels, place.file, &path)? {
        faults.push(fault)?;
    }
    Ok(())
}
