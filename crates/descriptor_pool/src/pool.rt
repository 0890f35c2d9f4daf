ghost use Rattle.std.specs.Prelude.{◌≡◌, [], IsOk, IfOk, IfSome, slice_get};
ghost use Rattle.std.specs.FinMap as finite;
ghost use Rattle.std.specs.Option.{option_copied, option_map};

mod members;
mod parts;

use crate::build::{Terms, link};
use crate::error::BuildError;
use pool_contents::DescriptorPoolInner;
use pool_types::{
    Definition, EnumDescriptor, EnumDescriptorInner, ExtensionDescriptor, ExtensionDescriptorInner,
    FileDescriptor, FileDescriptorInner, MessageDescriptor, MessageDescriptorInner,
    ServiceDescriptor, ServiceDescriptorInner,
};
use proto_types::FileDescriptorProto;
use record_walk::Counts;
use std::alloc::{AllocError, Global};
use std::marker::Model;

/// Linked files and what they declare, each known by an index and by its full name.
#[derive(Drop)]
pub struct DescriptorPool {
    alloc: Global,
    inner: DescriptorPoolInner,
}

impl Model for DescriptorPool {
    ghost use Rattle.pool_types.specs.Contents.{Contents};
    ghost use Rattle.pool_types.specs.ContentsCode.{contents_code};

    ghost Value = { Contents };

    ghost coded = { contents_code };

    ghost use Rattle.pool_contents.specs.Inner.{contents_in};
    ghost use Rattle.descriptor_pool.specs.Invariant.{IsPool};

    ghost view = { λ p. contents_in p.inner };

    ghost invariant = { λ p. IsPool (contents_in p.inner) };
}

impl DescriptorPool {
    ghost use Rattle.pool_types.specs.Contents.{no_contents, files_of};
    ghost use Rattle.record_walk.specs.Counts.{counts_in, no_counts};
    ghost use Rattle.record_walk.specs.Fits.{counts_with};
    ghost use Rattle.descriptor_pool.specs.Extensions.{ExtendeesLieIn, ListsAreWhole};
    ghost use Rattle.descriptor_pool.specs.Extensions.{NumbersAreUnique};
    ghost use Rattle.pool_types.specs.Extension.{extension_numbered};
    ghost use Rattle.descriptor_pool.specs.FullNames.{FullNamesMean};
    ghost use Rattle.descriptor_pool.specs.Invariant.{IsPool};
    ghost use Rattle.descriptor_pool.specs.Maps.{MapsLead, ValuesLead};
    ghost use Rattle.pool_contents.specs.LookUps.{definition_named};
    ghost use Rattle.field_rules.specs.NamesBegin.{EnumNamesBegin};
    ghost use Rattle.reference_pass.specs.NamesBegin.{ExtensionNameBegins, MessageNamesBegin};
    ghost use Rattle.reference_pass.specs.NamesBegin.{ServiceNamesBegin};
    ghost use Rattle.descriptor_pool.specs.GivenBack.{GivesBack};
    ghost use Rattle.descriptor_pool.specs.Outcome.{Outcome};
    ghost use Rattle.descriptor_pool.specs.Pool.{new_files};
    ghost use Rattle.descriptor_pool.specs.References.{AllNamed, AllResolved};
    ghost use Rattle.descriptor_pool.specs.Within.{OutcomeWithin};

    /// A pool without files, which takes no memory.
    pub fn new(alloc: Global) -> DescriptorPool
        ensures { result ≡ no_contents }
    {
        DescriptorPool {
            alloc,
            inner: DescriptorPoolInner::new(alloc),
        }
    }

    /// A pool with equal contents. The two share nothing, so a later change of the one leaves the
    /// other as it was.
    ///
    /// # Errors
    /// `AllocError` where memory was refused.
    pub fn clone(&self) -> Result<DescriptorPool, AllocError>
        ensures { IfOk result (λ copy. copy ≡ self.now) }
    {
        let inner = self.inner.clone(self.alloc)?;
        Ok(DescriptorPool {
            alloc: self.alloc,
            inner,
        })
    }

    /// What the pool has under a full name, which may have one leading dot. Under that of a message
    /// or of an enum of the pool it has this one, so no two of these have one full name.
    #[tactic(auto, using(crate::proofs::Apart::full_names_mean))]
    pub fn get_by_name(&self, name: &str) -> Option<&Definition>
        ensures found { option_copied result ≡ definition_named self.now name.now }
        ensures full_names { FullNamesMean self.now }
    {
        self.inner.get_by_name(name)
    }

    /// The file with a name, or none where the pool has no such file.
    pub fn get_file_by_name(&self, name: &str) -> Option<FileDescriptor>
        ensures { option_map (λ file. file.index) result ≡ finite.get self.now.file_names name.now }
    {
        let file = self.inner.file_names.get(name)?;
        Some(FileDescriptor::new(file))
    }

    /// The file with an index, or none past the end.
    pub fn file(&self, file: FileDescriptor) -> Option<&FileDescriptorInner>
        ensures { option_copied result ≡ slice_get self.now.files file.index }
    {
        self.inner.file(file)
    }

    /// The message with an index, or none past the end. Its name, and that of each of its fields
    /// and oneofs, begins in the full name where a character begins. It lists the indexes of all
    /// extensions of the pool that extend it, in rising order. Its maps lead from a number, a name
    /// and a given JSON name to the one field that has it, and its oneofs list the fields in them.
    #[tactic(auto, using(crate::proofs::Extendees::lists_are_whole))]
    pub fn message(&self, message: MessageDescriptor) -> Option<&MessageDescriptorInner>
        ensures item { option_copied result ≡ slice_get self.now.messages message.index }
        ensures names { IfSome result (λ m. MessageNamesBegin m.now) }
        ensures lists { ListsAreWhole self.now }
        ensures maps { IfSome result (λ m. MapsLead m.now) }
    {
        self.inner.message(message)
    }

    /// The enum with an index, or none past the end. Its name, and that of each of its values,
    /// begins in the full name where a character begins. Its map leads from a name to the one value
    /// that has it, its table has the number of each value, and without aliases no two values have
    /// one number.
    pub fn enum_(&self, enumeration: EnumDescriptor) -> Option<&EnumDescriptorInner>
        ensures item { option_copied result ≡ slice_get self.now.enums enumeration.index }
        ensures names { IfSome result (λ e. EnumNamesBegin e.now) }
        ensures values { IfSome result (λ e. ValuesLead e.now) }
    {
        self.inner.enum_(enumeration)
    }

    /// The extension with an index, or none past the end. Its name begins in the full name where a
    /// character begins. Each extends a message of the pool.
    #[tactic(auto, using(crate::proofs::Extendees::extendees_lie))]
    pub fn extension(&self, extension: ExtensionDescriptor) -> Option<&ExtensionDescriptorInner>
        ensures item { option_copied result ≡ slice_get self.now.extensions extension.index }
        ensures names { IfSome result (λ x. ExtensionNameBegins x.now) }
        ensures extendees { ExtendeesLieIn self.now }
    {
        self.inner.extension(extension)
    }

    /// The extension of a message that has a number, which is the field number that its item has.
    /// There is none where no extension of the pool extends the message with that number, or where
    /// the index of the message is past the end. No two extensions of a message have one number:
    /// that is a rule of this linker.
    #[tactic(auto, using(crate::proofs::Extendees::numbers_are_unique))]
    pub fn get_extension(
        &self,
        message: MessageDescriptor,
        number: u32,
    ) -> Option<ExtensionDescriptor>
        ensures extension { option_map (λ extension. extension.index) result
            ≡ extension_numbered self.now.extensions message.index number }
        ensures unique { NumbersAreUnique self.now }
    {
        self.inner.get_extension(message, number)
    }

    /// The service with an index, or none past the end. Its name, and that of each of its methods,
    /// begins in the full name where a character begins.
    pub fn service(&self, service: ServiceDescriptor) -> Option<&ServiceDescriptorInner>
        ensures item { option_copied result ≡ slice_get self.now.services service.index }
        ensures names { IfSome result (λ v. ServiceNamesBegin v.now) }
    {
        self.inner.service(service)
    }

    /// What is true of every pool: its contents are made, from nothing, by batches that were
    /// accepted and fit, and its names are those that its files enter. A call does nothing; laws of
    /// pools are proved by it.
    pub fn made(&self)
        ensures { IsPool self.now }
    {
        let _ = &self.inner;
    }

    /// How many the pool has of each kind that has an index.
    pub fn counts(&self) -> Counts
        ensures { result ≡ counts_in self.now }
    {
        let inner = &self.inner;
        Counts {
            files: inner.files.len() as u32,
            messages: inner.messages.len() as u32,
            enums: inner.enums.len() as u32,
            services: inner.services.len() as u32,
            extensions: inner.extensions.len() as u32,
        }
    }

    /// The files of the pool, in the order of linking. What their linked records declare fits into
    /// a pool, as `Counts::of` tells.
    #[tactic(auto, using(crate::proofs::Sound::fits_again))]
    pub fn files(&self) -> &[FileDescriptorInner]
        ensures files { result.now ≡ self.now.files }
        ensures fit { IsOk (counts_with no_counts (files_of self.now)) }
    {
        self.inner.files.as_slice()
    }

    /// The linked records of the pool's files, in the order of linking. In them each reference that
    /// is resolved is a dot and the full name of its definition, which the pool has. That is the
    /// message or the enum whose index the item has, of a field, a method or an extension. What
    /// they declare fits into a pool, as `Counts::of` tells.
    ///
    /// # Errors
    /// `AllocError` where memory was refused.
    #[tactic(auto, using(crate::proofs::Sound::all_resolved, crate::proofs::OwnNames::all_named, crate::proofs::Sound::fits_again))]
    pub fn linked_files(&self) -> Result<Vec<FileDescriptorProto>, AllocError>
        ensures files { IfOk result (λ files. files.items ≡ files_of self.now) }
        ensures resolved { AllResolved self.now }
        ensures named { AllNamed self.now }
        ensures fit { IsOk (counts_with no_counts (files_of self.now)) }
    {
        self.inner.records(self.alloc)
    }

    /// Links the files of a batch whose names the pool lacks; the others are passed over unread.
    /// The pool is changed in place. Where memory is refused, where there is too much of a kind, or
    /// where the new files break a rule, it is as it was: what came behind is taken away, without
    /// memory. Of broken rules all of the first failing pass are told.
    ///
    /// # Errors
    /// `TooMany` with the first kind, in the order of `CountKind`, of which the new files alone or
    /// together with the pool have too much, told before any pass; `Descriptor` with all faults of
    /// the first failing pass, in order; `OutOfMemory` where memory was refused.
    pub fn build_files(&mut self, mut files: Vec<FileDescriptorProto>) -> Result<(), BuildError>
        ensures outcome { Outcome self.old files.items result self.new }
        ensures nothing_new { new_files self.old files.items ≡ [] → IsOk result }
    {
        self.link_within(&mut files, None)
    }

    /// Links the files of a batch as `build_files` does. Where it is refused, but for memory, the
    /// list has its new files as they were; those that were passed over are gone. What else is left
    /// in the list isn't said.
    ///
    /// # Errors
    /// Those of `build_files`, at the same batches.
    pub fn link_or_give_back(
        &mut self,
        files: &mut Vec<FileDescriptorProto>,
    ) -> Result<(), BuildError>
        ensures outcome { Outcome self.old files.old.items result self.new }
        ensures nothing_new { new_files self.old files.old.items ≡ [] → IsOk result }
        ensures back { GivesBack result (new_files self.old files.old.items) files.new.items }
    {
        self.link_within(files, None)
    }

    /// Links the files of a batch as `link_or_give_back` does, where the first `most` of its faults
    /// are wanted, or all. At least one is told whatever is wanted. The others are counted and not
    /// kept.
    ///
    /// # Errors
    /// Those of `build_files`, at the same batches, but for the number of faults: `Descriptor` has
    /// the first, in order, and how many more there are.
    pub fn link_within(
        &mut self,
        files: &mut Vec<FileDescriptorProto>,
        most: Option<usize>,
    ) -> Result<(), BuildError>
        ensures outcome { OutcomeWithin most self.old files.old.items result self.new }
        ensures nothing_new { new_files self.old files.old.items ≡ [] → IsOk result }
        ensures back { GivesBack result (new_files self.old files.old.items) files.new.items }
    {
        self.inner.retain_new(files);
        if files.is_empty() {
            return Ok(());
        }
        let base = self.counts();
        if let Err(kind) = base.with_files(files) {
            return Err(BuildError::TooMany(kind));
        }
        let terms = Terms {
            alloc: self.alloc,
            most,
        };
        link(terms, base, &mut self.inner, files)
    }
}

/// Two pools are equal where their contents are.
impl PartialEq for DescriptorPool {
    ghost use Rattle.pool_contents.specs.Same.{contents_eq, contents-per};

    ghost eq = { contents_eq };

    ghost laws = { contents-per };

    fn eq(&self, other: &DescriptorPool) -> bool {
        self.inner.same(&other.inner)
    }
}
