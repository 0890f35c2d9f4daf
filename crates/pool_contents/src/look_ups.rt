//! What is looked up in what a pool holds.

ghost use Rattle.std.specs.Prelude.{◌≡◌, not, is_some, IfOk, slice_get};
ghost use Rattle.std.specs.FinMap as finite;
ghost use Rattle.std.specs.List.{filter};
ghost use Rattle.std.specs.Option.{option_copied, option_map};
ghost use Rattle.pool_types.specs.Contents.{files_of};
ghost use Rattle.proto_types.specs.Readers.{text_of};
ghost use Rattle.pool_types.specs.Extension.{number_held};
ghost use Rattle.pool_contents.specs.Inner.{contents_in};
ghost use Rattle.pool_contents.specs.LookUps.{definition_named, without_dot};

use crate::inner::DescriptorPoolInner;
use name_tables::NameTable;
use pool_types::{
    Definition, EnumDescriptor, EnumDescriptorInner, ExtensionDescriptor, ExtensionDescriptorInner,
    FileDescriptor, FileDescriptorInner, MessageDescriptor, MessageDescriptorInner,
    ServiceDescriptor, ServiceDescriptorInner,
};
use proto_types::FileDescriptorProto;
use std::alloc::{AllocError, Global};

impl DescriptorPoolInner {
    /// What a full name means, which may have one leading dot.
    pub fn get_by_name(&self, name: &str) -> Option<&Definition>
        ensures { option_copied result ≡ definition_named (contents_in self.now) name.now }
    {
        self.names.get(without_dot(name))
    }

    /// The file with an index, or none past the end.
    pub fn file(&self, file: FileDescriptor) -> Option<&FileDescriptorInner>
        ensures { option_copied result ≡ slice_get self.now.files.items file.index }
    {
        self.files.get(file.index() as usize)
    }

    /// The message with an index, or none past the end.
    pub fn message(&self, message: MessageDescriptor) -> Option<&MessageDescriptorInner>
        ensures { option_copied result ≡ slice_get self.now.messages.items message.index }
    {
        self.messages.get(message.index() as usize)
    }

    /// The enum with an index, or none past the end.
    pub fn enum_(&self, enumeration: EnumDescriptor) -> Option<&EnumDescriptorInner>
        ensures { option_copied result ≡ slice_get self.now.enums.items enumeration.index }
    {
        self.enums.get(enumeration.index() as usize)
    }

    /// The extension with an index, or none past the end.
    pub fn extension(&self, extension: ExtensionDescriptor) -> Option<&ExtensionDescriptorInner>
        ensures { option_copied result ≡ slice_get self.now.extensions.items extension.index }
    {
        self.extensions.get(extension.index() as usize)
    }

    /// The extension that the message with an index has for a number, or none where it has none, or
    /// the index is past the end.
    pub fn get_extension(
        &self,
        message: MessageDescriptor,
        number: u32,
    ) -> Option<ExtensionDescriptor>
        ensures { option_map (λ extension. extension.index) result
            ≡ number_held self.now.messages.items message.index number }
    {
        let message = self.message(message)?;
        let extension = message.extension_numbers.get(number)?;
        Some(ExtensionDescriptor::new(extension))
    }

    /// The service with an index, or none past the end.
    pub fn service(&self, service: ServiceDescriptor) -> Option<&ServiceDescriptorInner>
        ensures { option_copied result ≡ slice_get self.now.services.items service.index }
    {
        self.services.get(service.index() as usize)
    }

    /// The records of the files, in the order of their indexes.
    ///
    /// # Errors
    /// `AllocError` where memory was refused.
    pub fn records(&self, alloc: Global) -> Result<Vec<FileDescriptorProto>, AllocError>
        ensures { IfOk result (λ records. records.items ≡ files_of (contents_in self.now)) }
    {
        let mut records = Vec::new(alloc);
        for file in &self.files {
            records.push(file.raw.clone(alloc)?)?;
        }
        Ok(records)
    }

    /// Keeps the files of a batch whose names no file has, and takes no memory.
    pub fn retain_new(&self, batch: &mut Vec<FileDescriptorProto>)
        ensures { batch.new.items ≡ filter
            (λ f. not (is_some (finite.get self.now.file_names (text_of f.name)))) batch.old.items }
    {
        let names = &self.file_names;
        batch.retain(|file| names.get(file.name()).is_none());
    }
}

/// A name without one leading dot.
fn without_dot(name: &str) -> &str
    ensures { result.now ≡ without_dot name.now }
{
    match name.strip_prefix('.') {
        Some(rest) => rest,
        None => name,
    }
}
