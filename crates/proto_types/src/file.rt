ghost use Rattle.std.specs.Prelude.{◌≡◌, IfOk};
ghost use Rattle.proto_types.specs.File.{no_file, no_file_set};
ghost use Rattle.proto_types.specs.Readers.{text_of};

use crate::message::DescriptorProto;
use crate::{
    EnumDescriptorProto, FieldDescriptorProto, Options, ServiceDescriptorProto, SourceCodeInfo,
    Unread, or_empty,
};
use plain_data::{Duplicate, Items, Numbers, Text, duplicate_option};
use std::alloc::{AllocError, Global};

/// The files of one description.
#[derive(PartialEq, Drop)]
pub struct FileDescriptorSet {
    pub file: Items<FileDescriptorProto>,
}

/// A `.proto` file.
#[derive(PartialEq, Drop)]
pub struct FileDescriptorProto {
    pub name: Option<Text>,
    pub package: Option<Text>,
    /// The names of the files that it imports.
    pub dependency: Items<Text>,
    pub message_type: Items<DescriptorProto>,
    pub enum_type: Items<EnumDescriptorProto>,
    pub service: Items<ServiceDescriptorProto>,
    pub extension: Items<FieldDescriptorProto>,
    pub options: Option<Options<Unread>>,
    pub source_code_info: Option<SourceCodeInfo>,
    /// The positions of the public imports in the list of imports, from 0.
    pub public_dependency: Numbers,
    /// The positions of the weak imports in the list of imports, from 0.
    pub weak_dependency: Numbers,
    pub syntax: Option<Text>,
}

impl FileDescriptorSet {
    /// No files, which takes no memory.
    pub fn empty(alloc: Global) -> FileDescriptorSet
        ensures { result ≡ no_file_set }
    {
        FileDescriptorSet {
            file: Items::new(alloc),
        }
    }

    /// An equal set.
    ///
    /// # Errors
    /// `AllocError` where memory was refused.
    pub fn clone(&self, alloc: Global) -> Result<FileDescriptorSet, AllocError>
        ensures { IfOk result (λ copy. copy ≡ self.now) }
    {
        Ok(FileDescriptorSet {
            file: self.file.clone(alloc)?,
        })
    }
}

impl FileDescriptorProto {
    /// A file with all parts absent or empty, which takes no memory.
    pub fn empty(alloc: Global) -> FileDescriptorProto
        ensures { result ≡ no_file }
    {
        FileDescriptorProto {
            name: None,
            package: None,
            dependency: Items::new(alloc),
            message_type: Items::new(alloc),
            enum_type: Items::new(alloc),
            service: Items::new(alloc),
            extension: Items::new(alloc),
            options: None,
            source_code_info: None,
            public_dependency: Numbers::new(alloc),
            weak_dependency: Numbers::new(alloc),
            syntax: None,
        }
    }

    /// The file's name; where it is missing, the empty text.
    pub fn name(&self) -> &str
        ensures { result.now ≡ text_of self.now.name }
    {
        or_empty(&self.name)
    }

    /// The package; where it is missing, the empty text.
    pub fn package(&self) -> &str
        ensures { result.now ≡ text_of self.now.«package» }
    {
        or_empty(&self.package)
    }

    /// An equal file.
    ///
    /// # Errors
    /// `AllocError` where memory was refused.
    pub fn clone(&self, alloc: Global) -> Result<FileDescriptorProto, AllocError>
        ensures { IfOk result (λ copy. copy ≡ self.now) }
    {
        let message_type = self.message_type.clone(alloc)?;
        let service = self.service.clone(alloc)?;
        let extension = self.extension.clone(alloc)?;
        self.with_parts(alloc, message_type, service, extension)
    }

    /// An equal file, but for its messages, its services and its extensions, which are these.
    ///
    /// # Errors
    /// `AllocError` where memory was refused.
    fn with_parts(
        &self,
        alloc: Global,
        message_type: Items<DescriptorProto>,
        service: Items<ServiceDescriptorProto>,
        extension: Items<FieldDescriptorProto>,
    ) -> Result<FileDescriptorProto, AllocError>
        ensures { IfOk result (λ f. f ≡ record self.now
            { message_type = message_type; service = service; extension = extension }) }
    {
        Ok(FileDescriptorProto {
            name: duplicate_option(alloc, &self.name)?,
            package: duplicate_option(alloc, &self.package)?,
            dependency: self.dependency.clone(alloc)?,
            message_type,
            enum_type: self.enum_type.clone(alloc)?,
            service,
            extension,
            options: duplicate_option(alloc, &self.options)?,
            source_code_info: duplicate_option(alloc, &self.source_code_info)?,
            public_dependency: self.public_dependency.clone(alloc)?,
            weak_dependency: self.weak_dependency.clone(alloc)?,
            syntax: duplicate_option(alloc, &self.syntax)?,
        })
    }
}

impl Duplicate for FileDescriptorProto {
    fn duplicate(&self, alloc: Global) -> Result<FileDescriptorProto, AllocError> {
        self.clone(alloc)
    }
}
