ghost use Rattle.std.specs.Prelude.{◌≡◌};
ghost use Rattle.pool_types.specs.Contents.{no_contents};
ghost use Rattle.pool_contents.specs.Inner.{contents_in};

use name_tables::{FileNames, PoolNames};
use pool_types::{
    EnumDescriptorInner, ExtensionDescriptorInner, FileDescriptorInner, MessageDescriptorInner,
    ServiceDescriptorInner,
};
use std::alloc::Global;

/// What a pool holds: the items of each kind in the order of their indexes, what the names mean
/// that the files enter, and which file has which name.
#[derive(Drop)]
pub struct DescriptorPoolInner {
    pub files: Vec<FileDescriptorInner>,
    pub messages: Vec<MessageDescriptorInner>,
    pub enums: Vec<EnumDescriptorInner>,
    pub services: Vec<ServiceDescriptorInner>,
    pub extensions: Vec<ExtensionDescriptorInner>,
    pub names: PoolNames,
    pub file_names: FileNames,
}

impl DescriptorPoolInner {
    /// What a pool without files holds, which takes no memory.
    pub fn new(alloc: Global) -> DescriptorPoolInner
        ensures { contents_in result ≡ no_contents }
    {
        DescriptorPoolInner {
            files: Vec::new(alloc),
            messages: Vec::new(alloc),
            enums: Vec::new(alloc),
            services: Vec::new(alloc),
            extensions: Vec::new(alloc),
            names: PoolNames::new(alloc),
            file_names: FileNames::new(alloc),
        }
    }
}
