ghost use Rattle.std.specs.Prelude.{◌≡◌, IfOk};
ghost use Rattle.proto_types.specs.Service.{no_service, no_method};
ghost use Rattle.proto_types.specs.Readers.{text_of};

use super::options::{Options, Unread};
use crate::text;
use plain_data::{Duplicate, Items, Text, duplicate_option};
use std::alloc::{AllocError, Global};

/// A service.
#[derive(PartialEq, Drop)]
pub struct ServiceDescriptorProto {
    pub name: Option<Text>,
    pub method: Items<MethodDescriptorProto>,
    pub options: Option<Options<Unread>>,
}

/// A method of a service.
#[derive(PartialEq, Drop)]
pub struct MethodDescriptorProto {
    pub name: Option<Text>,
    pub input_type: Option<Text>,
    pub output_type: Option<Text>,
    pub options: Option<Options<Unread>>,
    pub client_streaming: Option<bool>,
    pub server_streaming: Option<bool>,
}

impl ServiceDescriptorProto {
    /// A service with all parts absent or empty, which takes no memory.
    pub fn empty(alloc: Global) -> ServiceDescriptorProto
        ensures { result ≡ no_service }
    {
        ServiceDescriptorProto {
            name: None,
            method: Items::new(alloc),
            options: None,
        }
    }

    /// The service's name; where it is missing, the empty text.
    pub fn name(&self) -> &str
        ensures { result.now ≡ text_of self.now.name }
    {
        text::or_empty(&self.name)
    }

    /// An equal service.
    ///
    /// # Errors
    /// `AllocError` where memory was refused.
    pub fn clone(&self, alloc: Global) -> Result<ServiceDescriptorProto, AllocError>
        ensures { IfOk result (λ copy. copy ≡ self.now) }
    {
        Ok(ServiceDescriptorProto {
            name: duplicate_option(alloc, &self.name)?,
            method: self.method.clone(alloc)?,
            options: duplicate_option(alloc, &self.options)?,
        })
    }
}

impl MethodDescriptorProto {
    /// A method with all parts absent, which takes no memory.
    pub fn empty(_alloc: Global) -> MethodDescriptorProto
        ensures { result ≡ no_method }
    {
        MethodDescriptorProto {
            name: None,
            input_type: None,
            output_type: None,
            options: None,
            client_streaming: None,
            server_streaming: None,
        }
    }

    /// The method's name; where it is missing, the empty text.
    pub fn name(&self) -> &str
        ensures { result.now ≡ text_of self.now.name }
    {
        text::or_empty(&self.name)
    }

    /// The name of the message that the method takes; where it is missing, the empty text.
    pub fn input_type(&self) -> &str
        ensures { result.now ≡ text_of self.now.input_type }
    {
        text::or_empty(&self.input_type)
    }

    /// The name of the message that the method answers; where it is missing, the empty text.
    pub fn output_type(&self) -> &str
        ensures { result.now ≡ text_of self.now.output_type }
    {
        text::or_empty(&self.output_type)
    }

    /// An equal method.
    ///
    /// # Errors
    /// `AllocError` where memory was refused.
    pub fn clone(&self, alloc: Global) -> Result<MethodDescriptorProto, AllocError>
        ensures { IfOk result (λ copy. copy ≡ self.now) }
    {
        Ok(MethodDescriptorProto {
            name: duplicate_option(alloc, &self.name)?,
            input_type: duplicate_option(alloc, &self.input_type)?,
            output_type: duplicate_option(alloc, &self.output_type)?,
            options: duplicate_option(alloc, &self.options)?,
            client_streaming: self.client_streaming,
            server_streaming: self.server_streaming,
        })
    }
}

impl Duplicate for ServiceDescriptorProto {
    fn duplicate(&self, alloc: Global) -> Result<ServiceDescriptorProto, AllocError> {
        self.clone(alloc)
    }
}

impl Duplicate for MethodDescriptorProto {
    fn duplicate(&self, alloc: Global) -> Result<MethodDescriptorProto, AllocError> {
        self.clone(alloc)
    }
}
