ghost use Rattle.std.specs.Prelude.{◌≡◌, IfOk};

use super::definition::Identity;
use plain_data::{Duplicate, Items};
use std::alloc::{AllocError, Global};

/// A service, with its methods in the order of their positions.
#[derive(PartialEq, Debug, Drop)]
pub struct ServiceDescriptorInner {
    pub id: Identity,
    pub methods: Items<MethodDescriptorInner>,
}

/// A method of a service.
#[derive(PartialEq, Debug, Drop)]
pub struct MethodDescriptorInner {
    pub id: Identity,
    /// The index of the message that it takes.
    pub input: u32,
    /// The index of the message that it gives.
    pub output: u32,
}

impl ServiceDescriptorInner {
    /// An equal service.
    ///
    /// # Errors
    /// `AllocError` where memory was refused.
    pub fn clone(&self, alloc: Global) -> Result<ServiceDescriptorInner, AllocError>
        ensures { IfOk result (λ copy. copy ≡ self.now) }
    {
        Ok(ServiceDescriptorInner {
            id: self.id.clone(alloc)?,
            methods: self.methods.clone(alloc)?,
        })
    }
}

impl Duplicate for ServiceDescriptorInner {
    fn duplicate(&self, alloc: Global) -> Result<ServiceDescriptorInner, AllocError> {
        self.clone(alloc)
    }
}

impl MethodDescriptorInner {
    /// An equal method.
    ///
    /// # Errors
    /// `AllocError` where memory was refused.
    pub fn clone(&self, alloc: Global) -> Result<MethodDescriptorInner, AllocError>
        ensures { IfOk result (λ copy. copy ≡ self.now) }
    {
        Ok(MethodDescriptorInner {
            id: self.id.clone(alloc)?,
            input: self.input,
            output: self.output,
        })
    }
}

impl Duplicate for MethodDescriptorInner {
    fn duplicate(&self, alloc: Global) -> Result<MethodDescriptorInner, AllocError> {
        self.clone(alloc)
    }
}
