ghost use Rattle.std.specs.Prelude.{◌≡◌, Bool, ℕ};
ghost use Rattle.pool_types.specs.declared.declared.Parent.{Parent};
ghost use Rattle.pool_types.specs.Members.{stands_in, message_in, enum_in, service_in};
ghost use Rattle.pool_types.specs.Members.{extension_in};

use crate::contents::{
    EnumDescriptorInner, ExtensionDescriptorInner, MessageDescriptorInner, ServiceDescriptorInner,
};
use crate::indexes::{
    EnumDescriptor, ExtensionDescriptor, FileDescriptor, MessageDescriptor, ServiceDescriptor,
};

/// What an item stands in: a message, or a file where no message is around it.
#[derive(Clone, Copy, PartialEq, Debug)]
pub enum Parent {
    File(FileDescriptor),
    Message(MessageDescriptor),
}

impl Parent {
    /// Whether what stands in a file, and maybe in a message around it, stands in this.
    fn has(self, file: u32, around: Option<u32>) -> bool
        ensures { result ≡ stands_in self file around }
    {
        match self {
            Parent::File(parent) => parent.index() == file && around.is_none(),
            Parent::Message(parent) => around == Some(parent.index()),
        }
    }
}

/// An item that has an index of its own in a pool: a message, an enum, a service or an extension.
pub trait Declared {
    type Descriptor;

    /// The index that a descriptor is.
    ghost index_of: { Self.Descriptor → ℕ };

    /// Whether an item stands in a file or in a message.
    ghost is_in: { Parent → Self → Bool };

    /// The descriptor that is an index.
    fn descriptor(index: u32) -> Self::Descriptor
        ensures { index_of result ≡ index };

    /// Whether it stands in a file or in a message.
    fn is_in(&self, parent: Parent) -> bool
        ensures { result ≡ is_in parent self.now };
}

impl Declared for MessageDescriptorInner {
    type Descriptor = MessageDescriptor;

    ghost index_of = { λ message. message.index };

    ghost is_in = { message_in };

    fn descriptor(index: u32) -> MessageDescriptor {
        MessageDescriptor::new(index)
    }

    fn is_in(&self, parent: Parent) -> bool {
        parent.has(self.id.file, self.parent)
    }
}

impl Declared for EnumDescriptorInner {
    type Descriptor = EnumDescriptor;

    ghost index_of = { λ enumeration. enumeration.index };

    ghost is_in = { enum_in };

    fn descriptor(index: u32) -> EnumDescriptor {
        EnumDescriptor::new(index)
    }

    fn is_in(&self, parent: Parent) -> bool {
        parent.has(self.id.file, self.parent)
    }
}

impl Declared for ServiceDescriptorInner {
    type Descriptor = ServiceDescriptor;

    ghost index_of = { λ service. service.index };

    ghost is_in = { service_in };

    fn descriptor(index: u32) -> ServiceDescriptor {
        ServiceDescriptor::new(index)
    }

    fn is_in(&self, parent: Parent) -> bool {
        parent.has(self.id.file, None)
    }
}

impl Declared for ExtensionDescriptorInner {
    type Descriptor = ExtensionDescriptor;

    ghost index_of = { λ extension. extension.index };

    ghost is_in = { extension_in };

    fn descriptor(index: u32) -> ExtensionDescriptor {
        ExtensionDescriptor::new(index)
    }

    fn is_in(&self, parent: Parent) -> bool {
        parent.has(self.id.file, self.parent)
    }
}
