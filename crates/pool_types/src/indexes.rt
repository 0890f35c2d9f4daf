//! Indexes of a pool's items, each of a type of its own.

ghost use Rattle.std.specs.Prelude.{◌≡◌};

/// The index of a file, from 0 in the order of linking.
#[derive(Clone, Copy, PartialEq, Eq, Debug)]
pub struct FileDescriptor {
    pub index: u32,
}

/// The index of a message, from 0 in the order of the walk.
#[derive(Clone, Copy, PartialEq, Eq, Debug)]
pub struct MessageDescriptor {
    pub index: u32,
}

/// The index of an enum, from 0 in the order of the walk.
#[derive(Clone, Copy, PartialEq, Eq, Debug)]
pub struct EnumDescriptor {
    pub index: u32,
}

/// The index of a service, from 0 in the order of the walk.
#[derive(Clone, Copy, PartialEq, Eq, Debug)]
pub struct ServiceDescriptor {
    pub index: u32,
}

/// The index of an extension, from 0 in the order of the walk.
#[derive(Clone, Copy, PartialEq, Eq, Debug)]
pub struct ExtensionDescriptor {
    pub index: u32,
}

/// A field by its message and its position there, from 0.
#[derive(Clone, Copy, PartialEq, Eq, Debug)]
pub struct FieldDescriptor {
    pub parent: MessageDescriptor,
    pub index: u32,
}

/// A oneof by its message and its position there, from 0.
#[derive(Clone, Copy, PartialEq, Eq, Debug)]
pub struct OneofDescriptor {
    pub parent: MessageDescriptor,
    pub index: u32,
}

/// A value by its enum and its position there, from 0.
#[derive(Clone, Copy, PartialEq, Eq, Debug)]
pub struct EnumValueDescriptor {
    pub parent: EnumDescriptor,
    pub index: u32,
}

/// A method by its service and its position there, from 0.
#[derive(Clone, Copy, PartialEq, Eq, Debug)]
pub struct MethodDescriptor {
    pub parent: ServiceDescriptor,
    pub index: u32,
}

impl FileDescriptor {
    /// The file with an index.
    pub fn new(index: u32) -> FileDescriptor
        ensures { result ≡ record { index = index } }
    {
        FileDescriptor { index }
    }

    /// The index of the file.
    pub fn index(self) -> u32
        ensures { result ≡ self.index }
    {
        self.index
    }
}

impl MessageDescriptor {
    /// The message with an index.
    pub fn new(index: u32) -> MessageDescriptor
        ensures { result ≡ record { index = index } }
    {
        MessageDescriptor { index }
    }

    /// The index of the message.
    pub fn index(self) -> u32
        ensures { result ≡ self.index }
    {
        self.index
    }
}

impl EnumDescriptor {
    /// The enum with an index.
    pub fn new(index: u32) -> EnumDescriptor
        ensures { result ≡ record { index = index } }
    {
        EnumDescriptor { index }
    }

    /// The index of the enum.
    pub fn index(self) -> u32
        ensures { result ≡ self.index }
    {
        self.index
    }
}

impl ServiceDescriptor {
    /// The service with an index.
    pub fn new(index: u32) -> ServiceDescriptor
        ensures { result ≡ record { index = index } }
    {
        ServiceDescriptor { index }
    }

    /// The index of the service.
    pub fn index(self) -> u32
        ensures { result ≡ self.index }
    {
        self.index
    }
}

impl ExtensionDescriptor {
    /// The extension with an index.
    pub fn new(index: u32) -> ExtensionDescriptor
        ensures { result ≡ record { index = index } }
    {
        ExtensionDescriptor { index }
    }

    /// The index of the extension.
    pub fn index(self) -> u32
        ensures { result ≡ self.index }
    {
        self.index
    }
}

impl FieldDescriptor {
    /// The field at a position of a message.
    pub fn new(parent: MessageDescriptor, index: u32) -> FieldDescriptor
        ensures { result ≡ record { parent = parent; index = index } }
    {
        FieldDescriptor { parent, index }
    }

    /// The message that the field stands in.
    pub fn parent(self) -> MessageDescriptor
        ensures { result ≡ self.parent }
    {
        self.parent
    }

    /// The position of the field in its message.
    pub fn index(self) -> u32
        ensures { result ≡ self.index }
    {
        self.index
    }
}

impl OneofDescriptor {
    /// The oneof at a position of a message.
    pub fn new(parent: MessageDescriptor, index: u32) -> OneofDescriptor
        ensures { result ≡ record { parent = parent; index = index } }
    {
        OneofDescriptor { parent, index }
    }

    /// The message that the oneof stands in.
    pub fn parent(self) -> MessageDescriptor
        ensures { result ≡ self.parent }
    {
        self.parent
    }

    /// The position of the oneof in its message.
    pub fn index(self) -> u32
        ensures { result ≡ self.index }
    {
        self.index
    }
}

impl EnumValueDescriptor {
    /// The value at a position of an enum.
    pub fn new(parent: EnumDescriptor, index: u32) -> EnumValueDescriptor
        ensures { result ≡ record { parent = parent; index = index } }
    {
        EnumValueDescriptor { parent, index }
    }

    /// The enum that the value stands in.
    pub fn parent(self) -> EnumDescriptor
        ensures { result ≡ self.parent }
    {
        self.parent
    }

    /// The position of the value in its enum.
    pub fn index(self) -> u32
        ensures { result ≡ self.index }
    {
        self.index
    }
}

impl MethodDescriptor {
    /// The method at a position of a service.
    pub fn new(parent: ServiceDescriptor, index: u32) -> MethodDescriptor
        ensures { result ≡ record { parent = parent; index = index } }
    {
        MethodDescriptor { parent, index }
    }

    /// The service that the method stands in.
    pub fn parent(self) -> ServiceDescriptor
        ensures { result ≡ self.parent }
    {
        self.parent
    }

    /// The position of the method in its service.
    pub fn index(self) -> u32
        ensures { result ≡ self.index }
    {
        self.index
    }
}
