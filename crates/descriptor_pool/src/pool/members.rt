//! What stands in a file or in a message of a pool, and all items of a kind.

ghost use Rattle.std.specs.Prelude.{◌≡◌};
ghost use Rattle.std.specs.List.{All};
ghost use Rattle.field_rules.specs.NamesBegin.{EnumNamesBegin};
ghost use Rattle.descriptor_pool.specs.Maps.{MapsLead, ValuesLead};
ghost use Rattle.reference_pass.specs.NamesBegin.{ExtensionNameBegins, MessageNamesBegin};
ghost use Rattle.reference_pass.specs.NamesBegin.{ServiceNamesBegin};
ghost use Rattle.pool_types.specs.Members.{members, message_in, enum_in, service_in, extension_in};
ghost use Rattle.pool_types.specs.declared.declared.Parent.TheVariants as parent;

use super::DescriptorPool;
use pool_types::{
    EnumDescriptorInner, ExtensionDescriptorInner, FileDescriptor, Members, MessageDescriptor,
    MessageDescriptorInner, Parent, ServiceDescriptorInner,
};

impl DescriptorPool {
    /// All messages of the pool, by their indexes. The name of each, and of each of its fields and
    /// oneofs, begins in the full name where a character begins. The maps of each lead to its
    /// fields, and its oneofs list the fields in them.
    pub fn messages(&self) -> &[MessageDescriptorInner]
        ensures items { result.now ≡ self.now.messages }
        ensures names { All MessageNamesBegin self.now.messages }
        ensures maps { All MapsLead self.now.messages }
    {
        self.inner.messages.as_slice()
    }

    /// All enums of the pool, by their indexes. The name of each, and of each of its values, begins
    /// in the full name where a character begins. The map and the table of each lead to its values.
    pub fn enums(&self) -> &[EnumDescriptorInner]
        ensures items { result.now ≡ self.now.enums }
        ensures names { All EnumNamesBegin self.now.enums }
        ensures values { All ValuesLead self.now.enums }
    {
        self.inner.enums.as_slice()
    }

    /// All services of the pool, by their indexes. The name of each, and of each of its methods,
    /// begins in the full name where a character begins.
    pub fn services(&self) -> &[ServiceDescriptorInner]
        ensures items { result.now ≡ self.now.services }
        ensures names { All ServiceNamesBegin self.now.services }
    {
        self.inner.services.as_slice()
    }

    /// All extensions of the pool, by their indexes. The name of each begins in the full name where
    /// a character begins.
    pub fn extensions(&self) -> &[ExtensionDescriptorInner]
        ensures items { result.now ≡ self.now.extensions }
        ensures names { All ExtensionNameBegins self.now.extensions }
    {
        self.inner.extensions.as_slice()
    }

    /// The messages of a file that stand in no message, in order.
    pub fn file_messages(&self, file: FileDescriptor) -> Members<'_, MessageDescriptorInner>
        ensures { result ≡ members (message_in (parent.File file)) self.now.messages }
    {
        Members::new(self.inner.messages.as_slice(), Parent::File(file))
    }

    /// The enums of a file that stand in no message, in order.
    pub fn file_enums(&self, file: FileDescriptor) -> Members<'_, EnumDescriptorInner>
        ensures { result ≡ members (enum_in (parent.File file)) self.now.enums }
    {
        Members::new(self.inner.enums.as_slice(), Parent::File(file))
    }

    /// The services of a file, in order.
    pub fn file_services(&self, file: FileDescriptor) -> Members<'_, ServiceDescriptorInner>
        ensures { result ≡ members (service_in (parent.File file)) self.now.services }
    {
        Members::new(self.inner.services.as_slice(), Parent::File(file))
    }

    /// The extensions that a file declares and that stand in no message, in order.
    pub fn file_extensions(&self, file: FileDescriptor) -> Members<'_, ExtensionDescriptorInner>
        ensures { result ≡ members (extension_in (parent.File file)) self.now.extensions }
    {
        Members::new(self.inner.extensions.as_slice(), Parent::File(file))
    }

    /// The messages that stand in a message, in order, without those that stand in one of them.
    pub fn child_messages(&self, message: MessageDescriptor) -> Members<'_, MessageDescriptorInner>
        ensures { result ≡ members (message_in (parent.Message message)) self.now.messages }
    {
        Members::new(self.inner.messages.as_slice(), Parent::Message(message))
    }

    /// The enums that stand in a message, in order, without those of the messages in it.
    pub fn child_enums(&self, message: MessageDescriptor) -> Members<'_, EnumDescriptorInner>
        ensures { result ≡ members (enum_in (parent.Message message)) self.now.enums }
    {
        Members::new(self.inner.enums.as_slice(), Parent::Message(message))
    }

    /// The extensions that stand in a message, in order, without those of the messages in it. What
    /// they extend is another matter.
    pub fn child_extensions(
        &self,
        message: MessageDescriptor,
    ) -> Members<'_, ExtensionDescriptorInner>
        ensures { result ≡ members (extension_in (parent.Message message)) self.now.extensions }
    {
        Members::new(self.inner.extensions.as_slice(), Parent::Message(message))
    }
}
