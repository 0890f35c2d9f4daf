//! Records are linked where they stand, by the items of a pool. The items say what each reference
//! means, so nothing is looked up by its name.

ghost use Rattle.std.specs.Prelude.{◌≡◌, ◌∷◌, [], Some, IfOk, IsTrue, OnOk, slice_get};
ghost use Rattle.std.specs.Option.{option_map, option_map_or};
ghost use Rattle.proto_types.specs.Names.{join};
ghost use Rattle.proto_types.specs.Readers.{text_of};
ghost use Rattle.proto_types.specs.declared.message.DescriptorProto.{out-DescriptorProto};
ghost use Rattle.record_walk.specs.Changed.{changed_message, changed_messages, changed_fields};
ghost use Rattle.record_walk.specs.Changed.{changed_service, changed_services};
ghost use Rattle.record_walk.specs.Counts.{counted};
ghost use Rattle.record_walk.specs.Declarations.{message_walk, messages_walk, service_walk};
ghost use Rattle.record_walk.specs.Declarations.{services_walk};
ghost use Rattle.record_walk.specs.Protos.{of_extension};
ghost use Rattle.record_walk.specs.Shown.{row, shown};
ghost use Rattle.reference_pass.specs.Linked.{linking, linked_extension};
ghost use Rattle.reference_pass.specs.Linking.{Links, LinksFields, LinksFile, LinksFiles};
ghost use Rattle.reference_pass.specs.Linking.{LinksMethods, lists_of};
ghost use Rattle.reference_pass.specs.Linking.{enum_name, kind_name, kind_number, message_name};
ghost use Rattle.reference_pass.specs.Linking.{method_by, next_of, reference_by, typed_by};

use plain_data::Text;
use pool_types::{
    EnumDescriptorInner, ExtensionDescriptorInner, FieldDescriptorInner, FileDescriptorInner,
    KindIndex, MessageDescriptorInner, MethodDescriptorInner, ServiceDescriptorInner,
};
use proto_types::{
    DescriptorProto, FieldDescriptorProto, FieldType, FileDescriptorProto, MethodDescriptorProto,
    ServiceDescriptorProto,
};
use std::alloc::{AllocError, Global};

/// Writes what references mean into records, by the items of a pool.
#[derive(Clone, Copy)]
pub struct Linker<'a> {
    pub alloc: Global,
    pub messages: &'a [MessageDescriptorInner],
    pub enums: &'a [EnumDescriptorInner],
    pub services: &'a [ServiceDescriptorInner],
    pub extensions: &'a [ExtensionDescriptorInner],
}

/// The positions of the items of what is declared next.
#[derive(Clone, Copy)]
pub struct NextItems {
    pub messages: usize,
    pub services: usize,
    pub extensions: usize,
}

impl<'a> Linker<'a> {
    /// Links the records of files, whose declarations have the next items.
    ///
    /// # Errors
    /// `AllocError` where memory was refused. Some of the records may be linked then.
    pub fn link_files(
        self,
        next: &mut NextItems,
        files: &mut [FileDescriptorInner],
    ) -> Result<(), AllocError>
        ensures { OnOk result
            (LinksFiles (lists_of self.entry) next.old next.new files.old files.new) }
    {
        for index in 0..files.len() {
            self.link_file(next, &mut files[index].raw)?;
        }
        Ok(())
    }

    /// Links a file whose declarations have the next items: each type name, each extendee, and each
    /// input and output of a method becomes a dot and the full name of the item that it means, and
    /// each type that is a message or an enum gets its number.
    ///
    /// # Errors
    /// `AllocError` where memory was refused. The file may be linked in part then.
    pub fn link_file(
        self,
        next: &mut NextItems,
        file: &mut FileDescriptorProto,
    ) -> Result<(), AllocError>
        ensures { OnOk result
            (LinksFile (lists_of self.entry) next.old next.new file.old file.new) }
    {
        self.link_messages(next, file.message_type.as_mut_slice())?;
        self.link_services(next, file.service.as_mut_slice())?;
        self.link_extensions(next, file.extension.as_mut_slice())
    }

    #[cycle(link)]
    fn link_messages(
        self,
        next: &mut NextItems,
        messages: &mut [DescriptorProto],
    ) -> Result<(), AllocError>
        ensures { OnOk result (Links (lists_of self.entry) next.old next.new
            (λ here tag _ base. messages_walk here tag 0 base messages.old)
            (λ s here. changed_messages (linking s) here.file here.scope messages.old)
            messages.new) }
    {
        for index in 0..messages.len() {
            self.link_message(next, &mut messages[index])?;
        }
        Ok(())
    }

    /// Links a message, with its fields, its nested messages and its extensions.
    #[cycle(link)]
    fn link_message(
        self,
        next: &mut NextItems,
        message: &mut DescriptorProto,
    ) -> Result<(), AllocError>
        ensures { OnOk result (Links (lists_of self.entry) next.old next.new
            (λ here tag position base. message_walk here tag position base message.old)
            (λ s here. changed_message (linking s) here.file
            (join here.scope (text_of (out-DescriptorProto message.old).name)) message.old)
            message.new) }
    {
        let Some(item) = self.messages.get(next.messages) else {
            return Ok(());
        };
        next.messages += 1;
        self.link_fields(item.fields.as_slice(), message.field.as_mut_slice())?;
        self.link_messages(next, message.nested_type.as_mut_slice())?;
        self.link_extensions(next, message.extension.as_mut_slice())
    }

    /// Links fields, each by the item in its position.
    fn link_fields(
        self,
        items: &[FieldDescriptorInner],
        fields: &mut [FieldDescriptorProto],
    ) -> Result<(), AllocError>
        ensures { OnOk result (LinksFields (lists_of self.entry) items.now fields.old fields.new) }
    {
        for index in 0..fields.len() {
            self.link_field(items, index, &mut fields[index])?;
        }
        Ok(())
    }

    /// Links a field by the item in a position, where there is one.
    fn link_field(
        self,
        items: &[FieldDescriptorInner],
        position: usize,
        field: &mut FieldDescriptorProto,
    ) -> Result<(), AllocError>
        ensures { OnOk result (field.new ≡ option_map_or
            (λ item. typed_by (lists_of self.entry) item.kind field.old)
            (slice_get items.now position) field.old) }
    {
        match items.get(position) {
            Some(item) => self.link_type(item.kind, field),
            None => Ok(()),
        }
    }

    /// Writes the name and the number of the type of a field or an extension, which is of a kind.
    /// What has no type name stays as it is.
    fn link_type(self, kind: KindIndex, field: &mut FieldDescriptorProto) -> Result<(), AllocError>
        ensures { OnOk result (field.new ≡ typed_by (lists_of self.entry) kind field.old) }
    {
        if field.type_name().is_empty() {
            return Ok(());
        }
        if let Some(name) = self.kind_name(kind) {
            write_dotted(self.alloc, name, &mut field.type_name)?;
            field.type_ = kind_number(field.field_type(), kind, field.type_);
        }
        Ok(())
    }

    fn link_extensions(
        self,
        next: &mut NextItems,
        extensions: &mut [FieldDescriptorProto],
    ) -> Result<(), AllocError>
        ensures { OnOk result (Links (lists_of self.entry) next.old next.new
            (λ here tag _ base. row of_extension here tag 0 base.extensions extensions.old)
            (λ s here. changed_fields (linked_extension s) here.file here.scope extensions.old)
            extensions.new) }
    {
        for index in 0..extensions.len() {
            self.link_extension(next, &mut extensions[index])?;
        }
        Ok(())
    }

    /// Links an extension: the message that it extends, and its type.
    fn link_extension(
        self,
        next: &mut NextItems,
        extension: &mut FieldDescriptorProto,
    ) -> Result<(), AllocError>
        ensures { OnOk result (Links (lists_of self.entry) next.old next.new
            (λ here tag position base.
            shown here tag position base.extensions (of_extension extension.old) ∷ [])
            (λ s here. linked_extension s here.file
            (join here.scope (text_of extension.old.name)) extension.old) extension.new) }
    {
        let Some(item) = self.extensions.get(next.extensions) else {
            return Ok(());
        };
        next.extensions += 1;
        self.link_reference(item.extendee, &mut extension.extendee)?;
        self.link_type(item.kind, extension)
    }

    fn link_services(
        self,
        next: &mut NextItems,
        services: &mut [ServiceDescriptorProto],
    ) -> Result<(), AllocError>
        ensures { OnOk result (Links (lists_of self.entry) next.old next.new
            (λ here _ _ base. services_walk here 0 base.services services.old)
            (λ s here. changed_services (linking s) here.file here.scope services.old)
            services.new) }
    {
        for index in 0..services.len() {
            self.link_service(next, &mut services[index])?;
        }
        Ok(())
    }

    /// Links a service, with its methods.
    fn link_service(
        self,
        next: &mut NextItems,
        service: &mut ServiceDescriptorProto,
    ) -> Result<(), AllocError>
        ensures { OnOk result (Links (lists_of self.entry) next.old next.new
            (λ here _ position base. service_walk here position base.services service.old)
            (λ s here. changed_service (linking s) here.file
            (join here.scope (text_of service.old.name)) service.old) service.new) }
    {
        let Some(item) = self.services.get(next.services) else {
            return Ok(());
        };
        next.services += 1;
        self.link_methods(item.methods.as_slice(), service.method.as_mut_slice())
    }

    /// Links methods, each by the item in its position.
    fn link_methods(
        self,
        items: &[MethodDescriptorInner],
        methods: &mut [MethodDescriptorProto],
    ) -> Result<(), AllocError>
        ensures { OnOk result
            (LinksMethods (lists_of self.entry) items.now methods.old methods.new) }
    {
        for index in 0..methods.len() {
            self.link_method(items, index, &mut methods[index])?;
        }
        Ok(())
    }

    /// Links a method by the item in a position, where there is one.
    fn link_method(
        self,
        items: &[MethodDescriptorInner],
        position: usize,
        method: &mut MethodDescriptorProto,
    ) -> Result<(), AllocError>
        ensures { OnOk result (method.new ≡ option_map_or
            (λ item. method_by (lists_of self.entry) item method.old)
            (slice_get items.now position) method.old) }
    {
        let Some(item) = items.get(position) else {
            return Ok(());
        };
        self.link_reference(item.input, &mut method.input_type)?;
        self.link_reference(item.output, &mut method.output_type)
    }

    /// Writes a dot and the full name of the message with an index, where there is one.
    fn link_reference(self, message: u32, reference: &mut Option<Text>) -> Result<(), AllocError>
        ensures { OnOk result (reference.new
            ≡ reference_by (lists_of self.entry) message reference.old) }
    {
        if let Some(name) = self.message_name(message) {
            write_dotted(self.alloc, name, reference)?;
        }
        Ok(())
    }

    /// The full name of the message or the enum that a type is, where it is one.
    fn kind_name(self, kind: KindIndex) -> Option<&'a str>
        ensures { option_map (λ name. name.now) result ≡ kind_name (lists_of self.entry) kind }
    {
        match kind {
            KindIndex::Message(index) | KindIndex::Group(index) => self.message_name(index),
            KindIndex::Enum(index) => self.enum_name(index),
            _ => None,
        }
    }

    /// The full name of the message with an index, where there is one.
    fn message_name(self, index: u32) -> Option<&'a str>
        ensures { option_map (λ name. name.now) result ≡ message_name (lists_of self.entry) index }
    {
        let message = self.messages.get(index as usize)?;
        Some(message.id.full_name())
    }

    /// The full name of the enum with an index, where there is one.
    fn enum_name(self, index: u32) -> Option<&'a str>
        ensures { option_map (λ name. name.now) result ≡ enum_name (lists_of self.entry) index }
    {
        let enumeration = self.enums.get(index as usize)?;
        Some(enumeration.id.full_name())
    }
}

/// The number of a type by descriptor.proto. A group keeps its own.
fn kind_number(written: FieldType, kind: KindIndex, given: Option<i32>) -> Option<i32>
    ensures { result ≡ kind_number written kind given }
{
    match (written, kind) {
        (FieldType::Group, _) => given,
        (_, KindIndex::Message(_)) => Some(11),
        (_, KindIndex::Enum(_)) => Some(14),
        _ => given,
    }
}

/// Makes a reference a dot and a full name. One that is so already stays, without a copy.
fn write_dotted(
    alloc: Global,
    full_name: &str,
    reference: &mut Option<Text>,
) -> Result<(), AllocError>
    ensures { OnOk result (reference.new ≡ Some (46 ∷ full_name.now)) }
{
    if is_dotted(reference, full_name) {
        return Ok(());
    }
    let name = dotted(alloc, full_name)?;
    *reference = Some(name);
    Ok(())
}

/// Whether a reference is a dot and a full name.
fn is_dotted(reference: &Option<Text>, full_name: &str) -> bool
    ensures { IsTrue result → reference.now ≡ Some (46 ∷ full_name.now) }
{
    let Some(name) = reference else {
        return false;
    };
    match name.as_str().as_bytes().split_first() {
        Some((first, rest)) => *first == b'.' && rest == full_name.as_bytes(),
        None => false,
    }
}

/// A dot and a full name.
fn dotted(alloc: Global, full_name: &str) -> Result<Text, AllocError>
    ensures { IfOk result (λ name. name ≡ 46 ∷ full_name.now) }
{
    let mut name = String::with_capacity(alloc, full_name.len().saturating_add(1))?;
    name.push('.')?;
    name.push_str(full_name)?;
    Ok(Text::from_string(name))
}
