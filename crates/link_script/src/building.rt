//! Records as the statements of a script build them.

ghost use Rattle.std.specs.Prelude.{◌≡◌, [], OnOk};
ghost use Rattle.proto_types.specs.declared.message.DescriptorProto.{out-DescriptorProto};
ghost use Rattle.proto_types.specs.declared.message.DescriptorProto.{roll-DescriptorProto};
ghost use Rattle.link_script.specs.declared.script.statement.Statement.TheVariants as say;
ghost use Rattle.link_script.specs.Building.{change_last, more_said, in_file, in_message, in_enum};
ghost use Rattle.link_script.specs.Building.{in_service};

use crate::script::{SaidLocation, Statement};
use plain_data::{Items, Text};
use proto_types::{
    DescriptorProto, EnumDescriptorProto, EnumOptions, EnumReservedRange, ExtensionRange,
    FieldDescriptorProto, FieldOptions, FileDescriptorProto, Location, OneofDescriptorProto,
    Options, ReservedRange, ServiceDescriptorProto, SourceCodeInfo,
};
use std::alloc::{AllocError, Global};

/// A record whose block is open.
#[derive(Drop)]
pub enum Open {
    File(FileDescriptorProto),
    Message(DescriptorProto),
    Enum(EnumDescriptorProto),
    Service(ServiceDescriptorProto),
}

impl Open {
    ghost use Rattle.std.specs.Prelude.{Some};
    ghost use Rattle.link_script.specs.Building.{opened_by, applied, closed_in};
    ghost use Rattle.link_script.specs.declared.building.Open.TheVariants as opened;

    /// A file of which nothing but the name is said.
    pub fn file(alloc: Global, name: Option<Text>) -> Open
        ensures { Some result ≡ opened_by (say.File name) }
    {
        let mut file = FileDescriptorProto::empty(alloc);
        file.name = name;
        Open::File(file)
    }

    /// A message of which nothing but the name is said.
    pub fn message(alloc: Global, name: Option<Text>) -> Open
        ensures { Some result ≡ opened_by (say.Message name) }
    {
        let mut message = DescriptorProto::empty(alloc);
        message.name = name;
        Open::Message(message)
    }

    /// An enum of which nothing but the name is said.
    pub fn enumeration(alloc: Global, name: Option<Text>) -> Open
        ensures { Some result ≡ opened_by (say.Enum name) }
    {
        let mut opened = EnumDescriptorProto::empty(alloc);
        opened.name = name;
        Open::Enum(opened)
    }

    /// A service of which nothing but the name is said.
    pub fn service(alloc: Global, name: Option<Text>) -> Open
        ensures { Some result ≡ opened_by (say.Service name) }
    {
        let mut service = ServiceDescriptorProto::empty(alloc);
        service.name = name;
        Open::Service(service)
    }

    /// Does what a statement says of the record. `extends` tells whether an extension was stated
    /// last, of which more may be said then, or a field.
    ///
    /// # Errors
    /// `AllocError` where memory was refused.
    pub fn state(
        &mut self,
        alloc: Global,
        extends: bool,
        statement: Statement,
    ) -> Result<(), AllocError>
        ensures { OnOk result (self.new ≡ applied extends statement self.old) }
    {
        match self {
            Open::File(file) => state_in_file(alloc, file, statement),
            Open::Message(message) => state_in_message(alloc, message, extends, statement),
            Open::Enum(opened) => state_in_enum(alloc, opened, statement),
            Open::Service(service) => state_in_service(alloc, service, statement),
        }
    }

    /// Does what a location says of the record: it stands behind the others of a file.
    ///
    /// # Errors
    /// `AllocError` where memory was refused.
    pub fn locate(
        &mut self,
        alloc: Global,
        extends: bool,
        location: SaidLocation,
    ) -> Result<(), AllocError>
        ensures { OnOk result (self.new ≡ applied extends (say.At location) self.old) }
    {
        match self {
            Open::File(file) => add_location(alloc, file, location.into_record(alloc)),
            _ => self.state(alloc, extends, Statement::At(location)),
        }
    }

    /// Gives back the room of the record's lists in which nothing stands. The record is the same.
    pub fn shrunk(mut self) -> Open
        ensures { result ≡ self }
    {
        match &mut self {
            Open::File(file) => shrink_file(file),
            Open::Message(message) => shrink_message(message),
            Open::Enum(closed) => closed.value.shrink_to_fit(),
            Open::Service(service) => service.method.shrink_to_fit(),
        }
        self
    }

    /// Takes in a record whose block has closed: it stands behind the others of its list.
    ///
    /// # Errors
    /// `AllocError` where memory was refused.
    pub fn close_in(&mut self, inner: Open) -> Result<(), AllocError>
        ensures { OnOk result (self.new ≡ closed_in inner self.old) }
    {
        match inner {
            Open::Message(message) => self.close_message(message),
            Open::Enum(closed) => self.close_enum(closed),
            Open::Service(service) => self.close_service(service),
            Open::File(_file) => Ok(()),
        }
    }

    fn close_message(&mut self, message: DescriptorProto) -> Result<(), AllocError>
        ensures { OnOk result (self.new ≡ closed_in (opened.Message message) self.old) }
    {
        match self {
            Open::File(file) => file.message_type.push(message),
            Open::Message(outer) => outer.nested_type.push(message),
            _ => Ok(()),
        }
    }

    fn close_enum(&mut self, closed: EnumDescriptorProto) -> Result<(), AllocError>
        ensures { OnOk result (self.new ≡ closed_in (opened.Enum closed) self.old) }
    {
        match self {
            Open::File(file) => file.enum_type.push(closed),
            Open::Message(outer) => outer.enum_type.push(closed),
            _ => Ok(()),
        }
    }

    fn close_service(&mut self, service: ServiceDescriptorProto) -> Result<(), AllocError>
        ensures { OnOk result (self.new ≡ closed_in (opened.Service service) self.old) }
    {
        match self {
            Open::File(file) => file.service.push(service),
            _ => Ok(()),
        }
    }
}

fn state_in_file(
    alloc: Global,
    file: &mut FileDescriptorProto,
    statement: Statement,
) -> Result<(), AllocError>
    ensures { OnOk result (file.new ≡ in_file statement file.old) }
{
    match statement {
        Statement::Package(name) => file.package = name,
        Statement::Syntax(name) => file.syntax = name,
        Statement::Import(name) => file.dependency.push(name)?,
        Statement::Public(position) => file.public_dependency.push(position)?,
        Statement::Weak(position) => file.weak_dependency.push(position)?,
        Statement::At(location) => add_location(alloc, file, location.into_record(alloc))?,
        Statement::Extend(extension) => file.extension.push(extension.into_record(alloc))?,
        more => amend(alloc, &mut file.extension, more)?,
    }
    Ok(())
}

/// Puts a location behind the others of a file.
fn add_location(
    alloc: Global,
    file: &mut FileDescriptorProto,
    location: Location,
) -> Result<(), AllocError>
    ensures { OnOk result (file.new ≡ in_file (say.At location) file.old) }
{
    let none = SourceCodeInfo::empty(alloc);
    let source = file.source_code_info.get_or_insert(none);
    source.location.push(location)
}

fn state_in_message(
    alloc: Global,
    message: &mut DescriptorProto,
    extends: bool,
    statement: Statement,
) -> Result<(), AllocError>
    ensures { OnOk result (message.new
        ≡ roll-DescriptorProto (in_message extends statement (out-DescriptorProto message.old))) }
{
    match statement {
        Statement::Field(field) => message.field.push(field.into_record(alloc))?,
        Statement::Extend(extension) => message.extension.push(extension.into_record(alloc))?,
        Statement::Oneof(name) => {
            let options = None;
            message
                .oneof_decl
                .push(OneofDescriptorProto { name, options })?;
        }
        Statement::Reserved(start, end) => {
            message.reserved_range.push(ReservedRange { start, end })?;
        }
        Statement::Extensions(start, end) => {
            let options = None;
            message.extension_range.push(ExtensionRange {
                start,
                end,
                options,
            })?;
        }
        more => {
            if extends {
                amend(alloc, &mut message.extension, more)?;
            } else {
                amend(alloc, &mut message.field, more)?;
            }
        }
    }
    Ok(())
}

/// Says more of the last field or extension.
#[tactic(auto, using(crate::proofs::LastStated::change_last_end))]
fn amend(
    alloc: Global,
    fields: &mut Items<FieldDescriptorProto>,
    more: Statement,
) -> Result<(), AllocError>
    ensures { OnOk result (fields.new ≡ change_last (more_said more) fields.old) }
{
    if let Some(field) = fields.pop() {
        fields.push(with_more(alloc, field, more))?;
    }
    Ok(())
}

/// A field or an extension of which more is said.
fn with_more(
    alloc: Global,
    mut field: FieldDescriptorProto,
    more: Statement,
) -> FieldDescriptorProto
    ensures { result ≡ more_said more field }
{
    match more {
        Statement::Json(name) => field.json_name = name,
        Statement::Packed(packed) => {
            let packed = Some(packed);
            field.options = Some(options_of(alloc, FieldOptions { packed }));
        }
        Statement::Default(text) => field.default_value = Some(text),
        _other => {}
    }
    field
}

/// Options without encoded bytes, of which the value alone is said.
fn options_of<T>(alloc: Global, value: T) -> Options<T>
    ensures { result ≡ record { encoded = []; value = value } }
{
    let encoded = Items::new(alloc);
    Options { encoded, value }
}

fn state_in_enum(
    alloc: Global,
    opened: &mut EnumDescriptorProto,
    statement: Statement,
) -> Result<(), AllocError>
    ensures { OnOk result (opened.new ≡ in_enum statement opened.old) }
{
    match statement {
        Statement::Value(value) => opened.value.push(value.into_record(alloc)),
        Statement::Reserved(start, end) => {
            opened.reserved_range.push(EnumReservedRange { start, end })
        }
        Statement::Alias => {
            let allow_alias = Some(true);
            opened.options = Some(options_of(alloc, EnumOptions { allow_alias }));
            Ok(())
        }
        _ => Ok(()),
    }
}

fn state_in_service(
    alloc: Global,
    service: &mut ServiceDescriptorProto,
    statement: Statement,
) -> Result<(), AllocError>
    ensures { OnOk result (service.new ≡ in_service statement service.old) }
{
    match statement {
        Statement::Method(method) => service.method.push(method.into_record(alloc)),
        _ => Ok(()),
    }
}

/// Gives back the room of a file's lists in which nothing stands.
fn shrink_file(file: &mut FileDescriptorProto)
    ensures { file.new ≡ file.old }
{
    file.dependency.shrink_to_fit();
    file.message_type.shrink_to_fit();
    file.enum_type.shrink_to_fit();
    file.service.shrink_to_fit();
    file.extension.shrink_to_fit();
    if let Some(source) = &mut file.source_code_info {
        source.location.shrink_to_fit();
    }
}

/// Gives back the room of a message's lists in which nothing stands.
fn shrink_message(message: &mut DescriptorProto)
    ensures { message.new ≡ message.old }
{
    message.field.shrink_to_fit();
    message.nested_type.shrink_to_fit();
    message.enum_type.shrink_to_fit();
    message.extension.shrink_to_fit();
    message.oneof_decl.shrink_to_fit();
}
