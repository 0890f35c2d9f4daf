//! Records by the parts that a line can say, which take less room than whole ones. Contracts see
//! each as the record, of which nothing else is said.

ghost use Rattle.std.specs.Prelude.{◌≡◌};

use plain_data::{Numbers, Text};
use proto_types::{
    EnumValueDescriptorProto, FieldDescriptorProto, Location, MethodDescriptorProto,
};
use std::alloc::Global;
use std::marker::Model;

/// A location of the source, by its path and its span.
#[derive(Drop)]
pub struct SaidLocation {
    pub path: Numbers,
    pub span: Numbers,
}

impl Model for SaidLocation {
    ghost use Rattle.proto_types.specs.Source.{no_location};
    ghost use Rattle.proto_types.specs.declared.records.source.Location.{Location};

    ghost Value = { Location };

    ghost view = { λ l. record no_location { path = l.path; span = l.span } };
}

impl SaidLocation {
    /// The whole record.
    pub fn into_record(self, alloc: Global) -> Location
        ensures { result ≡ self }
    {
        let SaidLocation { path, span } = self;
        Location {
            path,
            span,
            ..Location::empty(alloc)
        }
    }
}

/// A value of an enum, by its name and its number.
#[derive(Drop)]
pub struct SaidValue {
    pub name: Option<Text>,
    pub number: Option<i32>,
}

impl Model for SaidValue {
    ghost use Rattle.proto_types.specs.Enumeration.{no_value};
    ghost use Rattle.proto_types.specs.declared.records.enumeration.EnumValueDescriptorProto.{EnumValueDescriptorProto};

    ghost Value = { EnumValueDescriptorProto };

    ghost view = { λ v. record no_value { name = v.name; number = v.number } };
}

impl SaidValue {
    /// The whole record.
    pub fn into_record(self, alloc: Global) -> EnumValueDescriptorProto
        ensures { result ≡ self }
    {
        let SaidValue { name, number } = self;
        EnumValueDescriptorProto {
            name,
            number,
            ..EnumValueDescriptorProto::empty(alloc)
        }
    }
}

/// A method of a service, by its name and the names of its types.
#[derive(Drop)]
pub struct SaidMethod {
    pub name: Option<Text>,
    pub input_type: Option<Text>,
    pub output_type: Option<Text>,
}

impl Model for SaidMethod {
    ghost use Rattle.proto_types.specs.Service.{no_method};
    ghost use Rattle.proto_types.specs.declared.records.service.MethodDescriptorProto.{MethodDescriptorProto};

    ghost Value = { MethodDescriptorProto };

    ghost view = { λ m. record no_method {
      name = m.name;
      input_type = m.input_type;
      output_type = m.output_type;
    } };
}

impl SaidMethod {
    /// The whole record.
    pub fn into_record(self, alloc: Global) -> MethodDescriptorProto
        ensures { result ≡ self }
    {
        let SaidMethod {
            name,
            input_type,
            output_type,
        } = self;
        MethodDescriptorProto {
            name,
            input_type,
            output_type,
            ..MethodDescriptorProto::empty(alloc)
        }
    }
}

/// A field of a message, by its name, number, label and type, and the index of its oneof.
#[derive(Drop)]
pub struct SaidField {
    pub name: Option<Text>,
    pub number: Option<i32>,
    pub label: Option<i32>,
    pub type_: Option<i32>,
    pub type_name: Option<Text>,
    pub oneof_index: Option<i32>,
}

impl Model for SaidField {
    ghost use Rattle.proto_types.specs.Field.{no_field};
    ghost use Rattle.proto_types.specs.declared.records.field.FieldDescriptorProto.{FieldDescriptorProto};

    ghost Value = { FieldDescriptorProto };

    ghost view = { λ f. record no_field {
      name = f.name;
      number = f.number;
      label = f.label;
      type_ = f.type_;
      type_name = f.type_name;
      oneof_index = f.oneof_index;
    } };
}

impl SaidField {
    /// The whole record.
    pub fn into_record(self, alloc: Global) -> FieldDescriptorProto
        ensures { result ≡ self }
    {
        let SaidField {
            name,
            number,
            label,
            type_,
            type_name,
            oneof_index,
        } = self;
        FieldDescriptorProto {
            name,
            number,
            label,
            type_,
            type_name,
            oneof_index,
            ..FieldDescriptorProto::empty(alloc)
        }
    }
}

/// An extension, by what it has in common with a field, and its extendee.
#[derive(Drop)]
pub struct SaidExtension {
    pub field: SaidField,
    pub extendee: Option<Text>,
}

impl Model for SaidExtension {
    ghost use Rattle.proto_types.specs.declared.records.field.FieldDescriptorProto.{FieldDescriptorProto};

    ghost Value = { FieldDescriptorProto };

    ghost view = { λ e. record e.field { extendee = e.extendee } };
}

impl SaidExtension {
    /// The whole record.
    pub fn into_record(self, alloc: Global) -> FieldDescriptorProto
        ensures { result ≡ self }
    {
        let SaidExtension { field, extendee } = self;
        FieldDescriptorProto {
            extendee,
            ..field.into_record(alloc)
        }
    }
}
