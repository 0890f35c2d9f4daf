ghost use Rattle.std.specs.Prelude.{◌≡◌, ◌<◌, ◌^◌};
ghost use Rattle.proto_types.specs.Readers.{text_of};
ghost use Rattle.record_walk.specs.Counts.{counting};
ghost use Rattle.record_walk.specs.Protos.{name_of};
ghost use Rattle.record_walk.specs.Walking.{WithinLimits, index_at, proto_of};

use crate::counts::Counts;
use plain_data::Text;
use proto_types::{
    DescriptorProto, EnumDescriptorProto, EnumValueDescriptorProto, FieldDescriptorProto,
    MethodDescriptorProto, OneofDescriptorProto, ServiceDescriptorProto, or_empty,
};

/// A record that stands in a file, before the index of the message, enum or service around it.
#[derive(Clone, Copy)]
pub(crate) enum Part<'a> {
    Message(&'a DescriptorProto, Option<u32>),
    Field(&'a FieldDescriptorProto, u32),
    Oneof(&'a OneofDescriptorProto, u32),
    Service(&'a ServiceDescriptorProto),
    Method(&'a MethodDescriptorProto, u32),
    Enum(&'a EnumDescriptorProto, Option<u32>),
    EnumValue(&'a EnumValueDescriptorProto, u32),
    Extension(&'a FieldDescriptorProto, Option<u32>),
}

impl<'a> Part<'a> {
    /// Its name; where that is missing, the empty text.
    // Inlined, as `Site::enter` is, which needs it.
    #[inline(always)]
    pub(crate) fn name(self) -> &'a str
        ensures { result.now ≡ name_of (proto_of self.entry) }
    {
        or_empty(self.written_name())
    }

    /// The name that is written in it, if any.
    #[inline(always)]
    fn written_name(self) -> &'a Option<Text>
        ensures { text_of result.now ≡ name_of (proto_of self.entry) }
    {
        match self {
            Part::Message(message, _) => &message.name,
            Part::Field(field, _) => &field.name,
            Part::Oneof(oneof, _) => &oneof.name,
            Part::Service(service) => &service.name,
            Part::Method(method, _) => &method.name,
            Part::Enum(enumeration, _) => &enumeration.name,
            Part::EnumValue(value, _) => &value.name,
            Part::Extension(extension, _) => &extension.name,
        }
    }

    /// Counts it, and answers its index: how many of its kind were counted before, or the position
    /// where that is not counted.
    pub(crate) fn count(self, counts: &mut Counts, position: usize) -> u32
        requires short { position < 2 ^ 31 }
        requires room { WithinLimits (counting counts.old (proto_of self)) }
        ensures index { result ≡ index_at counts.old position (proto_of self.entry) }
        ensures counts { counts.new ≡ counting counts.old (proto_of self.entry) }
    {
        match self {
            Part::Message(..) => {
                counts.messages += 1;
                counts.messages - 1
            }
            Part::Service(_) => {
                counts.services += 1;
                counts.services - 1
            }
            Part::Enum(..) => {
                counts.enums += 1;
                counts.enums - 1
            }
            Part::Extension(..) => {
                counts.extensions += 1;
                counts.extensions - 1
            }
            _ => position as u32,
        }
    }
}
