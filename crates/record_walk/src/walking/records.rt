ghost use Rattle.std.specs.Prelude.{◌≡◌, ◌<◌, false, length, [], ◌∷◌, IsTrue, IfSome, MatchOption};
ghost use Rattle.record_walk.specs.Parts.{hold_parts};
ghost use Rattle.record_walk.specs.Walking.{parent_in, parent_of, proto_of, protos_in};

use super::part::Part;
use proto_types::{
    DescriptorProto, EnumDescriptorProto, EnumValueDescriptorProto, FieldDescriptorProto,
    MethodDescriptorProto, OneofDescriptorProto, ServiceDescriptorProto,
};

/// Records of one kind, before the index of the message, enum or service around them.
#[derive(Clone, Copy)]
pub(crate) enum Records<'a> {
    Messages(&'a [DescriptorProto], Option<u32>),
    Fields(&'a [FieldDescriptorProto], u32),
    Oneofs(&'a [OneofDescriptorProto], u32),
    Services(&'a [ServiceDescriptorProto]),
    Methods(&'a [MethodDescriptorProto], u32),
    Enums(&'a [EnumDescriptorProto], Option<u32>),
    EnumValues(&'a [EnumValueDescriptorProto], u32),
    Extensions(&'a [FieldDescriptorProto], Option<u32>),
}

impl<'a> Records<'a> {
    /// Whether they are parts of the record around them: fields, oneofs, methods or values.
    pub(crate) fn hold_parts(self) -> bool
        ensures { result ≡ hold_parts self.entry }
    {
        matches!(
            self,
            Records::Fields(..)
                | Records::Oneofs(..)
                | Records::Methods(..)
                | Records::EnumValues(..)
        )
    }

    /// The first record, and those behind it.
    // Inlined, so that the record is not written to memory.
    #[inline(always)]
    pub(crate) fn split_first(self) -> Option<(Part<'a>, Records<'a>)>
        ensures records { MatchOption result (protos_in self.entry ≡ [])
            (λ p. protos_in self.entry ≡ proto_of p.0 ∷ protos_in p.1) }
        ensures first { IfSome result (λ p. parent_of p.0 ≡ parent_in self.entry) }
        ensures rest { IfSome result (λ p. parent_in p.1 ≡ parent_in self.entry) }
    {
        match self {
            Records::Messages(messages, parent) => {
                let (first, rest) = messages.split_first()?;
                Some((
                    Part::Message(first, parent),
                    Records::Messages(rest, parent),
                ))
            }
            Records::Fields(fields, parent) => {
                let (first, rest) = fields.split_first()?;
                Some((Part::Field(first, parent), Records::Fields(rest, parent)))
            }
            Records::Oneofs(oneofs, parent) => {
                let (first, rest) = oneofs.split_first()?;
                Some((Part::Oneof(first, parent), Records::Oneofs(rest, parent)))
            }
            Records::Services(services) => {
                let (first, rest) = services.split_first()?;
                Some((Part::Service(first), Records::Services(rest)))
            }
            Records::Methods(methods, parent) => {
                let (first, rest) = methods.split_first()?;
                Some((Part::Method(first, parent), Records::Methods(rest, parent)))
            }
            Records::Enums(enums, parent) => {
                let (first, rest) = enums.split_first()?;
                Some((Part::Enum(first, parent), Records::Enums(rest, parent)))
            }
            Records::EnumValues(values, parent) => {
                let (first, rest) = values.split_first()?;
                Some((
                    Part::EnumValue(first, parent),
                    Records::EnumValues(rest, parent),
                ))
            }
            Records::Extensions(extensions, parent) => {
                let (first, rest) = extensions.split_first()?;
                Some((
                    Part::Extension(first, parent),
                    Records::Extensions(rest, parent),
                ))
            }
        }
    }

    /// Whether there are none.
    // Inlined, as `Rows::push` is.
    #[inline(always)]
    pub(crate) fn is_empty(self) -> bool
        ensures empty { IsTrue result → protos_in self.entry ≡ [] }
        ensures filled { result ≡ false → 0 < length (protos_in self.entry) }
    {
        match self {
            Records::Messages(messages, _) => messages.is_empty(),
            Records::Fields(fields, _) => fields.is_empty(),
            Records::Oneofs(oneofs, _) => oneofs.is_empty(),
            Records::Services(services) => services.is_empty(),
            Records::Methods(methods, _) => methods.is_empty(),
            Records::Enums(enums, _) => enums.is_empty(),
            Records::EnumValues(values, _) => values.is_empty(),
            Records::Extensions(extensions, _) => extensions.is_empty(),
        }
    }
}
