ghost use Rattle.proto_types.specs.Enumeration.{no_value, no_enum_range, no_enum};
ghost use Rattle.descriptor_decoding.specs.Enums.{value_merged, enum_range_merged, enum_merged};

use crate::context::Context;
use crate::error::DecodeError;
use crate::merging::Message;
use crate::options::merge_options;
use crate::parts::{merge_int32, merge_messages, merge_text, merge_texts};
use proto_types::{EnumDescriptorProto, EnumReservedRange, EnumValueDescriptorProto};
use std::alloc::Global;
use wire_format::Field;

impl Message for EnumValueDescriptorProto {
    ghost nothing = { no_value };

    ghost merged = { value_merged };

    fn empty(alloc: Global) -> EnumValueDescriptorProto {
        EnumValueDescriptorProto::empty(alloc)
    }

    #[tactic(auto, unfolding(crate::specs::Enums::value_merged))]
    fn merge_field(
        &mut self,
        context: Context,
        field: &Field<'_>,
        _after: &[u8],
    ) -> Result<(), DecodeError> {
        let value = &field.value;
        match field.number {
            1 => merge_text(&mut self.name, context, value),
            2 => Ok(merge_int32(&mut self.number, value)),
            3 => merge_options(&mut self.options, context, value),
            _ => Ok(()),
        }
    }
}

impl Message for EnumReservedRange {
    ghost nothing = { no_enum_range };

    ghost merged = { enum_range_merged };

    fn empty(alloc: Global) -> EnumReservedRange {
        EnumReservedRange::empty(alloc)
    }

    #[tactic(auto, unfolding(crate::specs::Enums::enum_range_merged))]
    fn merge_field(
        &mut self,
        _context: Context,
        field: &Field<'_>,
        _after: &[u8],
    ) -> Result<(), DecodeError> {
        let value = &field.value;
        match field.number {
            1 => Ok(merge_int32(&mut self.start, value)),
            2 => Ok(merge_int32(&mut self.end, value)),
            _ => Ok(()),
        }
    }
}

impl Message for EnumDescriptorProto {
    ghost nothing = { no_enum };

    ghost merged = { enum_merged };

    fn empty(alloc: Global) -> EnumDescriptorProto {
        EnumDescriptorProto::empty(alloc)
    }

    #[tactic(auto, unfolding(crate::specs::Enums::enum_merged))]
    fn merge_field(
        &mut self,
        context: Context,
        field: &Field<'_>,
        after: &[u8],
    ) -> Result<(), DecodeError> {
        let value = &field.value;
        match field.number {
            1 => merge_text(&mut self.name, context, value),
            2 => merge_messages(&mut self.value, context, field, after),
            3 => merge_options(&mut self.options, context, value),
            4 => merge_messages(&mut self.reserved_range, context, field, after),
            5 => merge_texts(&mut self.reserved_name, context, value),
            _ => Ok(()),
        }
    }
}
