ghost use Rattle.proto_types.specs.Field.{no_field};
ghost use Rattle.descriptor_decoding.specs.Fields.{field_merged};

use crate::context::Context;
use crate::error::DecodeError;
use crate::merging::Message;
use crate::options::merge_options;
use crate::parts::{merge_bool, merge_int32, merge_text};
use proto_types::FieldDescriptorProto;
use std::alloc::Global;
use wire_format::Field;

impl Message for FieldDescriptorProto {
    ghost nothing = { no_field };

    ghost merged = { field_merged };

    fn empty(alloc: Global) -> FieldDescriptorProto {
        FieldDescriptorProto::empty(alloc)
    }

    #[tactic(auto, unfolding(crate::specs::Fields::field_merged))]
    fn merge_field(
        &mut self,
        context: Context,
        field: &Field<'_>,
        _after: &[u8],
    ) -> Result<(), DecodeError> {
        let value = &field.value;
        match field.number {
            1 => merge_text(&mut self.name, context, value),
            2 => merge_text(&mut self.extendee, context, value),
            3 => Ok(merge_int32(&mut self.number, value)),
            4 => Ok(merge_int32(&mut self.label, value)),
            5 => Ok(merge_int32(&mut self.type_, value)),
            6 => merge_text(&mut self.type_name, context, value),
            7 => merge_text(&mut self.default_value, context, value),
            8 => merge_options(&mut self.options, context, value),
            9 => Ok(merge_int32(&mut self.oneof_index, value)),
            10 => merge_text(&mut self.json_name, context, value),
            17 => Ok(merge_bool(&mut self.proto3_optional, value)),
            _ => Ok(()),
        }
    }
}
