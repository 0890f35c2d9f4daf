ghost use Rattle.proto_types.specs.Service.{no_method, no_service};
ghost use Rattle.descriptor_decoding.specs.Services.{method_merged, service_merged};

use crate::context::Context;
use crate::error::DecodeError;
use crate::merging::Message;
use crate::options::merge_options;
use crate::parts::{merge_bool, merge_messages, merge_text};
use proto_types::{MethodDescriptorProto, ServiceDescriptorProto};
use std::alloc::Global;
use wire_format::Field;

impl Message for MethodDescriptorProto {
    ghost nothing = { no_method };

    ghost merged = { method_merged };

    fn empty(alloc: Global) -> MethodDescriptorProto {
        MethodDescriptorProto::empty(alloc)
    }

    #[tactic(auto, unfolding(crate::specs::Services::method_merged))]
    fn merge_field(
        &mut self,
        context: Context,
        field: &Field<'_>,
        _after: &[u8],
    ) -> Result<(), DecodeError> {
        let value = &field.value;
        match field.number {
            1 => merge_text(&mut self.name, context, value),
            2 => merge_text(&mut self.input_type, context, value),
            3 => merge_text(&mut self.output_type, context, value),
            4 => merge_options(&mut self.options, context, value),
            5 => Ok(merge_bool(&mut self.client_streaming, value)),
            6 => Ok(merge_bool(&mut self.server_streaming, value)),
            _ => Ok(()),
        }
    }
}

impl Message for ServiceDescriptorProto {
    ghost nothing = { no_service };

    ghost merged = { service_merged };

    fn empty(alloc: Global) -> ServiceDescriptorProto {
        ServiceDescriptorProto::empty(alloc)
    }

    #[tactic(auto, unfolding(crate::specs::Services::service_merged))]
    fn merge_field(
        &mut self,
        context: Context,
        field: &Field<'_>,
        after: &[u8],
    ) -> Result<(), DecodeError> {
        let value = &field.value;
        match field.number {
            1 => merge_text(&mut self.name, context, value),
            2 => merge_messages(&mut self.method, context, field, after),
            3 => merge_options(&mut self.options, context, value),
            _ => Ok(()),
        }
    }
}
