ghost use Rattle.proto_types.specs.File.{no_file, no_file_set};
ghost use Rattle.descriptor_decoding.specs.Files.{file_merged, file_set_merged};

use crate::context::Context;
use crate::error::DecodeError;
use crate::merging::Message;
use crate::options::merge_options;
use crate::parts::{merge_int32s, merge_message, merge_messages, merge_text, merge_texts};
use proto_types::{FileDescriptorProto, FileDescriptorSet};
use std::alloc::Global;
use wire_format::Field;

impl Message for FileDescriptorProto {
    ghost nothing = { no_file };

    ghost merged = { file_merged };

    fn empty(alloc: Global) -> FileDescriptorProto {
        FileDescriptorProto::empty(alloc)
    }

    #[tactic(auto, unfolding(crate::specs::Files::file_merged))]
    fn merge_field(
        &mut self,
        context: Context,
        field: &Field<'_>,
        after: &[u8],
    ) -> Result<(), DecodeError> {
        let value = &field.value;
        match field.number {
            1 => merge_text(&mut self.name, context, value),
            2 => merge_text(&mut self.package, context, value),
            3 => merge_texts(&mut self.dependency, context, value),
            4 => merge_messages(&mut self.message_type, context, field, after),
            5 => merge_messages(&mut self.enum_type, context, field, after),
            6 => merge_messages(&mut self.service, context, field, after),
            7 => merge_messages(&mut self.extension, context, field, after),
            8 => merge_options(&mut self.options, context, value),
            9 => merge_message(&mut self.source_code_info, context, value),
            10 => merge_int32s(&mut self.public_dependency, value),
            11 => merge_int32s(&mut self.weak_dependency, value),
            12 => merge_text(&mut self.syntax, context, value),
            _ => Ok(()),
        }
    }
}

impl Message for FileDescriptorSet {
    ghost nothing = { no_file_set };

    ghost merged = { file_set_merged };

    fn empty(alloc: Global) -> FileDescriptorSet {
        FileDescriptorSet::empty(alloc)
    }

    #[tactic(auto, unfolding(crate::specs::Files::file_set_merged))]
    fn merge_field(
        &mut self,
        context: Context,
        field: &Field<'_>,
        after: &[u8],
    ) -> Result<(), DecodeError> {
        let value = &field.value;
        match field.number {
            1 => merge_messages(&mut self.file, context, field, after),
            _ => Ok(()),
        }
    }
}
