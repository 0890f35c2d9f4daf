ghost use Rattle.descriptor_encoding.specs.Files.{file_listed, set_listed};

use crate::front::FrontBuffer;
use crate::parts::{
    Encode, put_int32s, put_message, put_messages, put_options, put_text, put_texts,
};
use proto_types::{FileDescriptorProto, FileDescriptorSet};
use std::alloc::AllocError;

impl Encode for FileDescriptorProto {
    ghost listed = { file_listed };

    #[tactic(auto, using(crate::proofs::Appending::appended))]
    fn put(&self, out: &mut FrontBuffer) -> Result<(), AllocError> {
        put_text(out, 12, &self.syntax)?;
        put_int32s(out, 11, &self.weak_dependency)?;
        put_int32s(out, 10, &self.public_dependency)?;
        put_message(out, 9, &self.source_code_info)?;
        put_options(out, 8, &self.options)?;
        put_messages(out, 7, &self.extension)?;
        put_messages(out, 6, &self.service)?;
        put_messages(out, 5, &self.enum_type)?;
        put_messages(out, 4, &self.message_type)?;
        put_texts(out, 3, &self.dependency)?;
        put_text(out, 2, &self.package)?;
        put_text(out, 1, &self.name)?;
        Ok(())
    }
}

impl Encode for FileDescriptorSet {
    ghost listed = { set_listed };

    #[tactic(auto, using(crate::proofs::Appending::appended))]
    fn put(&self, out: &mut FrontBuffer) -> Result<(), AllocError> {
        put_messages(out, 1, &self.file)?;
        Ok(())
    }
}
