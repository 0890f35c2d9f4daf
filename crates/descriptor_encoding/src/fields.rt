ghost use Rattle.descriptor_encoding.specs.Fields.{field_listed};

use crate::front::FrontBuffer;
use crate::parts::{Encode, put_bool, put_int32, put_options, put_text};
use proto_types::FieldDescriptorProto;
use std::alloc::AllocError;

impl Encode for FieldDescriptorProto {
    ghost listed = { field_listed };

    #[tactic(auto, using(crate::proofs::Appending::appended))]
    fn put(&self, out: &mut FrontBuffer) -> Result<(), AllocError> {
        put_bool(out, 17, self.proto3_optional)?;
        put_text(out, 10, &self.json_name)?;
        put_int32(out, 9, self.oneof_index)?;
        put_options(out, 8, &self.options)?;
        put_text(out, 7, &self.default_value)?;
        put_text(out, 6, &self.type_name)?;
        put_int32(out, 5, self.type_)?;
        put_int32(out, 4, self.label)?;
        put_int32(out, 3, self.number)?;
        put_text(out, 2, &self.extendee)?;
        put_text(out, 1, &self.name)?;
        Ok(())
    }
}
