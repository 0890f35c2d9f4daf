ghost use Rattle.descriptor_encoding.specs.Enums.{value_listed, enum_range_listed, enum_listed};

use crate::front::FrontBuffer;
use crate::parts::{Encode, put_int32, put_messages, put_options, put_text, put_texts};
use proto_types::{EnumDescriptorProto, EnumReservedRange, EnumValueDescriptorProto};
use std::alloc::AllocError;

impl Encode for EnumValueDescriptorProto {
    ghost listed = { value_listed };

    #[tactic(auto, using(crate::proofs::Appending::appended))]
    fn put(&self, out: &mut FrontBuffer) -> Result<(), AllocError> {
        put_options(out, 3, &self.options)?;
        put_int32(out, 2, self.number)?;
        put_text(out, 1, &self.name)?;
        Ok(())
    }
}

impl Encode for EnumReservedRange {
    ghost listed = { enum_range_listed };

    #[tactic(auto, using(crate::proofs::Appending::appended))]
    fn put(&self, out: &mut FrontBuffer) -> Result<(), AllocError> {
        put_int32(out, 2, self.end)?;
        put_int32(out, 1, self.start)?;
        Ok(())
    }
}

impl Encode for EnumDescriptorProto {
    ghost listed = { enum_listed };

    #[tactic(auto, using(crate::proofs::Appending::appended))]
    fn put(&self, out: &mut FrontBuffer) -> Result<(), AllocError> {
        put_texts(out, 5, &self.reserved_name)?;
        put_messages(out, 4, &self.reserved_range)?;
        put_options(out, 3, &self.options)?;
        put_messages(out, 2, &self.value)?;
        put_text(out, 1, &self.name)?;
        Ok(())
    }
}
