ghost use Rattle.descriptor_encoding.specs.Services.{method_listed, service_listed};

use crate::front::FrontBuffer;
use crate::parts::{Encode, put_bool, put_messages, put_options, put_text};
use proto_types::{MethodDescriptorProto, ServiceDescriptorProto};
use std::alloc::AllocError;

impl Encode for MethodDescriptorProto {
    ghost listed = { method_listed };

    #[tactic(auto, using(crate::proofs::Appending::appended))]
    fn put(&self, out: &mut FrontBuffer) -> Result<(), AllocError> {
        put_bool(out, 6, self.server_streaming)?;
        put_bool(out, 5, self.client_streaming)?;
        put_options(out, 4, &self.options)?;
        put_text(out, 3, &self.output_type)?;
        put_text(out, 2, &self.input_type)?;
        put_text(out, 1, &self.name)?;
        Ok(())
    }
}

impl Encode for ServiceDescriptorProto {
    ghost listed = { service_listed };

    #[tactic(auto, using(crate::proofs::Appending::appended))]
    fn put(&self, out: &mut FrontBuffer) -> Result<(), AllocError> {
        put_options(out, 3, &self.options)?;
        put_messages(out, 2, &self.method)?;
        put_text(out, 1, &self.name)?;
        Ok(())
    }
}
