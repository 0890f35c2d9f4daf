ghost use Rattle.descriptor_encoding.specs.Sources.{location_listed, source_listed};

use crate::front::FrontBuffer;
use crate::parts::{Encode, put_messages, put_packed, put_text, put_texts};
use proto_types::{Location, SourceCodeInfo};
use std::alloc::AllocError;

impl Encode for Location {
    ghost listed = { location_listed };

    #[tactic(auto, using(crate::proofs::Appending::appended))]
    fn put(&self, out: &mut FrontBuffer) -> Result<(), AllocError> {
        put_texts(out, 6, &self.leading_detached_comments)?;
        put_text(out, 4, &self.trailing_comments)?;
        put_text(out, 3, &self.leading_comments)?;
        put_packed(out, 2, &self.span)?;
        put_packed(out, 1, &self.path)?;
        Ok(())
    }
}

impl Encode for SourceCodeInfo {
    ghost listed = { source_listed };

    #[tactic(auto, using(crate::proofs::Appending::appended))]
    fn put(&self, out: &mut FrontBuffer) -> Result<(), AllocError> {
        put_messages(out, 1, &self.location)?;
        Ok(())
    }
}
