ghost use Rattle.std.specs.Prelude.{◌≡◌, ◌++◌, map};
ghost use Rattle.descriptor_encoding.specs.Wire.{Puts};
ghost use Rattle.descriptor_encoding.specs.Parts.{messages_listed};
ghost use Rattle.descriptor_encoding.specs.Messages.{descriptor_listed, oneof_listed};
ghost use Rattle.descriptor_encoding.specs.Messages.{extension_range_listed, reserved_range_listed};

use crate::front::FrontBuffer;
use crate::parts::{Encode, put_int32, put_messages, put_options, put_text, put_texts};
use crate::wire::put_length;
use plain_data::Items;
use proto_types::{DescriptorProto, ExtensionRange, OneofDescriptorProto, ReservedRange};
use std::alloc::AllocError;

impl Encode for OneofDescriptorProto {
    ghost listed = { oneof_listed };

    #[tactic(auto, using(crate::proofs::Appending::appended))]
    fn put(&self, out: &mut FrontBuffer) -> Result<(), AllocError> {
        put_options(out, 2, &self.options)?;
        put_text(out, 1, &self.name)?;
        Ok(())
    }
}

impl Encode for ExtensionRange {
    ghost listed = { extension_range_listed };

    #[tactic(auto, using(crate::proofs::Appending::appended))]
    fn put(&self, out: &mut FrontBuffer) -> Result<(), AllocError> {
        put_options(out, 3, &self.options)?;
        put_int32(out, 2, self.end)?;
        put_int32(out, 1, self.start)?;
        Ok(())
    }
}

impl Encode for ReservedRange {
    ghost listed = { reserved_range_listed };

    #[tactic(auto, using(crate::proofs::Appending::appended))]
    fn put(&self, out: &mut FrontBuffer) -> Result<(), AllocError> {
        put_int32(out, 2, self.end)?;
        put_int32(out, 1, self.start)?;
        Ok(())
    }
}

impl Encode for DescriptorProto {
    ghost listed = { descriptor_listed };

    fn put(&self, out: &mut FrontBuffer) -> Result<(), AllocError> {
        put_descriptor(self, out)
    }
}

/// Puts a message's fields in front of the bytes.
#[cycle(message)]
fn put_descriptor(message: &DescriptorProto, out: &mut FrontBuffer) -> Result<(), AllocError>
    ensures { Puts result out.old out.new (descriptor_listed message.now) }
{
    put_texts(out, 10, &message.reserved_name)?;
    put_messages(out, 9, &message.reserved_range)?;
    put_messages(out, 8, &message.oneof_decl)?;
    put_options(out, 7, &message.options)?;
    put_messages(out, 6, &message.extension)?;
    put_messages(out, 5, &message.extension_range)?;
    put_messages(out, 4, &message.enum_type)?;
    put_nested(out, &message.nested_type)?;
    put_messages(out, 2, &message.field)?;
    put_text(out, 1, &message.name)?;
    Ok(())
}

/// Puts the messages in a message. No cycle of calls can go through the trait, so `put_messages`
/// does not serve here.
#[cycle(message)]
#[tactic(auto, using(crate::proofs::Appending::measured, crate::proofs::Appending::one_more))]
fn put_nested(out: &mut FrontBuffer, items: &Items<DescriptorProto>) -> Result<(), AllocError>
    ensures { Puts result out.old out.new
        (messages_listed 3 (map descriptor_listed items.now)) }
{
    let messages = items.as_slice();
    let mut left = messages.len();
    while left > 0 {
        left -= 1;
        let behind = out.len();
        put_descriptor(&messages[left], out)?;
        put_length(out, 3, behind)?;
    }
    Ok(())
}
