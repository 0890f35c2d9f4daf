//! What options say that no record holds, read of their bytes.

ghost use Rattle.std.specs.Prelude.{◌≡◌, Bool, Result};
ghost use Rattle.wire_format.specs.declared.fault.WireFault.{WireFault};
ghost use Rattle.wire_format.specs.Reading.{Reads};
ghost use Rattle.proto_types.specs.declared.message.DescriptorProto.{out-DescriptorProto};
ghost use Rattle.descriptor_decoding.specs.Flags.{flag_of, flag_in};
ghost use Rattle.descriptor_decoding.specs.Flags.{says_map_entry, says_message_set};

use crate::decoding::LEVELS;
use crate::parts::merge_bool;
use proto_types::{
    DescriptorProto, EnumDescriptorProto, EnumValueDescriptorProto, FieldDescriptorProto,
    FileDescriptorProto, MethodDescriptorProto, Options, ServiceDescriptorProto,
};
use wire_format::{WireFault, next_field};

/// The last truth value with a number in the bytes of options.
#[tactic(auto, unfolding(crate::specs::Flags::flag_merged))]
fn last_flag(number: u32, bytes: &[u8]) -> Result<Option<bool>, WireFault>
    ensures { Reads (λ x. x) result (flag_of number bytes.now) }
{
    let mut flag = None;
    let mut rest = bytes;
    while let Some((field, after)) = next_field(LEVELS, bytes.len(), rest)? {
        if field.number == number {
            merge_bool(&mut flag, &field.value);
        }
        rest = after;
    }
    Ok(flag)
}

/// The truth value with a number in options; where it is missing, false.
fn flag<T>(number: u32, options: &Option<Options<T>>) -> Result<bool, WireFault>
    ensures { Reads (λ x. x) result (flag_in number options.now) }
{
    match options {
        Some(options) => Ok(last_flag(number, options.encoded.as_slice())?.unwrap_or(false)),
        None => Ok(false),
    }
}

/// Whether a message is an entry of a map.
///
/// # Errors
/// The first fault of the options' bytes, which options that were decoded do not have.
pub fn is_map_entry(message: &DescriptorProto) -> Result<bool, WireFault>
    ensures { Reads (λ x. x) result (flag_in 7 (out-DescriptorProto message.now).options) }
{
    flag(7, &message.options)
}

/// Whether a message is a message set on the wire.
///
/// # Errors
/// Those of `is_map_entry`.
pub fn is_message_set(message: &DescriptorProto) -> Result<bool, WireFault>
    ensures { Reads (λ x. x) result (flag_in 1 (out-DescriptorProto message.now).options) }
{
    flag(1, &message.options)
}

/// Whether the options of a message say that it is an entry of a map; wrong bytes say nothing.
pub fn says_map_entry(message: &DescriptorProto) -> bool
    ensures { result ≡ says_map_entry message.now }
{
    is_map_entry(message).unwrap_or(false)
}

/// Whether the options of a message say that it is a message set; wrong bytes say nothing.
pub fn says_message_set(message: &DescriptorProto) -> bool
    ensures { result ≡ says_message_set message.now }
{
    is_message_set(message).unwrap_or(false)
}

/// A declaration whose options may say that it is deprecated.
pub trait Deprecated {
    /// Whether they do, or their first fault.
    ghost deprecated: { Self → Result Bool WireFault };

    /// Whether the options say that it is deprecated.
    ///
    /// # Errors
    /// The first fault of the options' bytes, which options that were decoded do not have.
    fn is_deprecated(&self) -> Result<bool, WireFault>
        ensures { Reads (λ x. x) result (deprecated self.now) };
}

impl Deprecated for FileDescriptorProto {
    ghost deprecated = { λ file. flag_in 23 file.options };

    fn is_deprecated(&self) -> Result<bool, WireFault> {
        flag(23, &self.options)
    }
}

impl Deprecated for DescriptorProto {
    ghost deprecated = { λ message. flag_in 3 (out-DescriptorProto message).options };

    fn is_deprecated(&self) -> Result<bool, WireFault> {
        flag(3, &self.options)
    }
}

impl Deprecated for FieldDescriptorProto {
    ghost deprecated = { λ field. flag_in 3 field.options };

    fn is_deprecated(&self) -> Result<bool, WireFault> {
        flag(3, &self.options)
    }
}

impl Deprecated for EnumDescriptorProto {
    ghost deprecated = { λ enum. flag_in 3 enum.options };

    fn is_deprecated(&self) -> Result<bool, WireFault> {
        flag(3, &self.options)
    }
}

impl Deprecated for EnumValueDescriptorProto {
    ghost deprecated = { λ value. flag_in 1 value.options };

    fn is_deprecated(&self) -> Result<bool, WireFault> {
        flag(1, &self.options)
    }
}

impl Deprecated for ServiceDescriptorProto {
    ghost deprecated = { λ service. flag_in 33 service.options };

    fn is_deprecated(&self) -> Result<bool, WireFault> {
        flag(33, &self.options)
    }
}

impl Deprecated for MethodDescriptorProto {
    ghost deprecated = { λ method. flag_in 33 method.options };

    fn is_deprecated(&self) -> Result<bool, WireFault> {
        flag(33, &self.options)
    }
}
