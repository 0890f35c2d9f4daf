ghost use Rattle.std.specs.Prelude.{◌≡◌};
ghost use Rattle.wire_format.specs.Tokens.{value_seen, Len};
ghost use Rattle.descriptor_decoding.specs.Merging.{within, Leaves};
ghost use Rattle.descriptor_decoding.specs.Options.{given, options_merged, no_field_options};
ghost use Rattle.descriptor_decoding.specs.Options.{no_enum_options, unread, field_options_merged};
ghost use Rattle.descriptor_decoding.specs.Options.{enum_options_merged, unread_merged};

use crate::context::Context;
use crate::error::DecodeError;
use crate::merging::Message;
use crate::parts::{merge_bool, merge_inner};
use plain_data::Items;
use proto_types::{EnumOptions, FieldOptions, Options, Unread};
use std::alloc::Global;
use wire_format::{Field, Value};

/// The options that are there, or empty ones.
fn taken<T: Message>(part: &mut Option<Options<T>>, alloc: Global) -> Options<T>
    ensures { result ≡ given T.nothing part.old }
{
    match part.take() {
        Some(options) => options,
        None => Options {
            encoded: Items::new(alloc),
            value: T::empty(alloc),
        },
    }
}

/// Reads options that may be there already.
#[inline(always)]
#[tactic(auto, unfolding(crate::specs::Options::options_merged))]
pub fn merge_options<T: Message>(
    part: &mut Option<Options<T>>,
    context: Context,
    value: &Value<'_>,
) -> Result<(), DecodeError>
    ensures { Leaves result part.new
        (options_merged T.nothing (within context.levels T.merged)
        (value_seen value.now) part.old) }
{
    match value {
        Value::Len(bytes, ends) => extend_options(part, context, *ends, bytes),
        _ => Ok(()),
    }
}

/// Reads options of these bytes behind those that may be there.
#[tactic(auto, unfolding(crate::specs::Options::options_merged))]
fn extend_options<T: Message>(
    part: &mut Option<Options<T>>,
    context: Context,
    ends: usize,
    bytes: &[u8],
) -> Result<(), DecodeError>
    ensures { Leaves result part.new
        (options_merged T.nothing (within context.levels T.merged)
        (Len bytes.now ends) part.old) }
{
    let mut options = taken(part, context.alloc);
    options.encoded.extend_from_slice(bytes)?;
    merge_inner(&mut options.value, context, ends, bytes)?;
    *part = Some(options);
    Ok(())
}

impl Message for FieldOptions {
    ghost nothing = { no_field_options };

    ghost merged = { field_options_merged };

    fn empty(_alloc: Global) -> FieldOptions {
        FieldOptions { packed: None }
    }

    #[tactic(auto, unfolding(crate::specs::Options::field_options_merged))]
    fn merge_field(
        &mut self,
        _context: Context,
        field: &Field<'_>,
        _after: &[u8],
    ) -> Result<(), DecodeError> {
        if field.number == 2 {
            merge_bool(&mut self.packed, &field.value);
        }
        Ok(())
    }
}

impl Message for EnumOptions {
    ghost nothing = { no_enum_options };

    ghost merged = { enum_options_merged };

    fn empty(_alloc: Global) -> EnumOptions {
        EnumOptions { allow_alias: None }
    }

    #[tactic(auto, unfolding(crate::specs::Options::enum_options_merged))]
    fn merge_field(
        &mut self,
        _context: Context,
        field: &Field<'_>,
        _after: &[u8],
    ) -> Result<(), DecodeError> {
        if field.number == 2 {
            merge_bool(&mut self.allow_alias, &field.value);
        }
        Ok(())
    }
}

impl Message for Unread {
    ghost nothing = { unread };

    ghost merged = { unread_merged };

    fn empty(_alloc: Global) -> Unread {
        Unread {}
    }

    #[tactic(auto, unfolding(crate::specs::Options::unread_merged))]
    fn merge_field(
        &mut self,
        _context: Context,
        _field: &Field<'_>,
        _after: &[u8],
    ) -> Result<(), DecodeError> {
        Ok(())
    }
}
