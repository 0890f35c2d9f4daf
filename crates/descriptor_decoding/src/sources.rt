ghost use Rattle.proto_types.specs.Source.{no_location, no_source};
ghost use Rattle.descriptor_decoding.specs.Sources.{location_merged, source_merged};

use crate::context::Context;
use crate::error::DecodeError;
use crate::merging::Message;
use crate::parts::{merge_int32s, merge_messages, merge_text, merge_texts};
use proto_types::{Location, SourceCodeInfo};
use std::alloc::Global;
use wire_format::Field;

impl Message for Location {
    ghost nothing = { no_location };

    ghost merged = { location_merged };

    fn empty(alloc: Global) -> Location {
        Location::empty(alloc)
    }

    #[tactic(auto, unfolding(crate::specs::Sources::location_merged))]
    fn merge_field(
        &mut self,
        context: Context,
        field: &Field<'_>,
        _after: &[u8],
    ) -> Result<(), DecodeError> {
        let value = &field.value;
        match field.number {
            1 => merge_int32s(&mut self.path, value),
            2 => merge_int32s(&mut self.span, value),
            3 => merge_text(&mut self.leading_comments, context, value),
            4 => merge_text(&mut self.trailing_comments, context, value),
            6 => merge_texts(&mut self.leading_detached_comments, context, value),
            _ => Ok(()),
        }
    }
}

impl Message for SourceCodeInfo {
    ghost nothing = { no_source };

    ghost merged = { source_merged };

    fn empty(alloc: Global) -> SourceCodeInfo {
        SourceCodeInfo::empty(alloc)
    }

    #[tactic(auto, unfolding(crate::specs::Sources::source_merged))]
    fn merge_field(
        &mut self,
        context: Context,
        field: &Field<'_>,
        after: &[u8],
    ) -> Result<(), DecodeError> {
        let value = &field.value;
        match field.number {
            1 => merge_messages(&mut self.location, context, field, after),
            _ => Ok(()),
        }
    }
}
