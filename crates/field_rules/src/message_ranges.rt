ghost use Rattle.std.specs.Prelude.{IfOk};

use crate::bounds::{extension_bounds, reserved_bounds};
use crate::number_ranges::NumberRanges;
use proto_types::DescriptorProto;
use std::alloc::{AllocError, Global};

/// The ranges of a message, among which those that hold a number are found.
#[derive(Drop)]
pub struct MessageRanges {
    pub reserved: NumberRanges,
    pub extension: NumberRanges,
}

impl MessageRanges {
    ghost use Rattle.field_rules.specs.Bounds.{AreRangesOf};

    /// The ranges of a message. Where it has none, no memory is taken.
    ///
    /// # Errors
    /// `AllocError` where memory was refused.
    // Inlined, so that the ranges are made where they stay.
    #[inline(always)]
    pub fn new(alloc: Global, message: &DescriptorProto) -> Result<MessageRanges, AllocError>
        ensures { IfOk result (λ ranges. AreRangesOf ranges message.now) }
    {
        let reserved = reserved_bounds(alloc, message.reserved_range.as_slice())?;
        let reserved = NumberRanges::new(alloc, reserved)?;
        let extension = extension_bounds(alloc, message.extension_range.as_slice())?;
        let extension = NumberRanges::new(alloc, extension)?;
        Ok(MessageRanges {
            reserved,
            extension,
        })
    }
}
