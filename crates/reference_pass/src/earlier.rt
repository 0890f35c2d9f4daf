//! The extensions that come before the one that is read.

ghost use Rattle.std.specs.Prelude.{◌≡◌};
ghost use Rattle.std.specs.List.{find};
ghost use Rattle.std.specs.Option.{option_copied};
ghost use Rattle.pool_types.specs.Extension.{has_number};
ghost use Rattle.reference_pass.specs.Earlier.{earlier_in};

use crate::items::NewItems;
use crate::pool_extensions::PoolExtensions;
use pool_types::ExtensionDescriptorInner;

/// The extensions of a pool, and the new ones so far.
#[derive(Clone, Copy)]
pub struct EarlierExtensions<'a> {
    pub pool: PoolExtensions<'a>,
    pub new: &'a NewItems,
}

impl<'a> EarlierExtensions<'a> {
    /// The first extension of the message with an index that has a number.
    pub(crate) fn extension(self, message: u32, number: u32) -> Option<&'a ExtensionDescriptorInner>
        ensures { option_copied result ≡ find (has_number message number) (earlier_in self.entry) }
    {
        match self.pool.extension(message, number) {
            Some(first) => Some(first),
            None => self.new.extension(message, number),
        }
    }
}
