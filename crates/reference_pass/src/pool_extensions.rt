ghost use Rattle.std.specs.Prelude.{◌≡◌};
ghost use Rattle.std.specs.List.{find};
ghost use Rattle.std.specs.Option.{option_copied};
ghost use Rattle.pool_types.specs.Extension.{NumbersLead, has_number};

use pool_types::{ExtensionDescriptorInner, MessageDescriptorInner};

/// The extensions of a pool, whose messages lead from numbers to them.
#[derive(Clone, Copy)]
pub struct PoolExtensions<'a> {
    pub messages: &'a [MessageDescriptorInner],
    pub extensions: &'a [ExtensionDescriptorInner],
    ghost numbers: { NumbersLead extensions.now messages.now },
}

impl<'a> PoolExtensions<'a> {
    /// The first extension of the message with an index that has a number.
    pub(crate) fn extension(self, message: u32, number: u32) -> Option<&'a ExtensionDescriptorInner>
        ensures { option_copied result
            ≡ find (has_number message number) self.entry.extensions.now }
    {
        let message = self.messages.get(message as usize)?;
        let extension = message.extension_numbers.get(number)?;
        self.extensions.get(extension as usize)
    }
}
