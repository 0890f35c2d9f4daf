ghost use Rattle.std.specs.Prelude.{◌≡◌, suc, MatchResult};
ghost use Rattle.wire_format.specs.declared.fault.WireFaultKind.TheVariants.{TooDeep};
ghost use Rattle.wire_format.specs.Faults.{fault};

use std::alloc::Global;
use wire_format::{WireFault, WireFaultKind};

/// Where a message is read: what memory is taken from, and how many levels of messages and groups
/// may lie in it.
#[derive(Clone, Copy)]
pub struct Context {
    pub alloc: Global,
    pub levels: u32,
}

impl Context {
    /// Where a message inside the message is read, of these bytes, which end at offset `ends` of
    /// the input.
    ///
    /// # Errors
    /// `TooDeep` where no level is left.
    pub fn inner(self, ends: usize, bytes: &[u8]) -> Result<Context, WireFault>
        ensures { MatchResult result (λ inner. self.levels ≡ suc inner.levels)
            (λ f. (self.levels ≡ 0) × (f ≡ fault TooDeep ends bytes.now)) }
    {
        if self.levels == 0 {
            return Err(WireFault::new(WireFaultKind::TooDeep, ends, bytes));
        }
        Ok(Context {
            alloc: self.alloc,
            levels: self.levels - 1,
        })
    }
}
