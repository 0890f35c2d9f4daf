ghost use Rattle.std.specs.Prelude.{◌≡◌, IfOk};
ghost use Rattle.proto_types.specs.Readers.{flag_of};

use plain_data::{Duplicate, Items};
use std::alloc::{AllocError, Global};
use std::fmt;

/// Options as they were encoded, and what of them is read.
#[derive(PartialEq, Drop)]
pub struct Options<T> {
    pub encoded: Items<u8>,
    pub value: T,
}

/// What is read of a field's options.
#[derive(Clone, Copy, PartialEq, Debug, Drop)]
pub struct FieldOptions {
    /// Whether repeated numbers are packed.
    pub packed: Option<bool>,
}

/// What is read of an enum's options.
#[derive(Clone, Copy, PartialEq, Debug, Drop)]
pub struct EnumOptions {
    /// Whether several values may have one number.
    pub allow_alias: Option<bool>,
}

/// Options of which nothing is read.
#[derive(Clone, Copy, PartialEq, Debug, Drop)]
pub struct Unread {}

impl EnumOptions {
    /// Whether several values may have one number; where it is missing, false.
    pub fn allow_alias(&self) -> bool
        ensures { result ≡ flag_of self.now.allow_alias }
    {
        self.allow_alias.unwrap_or(false)
    }
}

impl<T: Copy> Options<T> {
    /// Equal options.
    ///
    /// # Errors
    /// `AllocError` where memory was refused.
    pub fn clone(&self, alloc: Global) -> Result<Options<T>, AllocError>
        ensures { IfOk result (λ copy. copy ≡ self.now) }
    {
        Ok(Options {
            encoded: Items::from_slice(alloc, self.encoded.as_slice())?,
            value: self.value,
        })
    }
}

impl<T: Copy> Duplicate for Options<T> {
    fn duplicate(&self, alloc: Global) -> Result<Options<T>, AllocError> {
        self.clone(alloc)
    }
}

impl<T: fmt::Debug> fmt::Debug for Options<T> {
    ghost debug_output = { λ options. T.debug_output options.value };

    fn fmt<W: fmt::Write>(&self, f: &mut fmt::Formatter<W>) -> fmt::Result {
        self.value.fmt(f)
    }
}
