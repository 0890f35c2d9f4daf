ghost use Rattle.std.specs.Prelude.{◌≡◌, IfOk};

use plain_data::{Duplicate, Items, Text};
use std::alloc::{AllocError, Global};

/// The default value of a field.
#[derive(PartialEq, Debug, Drop)]
pub enum DefaultValue {
    I32(i32),
    I64(i64),
    U32(u32),
    U64(u64),
    Bool(bool),
    String(Text),
    Bytes(Items<u8>),
    /// The number of an enum's value.
    EnumNumber(i32),
    /// The text of a number with a fraction, as it is written.
    FloatText(Text),
}

impl DefaultValue {
    /// An equal value.
    ///
    /// # Errors
    /// `AllocError` where memory was refused.
    pub fn clone(&self, alloc: Global) -> Result<DefaultValue, AllocError>
        ensures { IfOk result (λ copy. copy ≡ self.now) }
    {
        match self {
            DefaultValue::I32(number) => Ok(DefaultValue::I32(*number)),
            DefaultValue::I64(number) => Ok(DefaultValue::I64(*number)),
            DefaultValue::U32(number) => Ok(DefaultValue::U32(*number)),
            DefaultValue::U64(number) => Ok(DefaultValue::U64(*number)),
            DefaultValue::Bool(flag) => Ok(DefaultValue::Bool(*flag)),
            DefaultValue::String(text) => Ok(DefaultValue::String(text.clone(alloc)?)),
            DefaultValue::Bytes(bytes) => Ok(DefaultValue::Bytes(Items::from_slice(
                alloc,
                bytes.as_slice(),
            )?)),
            DefaultValue::EnumNumber(number) => Ok(DefaultValue::EnumNumber(*number)),
            DefaultValue::FloatText(text) => Ok(DefaultValue::FloatText(text.clone(alloc)?)),
        }
    }
}

impl Duplicate for DefaultValue {
    fn duplicate(&self, alloc: Global) -> Result<DefaultValue, AllocError> {
        self.clone(alloc)
    }
}
