//! What is wrong with the text of a default value.

ghost use Rattle.std.specs.Prelude.{◌≡◌};
ghost use Rattle.field_rules.specs.Simple.{value_fault};
ghost use Rattle.field_rules.specs.declared.escape_faults.EscapeFault.TheVariants as escape;
ghost use Rattle.field_rules.specs.declared.escape_faults.ValueFault.TheVariants as fault;

use std::alloc::{AllocError, AllocFailed};

/// What is wrong with an escape in a text.
#[derive(Clone, Copy, PartialEq, Debug)]
pub enum EscapeFault {
    /// Nothing stands behind a backslash.
    MissingEscape,
    /// Fewer than two bytes stand behind `\x` or `\X`.
    HexTooShort,
    /// The two bytes behind `\x` or `\X` are not both hexadecimal digits.
    InvalidHex,
    /// An octal number of three digits is above 255.
    OctalTooLarge,
    /// A byte that begins no escape stands behind a backslash.
    InvalidEscape,
    /// Memory was refused.
    OutOfMemory,
}

/// Why a text is no value of a type.
#[derive(Clone, Copy, PartialEq, Debug)]
pub enum ValueFault {
    /// The text is no whole number of the type.
    Number,
    /// The text is neither `true` nor `false`.
    Bool,
    /// The text has an escape that is refused. It never holds `EscapeFault::OutOfMemory`.
    Escape(EscapeFault),
    /// Memory was refused.
    OutOfMemory,
}

impl From<AllocFailed<u8>> for EscapeFault {
    ghost from_gives = { λ _ error. error ≡ escape.OutOfMemory };

    fn from(_refused: AllocFailed<u8>) -> EscapeFault {
        EscapeFault::OutOfMemory
    }
}

impl From<AllocError> for ValueFault {
    ghost from_gives = { λ _ error. error ≡ fault.OutOfMemory };

    fn from(_refused: AllocError) -> ValueFault {
        ValueFault::OutOfMemory
    }
}

impl From<EscapeFault> for ValueFault {
    ghost from_gives = { λ refused error. error ≡ value_fault refused };

    fn from(refused: EscapeFault) -> ValueFault {
        match refused {
            EscapeFault::OutOfMemory => ValueFault::OutOfMemory,
            _ => ValueFault::Escape(refused),
        }
    }
}
