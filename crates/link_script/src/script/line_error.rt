//! What stops a line from being read.

ghost use Rattle.std.specs.Prelude.{◌≡◌};
ghost use Rattle.link_script.specs.Script.Left.{error_in};
ghost use Rattle.link_script.specs.declared.script.line_error.LineError.TheVariants as stop;

use super::statement::{ScriptError, ScriptFault};
use std::alloc::AllocError;

/// Why a line gave no statement.
#[derive(Clone, Copy)]
pub(super) enum LineError {
    /// The line says what it may not.
    Fault(ScriptFault),
    /// Memory was refused.
    OutOfMemory,
}

impl LineError {
    /// The error of a script whose line with this number has this one.
    pub(super) fn in_line(self, number: u64) -> ScriptError
        ensures { result ≡ error_in number self }
    {
        match self {
            LineError::Fault(fault) => ScriptError::Fault(number, fault),
            LineError::OutOfMemory => ScriptError::OutOfMemory,
        }
    }
}

impl From<ScriptFault> for LineError {
    ghost from_gives = { λ fault error. error ≡ stop.Fault fault };

    fn from(fault: ScriptFault) -> LineError {
        LineError::Fault(fault)
    }
}

impl From<AllocError> for LineError {
    ghost from_gives = { λ _ error. error ≡ stop.OutOfMemory };

    fn from(_refused: AllocError) -> LineError {
        LineError::OutOfMemory
    }
}
