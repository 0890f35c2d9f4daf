//! The rest of a line, as one text.

ghost use Rattle.std.specs.Prelude.{◌≡◌};
ghost use Rattle.std.specs.Option.{option_map};
ghost use Rattle.link_script.specs.Script.Arguments as spec;
ghost use Rattle.link_script.specs.Script.Answers.{IsAnswer};

use super::line_error::LineError;
use super::statement::ScriptFault;
use plain_data::Text;
use std::alloc::Global;

/// A line behind its leading spaces.
pub(super) fn behind_spaces(line: &str) -> &str
    ensures { result.now ≡ spec.behind_spaces line.now }
{
    let mut rest = line;
    while let Some(more) = rest.strip_prefix(' ') {
        rest = more;
    }
    rest
}

/// What stands behind the first space of a line, if it has one.
fn behind_first_space(line: &str) -> Option<&str>
    ensures { option_map (λ rest. rest.now) result ≡ spec.behind_first_space line.now }
{
    let (_, rest) = line.split_once(' ')?;
    Some(rest)
}

/// The rest of a line behind its first word and one space; two quotes alone are the empty text.
pub(super) fn rest(alloc: Global, line: &str) -> Result<Text, LineError>
    ensures { IsAnswer (spec.rest_in line.now) result }
{
    match behind_first_space(behind_spaces(line)) {
        None | Some("") => Err(LineError::Fault(ScriptFault::WrongCount)),
        Some("''") => Ok(Text::new(alloc)),
        Some(rest) => Ok(Text::from_str(alloc, rest)?),
    }
}
