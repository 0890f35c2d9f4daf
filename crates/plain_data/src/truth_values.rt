//! Truth values, as they are written.

ghost use Rattle.std.specs.Prelude.{◌≡◌};
ghost use Rattle.plain_data.specs.TruthValues.{truth_value};

/// The truth value that a text writes, `true` or `false`. None where it is neither.
pub fn parse_bool(text: &str) -> Option<bool>
    ensures { result ≡ truth_value text.now }
{
    match text {
        "true" => Some(true),
        "false" => Some(false),
        _ => None,
    }
}
