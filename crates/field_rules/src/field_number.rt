ghost use Rattle.std.specs.Prelude.{◌≡◌};
ghost use Rattle.field_rules.specs.FieldNumber.{is_valid_number};

/// Whether a field may have the number: 1 to 536,870,911, but for 19,000 to 19,999, which the
/// protobuf implementation keeps for itself.
pub fn is_valid_number(number: i32) -> bool
    ensures { result ≡ is_valid_number number }
{
    (1..=536_870_911).contains(&number) && !(19_000..=19_999).contains(&number)
}
