//! A law of the format, for all fields.

ghost use Rattle.std.specs.Prelude.{◌≡◌, ℕ, List};
ghost use Rattle.std.specs.List.{AllByRecursion};
ghost use Rattle.wire_format.specs.Fields.{fields};
ghost use Rattle.wire_format.specs.Encoding.{Numbered, Fits, encoding, placed};

/// What fields are encoded as is read as these fields, at whatever offset it ends.
pub fn encoded_is_read()
    ensures { (levels ends : ℕ) (fs : List Numbered) → AllByRecursion Fits fs →
        fields levels ends (encoding fs) ≡ placed ends fs }
{}
