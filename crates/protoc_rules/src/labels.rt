//! What a label is.

ghost use Rattle.std.specs.Prelude.{◌≡◌};
ghost use Rattle.protoc_rules.specs.Labels as spec;

use proto_types::FieldLabel;

/// Whether a label is required.
pub(crate) fn is_required(label: FieldLabel) -> bool
    ensures { result ≡ spec.is_required label }
{
    matches!(label, FieldLabel::Required)
}

/// Whether a label is repeated.
pub(crate) fn is_repeated(label: FieldLabel) -> bool
    ensures { result ≡ spec.is_repeated label }
{
    matches!(label, FieldLabel::Repeated)
}

/// Whether a label is optional.
pub(crate) fn is_optional(label: FieldLabel) -> bool
    ensures { result ≡ spec.is_optional label }
{
    matches!(label, FieldLabel::Optional)
}
