//! Full names and the scopes that they begin with.

ghost use Rattle.std.specs.Prelude.{◌≡◌};
ghost use Rattle.std.specs.List.{after_first, after_last, before_last};
ghost use Rattle.std.specs.Option.{option_copied};
ghost use Rattle.proto_types.specs.Names.{first_part, is_dot};
ghost use Rattle.verdict_texts.specs.Scopes as spec;

use name_resolution::CandidateParents;

/// What stands before the first dot of a name, or the whole name; and what stands behind it.
pub(crate) fn at_first_dot(name: &str) -> (&str, &str)
    ensures first { result.0.now ≡ first_part name.now }
    ensures rest { result.1.now ≡ after_first is_dot name.now }
{
    match name.split_once('.') {
        Some(parts) => parts,
        None => (name, ""),
    }
}

/// What stands before the last dot of a name; and what stands behind it, or the whole name.
pub(crate) fn at_last_dot(name: &str) -> (&str, &str)
    ensures front { result.0.now ≡ before_last is_dot name.now }
    ensures last { result.1.now ≡ after_last is_dot name.now }
{
    match name.rsplit_once('.') {
        Some(parts) => parts,
        None => ("", name),
    }
}

/// What a name has behind a scope and a dot, if it begins with them.
pub(crate) fn behind<'a>(scope: &[u8], name: &'a [u8]) -> Option<&'a [u8]>
    ensures { option_copied result ≡ spec.behind scope.now name.now }
{
    match name.strip_prefix(scope)? {
        [b'.', rest @ ..] => Some(rest),
        _ => None,
    }
}

/// Whether a full name is a scope, a dot and a name.
fn is_in(full_name: &str, name: &str, scope: &str) -> bool
    ensures { result ≡ spec.is_in full_name.now name.now scope.now }
{
    match behind(scope.as_bytes(), full_name.as_bytes()) {
        Some(rest) => rest == name.as_bytes(),
        None => false,
    }
}

/// The scope around a full name that stands before a name and its dot, if there is one.
pub(crate) fn scope_of<'a>(full_name: &'a str, name: &str) -> Option<&'a str>
    ensures { option_copied result ≡ spec.scope_of full_name.now name.now }
{
    CandidateParents::new(full_name).find(|scope| is_in(full_name, name, scope))
}
