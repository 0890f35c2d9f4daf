ghost use Rattle.std.specs.Prelude.{◌≡◌, ◌++◌, length, IfOk, OnOk, string_bytes};
ghost use Rattle.proto_types.specs.Names.{join};

use plain_data::Text;
use std::alloc::{AllocError, Global};

/// The full name of a name inside a scope: behind the scope and a dot, or alone where the scope is
/// empty (the protobuf language rules on names).
///
/// # Errors
/// `AllocError` where memory was refused.
pub fn join(alloc: Global, scope: &str, name: &str) -> Result<String, AllocError>
    ensures { IfOk result (λ full. string_bytes full ≡ join scope.now name.now) }
{
    let mut full = String::with_capacity(alloc, joined_len(scope, name))?;
    write_joined(&mut full, scope, name)?;
    Ok(full)
}

/// The full name of a name inside a scope, as a text, which takes no memory where it is short.
///
/// # Errors
/// `AllocError` where memory was refused.
#[inline(always)]
pub fn join_text(alloc: Global, scope: &str, name: &str) -> Result<Text, AllocError>
    ensures { IfOk result (λ full. full ≡ join scope.now name.now) }
{
    if scope.is_empty() {
        return Text::from_str(alloc, name);
    }
    Text::concatenated(alloc, scope, ".", name)
}

/// Makes a text the full name of a name inside a scope, in the room that it has.
///
/// # Errors
/// `AllocError` where memory was refused. The text may be any then.
pub fn write_joined(full_name: &mut String, scope: &str, name: &str) -> Result<(), AllocError>
    ensures { OnOk result (string_bytes full_name.new ≡ join scope.now name.now) }
{
    full_name.clear();
    push_joined(full_name, scope, name)
}

/// Puts the full name of a name inside a scope behind a text.
///
/// # Errors
/// `AllocError` where memory was refused. The text may be any then.
pub fn push_joined(text: &mut String, scope: &str, name: &str) -> Result<(), AllocError>
    ensures { OnOk result
        (string_bytes text.new ≡ string_bytes text.old ++ join scope.now name.now) }
{
    if !scope.is_empty() {
        text.push_str(scope)?;
        text.push('.')?;
    }
    text.push_str(name)
}

/// How many bytes the full name of a name inside a scope has.
pub fn joined_len(scope: &str, name: &str) -> usize
    ensures { result ≡ length (join scope.now name.now) }
{
    if scope.is_empty() {
        return name.len();
    }
    scope.len() + 1 + name.len()
}
