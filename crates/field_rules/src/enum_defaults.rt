//! What the text of a default value writes.

ghost use Rattle.std.specs.Prelude.{◌≡◌, IfOk, IsTrue};
ghost use Rattle.std.specs.Result.{result_ok};
ghost use Rattle.field_rules.specs.Simple.{is_simple, simple_value};
ghost use Rattle.field_rules.specs.Defaults.{value_named, value_of};

use crate::escape_faults::ValueFault;
use crate::simple::parse_simple_value;
use pool_types::{DefaultValue, KindIndex};
use proto_types::EnumValueDescriptorProto;
use std::alloc::{AllocError, Global};

/// The value that a text writes, by a kind and the values of the enum that it means; none where the
/// text writes none.
pub(crate) fn value_of(
    alloc: Global,
    kind: KindIndex,
    values: &[EnumValueDescriptorProto],
    text: &str,
) -> Result<Option<DefaultValue>, AllocError>
    ensures { IfOk result (λ value. value ≡ value_of kind values.now text.now) }
{
    match kind {
        KindIndex::Enum(_) => Ok(value_named(values, text).map(DefaultValue::EnumNumber)),
        KindIndex::Message(_) | KindIndex::Group(_) => Ok(None),
        _ => simple_value(alloc, kind, text),
    }
}

/// The number of the first value of an enum that has this name.
fn value_named(values: &[EnumValueDescriptorProto], name: &str) -> Option<i32>
    ensures { result ≡ value_named values.now name.now }
{
    Some(values.iter().find(|value| value.name() == name)?.number())
}

/// The value that a text writes, of a kind that is no message, group or enum.
fn simple_value(
    alloc: Global,
    kind: KindIndex,
    text: &str,
) -> Result<Option<DefaultValue>, AllocError>
    requires { IsTrue (is_simple kind) }
    ensures { IfOk result (λ value. value ≡ result_ok (simple_value kind text.now)) }
{
    match parse_simple_value(alloc, kind, text) {
        Ok(value) => Ok(Some(value)),
        Err(ValueFault::OutOfMemory) => Err(AllocError),
        Err(_) => Ok(None),
    }
}
