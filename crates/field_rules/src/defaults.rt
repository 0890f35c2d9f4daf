ghost use Rattle.std.specs.Prelude.{◌≡◌, IfOk, OnOk};
ghost use Rattle.field_rules.specs.Defaults.{default_faults, default_value};
ghost use Rattle.field_rules.specs.DefaultEnum.{default_enum_in};
ghost use Rattle.record_walk.specs.Faults.{Tells, named_files};

use crate::default_enum::DefaultEnum;
use crate::default_faults::default_fault;
use crate::enum_defaults::value_of;
use plain_data::Text;
use pool_types::{DefaultValue, KindIndex};
use record_walk::{Faults, Place};
use std::alloc::AllocError;

/// The default value of a field or an extension, if one is given, by the kind of its type
/// (descriptor.proto on `default_value`): of an enum the number of the first of its values that has
/// this name; of a message or a group none; of any other kind the value that `parse_simple_value`
/// reads. The meant enum is the one that the type names, and is read of no other kind.
///
/// Where a default is given, be it the empty text, and is no value of the type, there is none, and
/// `InvalidFieldDefault` is appended to `faults`, found at the path of the declaration and 7. It
/// tells the text and the type: an enum by its full name, a message or a group as `message type`.
///
/// # Errors
/// `AllocError` where memory was refused.
pub fn read_default(
    faults: &mut Faults,
    place: Place,
    kind: KindIndex,
    meant: DefaultEnum,
    given: &Option<Text>,
) -> Result<Option<DefaultValue>, AllocError>
    ensures value { IfOk result (λ value. value
        ≡ default_value kind (default_enum_in meant.entry) given.now) }
    ensures faults { OnOk result (Tells faults.old faults.new
        (default_faults (named_files faults.old) place.entry.file place.entry.path.now kind
        (default_enum_in meant.entry) given.now)) }
{
    let Some(text) = given else {
        return Ok(None);
    };
    let value = value_of(faults.alloc, kind, meant.values, text.as_str())?;
    if value.is_none() {
        let fault = default_fault(faults, place, kind, meant, text.as_str())?;
        faults.push(fault)?;
    }
    Ok(value)
}
