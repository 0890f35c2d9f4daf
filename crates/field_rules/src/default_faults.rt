//! The fault of a default value that is none of the type.

ghost use Rattle.std.specs.Prelude.{◌≡◌, IfOk};
ghost use Rattle.field_rules.specs.Defaults.{default_fault, kind_named};
ghost use Rattle.field_rules.specs.DefaultEnum.{default_enum_in};
ghost use Rattle.record_walk.specs.Faults.{named_files};

use crate::default_enum::DefaultEnum;
use plain_data::Text;
use pool_faults::DescriptorErrorKind;
use pool_types::KindIndex;
use proto_types::tag;
use record_walk::{Faults, Place};
use std::alloc::{AllocError, Global};

/// The fault of a text that writes no value of a kind.
pub(crate) fn default_fault(
    faults: &mut Faults,
    place: Place,
    kind: KindIndex,
    meant: DefaultEnum,
    text: &str,
) -> Result<DescriptorErrorKind, AllocError>
    ensures fault { IfOk result (λ fault. fault
        ≡ default_fault (named_files faults.old) place.entry.file place.entry.path.now kind
        (default_enum_in meant.entry) text.now) }
    ensures stays { faults.new ≡ faults.old }
{
    Ok(DescriptorErrorKind::InvalidFieldDefault {
        value: Text::from_str(faults.alloc, text)?,
        kind: kind_named(faults.alloc, kind, meant.full_name)?,
        found: faults.part_label(place, tag::field::DEFAULT_VALUE)?,
    })
}

/// The word for a kind: of an enum its full name.
fn kind_named(alloc: Global, kind: KindIndex, full_name: &str) -> Result<Text, AllocError>
    ensures { IfOk result (λ word. word ≡ kind_named kind full_name.now) }
{
    match kind {
        KindIndex::Enum(_) => Text::from_str(alloc, full_name),
        KindIndex::Message(_) | KindIndex::Group(_) => Text::from_str(alloc, "message type"),
        _ => Ok(Text::from_string(format!(in alloc; "{kind:?}")?)),
    }
}
