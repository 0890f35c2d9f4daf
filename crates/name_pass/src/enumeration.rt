ghost use Rattle.std.specs.Prelude.{◌≡◌, OnOk};
ghost use Rattle.record_walk.specs.Faults.{Tells, named_files};
ghost use Rattle.name_pass.specs.Enumeration.{enum_faults};

use pool_faults::DescriptorErrorKind;
use pool_types::{Syntax, syntax_at};
use proto_types::{EnumDescriptorProto, tag};
use record_walk::Faults;
use std::alloc::AllocError;

/// Appends to `faults` that of an enum without values, or that of one whose first value isn't 0 in
/// a file of proto3 (the protobuf language rules on enums). The enum stands at the path in the file
/// with the index, from 0 in the order of linking.
///
/// # Errors
/// `AllocError` where memory was refused.
pub fn check_enum_values(
    faults: &mut Faults,
    file: u32,
    path: &[i32],
    enumeration: &EnumDescriptorProto,
) -> Result<(), AllocError>
    ensures told { OnOk result (Tells faults.old faults.new
        (enum_faults (named_files faults.old) file path.now enumeration.now)) }
    ensures labels { faults.new.labels ≡ faults.old.labels }
{
    let Some(first) = enumeration.value.as_slice().first() else {
        let found = faults.label(file, path)?;
        return faults.push(DescriptorErrorKind::EmptyEnum { found });
    };
    if syntax_at(faults.files(), file) == Syntax::Proto3 && first.number() != 0 {
        let mut number_path = Vec::from_slice(faults.alloc, path)?;
        number_path.push(tag::enum_::VALUE)?;
        number_path.push(0)?;
        number_path.push(tag::enum_value::NUMBER)?;
        let found = faults.label(file, &number_path)?;
        faults.push(DescriptorErrorKind::InvalidProto3EnumDefault { found })?;
    }
    Ok(())
}
