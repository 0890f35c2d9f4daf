ghost use Rattle.std.specs.Prelude.{◌≡◌, OnOk};
ghost use Rattle.record_walk.specs.Faults.{Tells, named_files};
ghost use Rattle.name_pass.specs.Syntax.{syntax_faults};

use plain_data::Text;
use pool_faults::DescriptorErrorKind;
use pool_types::known_syntax;
use proto_types::{FileDescriptorProto, or_empty, tag};
use record_walk::Faults;
use std::alloc::AllocError;

/// Appends to `faults` that of a file whose `syntax` is unknown (descriptor.proto). Its label is
/// that of the file with the index, from 0 in the order of linking.
///
/// # Errors
/// `AllocError` where memory was refused.
pub fn check_syntax(
    faults: &mut Faults,
    index: u32,
    file: &FileDescriptorProto,
) -> Result<(), AllocError>
    ensures told { OnOk result (Tells faults.old faults.new
        (syntax_faults (named_files faults.old) index file.now)) }
    ensures labels { faults.new.labels ≡ faults.old.labels }
{
    if known_syntax(file.syntax.as_ref().map(|text| text.as_str())).is_some() {
        return Ok(());
    }
    let syntax = Text::from_str(faults.alloc, or_empty(&file.syntax))?;
    let found = faults.label(index, &[tag::file::SYNTAX])?;
    faults.push(DescriptorErrorKind::UnknownSyntax { syntax, found })
}
